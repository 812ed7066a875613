// One step over an image, from a place in its contents: what is found there, where it lies, and the place after it.
ghost use Rattle.std.specs.Prelude.{◌≤◌, length};
ghost use Rattle.image_walker.specs.Steps.{StepAt, PartAt};
ghost use Rattle.image_walker.specs.Finding.{FindsFrom};

use inputs::Shape;
use maps::Map;
use refusals::Refusal;

// A present column: its number, where its body starts in the image, and how many bytes that has.
#[derive(Clone, Copy, Debug, PartialEq, Eq)]
pub struct Found {
    pub column: usize,
    pub start: usize,
    pub length: usize,
}

// What was found, a column or that none is left, or why the step is refused; and the place where the next step begins: the column's number plus one, k + 2 at
// the end, and the same place on a refusal.
#[derive(Clone, Copy, Debug, PartialEq, Eq)]
pub struct Step {
    pub found: Result<Option<Found>, Refusal>,
    pub next: usize,
}

// The first present column at or after a place, of so many columns with so many bytes each. The bodies before it are counted on the way.
fn find_from(map: Map, columns: usize, column: usize, place: usize) -> Option<Found>
    requires { (columns ≤ 129) × (column ≤ 516096) }
    ensures { FindsFrom map.places columns column place result }
{
    let mut start = 8 + 8 * columns;
    // t is the column's number, which the map is asked for and which is handed out: no iterator is plainer.
    for t in 0..columns {
        if map.is_present(t) {
            if place <= t {
                return Some(Found {
                    column: t,
                    start,
                    length: column,
                });
            }
            start += column;
        }
    }
    None
}

// One step from a place in the contents of an image.
pub fn step_at(image: &[u8], place: usize) -> Step
    ensures { StepAt image.now place result }
{
    match image::contents(image) {
        Ok(contents) => {
            let Shape { m, k, b } = contents.shape;
            if k + 2 < place {
                return Step {
                    found: Err(Refusal::Malformed),
                    next: place,
                };
            }
            match find_from(contents.map, k + 2, (m - 1) * b, place) {
                Some(found) => Step {
                    found: Ok(Some(found)),
                    next: found.column + 1,
                },
                None => Step {
                    found: Ok(None),
                    next: k + 2,
                },
            }
        }
        Err(r) => Step {
            found: Err(r),
            next: place,
        },
    }
}

// The part of an image where a step found a column. It is empty, and at the image's start, where none was found, or where the image has no such part.
pub fn part_at<'a>(image: &'a [u8], found: Result<Option<Found>, Refusal>) -> &'a [u8]
    ensures { PartAt image.entry found result }
{
    match found {
        Ok(Some(found)) => {
            if image.len() < found.start || image.len() - found.start < found.length {
                return &image[0..0];
            }
            &image[found.start..found.start + found.length]
        }
        _ => &image[0..0],
    }
}
