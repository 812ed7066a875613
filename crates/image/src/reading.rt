// Reading an image: what it says, and its columns into a stripe.
ghost use Rattle.std.specs.Prelude.{◌+◌, ◌*◌, ◌≤◌, ◌<◌, length};
ghost use Rattle.cells.specs.Runs.{Put};
ghost use Rattle.image.specs.Reads.{ContentsOf, ReadInto};
ghost use Rattle.image.specs.Entries.{Bodies, copied_byte, CopiedBelow};

use crate::answers::Contents;
use crate::numbers::{four, two};
use crate::table::Table;
use inputs::{Shape, judge};
use maps::Map;
use refusals::Refusal;

// The shape of an image and the map of its columns. Every byte but the bodies' is looked at, and so is the length.
pub fn contents(image: &[u8]) -> Result<Contents, Refusal>
    ensures { ContentsOf image.now result }
{
    if image.len() < 8 || two(image, 6) != 0 {
        return Err(Refusal::Malformed);
    }
    let m = two(image, 0);
    let k = two(image, 2);
    let b = two(image, 4);
    let shape = Shape { m, k, b };
    let column = judge(shape)?;
    let columns = k + 2;
    if image.len() < 8 + 8 * columns {
        return Err(Refusal::Malformed);
    }
    let table = Table::of(image, columns, column)?;
    if table.next != image.len() {
        return Err(Refusal::Malformed);
    }
    Ok(Contents {
        shape,
        map: Map::of_places(table.places),
    })
}

// Copies the body of column t, if it is present, to its place in the stripe.
fn copy_body(image: &[u8], stripe: &mut [u8], map: Map, t: usize, column: usize)
    requires { Bodies image.now map.places column (t + 1) × (t * column + column ≤ length stripe.old) }
    ensures { Put stripe.old stripe.new (t * column) column (copied_byte image.now map.places column stripe.old t) }
{
    if map.is_present(t) {
        let at = t * column;
        let from = four(image, 8 + 8 * t + 4);
        cells::copy_into(&mut stripe[at..at + column], &image[from..from + column]);
    }
}

// Copies the body of each present column.
fn copy_bodies(image: &[u8], stripe: &mut [u8], map: Map, columns: usize, column: usize)
    requires { Bodies image.now map.places column columns × (columns * column ≤ length stripe.old) }
    ensures { CopiedBelow image.now map.places column columns stripe.old stripe.new }
{
    // t is the column's number, by which the map, the entry and the stripe are read: no iterator is plainer.
    for t in 0..columns {
        copy_body(image, stripe, map, t, column);
    }
}

// Reads an image into a stripe: present columns get their bodies' bytes, and absent columns keep theirs.
pub fn read(image: &[u8], stripe: &mut [u8]) -> Result<Contents, Refusal>
    ensures { ReadInto image.now stripe.old stripe.new result }
{
    let found = contents(image)?;
    let Shape { m, k, b } = found.shape;
    let columns = k + 2;
    let column = (m - 1) * b;
    if stripe.len() != columns * column {
        return Err(Refusal::StripeLength);
    }
    copy_bodies(image, stripe, found.map, columns, column);
    Ok(found)
}
