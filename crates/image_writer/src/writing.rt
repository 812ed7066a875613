// Writing an image of a stripe's present columns.
ghost use Rattle.image_writer.specs.Writes.{Writes};
ghost use Rattle.image_writer.specs.Pieces.{JudgesMarked};

use crate::pieces::{put_bodies, put_entries, put_numbers};
use inputs::{Shape, judge_map, judge_stripe};
use maps::Map;
use refusals::Refusal;

// Judges three numbers, the length of a stripe, that the map is true, and that no place past the columns is present. It gives the bytes of a column.
fn judge_marked(shape: Shape, map: Map, length: usize) -> Result<usize, Refusal>
    ensures { JudgesMarked shape.m shape.k shape.b map length result }
{
    let column = judge_stripe(shape, length)?;
    judge_map(shape.k, map)?;
    Ok(column)
}

// Writes the image of a stripe's present columns to the start of a lent buffer, and gives its length. What stands past the image stays.
pub fn write(shape: Shape, map: Map, stripe: &[u8], image: &mut [u8]) -> Result<usize, Refusal>
    ensures { Writes shape.m shape.k shape.b map stripe.now image.old image.new result }
{
    let Shape { m, k, b } = shape;
    let column = judge_marked(shape, map, stripe.len())?;
    let columns = k + 2;
    let bodies = 8 + 8 * columns;
    if image.len() < bodies + map.present * column {
        return Err(Refusal::ShortBuffer);
    }
    let entries_at = put_numbers(image, 0, m, k, b, 0);
    let bodies_at = put_entries(image, entries_at, map, columns, column, bodies);
    Ok(put_bodies(image, bodies_at, map, stripe, columns, column))
}
