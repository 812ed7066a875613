// Change.
ghost use Rattle.evenodd.specs.Changes.{Changes};

use inputs::{Shape, judge_stripe};
use lines::Grid;
use refusals::Refusal;

// Changes one cell of a data column to the bytes that it is given, and with it the parity cells that depend on it. It reads no others, and judges no equation:
// a stripe that was valid stays valid, and one that was not is broken as it was.
pub fn change(
    shape: Shape,
    stripe: &mut [u8],
    column: usize,
    row: usize,
    cell: &[u8],
) -> Result<(), Refusal>
    ensures { Changes shape.m shape.k shape.b column row cell.now stripe.old stripe.new result }
{
    let Shape { m, k, b } = shape;
    let length = judge_stripe(shape, stripe.len())?;
    if k <= column {
        return Err(Refusal::NoSuchColumn);
    }
    if m - 1 <= row {
        return Err(Refusal::NoSuchRow);
    }
    if cell.len() != b {
        return Err(Refusal::CellLength);
    }
    let g = Grid {
        m,
        k,
        b,
        column: length,
    };
    changing::change_cell(stripe, g, column, row, cell);
    Ok(())
}
