// Changes. The three lists stand side by side as C lends them.
ghost use Rattle.evenodd.specs.ChangesAll.{ChangesAll};

use inputs::{ListRefusal, Shape, judge_items, judge_lists};
use lines::Grid;

// Changes up to 256 cells of data columns in list order, as change does one. Item n is row rows[n] of column columns[n], and its new bytes are the b bytes of `cells` from
// n * b on. Every item is judged before the first byte is written: all are changed, or none is. Where an item is refused, its number stands with the refusal.
pub fn changes(
    shape: Shape,
    stripe: &mut [u8],
    columns: &[usize],
    rows: &[usize],
    cells: &[u8],
) -> Result<(), ListRefusal>
    ensures { ChangesAll shape.m shape.k shape.b columns.now rows.now cells.now stripe.old stripe.new result }
{
    let Shape { m, k, b } = shape;
    let column = judge_lists(shape, stripe.len(), columns.len(), rows.len(), cells.len())?;
    judge_items(shape, columns, rows)?;
    let g = Grid { m, k, b, column };
    changing::change_cells(stripe, g, columns, rows, cells);
    Ok(())
}
