// The tests of lists that name cells of a stripe's data: on their lengths, and item by item on the column and the row. The lists stand side by side, as C lends
// them.
ghost use Rattle.std.specs.Prelude.{◌≡◌, ◌↔◌, true, ◌≤◌, length};
ghost use Rattle.inputs.specs.Lists.{OfData, FirstOutside, JudgesLists, JudgesItems, item_of, refusal_of};
ghost use Rattle.inputs.specs.declared.lists.ListRefusal.TheVariants.{Whole};

use crate::lent::judge_stripe;
use crate::shapes::Shape;
use refusals::Refusal;

// Why lists of cells are refused: as a whole, or for an item, whose number stands with its refusal.
#[derive(Clone, Copy, Debug, PartialEq, Eq)]
pub enum ListRefusal {
    Whole(Refusal),
    Item(usize, Refusal),
}

impl From<Refusal> for ListRefusal {
    ghost from_gives = { λ r e. e ≡ Whole r };

    // A refusal that names no item is of the lists as a whole.
    fn from(refusal: Refusal) -> ListRefusal {
        ListRefusal::Whole(refusal)
    }
}

impl ListRefusal {
    // The number of the item that is refused; 256 where none is named, as the C interface has it.
    pub fn item(self) -> usize
        ensures { result ≡ item_of self }
    {
        match self {
            ListRefusal::Whole(_) => 256,
            ListRefusal::Item(item, _) => item,
        }
    }

    // Why.
    pub fn refusal(self) -> Refusal
        ensures { result ≡ refusal_of self }
    {
        match self {
            ListRefusal::Whole(why) => why,
            ListRefusal::Item(_, why) => why,
        }
    }
}

// Judges three numbers, the length of a stripe, and those of a list of columns, of a list of rows and of the new bytes of their cells. How many bytes a column has.
pub fn judge_lists(
    shape: Shape,
    length: usize,
    columns: usize,
    rows: usize,
    cells: usize,
) -> Result<usize, Refusal>
    ensures { JudgesLists shape.m shape.k shape.b length columns rows cells result }
{
    let column = judge_stripe(shape, length)?;
    if rows != columns {
        return Err(Refusal::WrongLists);
    }
    if 256 < columns {
        return Err(Refusal::WrongLists);
    }
    if cells != columns * shape.b {
        return Err(Refusal::WrongLists);
    }
    Ok(column)
}

// Whether the data has a cell in that row of that column.
fn is_of_data(m: usize, k: usize, column: usize, row: usize) -> bool
    requires { 1 ≤ m }
    ensures { (result ≡ true) ↔ OfData m k column row }
{
    if k <= column {
        return false;
    }
    row < m - 1
}

// The first item that names no cell of the data; how many there are, where each names one.
fn find_outside(m: usize, k: usize, columns: &[usize], rows: &[usize]) -> usize
    requires { (1 ≤ m) × (length rows.now ≡ length columns.now) }
    ensures { FirstOutside m k columns.now rows.now result }
{
    columns
        .iter()
        .zip(rows)
        .position(|(&column, &row)| !is_of_data(m, k, column, row))
        .unwrap_or(columns.len())
}

// Judges the items of two lists in their order, up to the first that is refused.
pub fn judge_items(shape: Shape, columns: &[usize], rows: &[usize]) -> Result<(), ListRefusal>
    requires { (1 ≤ shape.m) × (length rows.now ≡ length columns.now) }
    ensures { JudgesItems shape.m shape.k columns.now rows.now result }
{
    let Shape { m, k, b: _ } = shape;
    let item = find_outside(m, k, columns, rows);
    if item == columns.len() {
        return Ok(());
    }
    if k <= columns[item] {
        return Err(ListRefusal::Item(item, Refusal::NoSuchColumn));
    }
    Err(ListRefusal::Item(item, Refusal::NoSuchRow))
}
