// Several cells changed one after another. Those on the diagonal of S would add to every cell of D each time: what they would add is gathered in a room instead,
// which D's cells are owed, and is added to all of them once, at the end.
ghost use Rattle.std.specs.Prelude.{◌≡◌, ◌-◌, ◌<◌, length};
ghost use Rattle.parity.specs.Equations.{back};
ghost use Rattle.parity.specs.Change.{CellChanged, CellsChanged};
ghost use Rattle.cells.specs.Runs.{Zeros};
ghost use Rattle.lines.specs.Lines.{Laid};
ghost use Rattle.changing.specs.Items.{ItemsFit};
ghost use Rattle.changing.specs.Owed.{Paid, OncePaid};

use crate::{add_difference, change_off_s, diagonal_of};
use lines::Grid;

// On the diagonal of S: the cell in row i of column t becomes `cell`. One cell of H changes with it, and what it changes by is added to `owed`, not to every cell of
// D. For a while the cell holds the difference of its old bytes and its new ones.
fn change_owing(s: &mut [u8], owed: &mut [u8], g: Grid, t: usize, i: usize, cell: &[u8])
    requires { Laid g s.old × (length owed.old ≡ g.b) × (t < g.k) × (i < g.m - 1) × (back g.m (g.m - 1) t ≡ i) × (length cell.now ≡ g.b) }
    ensures { OncePaid g.m g.k g.b owed.old s.old owed.new s.new (CellChanged g.m g.k g.b t i cell.now) }
{
    let b = g.b;
    let at = add_difference(s, g, t, i, cell);
    cells::xor_into(owed, &s[at..at + b]);
    cells::copy_into(&mut s[at..at + b], cell);
}

// The cell in row i of column t, which is a data column, becomes `cell`, but for what D's cells are owed.
fn change_item(s: &mut [u8], owed: &mut [u8], g: Grid, t: usize, i: usize, cell: &[u8])
    requires { Laid g s.old × (length owed.old ≡ g.b) × (t < g.k) × (i < g.m - 1) × (length cell.now ≡ g.b) }
    ensures { OncePaid g.m g.k g.b owed.old s.old owed.new s.new (CellChanged g.m g.k g.b t i cell.now) }
{
    let own = diagonal_of(g.m, t, i);
    if own == g.m - 1 {
        change_owing(s, owed, g, t, i, cell);
    } else {
        change_off_s(s, g, t, i, own, cell);
    }
}

// All items one after another, but for what D's cells are owed.
fn change_items(
    s: &mut [u8],
    owed: &mut [u8],
    g: Grid,
    columns: &[usize],
    rows: &[usize],
    cells: &[u8],
)
    requires { Laid g s.old × (length owed.old ≡ g.b) × ItemsFit g columns.now rows.now cells.now }
    ensures { OncePaid g.m g.k g.b owed.old s.old owed.new s.new (CellsChanged g.m g.k g.b columns.now rows.now cells.now (length columns.now)) }
{
    // The lists stand beside one another as the C interface has them: one is gone through, the others are asked for the same item. Of a loop over three lists
    // zipped less is known.
    let b = g.b;
    for (n, &column) in columns.iter().enumerate() {
        let at = n * b;
        change_item(s, owed, g, column, rows[n], &cells[at..at + b]);
    }
}

// Every cell of D gets what it is owed.
fn pay(s: &mut [u8], owed: &[u8], g: Grid)
    requires { Laid g s.old × (length owed.now ≡ g.b) }
    ensures { Paid g.m g.k g.b owed.now s.old s.new }
{
    // By index: of a loop over `s[d..].chunks_exact_mut(b)` nothing is known of the bytes after it but how many they are.
    let b = g.b;
    let d = g.k * g.column + g.column;
    for i in 0..g.m - 1 {
        cells::add_run(s, d + i * b, owed, 0, b);
    }
}

// All items one after another, with room for what D's cells are owed, which is nothing yet.
fn change_and_pay(
    s: &mut [u8],
    owed: &mut [u8],
    g: Grid,
    columns: &[usize],
    rows: &[usize],
    cells: &[u8],
)
    requires { Laid g s.old × (length owed.old ≡ g.b) × Zeros owed.old × ItemsFit g columns.now rows.now cells.now }
    ensures { CellsChanged g.m g.k g.b columns.now rows.now cells.now (length columns.now) s.old s.new }
{
    change_items(s, owed, g, columns, rows, cells);
    if !cells::is_zero(owed) {
        pay(s, owed, g);
    }
}

// The cells that the lists name become those of `cells`, one after another: item n is row rows[n] of column columns[n], and the b bytes from n * b on.
pub fn change_cells(s: &mut [u8], g: Grid, columns: &[usize], rows: &[usize], cells: &[u8])
    requires { Laid g s.old × ItemsFit g columns.now rows.now cells.now }
    ensures { CellsChanged g.m g.k g.b columns.now rows.now cells.now (length columns.now) s.old s.new }
{
    let mut room = [0u8; 4096];
    let b = g.b;
    change_and_pay(s, &mut room[0..b], g, columns, rows, cells);
}
