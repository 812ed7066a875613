// Short cells: lines are summed whole columns at a time, each turned as its lines ask.
ghost use Rattle.std.specs.Prelude.{◌≡◌, ◌+◌, ◌*◌, ◌-◌, ◌≤◌, ◌<◌, length, get_or};
ghost use Rattle.parity.specs.Xor.{◌⊕◌};
ghost use Rattle.lines.specs.Lines.{Laid};
ghost use Rattle.lines.specs.Rows.{Lined};
ghost use Rattle.counting.specs.Counting.{test_line, ColumnRoom, FoundLines};

use crate::testing::{Broken, count_cells, sum_last};
use lines::{Columns, Grid};

// Every cell of the column w becomes line m - 1. Of the rows that line is imaginary, and zero.
fn start_lines(at: &mut [usize], w: &mut [u8], s: &[u8], g: Grid, u: usize)
    requires { ColumnRoom g s.now (length at.old) (length w.old) }
    ensures { Lined (g.m - 1) g.b 0 w.old w.new (λ r l. test_line g s.now u (g.m - 1) l) }
{
    if g.k < u {
        cells::zero(w);
        return;
    }
    let last = (g.m - 2) * g.b;
    sum_last(at, w, last, s, g, u);
    sums::repeat_last(w, g);
}

// Each cell r of the column w gets line r added: a row, or a diagonal with D's cell; where a data column u is left out also the row that is
// u rows above.
fn add_lines(w: &mut [u8], s: &[u8], g: Grid, u: usize)
    requires { (length w.old ≡ g.column) × Laid g s.now }
    ensures { Lined (g.m - 1) g.b 0 w.old w.new (λ r l. get_or w.old (0 + (r * g.b + l)) 0 ⊕ test_line g s.now u r l) }
{
    let m = g.m;
    let k = g.k;
    let rows = Columns {
        from: 0,
        to: k + 1,
        u,
        v: u,
    };
    if k < u {
        sums::add_columns(w, s, g, 0, 0, rows);
        return;
    }
    let data = Columns {
        from: 0,
        to: k,
        u,
        v: u,
    };
    let ends = Columns {
        from: k + 1,
        to: k + 2,
        u,
        v: u,
    };
    sums::add_columns(w, s, g, 1, 0, data);
    sums::add_columns(w, s, g, 0, 0, ends);
    if u < k {
        // The row that diagonal 0 has in column u: that of diagonal r is r further.
        let shift = lines::row_above(m, 0, u);
        sums::add_columns(w, s, g, 0, shift, rows);
    }
}

// How many of lines 0 to m - 2 differ from line m - 1. w is room for a column.
fn count_columns(
    at: &mut [usize],
    w: &mut [u8],
    s: &[u8],
    g: Grid,
    u: usize,
    enough: usize,
) -> Broken
    requires { ColumnRoom g s.now (length at.old) (length w.old) }
    ensures { FoundLines g s.now u enough result }
{
    let b = g.b;
    let rows = g.m - 1;
    start_lines(at, w, s, g, u);
    add_lines(w, s, g, u);
    count_cells(w, b, rows, enough)
}

// How many do, with so much room: it is cleared before it is used, and a shape of few short columns has little.
pub(crate) fn count_with<const ROOM: usize, const PLACES: usize>(
    s: &[u8],
    g: Grid,
    u: usize,
    enough: usize,
) -> Broken
    requires { (ROOM ≤ 16384) × (PLACES ≤ 256) × (g.column ≤ ROOM) × (2 + 2 * g.k ≤ PLACES) × Laid g s.now }
    ensures { FoundLines g s.now u enough result }
{
    let c = g.column;
    let mut at = [0usize; PLACES];
    let mut room = [0u8; ROOM];
    let w = &mut room[..];
    count_columns(&mut at, &mut w[0..c], s, g, u, enough)
}
