// The rewriting of one column in place: it becomes what the other columns say that it must be. It is not read.
#![tactic(auto)]

ghost use Rattle.std.specs.Prelude.{◌+◌, ◌*◌, ◌-◌, ◌≤◌, ◌<◌, length};
ghost use Rattle.lines.specs.Lines.{Laid};
ghost use Rattle.restoring.specs.Restoring.{Band};
ghost use Rattle.rewriting.specs.Rewrite.{ColumnRewritten, BandRewritten};

use lines::Grid;

// A band of n rows of column u, from row `first` on, becomes what the other columns say: it is restored to room, and copied to its place.
fn rewrite_band(room: &mut [u8], s: &mut [u8], g: Grid, u: usize, first: usize, n: usize)
    requires { (u < g.k + 2) × (first + n ≤ g.m - 1) × (n * g.b ≤ length room.old) × Band g s.old (n * g.b) n }
    ensures { BandRewritten g.m g.k g.b u first n s.old s.new }
{
    let b = g.b;
    let c = g.column;
    let size = n * b;
    restoring::restore_rows(s, &mut room[0..size], g, u, first, n);
    let at = u * c + first * b;
    cells::copy_into(&mut s[at..at + size], &room[0..size]);
}

// Column u becomes what the other columns say, in bands of as many rows as have room.
fn rewrite_with<const ROOM: usize>(s: &mut [u8], g: Grid, u: usize)
    requires { (ROOM ≤ 16384) × (u < g.k + 2) × (g.b ≤ ROOM) × (g.b < 128 → g.column ≤ ROOM) × Laid g s.old }
    ensures { ColumnRewritten g.m g.k g.b u s.old s.new }
{
    let b = g.b;
    let rows = g.m - 1;
    let mut room = [0u8; ROOM];
    let most = ROOM / b;
    for first in (0..rows).step_by(most) {
        rewrite_band(&mut room, s, g, u, first, most.min(rows - first));
    }
}

// Where the other columns fit a valid stripe, column u becomes that of it. It is not read. Room is cleared before it is used: a short column has room for
// itself alone, and any other for four cells of any length, or for all of its short ones.
pub fn rewrite(s: &mut [u8], g: Grid, u: usize)
    requires { Laid g s.old × (u < g.k + 2) }
    ensures { ColumnRewritten g.m g.k g.b u s.old s.new }
{
    if g.column <= 2048 {
        rewrite_with::<2048>(s, g, u);
    } else {
        rewrite_with::<16384>(s, g, u);
    }
}
