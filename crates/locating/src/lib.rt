// Which column of a stripe is the wrong one. Where a row breaks, one lane at which it does tells which column alone can be it, and then every lane is
// asked; where no row does, it can be D alone. No bench is needed: a row is summed in room of a cell.
#![tactic(auto)]

mod amounts;
mod confirming;

ghost use Rattle.std.specs.Prelude.{◌≡◌, ◌-◌, ◌≤◌, ◌<◌, length, get_or};
ghost use Rattle.parity.specs.Equations.{Holds, amount_h};
ghost use Rattle.parity.specs.Stripe.{lane};
ghost use Rattle.cells.specs.Runs.{FirstAt};
ghost use Rattle.lines.specs.Lines.{Laid};
ghost use Rattle.locating.specs.Locating.{Suspects, Searched, Amounts, SomeSet, TurnedAmounts, Whether, Blames, RowBreaks, OfLane, Summed};

use amounts::find_amounts;
pub use confirming::locate;
use lines::Grid;

// Which column of a stripe is the wrong one: none, where nothing breaks; one alone; or nobody alone. That is no Option: a stripe of which nothing breaks
// and one that no column alone can have broken are told apart.
#[derive(Clone, Copy, Debug, PartialEq, Eq)]
pub enum Suspect {
    Nothing,
    Column(usize),
    Nobody,
}

// Whether the diagonals' amounts d are the rows' amounts h turned by u.
fn turns(h: &[u8], d: &[u8], m: usize, u: usize) -> bool
    requires { Amounts m h.now d.now × (u < m) }
    ensures { Whether result (TurnedAmounts m (λ i. get_or h.now i 0) (λ i. get_or d.now i 0) u) }
{
    // The row that diagonal m - 1 has in column u, and in the loop the one that diagonal i has there.
    let last = lines::row_above(m, m - 1, u);
    for (i, &byte) in d.iter().enumerate() {
        let r = lines::row_above(m, i, u);
        if byte != h[r] ^ h[last] {
            return false;
        }
    }
    true
}

// The data column that can be the wrong one of a lane in which some row and some diagonal breaks.
fn find_turn(h: &[u8], d: &[u8], m: usize, k: usize) -> Option<usize>
    requires { Amounts m h.now d.now × (k ≤ m) × SomeSet (m - 1) (λ i. get_or h.now i 0) × SomeSet (m - 1) (λ i. get_or d.now i 0) }
    ensures { Blames m k (λ i. get_or h.now i 0) (λ i. get_or d.now i 0) result }
{
    (0..k).find(|&u| turns(h, d, m, u))
}

// The column that can be the wrong one of a lane whose rows break by h and whose diagonals break by d, if one can.
fn find_column(h: &[u8], d: &[u8], m: usize, k: usize) -> Option<usize>
    requires { Amounts m h.now d.now × (k ≤ m) × (get_or h.now (m - 1) 0 ≡ 0) }
    ensures { Blames m k (λ i. get_or h.now i 0) (λ i. get_or d.now i 0) result }
{
    if cells::any(h) == 0 {
        return Some(k + 1);
    }
    if cells::any(d) == 0 {
        return Some(k);
    }
    find_turn(h, d, m, k)
}

// The column that can be the wrong one, judged by lane l, which breaks. h and d, which are zero, become its amounts; x is room for a column of it.
fn compare_amounts(
    x: &mut [u8],
    h: &mut [u8],
    d: &mut [u8],
    s: &[u8],
    g: Grid,
    l: usize,
) -> Option<usize>
    requires { Searched g s.now × (Holds g.m g.k (lane g.m g.b s.now l) → ⊥) × OfLane g s.now (length x.old) l × Summed g.m (lane g.m g.b s.now l) 0 h.old d.old }
    ensures { Suspects g.m g.k g.b s.now result }
{
    let m = g.m;
    let k = g.k;
    find_amounts(x, h, d, s, g, l);
    find_column(h, &d[0..m - 1], m, k)
}

// The column that can be the wrong one, judged by lane l, with room for its amounts.
fn judge_lane(s: &[u8], g: Grid, l: usize) -> Option<usize>
    requires { Searched g s.now × (l < g.b) × (Holds g.m g.k (lane g.m g.b s.now l) → ⊥) }
    ensures { Suspects g.m g.k g.b s.now result }
{
    let m = g.m;
    let mut x = [0u8; 127];
    let mut h = [0u8; 127];
    let mut d = [0u8; 127];
    compare_amounts(&mut x[0..m], &mut h[0..m], &mut d[0..m], s, g, l)
}

// The first lane at which row i breaks: it does at some.
fn find_lane(s: &[u8], g: Grid, i: usize) -> usize
    requires { Laid g s.now × RowBreaks g s.now i }
    ensures { FirstAt g.b (λ l. amount_h g.m g.k (lane g.m g.b s.now l) i) result }
{
    let b = g.b;
    let mut room = [0u8; 4096];
    // What the sum begins with, at the end of the room, is nothing.
    sums::sum_line(&mut room, 4096, s, g, 0, i, lines::all_but(g, 129, 129), 0);
    cells::find_set(&room[0..b]).unwrap()
}

// The column that can be the wrong one of a stripe whose row i breaks; None where no column alone can. It is judged by one lane at which the row
// breaks, and so holds for all of them only if the other columns fit a valid stripe.
pub(crate) fn judge_row(s: &[u8], g: Grid, i: usize) -> Option<usize>
    requires { Searched g s.now × RowBreaks g s.now i }
    ensures { Suspects g.m g.k g.b s.now result }
{
    let l = find_lane(s, g, i);
    judge_lane(s, g, l)
}
