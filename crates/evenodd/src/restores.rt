// Restore.
ghost use Rattle.evenodd.specs.Fills.{Gapped, FillsGaps};
ghost use Rattle.evenodd.specs.Restores.{Restores};

use inputs::{Shape, judge_gaps};
use lines::Grid;
use maps::{Gaps, Map};
use refusals::Refusal;

// Restores at most two absent columns to the bench. Where none or one is absent, the others are tested before a byte is written: whether they fit is the
// answer. A number that is no column's, which stands for none, leaves no column out of the test.
fn fill_gaps(gaps: Gaps, g: Grid, stripe: &[u8], bench: &mut [u8]) -> bool
    requires { Gapped g gaps stripe.now bench.old }
    ensures { FillsGaps g.m g.k g.b gaps stripe.now bench.old bench.new result }
{
    let count = gaps.count;
    let first = gaps.first;
    if count == 2 {
        restoring::restore_two(stripe, bench, g, first, gaps.second);
        return true;
    }
    if !counting::fits_but(stripe, g, first) {
        return false;
    }
    if count == 1 {
        restoring::restore_one(stripe, bench, g, first);
        return true;
    }
    true
}

// Restores the absent columns to the bench: the lowest to its first half, the other to its second. Only the bench is written, and a half
// that is not needed stays. What stands in an absent column's place is not read. It answers with the gaps that it filled: how many columns it restored, and
// their numbers, 129 standing for none.
pub fn restore(shape: Shape, map: Map, stripe: &[u8], bench: &mut [u8]) -> Result<Gaps, Refusal>
    ensures { Restores shape.m shape.k shape.b map stripe.now bench.old bench.new result }
{
    let Shape { m, k, b } = shape;
    let (column, gaps) = judge_gaps(shape, map, stripe.len(), bench.len())?;
    if !fill_gaps(gaps, Grid { m, k, b, column }, stripe, bench) {
        return Err(Refusal::Contradicted);
    }
    Ok(gaps)
}
