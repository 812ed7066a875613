// The tests that the calls share: on the numbers, on what is lent, and on the map.
ghost use Rattle.std.specs.Prelude.{◌≡◌, ◌≤◌};
ghost use Rattle.inputs.specs.Tests.{JudgesStripe, JudgesMap, JudgesLent, JudgesGaps};

use crate::shapes::{Shape, judge};
use maps::{Gaps, Map, reaches};
use refusals::Refusal;

// Judges three numbers, and the length of a stripe. How many bytes a column has.
pub fn judge_stripe(shape: Shape, length: usize) -> Result<usize, Refusal>
    ensures { JudgesStripe shape.m shape.k shape.b length result }
{
    let column = judge(shape)?;
    if length != (shape.k + 2) * column {
        return Err(Refusal::StripeLength);
    }
    Ok(column)
}

// Judges that the map is true, and that no place past k + 2 columns is present.
pub fn judge_map(k: usize, map: Map) -> Result<(), Refusal>
    requires { k ≤ 127 }
    ensures { JudgesMap k map result }
{
    if !map.is_true() {
        return Err(Refusal::LyingMap);
    }
    if reaches(map, k + 2) {
        return Err(Refusal::StrayColumn);
    }
    Ok(())
}

// Judges three numbers, the lengths of a stripe and of a bench, that the map is true, and that no place past the columns is present. How many bytes a column
// has.
pub fn judge_lent(shape: Shape, map: Map, length: usize, held: usize) -> Result<usize, Refusal>
    ensures { JudgesLent shape.m shape.k shape.b map length held result }
{
    let column = judge_stripe(shape, length)?;
    if held != 2 * column {
        return Err(Refusal::BenchLength);
    }
    judge_map(shape.k, map)?;
    Ok(column)
}

// Judges the same, and that at most two columns are absent. How many bytes a column has, and the gaps.
pub fn judge_gaps(
    shape: Shape,
    map: Map,
    length: usize,
    held: usize,
) -> Result<(usize, Gaps), Refusal>
    ensures { JudgesGaps shape.m shape.k shape.b map length held result }
{
    let column = judge_lent(shape, map, length, held)?;
    let columns = shape.k + 2;
    let absent = columns - map.present;
    if 2 < absent {
        return Err(Refusal::Ambiguous);
    }
    Ok((column, map.gaps(columns)))
}
