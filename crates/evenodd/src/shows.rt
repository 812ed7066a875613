// Showing a column: where it lies, and the part itself.
ghost use Rattle.evenodd.specs.Shows.{Places, Shows};

use inputs::{Shape, judge_lent};
use maps::Map;
use refusals::Refusal;

// Where a column is shown: from a byte on, so many bytes, in the stripe or in the bench.
#[derive(Clone, Copy, Debug, PartialEq, Eq)]
pub enum Place {
    InStripe { start: usize, length: usize },
    InBench { start: usize, length: usize },
}

// Where column number `column` lies: in the stripe where it is marked present, otherwise in the half of the bench where restore puts it.
pub fn place_of(
    shape: Shape,
    map: Map,
    stripe: &[u8],
    bench: &[u8],
    column: usize,
) -> Result<Place, Refusal>
    ensures { Places shape.m shape.k shape.b map stripe.now bench.now column result }
{
    let k = shape.k;
    let length = judge_lent(shape, map, stripe.len(), bench.len())?;
    let columns = k + 2;
    let absent = columns - map.present;
    if columns <= column {
        return Err(Refusal::NoSuchColumn);
    }
    if 2 < absent {
        return Err(Refusal::Ambiguous);
    }
    if map.is_present(column) {
        return Ok(Place::InStripe {
            start: column * length,
            length,
        });
    }
    let gaps = map.gaps(columns);
    if column == gaps.first {
        return Ok(Place::InBench { start: 0, length });
    }
    Ok(Place::InBench {
        start: length,
        length,
    })
}

// The column itself: a part of the stripe or of the bench, and no copy. A refused show gives an empty part at the start of the stripe.
pub fn show<'a>(
    shape: Shape,
    map: Map,
    stripe: &'a [u8],
    bench: &'a [u8],
    column: usize,
) -> &'a [u8]
    ensures { Shows shape.m shape.k shape.b map stripe.entry bench.entry column result }
{
    match place_of(shape, map, stripe, bench, column) {
        Ok(Place::InStripe { start, length }) => &stripe[start..start + length],
        Ok(Place::InBench { start, length }) => &bench[start..start + length],
        Err(_) => &stripe[0..0],
    }
}
