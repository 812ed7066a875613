// What is judged of a shelf image: it is read and restored, and what came of it is said.
#![tactic(auto)]

ghost use Rattle.std.specs.Prelude.{◌≡◌, ◌↔◌, true, ◌≤◌, length};
ghost use Rattle.parity.specs.Shape.{stripe_length, bench_length};
ghost use Rattle.parity.specs.Presence.{absences};
ghost use Rattle.judging.specs.Judgements.{JudgesParts, JudgesFormed, JudgesImage, Formed};

mod columns;

pub use columns::Columns;
use evenodd::{Map, Refusal, Shape};
use image::Contents;

// What came of an image that has a shape: every column is there, in the stripe or in the bench, and some byte is not zero; every column is there, and every
// byte is zero; three or more are absent; or those that are present contradict each other.
#[derive(Clone, Copy, Debug, PartialEq, Eq)]
pub enum Outcome {
    Complete,
    Blank,
    Ambiguous,
    Contradicted,
}

// The shape of an image, the columns that it has, and what came of it, or the refusal of what was lent for it: 2 or 3.
#[derive(Clone, Copy, Debug, PartialEq, Eq)]
pub struct Judgement {
    pub shape: Shape,
    pub map: Map,
    pub outcome: Result<Outcome, Refusal>,
}

// Reads a well-formed image into a stripe of its length, and restores into a bench of its length.
fn judge_parts(image: &[u8], shape: Shape, map: Map, stripe: &mut [u8], bench: &mut [u8]) -> Outcome
    requires { Formed image.now shape map × (absences shape.k map.places ≤ 2) × (length stripe.old ≡ stripe_length shape.m shape.k shape.b) × (length bench.old ≡ bench_length shape.m shape.b) }
    ensures { JudgesParts shape map image.now stripe.old stripe.new bench.old bench.new result }
{
    // such an image is not refused
    image::read(image, stripe).unwrap();
    match evenodd::restore(shape, map, stripe, bench) {
        Ok(_) => {
            let columns = Columns {
                shape,
                map,
                stripe,
                bench,
            };
            if columns.is_blank() {
                Outcome::Blank
            } else {
                Outcome::Complete
            }
        }
        Err(_) => Outcome::Contradicted,
    }
}

// Judges a well-formed image, in parts of the stripe and of the bench of the lengths that its shape asks for.
fn judge_formed(
    image: &[u8],
    shape: Shape,
    map: Map,
    stripe: &mut [u8],
    bench: &mut [u8],
) -> Result<Outcome, Refusal>
    requires { Formed image.now shape map }
    ensures { JudgesFormed shape map image.now stripe.old stripe.new bench.old bench.new result }
{
    let columns = shape.k + 2;
    let absent = columns - map.present;
    if 2 < absent {
        return Ok(Outcome::Ambiguous);
    }
    let column = (shape.m - 1) * shape.b;
    let size = columns * column;
    let double = 2 * column;
    if stripe.len() < size {
        return Err(Refusal::StripeLength);
    }
    if bench.len() < double {
        return Err(Refusal::BenchLength);
    }
    Ok(judge_parts(
        image,
        shape,
        map,
        &mut stripe[0..size],
        &mut bench[0..double],
    ))
}

// Reads, restores and judges one image. An image of more than 16,384 bytes is refused whatever it holds. Where three or more columns are absent
// the contents tell it, and no byte that was lent is written.
pub fn judge_image(image: &[u8], stripe: &mut [u8], bench: &mut [u8]) -> Result<Judgement, Refusal>
    ensures { JudgesImage image.now stripe.old stripe.new bench.old bench.new result }
{
    if 16384 < image.len() {
        return Err(Refusal::TooLong);
    }
    let Contents { shape, map } = image::contents(image)?;
    let outcome = judge_formed(image, shape, map, stripe, bench);
    Ok(Judgement {
        shape,
        map,
        outcome,
    })
}
