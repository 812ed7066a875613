// Encode.
ghost use Rattle.evenodd.specs.Encodes.{Encodes};

use inputs::{Shape, judge_stripe};
use lines::Grid;
use refusals::Refusal;

// Writes H and D; the data columns stay. A refused call writes nothing.
pub fn encode(shape: Shape, stripe: &mut [u8]) -> Result<(), Refusal>
    ensures { Encodes shape.m shape.k shape.b stripe.old stripe.new result }
{
    let Shape { m, k, b } = shape;
    let column = judge_stripe(shape, stripe.len())?;
    encoding::put_parity(stripe, Grid { m, k, b, column });
    Ok(())
}
