// Rewrite.
ghost use Rattle.evenodd.specs.Rewrites.{Rewrites};

use inputs::{Shape, judge_stripe};
use lines::Grid;
use refusals::Refusal;

// Puts into the column that is named the one content that makes the stripe valid. It follows from the other columns, which stay; what stands in the column
// itself is not read. Whether the others fit a valid stripe is tested before a byte is written.
pub fn rewrite(shape: Shape, stripe: &mut [u8], column: usize) -> Result<(), Refusal>
    ensures { Rewrites shape.m shape.k shape.b column stripe.old stripe.new result }
{
    let Shape { m, k, b } = shape;
    let length = judge_stripe(shape, stripe.len())?;
    if k + 2 <= column {
        return Err(Refusal::NoSuchColumn);
    }
    let g = Grid {
        m,
        k,
        b,
        column: length,
    };
    let fits = counting::fits_but(stripe, g, column);
    if !fits {
        return Err(Refusal::Contradicted);
    }
    rewriting::rewrite(stripe, g, column);
    Ok(())
}
