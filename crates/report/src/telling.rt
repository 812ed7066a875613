// The report: what is judged of an image, as text.
ghost use Rattle.std.specs.Prelude.{◌≤◌, ◌<◌, length};
ghost use Rattle.text.specs.Text.{Wrote};
ghost use Rattle.report.specs.Reports.{refused_text, complete_text, Tellable, Reports};

use crate::writing::{put_answer, put_columns, put_done, put_shape};
use evenodd::{Map, Refusal, Shape};
use judging::{Columns, Judgement, Outcome, judge_image};

// Writes the shape and the refusal's number only.
fn put_refused(out: &mut [u8], shape: Shape, refusal: Refusal) -> usize
    requires { (shape.m < 10000) × (shape.k < 10000) × (shape.b < 10000) × (33 ≤ length out.old) }
    ensures { Wrote out.old out.new 0 result (refused_text shape refusal) × (result ≤ length out.old) }
{
    let next = put_shape(out, 0, shape);
    put_answer(out, next, refusal.number())
}

// Writes the shape, the columns and the answer 0, of a blank stripe with that word.
fn put_complete(
    out: &mut [u8],
    shape: Shape,
    map: Map,
    stripe: &[u8],
    bench: &[u8],
    blank: bool,
) -> usize
    requires { Tellable shape map stripe.now bench.now (length out.old) }
    ensures { Wrote out.old out.new 0 result (complete_text shape map stripe.now bench.now blank) × (result ≤ length out.old) }
{
    let column = (shape.m - 1) * shape.b;
    let size = (shape.k + 2) * column;
    let double = 2 * column;
    let columns = Columns {
        shape,
        map,
        stripe: &stripe[0..size],
        bench: &bench[0..double],
    };
    let next = put_shape(out, 0, shape);
    let last = put_columns(out, next, columns);
    put_done(out, last, blank)
}

// Reads, restores and judges one image, and writes the report at the start of `out`; the answer is its length. The stripe and the bench are
// lent for the work.
pub fn report(image: &[u8], stripe: &mut [u8], bench: &mut [u8], out: &mut [u8]) -> usize
    requires { 102400 ≤ length out.old }
    ensures { Reports image.now stripe.old stripe.new bench.old bench.new out.old out.new result }
{
    match judge_image(image, stripe, bench) {
        Ok(
            Judgement {
                shape,
                map,
                outcome,
            },
        ) => match outcome {
            Ok(Outcome::Complete) => put_complete(out, shape, map, stripe, bench, false),
            Ok(Outcome::Blank) => put_complete(out, shape, map, stripe, bench, true),
            Ok(Outcome::Ambiguous) => put_refused(out, shape, Refusal::Ambiguous),
            Ok(Outcome::Contradicted) => put_refused(out, shape, Refusal::Contradicted),
            Err(f) => put_answer(out, 0, f.number()),
        },
        Err(f) => put_answer(out, 0, f.number()),
    }
}
