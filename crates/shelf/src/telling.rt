// What is told of the input, as text.
ghost use Rattle.std.specs.Prelude.{◌≤◌, length};
ghost use Rattle.shelf.specs.Reading.{Taken};
ghost use Rattle.shelf.specs.Telling.{TellsInput};

use crate::reading::Input;
use std::io::Result;

// Writes what is told of the input at the start of `out`, and answers its length: the report of what was read, or that a read failed. The stripe
// and the bench are lent for the work.
pub(crate) fn tell(
    input: Result<Input>,
    buf: &[u8],
    stripe: &mut [u8],
    bench: &mut [u8],
    out: &mut [u8],
) -> usize
    requires { Taken (length buf.now) input × (102400 ≤ length out.old) }
    ensures { TellsInput input buf.now stripe.old stripe.new bench.old bench.new out.old out.new result }
{
    match input {
        Ok(Input::More(n)) => report::report(&buf[0..n], stripe, bench, out),
        Ok(Input::Whole(n)) => report::report(&buf[0..n], stripe, bench, out),
        Err(_) => text::put_word(out, 0, b"answer 8\n"),
    }
}
