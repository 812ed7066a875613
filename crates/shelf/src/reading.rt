// Reading the input: what a read tells of it, and the reads one after another.
ghost use Rattle.std.specs.Prelude.{◌≡◌, ◌+◌, ◌<◌, ◌^◌, length, IfOk};
ghost use Rattle.shelf.specs.Reading.{input_after, Nears, Taken};

use std::io::{Read, Result, Stdin};

// What is known of the input: so many bytes were read and there may be more; or it has so many bytes.
#[derive(Clone, Copy)]
pub(crate) enum Input {
    More(usize),
    Whole(usize),
}

// What is known after a read that gave `read`, if `done` bytes were read before. A failure is never taken for the end of the input.
fn after_read(done: usize, read: Result<usize>) -> Result<Input>
    requires { IfOk read (λ n. done + n < 2 ^ 64) }
    ensures { result ≡ input_after done read }
{
    let n = read?;
    if n == 0 {
        return Ok(Input::Whole(done));
    }
    Ok(Input::More(done + n))
}

// One read into `part`, which stands after the `done` bytes that were read before.
fn read_more(from: &mut Stdin, done: usize, part: &mut [u8]) -> Result<Input>
    requires { done + length part.old < 2 ^ 64 }
    ensures { Nears done (length part.old) result }
{
    after_read(done, from.read(part))
}

// Reads until the input ends, or more of it is there than an image may have.
pub(crate) fn read_input(from: &mut Stdin, buf: &mut [u8]) -> Result<Input>
    requires { 16384 < length buf.old }
    ensures { Taken (length buf.new) result }
{
    let end = buf.len();
    let mut done = 0;
    // How far a read goes is known after it alone, so no iterator counts these.
    while done < end {
        match read_more(from, done, &mut buf[done..end])? {
            Input::More(n) => done = n,
            whole => return Ok(whole),
        }
    }
    Ok(Input::More(done))
}
