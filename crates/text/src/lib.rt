// Text written into a lent buffer, piece after piece: bytes, words, decimal numbers and lower-case hex. Each call writes at a place and answers
// the place after it; what stands before the place, and after the text, stays.
#![tactic(auto)]

ghost use Rattle.std.specs.Prelude.{◌≡◌, [], ◌∷◌, ◌+◌, ◌*◌, ◌≤◌, ◌<◌, length};
ghost use Rattle.text.specs.Text.{glyph, decimal, hex_byte, hex, Wrote};

// The digit d, in lower case.
fn digit(d: u8) -> u8
    requires { d < 16 }
    ensures { result ≡ glyph d }
{
    if d < 10 { b'0' + d } else { b'a' + (d - 10) }
}

// A number below 10 as its digit.
fn decimal_digit(n: usize) -> u8
    requires { n < 10 }
    ensures { result ≡ glyph n }
{
    digit(n as u8)
}

// Writes one byte.
pub fn put_byte(out: &mut [u8], at: usize, byte: u8) -> usize
    requires { at + 1 ≤ length out.old }
    ensures { Wrote out.old out.new at result (byte ∷ []) }
{
    out[at] = byte;
    at + 1
}

// Writes the bytes of a word. `copy_from_slice` would do so by a call of memmove, which the archive for C needs for nothing else.
pub fn put_word(out: &mut [u8], at: usize, word: &[u8]) -> usize
    requires { at + length word.now ≤ length out.old }
    ensures { Wrote out.old out.new at result word.now }
{
    let end = at + word.len();
    cells::copy_into(&mut out[at..end], word);
    end
}

// Writes n in decimal, its last digit after the others.
fn put_digits(out: &mut [u8], at: usize, n: usize) -> usize
    requires { (n < 10000) × (at + length (decimal n) ≤ length out.old) }
    ensures { Wrote out.old out.new at result (decimal n) }
{
    if n < 10 {
        return put_byte(out, at, decimal_digit(n));
    }
    let next = put_digits(out, at, n / 10);
    put_byte(out, next, decimal_digit(n % 10))
}

// Writes n in decimal, without zeros in front.
pub fn put_decimal(out: &mut [u8], at: usize, n: usize) -> usize
    requires { (n < 10000) × (at + 4 ≤ length out.old) }
    ensures { Wrote out.old out.new at result (decimal n) × (result ≤ at + 4) }
{
    put_digits(out, at, n)
}

// Writes a byte as two hexadecimal digits.
fn put_hex_byte(out: &mut [u8], at: usize, byte: u8) -> usize
    requires { at + 2 ≤ length out.old }
    ensures { Wrote out.old out.new at result (hex_byte byte) }
{
    let next = put_byte(out, at, digit(byte / 16));
    put_byte(out, next, digit(byte % 16))
}

// Writes bytes in hexadecimal, two digits each.
pub fn put_hex(out: &mut [u8], at: usize, bytes: &[u8]) -> usize
    requires { at + 2 * length bytes.now ≤ length out.old }
    ensures { Wrote out.old out.new at result (hex bytes.now) × (result ≡ at + 2 * length bytes.now) }
{
    let mut next = at;
    for &byte in bytes {
        next = put_hex_byte(out, next, byte);
    }
    next
}
