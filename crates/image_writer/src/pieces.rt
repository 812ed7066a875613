// The pieces of an image, one after another. Each call writes at a place and answers the place after it: buffer and place stay two parameters, as in crate text,
// whose calls are made here and whose `Wrote` speaks of both. In the loops t is the column's number, by which map and stripe are read: no iterator is plainer.
ghost use Rattle.std.specs.Prelude.{◌≡◌, true, ◌+◌, ◌*◌, ◌≤◌, length};
ghost use Rattle.parity.specs.Presence.{present};
ghost use Rattle.text.specs.Text.{Wrote};
ghost use Rattle.image.specs.Format.{le2, joined, present_below};
ghost use Rattle.image_writer.specs.Pieces.{four_numbers, entry_of, body_of};

use maps::Map;

// Writes the lowest sixteen bits of a number, the lower byte first.
fn put_number(image: &mut [u8], at: usize, n: usize) -> usize
    requires { at + 2 ≤ length image.old }
    ensures { Wrote image.old image.new at result (le2 n) }
{
    let low = (n % 65536) as u16;
    text::put_word(image, at, &low.to_le_bytes())
}

// Writes four numbers so, one after another.
pub(crate) fn put_numbers(
    image: &mut [u8],
    at: usize,
    first: usize,
    second: usize,
    third: usize,
    fourth: usize,
) -> usize
    requires { at + 8 ≤ length image.old }
    ensures { Wrote image.old image.new at result (four_numbers first second third fourth) }
{
    let second_at = put_number(image, at, first);
    let third_at = put_number(image, second_at, second);
    let fourth_at = put_number(image, third_at, third);
    put_number(image, fourth_at, fourth)
}

// Writes the entry of column t, whose body begins at `body` if it is present. State and zero byte are one number, and the offset is two, its lower half first.
fn put_entry(image: &mut [u8], at: usize, t: usize, there: bool, body: usize) -> usize
    requires { at + 8 ≤ length image.old }
    ensures { Wrote image.old image.new at result (entry_of t there body) }
{
    if there {
        return put_numbers(image, at, t, 1, body, body / 65536);
    }
    put_numbers(image, at, t, 0, 0, 0)
}

// Writes the contents: an entry for each column, where the first body begins at `bodies`.
pub(crate) fn put_entries(
    image: &mut [u8],
    at: usize,
    map: Map,
    columns: usize,
    column: usize,
    bodies: usize,
) -> usize
    requires { (at + 8 * columns ≤ length image.old) × (bodies + present_below columns map.places * column ≤ length image.old) }
    ensures { Wrote image.old image.new at result (joined columns (λ t. entry_of t (present map.places t) (bodies + present_below t map.places * column))) }
{
    let mut next = at;
    let mut body = bodies;
    for t in 0..columns {
        let there = map.is_present(t);
        next = put_entry(image, next, t, there, body);
        if there {
            body += column;
        }
    }
    next
}

// Writes the body of column t, if it is present.
fn put_body(image: &mut [u8], at: usize, map: Map, stripe: &[u8], t: usize, column: usize) -> usize
    requires { (present map.places t ≡ true → at + column ≤ length image.old) × (t * column + column ≤ length stripe.now) }
    ensures { Wrote image.old image.new at result (body_of map.places column stripe.now t) }
{
    if map.is_present(t) {
        let from = t * column;
        return text::put_word(image, at, &stripe[from..from + column]);
    }
    at
}

// Writes the body of each present column.
pub(crate) fn put_bodies(
    image: &mut [u8],
    at: usize,
    map: Map,
    stripe: &[u8],
    columns: usize,
    column: usize,
) -> usize
    requires { (at + present_below columns map.places * column ≤ length image.old) × (columns * column ≤ length stripe.now) }
    ensures { Wrote image.old image.new at result (joined columns (body_of map.places column stripe.now)) }
{
    let mut next = at;
    for t in 0..columns {
        next = put_body(image, next, map, stripe, t, column);
    }
    next
}
