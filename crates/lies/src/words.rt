// Words, numbers, a bench and a map as text on a page. Each function writes at a place and answers the place after it; where there is no room it writes
// nothing, and answers the place.
use evenodd::Map;

// What is printed, all of it.
pub(crate) type Page = [u8; 65536];

// The bytes of a word.
pub(crate) fn say_word(out: &mut Page, at: usize, word: &[u8]) -> usize {
    if 65536 < word.len() {
        return at;
    }
    if 65536 - word.len() < at {
        return at;
    }
    text::put_word(out, at, word)
}

// A space and a number, or the word `far` above 9,999.
pub(crate) fn say_number(out: &mut Page, at: usize, n: usize) -> usize {
    if 9999 < n {
        return say_word(out, at, b" far");
    }
    if 65531 < at {
        return at;
    }
    let next = text::put_byte(out, at, 32);
    text::put_decimal(out, next, n)
}

// Four numbers.
pub(crate) fn say_four(out: &mut Page, at: usize, numbers: [usize; 4]) -> usize {
    let first = say_number(out, at, numbers[0]);
    let second = say_number(out, first, numbers[1]);
    let third = say_number(out, second, numbers[2]);
    say_number(out, third, numbers[3])
}

// A space and the four bytes of a bench in hexadecimal.
pub(crate) fn say_bench(out: &mut Page, at: usize, bench: [u8; 4]) -> usize {
    if 65527 < at {
        return at;
    }
    let next = text::put_byte(out, at, 32);
    text::put_hex(out, next, &bench)
}

// A place of a map: 1 if it is present, otherwise 0.
fn say_place(out: &mut Page, at: usize, there: bool) -> usize {
    if there {
        say_word(out, at, b"1")
    } else {
        say_word(out, at, b"0")
    }
}

// A space and the 129 places of a map.
pub(crate) fn say_map(out: &mut Page, at: usize, map: Map) -> usize {
    let mut next = say_word(out, at, b" ");
    for t in 0..129 {
        next = say_place(out, next, map.is_present(t));
    }
    next
}
