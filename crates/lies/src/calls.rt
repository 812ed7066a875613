// The calls that take a map, and its marks: each ends a line whose start says the case. Of a mark the start says the place too.
use crate::words::{Page, say_bench, say_four, say_map, say_number, say_word};
use evenodd::{Gaps, Map, Place, Refusal, Shape};

// The answer, how many columns were restored, and which.
fn say_restored(out: &mut Page, at: usize, answer: Result<Gaps, Refusal>) -> usize {
    match answer {
        Ok(filled) => say_four(out, at, [0, filled.count, filled.first, filled.second]),
        Err(f) => say_four(out, at, [f.number() as usize, 0, 129, 129]),
    }
}

// Restores to the bench `a1a2a3a4`: the answer, and the bench after it.
pub(crate) fn restore_line(
    out: &mut Page,
    at: usize,
    shape: Shape,
    map: Map,
    stripe: &[u8],
) -> usize {
    let mut bench = [161u8, 162, 163, 164];
    let answer = evenodd::restore(shape, map, stripe, &mut bench);
    let first = say_word(out, at, b" restore");
    let second = say_restored(out, first, answer);
    let third = say_bench(out, second, bench);
    say_word(out, third, b"\n")
}

// The answer, whether the column is in the bench, where it starts and how long it is.
fn say_column(out: &mut Page, at: usize, answer: Result<Place, Refusal>) -> usize {
    match answer {
        Ok(Place::InStripe { start, length }) => say_four(out, at, [0, 0, start, length]),
        Ok(Place::InBench { start, length }) => say_four(out, at, [0, 1, start, length]),
        Err(f) => say_four(out, at, [f.number() as usize, 0, 0, 0]),
    }
}

// Shows a column.
pub(crate) fn show_line(
    out: &mut Page,
    at: usize,
    shape: Shape,
    map: Map,
    bench: &[u8],
    column: usize,
) -> usize {
    let c1 = [1u8, 2, 4, 8, 16, 32, 21, 42, 57, 30];
    let answer = evenodd::place_of(shape, map, &c1, bench, column);
    let first = say_word(out, at, b" show");
    let second = say_column(out, first, answer);
    say_word(out, second, b"\n")
}

// The number of what a mark said.
fn say_marked(out: &mut Page, at: usize, judged: Result<(), Refusal>) -> usize {
    let number = judged.map_or_else(Refusal::number, |_| 0);
    say_number(out, at, number as usize)
}

// What a map keeps: its two numbers and its places; and the end of the line.
pub(crate) fn say_kept(out: &mut Page, at: usize, map: Map) -> usize {
    let first = say_number(out, at, map.present);
    let second = say_number(out, first, map.highest);
    let third = say_map(out, second, map);
    say_word(out, third, b"\n")
}

// The map with a place marked present, or absent.
pub(crate) fn marked(map: Map, place: usize, present: bool) -> Map {
    if present {
        map.mark_present(place)
    } else {
        map.mark_absent(place)
    }
}

// Marks a place: what that said, and the map after it.
pub(crate) fn mark_line(out: &mut Page, at: usize, map: Map, place: usize, present: bool) -> usize {
    let next = say_marked(out, at, map.judge_place(place));
    say_kept(out, next, marked(map, place, present))
}
