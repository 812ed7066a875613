// Marks of true maps, one after another.
use crate::calls::{mark_line, marked};
use crate::words::{Page, say_number, say_word};
use evenodd::Map;

// What a mark is called.
fn say_mark(out: &mut Page, at: usize, present: bool) -> usize {
    if present {
        say_word(out, at, b"present")
    } else {
        say_word(out, at, b"absent")
    }
}

// A place is marked.
fn place_line(out: &mut Page, at: usize, map: Map, place: usize, present: bool) -> usize {
    let first = say_mark(out, at, present);
    let second = say_number(out, first, place);
    mark_line(out, second, map, place, present)
}

// Four places are marked present, or absent, one after another. The end of the text, and the map then.
fn mark_four(
    out: &mut Page,
    at: usize,
    map: Map,
    places: [usize; 4],
    present: bool,
) -> (usize, Map) {
    let mut next = at;
    let mut after = map;
    for &place in &places {
        next = place_line(out, next, after, place, present);
        after = marked(after, place, present);
    }
    (next, after)
}

// Places are marked, some of them twice, the lowest, the highest and those that no map has: four present, and then the same four absent.
pub(crate) fn one_by_one(out: &mut Page, at: usize) -> usize {
    let mut map = Map::new();
    let mut next = at;
    for &places in &[[3, 1, 1, 3], [0, 128, 127, 0], [5, 129, usize::MAX, 128]] {
        let (middle, marked) = mark_four(out, next, map, places, true);
        let (end, cleared) = mark_four(out, middle, marked, places, false);
        next = end;
        map = cleared;
    }
    next
}
