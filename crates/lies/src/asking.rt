// What is asked with a map, a line each, in the form `CASE OPERATION ANSWER`; a case is named by its places and by the two numbers that the map has. The
// stripe is that of the numbers' C1.
use crate::calls::{mark_line, restore_line, say_kept, show_line};
use crate::words::{Page, say_four, say_number, say_word};
use evenodd::{Map, Shape};

// The name of a case.
fn say_case(out: &mut Page, at: usize, name: &[u8], map: Map) -> usize {
    let first = say_word(out, at, name);
    let second = say_number(out, first, map.present);
    say_number(out, second, map.highest)
}

// Whether the map is true: 1 for yes, 0 for no.
fn truth_line(out: &mut Page, at: usize, name: &[u8], map: Map) -> usize {
    let first = say_case(out, at, name, map);
    let second = say_word(out, first, b" true");
    let third = say_number(out, second, map.is_true() as usize);
    say_word(out, third, b"\n")
}

// Restore, show of column 0, and how many bytes show hands out of it: none where it is refused.
fn call_lines(out: &mut Page, at: usize, name: &[u8], map: Map) -> usize {
    let c1 = [1u8, 2, 4, 8, 16, 32, 21, 42, 57, 30];
    let bench = [161u8, 162, 163, 164];
    let a = say_case(out, at, name, map);
    let b = restore_line(out, a, Shape { m: 3, k: 3, b: 1 }, map, &c1);
    let c = say_case(out, b, name, map);
    let d = show_line(out, c, Shape { m: 3, k: 3, b: 1 }, map, &bench, 0);
    let e = say_case(out, d, name, map);
    let f = say_word(out, e, b" part");
    let part = evenodd::show(Shape { m: 3, k: 3, b: 1 }, map, &c1, &bench, 0);
    let g = say_number(out, f, part.len());
    say_word(out, g, b"\n")
}

// Three marks: a place that is present in most of the maps is marked present, one that is the highest in most of them is marked absent, and one that no map
// has is marked present.
fn mark_lines(out: &mut Page, at: usize, name: &[u8], map: Map) -> usize {
    let a = say_case(out, at, name, map);
    let b = say_word(out, a, b" present-0");
    let c = mark_line(out, b, map, 0, true);
    let d = say_case(out, c, name, map);
    let e = say_word(out, d, b" absent-4");
    let f = mark_line(out, e, map, 4, false);
    let g = say_case(out, f, name, map);
    let h = say_word(out, g, b" present-129");
    mark_line(out, h, map, 129, true)
}

// What is asked of the map: whether place 4 is present, whether one from 5 on is, and the gaps below 5, how many and the two lowest.
fn say_answers(out: &mut Page, at: usize, map: Map) -> usize {
    let next = say_number(out, at, map.is_present(4) as usize);
    let strays = map.strays(5) as usize;
    let gaps = map.gaps(5);
    say_four(out, next, [strays, gaps.count, gaps.first, gaps.second])
}

// These answers, and the map of the map's bytes.
fn question_line(out: &mut Page, at: usize, name: &[u8], map: Map) -> usize {
    let first = say_case(out, at, name, map);
    let second = say_word(out, first, b" questions");
    let third = say_answers(out, second, map);
    let bytes = map.bytes();
    say_kept(out, third, Map::of_bytes(&bytes))
}

// All that is asked with one map.
pub(crate) fn map_lines(out: &mut Page, at: usize, name: &[u8], map: Map) -> usize {
    let first = truth_line(out, at, name, map);
    let second = call_lines(out, first, name, map);
    let third = mark_lines(out, second, name, map);
    question_line(out, third, name, map)
}
