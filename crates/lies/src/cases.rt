// The maps: places, and two numbers that they say or do not say.
use crate::asking::map_lines;
use crate::calls::{restore_line, show_line};
use crate::words::{Page, say_word};
use evenodd::{Map, Shape};

// Places 0 to 4: the columns of C1.
fn five() -> [bool; 129] {
    let mut places = [false; 129];
    places[0] = true;
    places[1] = true;
    places[2] = true;
    places[3] = true;
    places[4] = true;
    places
}

// All that is asked with the maps of these places and of four pairs of numbers, each how many are present and the highest.
fn four_maps(
    out: &mut Page,
    at: usize,
    name: &[u8],
    places: [bool; 129],
    pairs: [(usize, usize); 4],
) -> usize {
    let mut next = at;
    for (present, highest) in pairs {
        let map = Map::of_parts(places, present, highest);
        next = map_lines(out, next, name, map);
    }
    next
}

// All columns are present: the count and the highest place are right, one off, right in their last byte, and far out.
pub(crate) fn five_present(out: &mut Page, at: usize) -> usize {
    let places = five();
    let most = 18446744073709551615;
    let a = four_maps(out, at, b"five", places, [(5, 4), (4, 4), (6, 4), (4, 5)]);
    let b = four_maps(out, a, b"five", places, [(5, 3), (5, 5), (5, 129), (0, 0)]);
    let c = four_maps(
        out,
        b,
        b"five",
        places,
        [(261, 4), (5, 260), (5, 0), (0, 129)],
    );
    four_maps(
        out,
        c,
        b"five",
        places,
        [(most, 4), (5, most), (most, most), (4, 3)],
    )
}

// No place is present.
pub(crate) fn none_present(out: &mut Page, at: usize) -> usize {
    let most = 18446744073709551615;
    let a = four_maps(
        out,
        at,
        b"none",
        [false; 129],
        [(0, 129), (0, 0), (0, 128), (1, 129)],
    );
    four_maps(
        out,
        a,
        b"none",
        [false; 129],
        [(0, 130), (256, 129), (0, most), (most, most)],
    )
}

// A place that is no column's, and columns absent: two, and three.
pub(crate) fn columns_off(out: &mut Page, at: usize) -> usize {
    let mut stray = five();
    stray[5] = true;
    let a = four_maps(out, at, b"stray", stray, [(6, 5), (6, 4), (5, 5), (5, 4)]);
    let mut absent = five();
    absent[0] = false;
    absent[1] = false;
    let b = four_maps(
        out,
        a,
        b"two-absent",
        absent,
        [(3, 4), (2, 4), (5, 4), (3, 2)],
    );
    absent[2] = false;
    four_maps(
        out,
        b,
        b"three-absent",
        absent,
        [(2, 4), (3, 4), (5, 4), (2, 129)],
    )
}

// Every place is present, and the last alone.
pub(crate) fn last_place(out: &mut Page, at: usize) -> usize {
    let mut last = [false; 129];
    last[128] = true;
    let a = four_maps(
        out,
        at,
        b"all",
        [true; 129],
        [(129, 128), (129, 129), (128, 128), (130, 128)],
    );
    four_maps(
        out,
        a,
        b"last",
        last,
        [(1, 128), (1, 127), (1, 129), (2, 128)],
    )
}

// A map that lies beside a wrong number of the shape, and beside a stripe of another length: restore.
pub(crate) fn restore_faults(out: &mut Page, at: usize) -> usize {
    let c1 = [1u8, 2, 4, 8, 16, 32, 21, 42, 57, 30];
    let map = Map::of_parts(five(), 4, 4);
    let a = say_word(out, at, b"m+lie");
    let b = restore_line(out, a, Shape { m: 9, k: 3, b: 1 }, map, &c1);
    let c = say_word(out, b, b"k+lie");
    let d = restore_line(out, c, Shape { m: 3, k: 4, b: 1 }, map, &c1);
    let e = say_word(out, d, b"b+lie");
    let f = restore_line(out, e, Shape { m: 3, k: 3, b: 0 }, map, &c1);
    let g = say_word(out, f, b"length+lie");
    restore_line(out, g, Shape { m: 3, k: 3, b: 1 }, map, &c1[0..9])
}

// Beside a wrong m, a bench of another length, and a column and a place from k + 2 on: show.
pub(crate) fn show_faults(out: &mut Page, at: usize) -> usize {
    let bench = [161u8, 162, 163, 164];
    let map = Map::of_parts(five(), 4, 4);
    let mut six = five();
    six[5] = true;
    let stray = Map::of_parts(six, 5, 5);
    let a = say_word(out, at, b"m+lie");
    let b = show_line(out, a, Shape { m: 9, k: 3, b: 1 }, map, &bench, 0);
    let c = say_word(out, b, b"bench+lie");
    let d = show_line(out, c, Shape { m: 3, k: 3, b: 1 }, map, &bench[0..1], 0);
    let e = say_word(out, d, b"column+lie");
    let f = show_line(out, e, Shape { m: 3, k: 3, b: 1 }, map, &bench, 9);
    let g = say_word(out, f, b"column+lie+stray");
    show_line(out, g, Shape { m: 3, k: 3, b: 1 }, stray, &bench, 9)
}
