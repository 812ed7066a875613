// The calls for programs in C, as include/oarwillow.h has them. Each hands its arguments on, returns the number of the refusal or 0,
// and writes its other results behind the pointers, on a refusal too. The two lengths are returned themselves, and are 0 for numbers outside their rules.
#![tactic(auto)]

ghost use Rattle.std.specs.Prelude.{◌≡◌};
ghost use Rattle.refusals.specs.Refusals.{verdict_of, answer_number};
ghost use Rattle.oarwillow.specs.Calls.{EncodeGives, CheckGives, RestoreGives, LocateGives, RewriteGives, ChangeGives, ChangesGives, ShowGives, ContentsWritten, ContentsGives, ReadGives, WriteGives, WalkGives, GapsGives, StripeLengthGives, BenchLengthGives};

use evenodd::{Checked, Gaps, ListRefusal, Located, Map, Place, Refusal, Shape};
use image::Contents;
use image_walker::Found;

// The number of an answer: 0 where the call passes, otherwise the refusal's.
fn number_of<T: Drop>(answer: Result<T, Refusal>) -> u8
    ensures { result ≡ answer_number (verdict_of answer) }
{
    answer.map_or_else(Refusal::number, |_| 0)
}

// Writes H and D.
#[unsafe(no_mangle)]
pub extern "C" fn oarwillow_encode(m: usize, k: usize, b: usize, stripe: &mut [u8]) -> u8
    ensures { EncodeGives m k b stripe.old stripe.new result }
{
    number_of(evenodd::encode(Shape { m, k, b }, stripe))
}

// Counts the rows whose H equation breaks and the numbers whose D equation breaks, and tells a blank stripe from an intact one.
#[unsafe(no_mangle)]
pub extern "C" fn oarwillow_check(
    m: usize,
    k: usize,
    b: usize,
    stripe: &[u8],
    rows: &mut usize,
    diagonals: &mut usize,
    found: &mut u8,
) -> u8
    ensures { CheckGives m k b stripe.now rows.new diagonals.new found.new result }
{
    let answer = evenodd::check(Shape { m, k, b }, stripe);
    (*rows, *diagonals) = match answer {
        Ok(Checked::Broken { rows, diagonals }) => (rows, diagonals),
        _ => (0, 0),
    };
    *found = answer.map_or(0, Checked::found);
    number_of(answer)
}

// Restores the absent columns to the bench.
#[unsafe(no_mangle)]
pub extern "C" fn oarwillow_restore(
    m: usize,
    k: usize,
    b: usize,
    places: &[u8; 129],
    stripe: &[u8],
    bench: &mut [u8],
    count: &mut usize,
    first: &mut usize,
    second: &mut usize,
) -> u8
    ensures { RestoreGives m k b places.now stripe.now bench.old bench.new count.new first.new second.new result }
{
    let map = Map::of_bytes(places);
    let answer = evenodd::restore(Shape { m, k, b }, map, stripe, bench);
    let filled = answer.unwrap_or(Gaps {
        count: 0,
        first: 129,
        second: 129,
    });
    *count = filled.count;
    *first = filled.first;
    *second = filled.second;
    number_of(answer)
}

// Says which column is wrong.
#[unsafe(no_mangle)]
pub extern "C" fn oarwillow_locate(
    m: usize,
    k: usize,
    b: usize,
    stripe: &[u8],
    found: &mut u8,
    column: &mut usize,
) -> u8
    ensures { LocateGives m k b stripe.now found.new column.new result }
{
    let answer = evenodd::locate(Shape { m, k, b }, stripe);
    *found = answer.map_or(0, Located::found);
    *column = answer.map_or(129, Located::column);
    number_of(answer)
}

// Rewrites the column that is named.
#[unsafe(no_mangle)]
pub extern "C" fn oarwillow_rewrite(
    m: usize,
    k: usize,
    b: usize,
    stripe: &mut [u8],
    column: usize,
) -> u8
    ensures { RewriteGives m k b stripe.old stripe.new column result }
{
    number_of(evenodd::rewrite(Shape { m, k, b }, stripe, column))
}

// Changes one cell of a data column.
#[unsafe(no_mangle)]
pub extern "C" fn oarwillow_change(
    m: usize,
    k: usize,
    b: usize,
    stripe: &mut [u8],
    column: usize,
    row: usize,
    cell: &[u8],
) -> u8
    ensures { ChangeGives m k b stripe.old stripe.new column row cell.now result }
{
    number_of(evenodd::change(Shape { m, k, b }, stripe, column, row, cell))
}

// Changes up to 256 cells of data columns in list order, or none.
#[unsafe(no_mangle)]
pub extern "C" fn oarwillow_changes(
    m: usize,
    k: usize,
    b: usize,
    stripe: &mut [u8],
    columns: &[usize],
    rows: &[usize],
    cells: &[u8],
    item: &mut usize,
) -> u8
    ensures { ChangesGives m k b stripe.old stripe.new columns.now rows.now cells.now item.new result }
{
    let answer = evenodd::changes(Shape { m, k, b }, stripe, columns, rows, cells);
    *item = answer.map_or_else(ListRefusal::item, |_| 256);
    number_of(answer.map_err(ListRefusal::refusal))
}

// Says where a column lies.
#[unsafe(no_mangle)]
pub extern "C" fn oarwillow_show(
    m: usize,
    k: usize,
    b: usize,
    places: &[u8; 129],
    stripe: &[u8],
    bench: &[u8],
    column: usize,
    from_bench: &mut usize,
    start: &mut usize,
    length: &mut usize,
) -> u8
    ensures { ShowGives m k b places.now stripe.now bench.now column from_bench.new start.new length.new result }
{
    let map = Map::of_bytes(places);
    let answer = evenodd::place_of(Shape { m, k, b }, map, stripe, bench, column);
    (*from_bench, *start, *length) = match answer {
        Ok(Place::InStripe { start, length }) => (0, start, length),
        Ok(Place::InBench { start, length }) => (1, start, length),
        Err(_) => (0, 0, 0),
    };
    number_of(answer)
}

// Writes what was found of a shelf image: its map in bytes and its shape, a new map and 0 0 0 where it is refused. Returns the number.
fn write_contents(
    answer: Result<Contents, Refusal>,
    places: &mut [u8; 129],
    m: &mut usize,
    k: &mut usize,
    b: &mut usize,
) -> u8
    ensures { ContentsWritten answer places.new m.new k.new b.new result }
{
    let Contents { shape, map } = answer.unwrap_or(Contents {
        shape: Shape { m: 0, k: 0, b: 0 },
        map: Map::new(),
    });
    *places = map.bytes();
    *m = shape.m;
    *k = shape.k;
    *b = shape.b;
    number_of(answer)
}

// Says what a shelf image has, its shape and its map, without a stripe.
#[unsafe(no_mangle)]
pub extern "C" fn oarwillow_contents(
    image: &[u8],
    places: &mut [u8; 129],
    m: &mut usize,
    k: &mut usize,
    b: &mut usize,
) -> u8
    ensures { ContentsGives image.now places.new m.new k.new b.new result }
{
    write_contents(image::contents(image), places, m, k, b)
}

// Reads a shelf image into a stripe.
#[unsafe(no_mangle)]
pub extern "C" fn oarwillow_read(
    image: &[u8],
    stripe: &mut [u8],
    places: &mut [u8; 129],
    m: &mut usize,
    k: &mut usize,
    b: &mut usize,
) -> u8
    ensures { ReadGives image.now stripe.old stripe.new places.new m.new k.new b.new result }
{
    write_contents(image::read(image, stripe), places, m, k, b)
}

// Writes the shelf image of a stripe's present columns.
#[unsafe(no_mangle)]
pub extern "C" fn oarwillow_write(
    m: usize,
    k: usize,
    b: usize,
    places: &[u8; 129],
    stripe: &[u8],
    image: &mut [u8],
    length: &mut usize,
) -> u8
    ensures { WriteGives m k b places.now stripe.now image.old image.new length.new result }
{
    let map = Map::of_bytes(places);
    let answer = image_writer::write(Shape { m, k, b }, map, stripe, image);
    *length = answer.unwrap_or(0);
    number_of(answer)
}

// Says where the first present column at or after a place lies in a shelf image, and moves the place on.
#[unsafe(no_mangle)]
pub extern "C" fn oarwillow_walk(
    image: &[u8],
    place: &mut usize,
    column: &mut usize,
    start: &mut usize,
    length: &mut usize,
) -> u8
    ensures { WalkGives image.now place.old place.new column.new start.new length.new result }
{
    let step = image_walker::step_at(image, *place);
    let found = step.found.unwrap_or(None).unwrap_or(Found {
        column: 129,
        start: 0,
        length: 0,
    });
    *place = step.next;
    *column = found.column;
    *start = found.start;
    *length = found.length;
    number_of(step.found)
}

// Says what a map knows: how many places are present and the highest of them, how many of the columns are absent and the two lowest of these. There
// are k + 2 columns, and no more than the map's 129 places.
#[unsafe(no_mangle)]
pub extern "C" fn oarwillow_gaps(
    k: usize,
    places: &[u8; 129],
    present: &mut usize,
    highest: &mut usize,
    absent: &mut usize,
    first: &mut usize,
    second: &mut usize,
) -> u8
    ensures { GapsGives k places.now present.new highest.new absent.new first.new second.new result }
{
    let map = Map::of_bytes(places);
    let gaps = map.gaps(k.min(127) + 2);
    *present = map.present;
    *highest = map.highest;
    *absent = gaps.count;
    *first = gaps.first;
    *second = gaps.second;
    0
}

// How many bytes a stripe of that shape has; 0 where the three numbers are no shape. A match: of a closure the product would ask for a clause of its own.
#[unsafe(no_mangle)]
pub extern "C" fn oarwillow_stripe_length(m: usize, k: usize, b: usize) -> usize
    ensures { StripeLengthGives m k b result }
{
    match evenodd::judge(Shape { m, k, b }) {
        Ok(column) => (k + 2) * column,
        Err(_) => 0,
    }
}

// How many bytes a bench has for that m and b; 0 where one of them is outside its rule. A bench is two columns whatever k is: k = 1 is asked, which is
// right for every m.
#[unsafe(no_mangle)]
pub extern "C" fn oarwillow_bench_length(m: usize, b: usize) -> usize
    ensures { BenchLengthGives m b result }
{
    match evenodd::judge(Shape { m, k: 1, b }) {
        Ok(column) => 2 * column,
        Err(_) => 0,
    }
}
