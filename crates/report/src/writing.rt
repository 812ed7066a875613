// The lines of a report, each written at a place of a lent buffer; the answer is the place after it. What a flag says is one word of a line, so it is handed to one
// `if`. In the loop t is the column's number, which is written and which show is asked for.
ghost use Rattle.std.specs.Prelude.{◌+◌, ◌*◌, ◌≤◌, ◌<◌, length};
ghost use Rattle.parity.specs.Shape.{column_length};
ghost use Rattle.parity.specs.Presence.{present};
ghost use Rattle.text.specs.Text.{Wrote};
ghost use Rattle.judging.specs.Shown.{shown};
ghost use Rattle.report.specs.Lines.{field, shape_line, answer_line, done_line, state_word, column_line, column_lines};

use evenodd::Shape;
use judging::Columns;

// Writes a number, and the byte that follows it.
fn put_field(out: &mut [u8], at: usize, n: usize, mark: u8) -> usize
    requires { (n < 10000) × (at + 5 ≤ length out.old) }
    ensures { Wrote out.old out.new at result (field n mark) × (result ≤ at + 5) }
{
    let next = text::put_decimal(out, at, n);
    text::put_byte(out, next, mark)
}

// Writes the shape's line.
pub(crate) fn put_shape(out: &mut [u8], at: usize, shape: Shape) -> usize
    requires { (shape.m < 10000) × (shape.k < 10000) × (shape.b < 10000) × (at + 21 ≤ length out.old) }
    ensures { Wrote out.old out.new at result (shape_line shape.m shape.k shape.b) × (result ≤ at + 21) }
{
    let first = text::put_word(out, at, b"shape ");
    let second = put_field(out, first, shape.m, 32);
    let third = put_field(out, second, shape.k, 32);
    put_field(out, third, shape.b, 10)
}

// Writes the answer's line.
pub(crate) fn put_answer(out: &mut [u8], at: usize, number: u8) -> usize
    requires { at + 12 ≤ length out.old }
    ensures { Wrote out.old out.new at result (answer_line number) × (result ≤ at + 12) }
{
    let next = text::put_word(out, at, b"answer ");
    put_field(out, next, number as usize, 10)
}

// Writes the line of the answer 0, of a stripe that is blank or is not.
pub(crate) fn put_done(out: &mut [u8], at: usize, blank: bool) -> usize
    requires { at + 15 ≤ length out.old }
    ensures { Wrote out.old out.new at result (done_line blank) × (result ≤ at + 15) }
{
    if blank {
        text::put_word(out, at, b"answer 0 blank\n")
    } else {
        put_answer(out, at, 0)
    }
}

// Writes whether a column was there or is restored.
fn put_state(out: &mut [u8], at: usize, there: bool) -> usize
    requires { at + 10 ≤ length out.old }
    ensures { Wrote out.old out.new at result (state_word there) × (result ≤ at + 10) }
{
    if there {
        text::put_word(out, at, b" present ")
    } else {
        text::put_word(out, at, b" restored ")
    }
}

// Writes a column's line.
fn put_line(out: &mut [u8], at: usize, t: usize, there: bool, column: &[u8]) -> usize
    requires { (t < 10000) × (at + 15 + 2 * length column.now ≤ length out.old) }
    ensures { Wrote out.old out.new at result (column_line t there column.now) × (result ≤ at + 15 + 2 * length column.now) }
{
    let first = text::put_decimal(out, at, t);
    let second = put_state(out, first, there);
    let third = text::put_hex(out, second, column);
    text::put_byte(out, third, 10)
}

// Writes the line of column t.
fn put_column(out: &mut [u8], at: usize, columns: Columns, t: usize) -> usize
    requires { (t < columns.shape.k + 2) × (at + (15 + 2 * column_length columns.shape.m columns.shape.b) ≤ length out.old) }
    ensures { Wrote out.old out.new at result (column_line t (present columns.entry.map.places t) (shown columns.entry.shape.m columns.entry.shape.b columns.entry.map.places columns.entry.stripe.now columns.entry.bench.now t)) × (result ≤ at + (15 + 2 * column_length columns.entry.shape.m columns.entry.shape.b)) }
{
    put_line(out, at, t, columns.map.is_present(t), columns.column(t))
}

// Writes the line of each column.
pub(crate) fn put_columns(out: &mut [u8], at: usize, columns: Columns) -> usize
    requires { at + (columns.shape.k + 2) * (15 + 2 * column_length columns.shape.m columns.shape.b) ≤ length out.old }
    ensures { Wrote out.old out.new at result (column_lines (columns.entry.shape.k + 2) columns.entry.map.places (shown columns.entry.shape.m columns.entry.shape.b columns.entry.map.places columns.entry.stripe.now columns.entry.bench.now)) × (result ≤ at + (columns.entry.shape.k + 2) * (15 + 2 * column_length columns.entry.shape.m columns.entry.shape.b)) }
{
    let mut next = at;
    for t in 0..columns.shape.k + 2 {
        next = put_column(out, next, columns, t);
    }
    next
}
