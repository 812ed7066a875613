// The shape check.
ghost use Rattle.std.specs.Prelude.{◌≡◌};
ghost use Rattle.inputs.specs.Shapes.{Judges};

use refusals::Refusal;

// The three numbers of a shape, whatever they are: `judge` says whether they are one.
#[derive(Clone, Copy, Debug, PartialEq, Eq)]
pub struct Shape {
    pub m: usize,
    pub k: usize,
    pub b: usize,
}

// Judges three numbers: m alone, then k against m, then b alone. Of a shape that keeps the rules it says how many bytes a column has.
pub fn judge(shape: Shape) -> Result<usize, Refusal>
    ensures { Judges shape.m shape.k shape.b result }
{
    let Shape { m, k, b } = shape;
    if !parity::is_accepted(m) {
        return Err(Refusal::WrongM);
    }
    if k == 0 || m < k {
        return Err(Refusal::WrongK);
    }
    if b == 0 || 4096 < b {
        return Err(Refusal::WrongB);
    }
    Ok((m - 1) * b)
}
