// Whether a stripe is blank.
ghost use Rattle.std.specs.Prelude.{◌≡◌, ◌↔◌, true, ◌≤◌, length};
ghost use Rattle.cells.specs.Runs.{Zeros};

// Whether every byte of the stripe is zero. H and D, which stand from `parity` on, are looked at first: of a valid stripe that is not blank they are hardly ever
// zero, however late its data begin.
pub(crate) fn is_blank(stripe: &[u8], parity: usize) -> bool
    requires { parity ≤ length stripe.now }
    ensures { (result ≡ true) ↔ Zeros stripe.now }
{
    let end = stripe.len();
    if cells::is_zero(&stripe[parity..end]) {
        return cells::is_zero(&stripe[0..parity]);
    }
    false
}
