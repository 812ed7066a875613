// The accepted values of m.
#![tactic(auto)]

ghost use Rattle.std.specs.Prelude.{◌≡◌};
ghost use Rattle.parity.specs.Shape.{accepted, member};

const ACCEPTED: [usize; 30] = [
    3, 5, 7, 11, 13, 17, 19, 23, 29, 31, 37, 41, 43, 47, 53, 59, 61, 67, 71, 73, 79, 83, 89, 97,
    101, 103, 107, 109, 113, 127,
];

// Whether m is one of the thirty accepted values.
pub fn is_accepted(m: usize) -> bool
    ensures { result ≡ member m accepted }
{
    ACCEPTED.contains(&m)
}
