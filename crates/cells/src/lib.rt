// Runs of bytes: added (exclusive or), copied, cleared and tested, byte for byte.
// `add_within`, `add_through` and `exchange` go by index, within one slice. The runs of the first may overlap, so that no two parts can be lent at once; those of
// the others would be split off one after another, to be gone through side by side, which is no plainer.
#![tactic(auto)]

ghost use Rattle.std.specs.Prelude.{◌≡◌, ◌↔◌, true, ℕ, ◌+◌, ◌≤◌, ◌<◌, length, get_or};
ghost use Rattle.parity.specs.Xor.{◌⊕◌};
ghost use Rattle.cells.specs.Runs.{Added, Put, Through, Exchanged, Tells, First, Zeros};

// Adds cell to acc, by index: of a loop over `acc.iter_mut().zip(cell)` no proof closes, since nothing is known of the bytes after it but how many they are.
pub fn xor_into(acc: &mut [u8], cell: &[u8])
    requires { length cell.now ≡ length acc.old }
    ensures { Added acc.old acc.new (λ l. get_or cell.now l 0) }
{
    for (j, &byte) in cell.iter().enumerate() {
        acc[j] ^= byte;
    }
}

// Clears acc. `fill` takes 1.2 to 1.7 of the time of this loop up to 512 bytes, and as long at 4,096.
pub fn zero(acc: &mut [u8])
    ensures { Put acc.old acc.new 0 (length acc.old) (λ l. 0) }
{
    for byte in acc.iter_mut() {
        *byte = 0;
    }
}

// Copies src to dst, as `copy_from_slice` does: that is a call, and where a sum is put back block after block it makes encode and check of cells of 16 to 128
// bytes take 1.04 to 1.08 of their time.
pub fn copy_into(dst: &mut [u8], src: &[u8])
    requires { length src.now ≡ length dst.old }
    ensures { dst.new ≡ src.now }
{
    for (j, &byte) in src.iter().enumerate() {
        dst[j] = byte;
    }
}

// acc becomes the bytes of w from `from` on. Past the end of w there are none, and acc becomes zero.
pub fn take(acc: &mut [u8], w: &[u8], from: usize)
    requires { from < length w.now → from + length acc.old ≤ length w.now }
    ensures { Put acc.old acc.new 0 (length acc.old) (λ l. get_or w.now (from + l) 0) }
{
    if from < w.len() {
        copy_into(acc, &w[from..from + acc.len()]);
    } else {
        zero(acc);
    }
}

// The bytes of x or-ed together: 0 exactly when each is.
pub fn any(x: &[u8]) -> u8
    ensures { Tells result (length x.now) (λ l. get_or x.now l 0) }
{
    x.iter().fold(0, |o, v| o | *v)
}

// A place in x before which all bytes are zero, found in blocks of 64 bytes: where the first begins that is not zero, or where fewer bytes are left.
fn skip_zeros(x: &[u8]) -> usize
    ensures { (result ≤ length x.now) × ((l : ℕ) → l < result → get_or x.now l 0 ≡ 0) }
{
    let blocks = x
        .chunks_exact(64)
        .position(|block| any(block) != 0)
        .unwrap_or(x.len() / 64);
    64 * blocks
}

// The place of the first byte of x that is not zero.
pub fn find_set(x: &[u8]) -> Option<usize>
    ensures { First result (length x.now) (λ l. get_or x.now l 0) }
{
    let skipped = skip_zeros(x);
    for (n, &byte) in x[skipped..].iter().enumerate() {
        if byte != 0 {
            return Some(skipped + n);
        }
    }
    None
}

// Whether every byte of x is zero. The look ends at the first that is not, by blocks: `all` over the bytes takes
// 25 times as long at 4,096.
pub fn is_zero(x: &[u8]) -> bool
    ensures { (result ≡ true) ↔ Zeros x.now }
{
    find_set(x).is_none()
}

// Adds the n bytes at `from` to the n bytes at `at`, none of which is written before it is read.
pub fn add_within(w: &mut [u8], at: usize, from: usize, n: usize)
    requires { (at + n ≤ length w.old) × (from + n ≤ length w.old) × (from < at → from + n ≤ at) }
    ensures { Put w.old w.new at n (λ l. get_or w.old (at + l) 0 ⊕ get_or w.old (from + l) 0) }
{
    for l in 0..n {
        w[at + l] = w[at + l] ^ w[from + l];
    }
}

// Adds the n bytes at `from` to the n bytes at `mid`, and these then to the n bytes at `to`. Byte for byte both are done at once: no byte
// at `from` is written before it is read.
pub fn add_through(w: &mut [u8], from: usize, mid: usize, to: usize, n: usize)
    requires { (from + n ≤ mid) × (to + n ≤ mid) × (mid + n ≤ length w.old) × (from < to → from + n ≤ to) }
    ensures { Through w.old w.new from mid to n }
{
    for l in 0..n {
        let x = w[mid + l] ^ w[from + l];
        w[mid + l] = x;
        w[to + l] = w[to + l] ^ x;
    }
}

// The bytes at `at` become those of new, and what they change by is added to as many bytes at `one` and at `two`. Byte for byte all is done at once; all three are
// read before one is written, since cells that lie 4,096 bytes apart hinder one another otherwise.
pub fn exchange(w: &mut [u8], at: usize, one: usize, two: usize, new: &[u8])
    requires { (at + length new.now ≤ one) × (one + length new.now ≤ two) × (two + length new.now ≤ length w.old) }
    ensures { Exchanged w.old w.new at one two (length new.now) (λ l. get_or new.now l 0) }
{
    for (l, &v) in new.iter().enumerate() {
        let x = w[at + l] ^ v;
        let y = w[one + l] ^ x;
        let z = w[two + l] ^ x;
        w[one + l] = y;
        w[two + l] = z;
        w[at + l] = v;
    }
}

// Adds the n bytes of s at `from` to the n bytes of w at `at`.
pub fn add_run(w: &mut [u8], at: usize, s: &[u8], from: usize, n: usize)
    requires { (at + n ≤ length w.old) × (from + n ≤ length s.now) }
    ensures { Put w.old w.new at n (λ l. get_or w.old (at + l) 0 ⊕ get_or s.now (from + l) 0) }
{
    xor_into(&mut w[at..at + n], &s[from..from + n]);
}
