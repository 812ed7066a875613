// Little-endian numbers in an image.
ghost use Rattle.std.specs.Prelude.{◌≡◌, ◌+◌, ◌≤◌, ◌<◌, length};
ghost use Rattle.image.specs.Reads.{number2};
ghost use Rattle.image.specs.Entries.{number4};

// The number in the two bytes at x.
pub(crate) fn two(image: &[u8], x: usize) -> usize
    requires { x + 2 ≤ length image.now }
    ensures { (result ≡ number2 image.now x) × (result < 65536) }
{
    usize::from(u16::from_le_bytes([image[x], image[x + 1]]))
}

// The number in the four bytes at x.
pub(crate) fn four(image: &[u8], x: usize) -> usize
    requires { x + 4 ≤ length image.now }
    ensures { result ≡ number4 image.now x }
{
    two(image, x) + 65536 * two(image, x + 2)
}
