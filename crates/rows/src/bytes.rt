// Numbers in bytes, the highest byte first. A byte past the end counts as zero, so nothing is asked of a caller.
ghost use Rattle.std.specs.Prelude.{◌≡◌, ℕ, ◌+◌, ◌*◌, ◌<◌, slice_index};
ghost use Rattle.rows.specs.Bytes.{word_at, number_at, signed};

use std::array::from_fn;

// The byte at an offset, or zero past the end.
pub fn byte_at(bytes: &[u8], at: usize) -> u8
    ensures { result ≡ slice_index bytes.now at }
{
    bytes.get(at).copied().unwrap_or(0)
}

// The N bytes from an offset on.
fn bytes_at<const N: usize>(bytes: &[u8], at: usize) -> [u8; N]
    ensures { (k : ℕ) → k < N → slice_index result k ≡ slice_index bytes.now (at + k) }
{
    from_fn(|index| byte_at(bytes, at.saturating_add(index)))
}

// The number in two bytes.
pub fn word_at(bytes: &[u8], at: usize) -> u16
    ensures { result ≡ word_at bytes.now at }
{
    u16::from_be_bytes(bytes_at(bytes, at))
}

// The signed number in four bytes, in two's complement.
pub fn number_at(bytes: &[u8], at: usize) -> i64
    ensures { result ≡ number_at bytes.now at }
{
    i64::from(i32::from_be_bytes(bytes_at(bytes, at)))
}
