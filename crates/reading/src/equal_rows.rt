//! Rows of bytes that are equal.
ghost use Rattle.std.specs.Prelude.{◌≡◌, ℕ, ◌+◌, ◌-◌, ◌*◌, ◌<◌, ◌≤◌, length, slice_index};

/// Returns how many of `count` rows of `size` bytes are equal from the first on, which begins at `place`; each begins
/// `stride` bytes after the one before.
#[inline(never)]
pub fn equal_rows(bytes: &[u8], place: usize, size: usize, stride: usize, count: usize) -> usize
    requires some { 0 < count }
    requires inside { place + (count - 1) * stride + size ≤ length bytes.now }
    ensures some { 0 < result }
    ensures most { result ≤ count }
    ensures equal { (k x : ℕ) → k < result → x < size
        → slice_index bytes.now (place + k * stride + x) ≡ slice_index bytes.now (place + x) }
{
    let first = &bytes[place..place + size];
    for k in 1..count {
        let next = place + k * stride;
        if first != &bytes[next..next + size] {
            return k;
        }
    }
    count
}
