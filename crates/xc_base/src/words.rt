// The bytes of two keys compared eight at a time, as numbers.
ghost use Rattle.std.specs.Prelude.{◌≡◌, ◌+◌, ◌≤◌, length};
ghost use Rattle.std.specs.Cmp.Lexicographic.{slice_cmp};
ghost use Rattle.std.specs.Ordering.{nat_cmp};
ghost use Rattle.std.specs.Simd.Lanes.{chunk};
ghost use Rattle.std.specs.Slice.Scan.{big_endian};

use crate::limits::KEY_BYTES;
use std::cmp::Ordering;

/// The number that the eight bytes from i on spell, the greatest first.
#[inline]
pub fn word_at(bytes: &[u8], i: usize) -> u64
    requires { i + 8 ≤ length bytes.now }
    ensures { result ≡ big_endian 0 (chunk i 8 bytes.now) }
{
    u64::from_be_bytes([
        bytes[i],
        bytes[i + 1],
        bytes[i + 2],
        bytes[i + 3],
        bytes[i + 4],
        bytes[i + 5],
        bytes[i + 6],
        bytes[i + 7],
    ])
}

// By the first byte that differs.
#[inline]
pub(crate) fn order(a: &[u8; KEY_BYTES], b: &[u8; KEY_BYTES]) -> Ordering
    ensures { result ≡ slice_cmp nat_cmp a.now b.now }
{
    let (x, y) = (word_at(a, 0), word_at(b, 0));
    if x != y {
        return x.cmp(&y);
    }
    let (x, y) = (word_at(a, 8), word_at(b, 8));
    if x != y {
        return x.cmp(&y);
    }
    let (x, y) = (word_at(a, 16), word_at(b, 16));
    if x != y {
        return x.cmp(&y);
    }
    word_at(a, 24).cmp(&word_at(b, 24))
}
