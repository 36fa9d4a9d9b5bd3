// The beginning of a key as two numbers, which tell most keys apart.
ghost use Rattle.std.specs.Prelude.{◌≡◌, ℕ, List, true, nat_lt, length, IfSome};
ghost use Rattle.std.specs.Cmp.Lexicographic.{slice_cmp};
ghost use Rattle.std.specs.Ordering.{nat_cmp};
ghost use Rattle.xc_base.specs.Names.{are_bytes};
ghost use Rattle.xc_versions.specs.Heads.{beginning, head_of};

use std::cmp::Ordering;
use xc_base::word_at;

/// The first bytes of a key that stand in its head.
const HEAD_BYTES: usize = 15;

/// The first 15 bytes of a key, with zeros behind a shorter one, and then its length, or 16 where it is longer: the
/// numbers that the first eight and the last eight of these spell, the greatest first.
#[derive(Clone, Copy, Debug, Default)]
pub(crate) struct Head {
    pub(crate) front: u64,
    pub(crate) back: u64,
}

// The bytes that the head spells.
#[inline]
fn beginning(key: &[u8]) -> [u8; 16]
    ensures { result ≡ beginning key.now }
{
    let mut bytes = [0u8; 16];
    let count = key.len().min(HEAD_BYTES);
    bytes[..count].copy_from_slice(&key[..count]);
    bytes[HEAD_BYTES] = key.len().min(HEAD_BYTES + 1) as u8;
    bytes
}

impl Head {
    /// The head of the key.
    #[inline]
    pub(crate) fn of(key: &[u8]) -> Head
        ensures { result ≡ head_of key.now }
    {
        let bytes = beginning(key);
        Head {
            front: word_at(&bytes, 0),
            back: word_at(&bytes, 8),
        }
    }

    // Whether no byte of the key is left out.
    #[inline]
    fn is_whole(&self) -> bool
        ensures { (k : List ℕ) → self.now ≡ head_of k → result ≡ nat_lt (length k) 16 }
    {
        self.back % 256 <= HEAD_BYTES as u64
    }

    /// How the keys of two heads compare. None comes where the heads don't tell: keys of more than 15 bytes that begin
    /// alike.
    #[inline]
    pub(crate) fn order(&self, other: &Head) -> Option<Ordering>
        ensures { (k q : List ℕ) → are_bytes k ≡ true → are_bytes q ≡ true → self.now ≡ head_of k
            → other.now ≡ head_of q → IfSome result (λ order. order ≡ slice_cmp nat_cmp k q) }
    {
        let (back, other_back) = (self.back, other.back);
        if self.front != other.front {
            return Some(self.front.cmp(&other.front));
        }
        if back != other_back {
            return Some(back.cmp(&other_back));
        }
        if self.is_whole() {
            Some(Ordering::Equal)
        } else {
            None
        }
    }
}
