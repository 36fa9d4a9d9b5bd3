ghost use Rattle.std.specs.Prelude.{◌≡◌, ◌≤◌, ◌<◌, ◌+◌, ◌*◌, ◌%◌, ℕ};
ghost use Rattle.xc_record.specs.Hash.{hash_of};

use xc_base::Key;

/// The hash of a key, which says what tablet holds its row: from 0, for each byte 31 times the hash so far plus the
/// byte, modulo 65536.
pub fn hash(key: &Key) -> u16
    ensures { result ≡ hash_of key.now }
{
    hash_bytes(key.bytes())
}

/// The hash of a key from its bytes.
#[inline]
#[tactic(auto, unfolding(crate::specs::Hash::hash_of))]
pub fn hash_bytes(key: &[u8]) -> u16
    ensures { result ≡ hash_of key.now }
{
    let mut h: u32 = 0;
    for byte in key {
        h = (31 * h + u32::from(*byte)) % 65_536;
    }
    h as u16
}

/// The hash of the bytes so far and one more, where `hash` is that of the bytes so far, and 0 that of none.
#[inline(always)]
pub fn hash_with(hash: u16, byte: u8) -> u16
    ensures { result ≡ (31 * hash + byte) % 65536 }
{
    ((31 * u32::from(hash) + u32::from(byte)) % 65_536) as u16
}
