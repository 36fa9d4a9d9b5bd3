// The numbers that words spell, within the ranges of their places.
ghost use Rattle.std.specs.Prelude.{nat_le};
ghost use Rattle.xc_script.specs.Words.{is_tablet, is_count, is_target, is_hash, is_moment, Spells};

use xc_base::{MOST_RECORDS, MOST_TABLETS, MOST_TARGETS, NumberFail, read_number};

/// A word that spells no number.
#[derive(Clone, Copy, PartialEq, Eq, Debug)]
pub struct NoNumber;

/// The number that a word spells, where it is at most `most`.
pub fn number_up_to(word: &[u8], most: u64) -> Result<Option<u64>, NoNumber>
    ensures { Spells (λ n. nat_le n most) word.now result }
{
    match read_number(word, most) {
        Ok(number) => Ok(Some(number)),
        Err(NumberFail::TooLarge) => Ok(None),
        Err(NumberFail::Spelling) => Err(NoNumber),
    }
}

/// The tablet of a source that a word names.
pub fn tablet(word: &[u8]) -> Result<Option<u32>, NoNumber>
    ensures { Spells is_tablet word.now result }
{
    match number_up_to(word, MOST_TABLETS as u64 - 1)? {
        Some(id) => Ok(Some(id as u32)),
        None => Ok(None),
    }
}

// How many records a word lets a poll take.
pub(crate) fn count(word: &[u8]) -> Result<Option<u64>, NoNumber>
    ensures { Spells is_count word.now result }
{
    match number_up_to(word, MOST_RECORDS as u64)? {
        Some(n) if n >= 1 => Ok(Some(n)),
        _ => Ok(None),
    }
}

// The target tablet that a word names.
pub(crate) fn target(word: &[u8]) -> Result<Option<usize>, NoNumber>
    ensures { Spells is_target word.now result }
{
    match number_up_to(word, MOST_TARGETS as u64 - 1)? {
        Some(last) => Ok(Some(last as usize)),
        None => Ok(None),
    }
}

/// The hash that a word names.
pub fn hash(word: &[u8]) -> Result<Option<u16>, NoNumber>
    ensures { Spells is_hash word.now result }
{
    match number_up_to(word, 65_535)? {
        Some(hash) => Ok(Some(hash as u16)),
        None => Ok(None),
    }
}

/// The time that a word names, which may be 0.
pub fn moment(word: &[u8]) -> Result<Option<u64>, NoNumber>
    ensures { Spells is_moment word.now result }
{
    number_up_to(word, 4_611_686_018_427_387_903)
}
