// The numbers that words spell, within the ranges of their places: those that only a source script has.
ghost use Rattle.xc_record.specs.Valid.{is_txn};
ghost use Rattle.xc_script.specs.Words.{Spells};
ghost use Rattle.xc_source_script.specs.Words.{is_sub};

use xc_base::LAST_SUB;
use xc_script::{NoNumber, number_up_to};

// The transaction that a word names.
pub(crate) fn transaction(word: &[u8]) -> Result<Option<u32>, NoNumber>
    ensures { Spells is_txn word.now result }
{
    match number_up_to(word, 4_294_967_295)? {
        Some(txn) if txn >= 1 => Ok(Some(txn as u32)),
        _ => Ok(None),
    }
}

// The subtransaction that a word names.
pub(crate) fn subtransaction(word: &[u8]) -> Result<Option<u8>, NoNumber>
    ensures { Spells is_sub word.now result }
{
    match number_up_to(word, u64::from(LAST_SUB))? {
        Some(sub) if sub >= 1 => Ok(Some(sub as u8)),
        _ => Ok(None),
    }
}
