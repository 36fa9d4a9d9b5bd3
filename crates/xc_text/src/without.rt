// The subtransactions that an apply's line names as rolled back.
ghost use Rattle.std.specs.Prelude.{◌≡◌, true, is_some, if◌then◌else◌, Some, None};
ghost use Rattle.xc_text.specs.Kinds.{Answers};
ghost use Rattle.xc_text.specs.Lines.{all_numbers, subs_in, without_in};
ghost use Rattle.xc_text.specs.declared.kind.Fail.TheVariants.{Bad};

use crate::cut::{Words, number};
use crate::kind::{Fail, LogKind};
use xc_base::LAST_SUB;
use xc_record::Subs;

// Whether each word that is left spells a number.
fn all_are_numbers(mut words: Words<'_>) -> bool
    ensures { result ≡ is_some (all_numbers words.entry) }
{
    'words: while let Some(word) = words.next() {
        if number(word).is_err() {
            return false;
        }
    }
    true
}

// Why numbers are refused of which one isn't above those before it or is too large, and these words are left.
fn misplaced(words: Words<'_>) -> Fail
    ensures { result ≡ Bad (if is_some (all_numbers words.entry) then LogKind.Number else LogKind.Form) }
{
    if all_are_numbers(words) {
        Fail::Bad(LogKind::Number)
    } else {
        Fail::Bad(LogKind::Form)
    }
}

// The numbers that the words spell, one at least.
#[inline(never)]
fn read_subs(mut words: Words<'_>) -> Result<Subs, Fail>
    ensures { Answers (λ subs. subs) result (subs_in words.entry) }
{
    let mut subs = Subs::new();
    let mut last = 0u64;
    'words: while let Some(word) = words.next() {
        let sub = number(word)?;
        if sub <= last || sub > LAST_SUB as u64 {
            return Err(misplaced(words));
        }
        subs.insert(sub as u8);
        last = sub;
    }
    if last == 0 {
        return Err(Fail::Bad(LogKind::Form));
    }
    Ok(subs)
}

// `without` and the numbers, or nothing.
#[tactic(auto, unfolding(crate::specs::Lines::without_in, crate::specs::Lines::subs_in))]
#[inline(always)]
pub(crate) fn read_without(mut words: Words<'_>) -> Result<Subs, Fail>
    ensures { Answers (λ subs. subs) result (without_in words.entry) }
{
    let Some(word) = words.next() else {
        return Ok(Subs::new());
    };
    if word != b"without".as_slice() {
        return Err(Fail::Bad(LogKind::Form));
    }
    read_subs(words)
}
