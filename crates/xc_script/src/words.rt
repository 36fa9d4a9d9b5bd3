// The words of a line, and the bounds and keys that they spell.
ghost use Rattle.std.specs.Prelude.{◌≡◌, true, false, map, IfOk, MatchResult};
ghost use Rattle.std.specs.List.{list_all};
ghost use Rattle.xc_base.specs.Words.{split_on};
ghost use Rattle.xc_script.specs.Kinds.{Answers};
ghost use Rattle.xc_script.specs.Words.{is_word, key_fits, key_of, bounds_in, keys_in};
ghost use Rattle.xc_script.specs.declared.kind.Fail.TheVariants.{Bad};

use crate::kind::{Fail, ScriptKind};
use crate::numbers::hash;
use crate::reading::Version;
use crate::script::{Bounds, Keys};
use std::alloc::{AllocError, Global};
use xc_base::{Key, read_key};

/// The bytes in pieces, cut at each separator: one at least, and an empty one where two separators touch.
pub fn pieces<'a>(
    alloc: Global,
    bytes: &'a [u8],
    separator: u8,
) -> Result<Vec<&'a [u8]>, AllocError>
    ensures { IfOk result (λ pieces. map (λ piece. piece.now) pieces.items ≡ split_on separator bytes.now) }
{
    bytes.split(|byte| *byte == separator).collect(alloc)
}

/// Whether no word is empty, as it would be between two spaces, before the first or behind the last.
pub fn are_words(words: &[&[u8]]) -> bool
    ensures { result ≡ list_all is_word (map (λ word. word.now) words.now) }
{
    for word in words {
        if word.is_empty() {
            return false;
        }
    }
    true
}

// The key whose word this is.
pub(crate) fn key(version: Version, word: &[u8]) -> Result<Key, Fail>
    ensures { MatchResult result (λ key. (key ≡ key_of version word.now) × (key_fits version word.now ≡ true))
        (λ e. (e ≡ Bad ScriptKind.Key) × (key_fits version word.now ≡ false)) }
{
    let key = match version {
        Version::One => Key::new(word),
        Version::Two => read_key(word),
    };
    match key {
        Ok(key) => Ok(key),
        Err(_) => Err(Fail::Bad(ScriptKind::Key)),
    }
}

// The hashes that the words name, one at least.
#[tactic(auto, unfolding(crate::specs::Words::bounds_in))]
pub(crate) fn read_bounds(alloc: Global, words: &[&[u8]]) -> Result<Bounds, Fail>
    ensures { Answers (λ bounds. bounds) result (bounds_in (map (λ word. word.now) words.now)) }
{
    if words.is_empty() {
        return Err(Fail::Bad(ScriptKind::Form));
    }
    let mut bounds = Bounds::new(alloc);
    let mut all_fit = true;
    for word in words {
        match hash(word)? {
            Some(bound) => bounds.push(bound)?,
            None => all_fit = false,
        }
    }
    if !all_fit {
        return Err(Fail::Bad(ScriptKind::Number));
    }
    Ok(bounds)
}

// The keys whose words these are, one at least.
#[tactic(auto, unfolding(crate::specs::Words::keys_in))]
pub(crate) fn read_keys(alloc: Global, version: Version, words: &[&[u8]]) -> Result<Keys, Fail>
    ensures { Answers (λ keys. keys) result (keys_in version (map (λ word. word.now) words.now)) }
{
    if words.is_empty() {
        return Err(Fail::Bad(ScriptKind::Form));
    }
    let mut keys = Keys::new(alloc);
    for word in words {
        keys.push(key(version, word)?)?;
    }
    Ok(keys)
}
