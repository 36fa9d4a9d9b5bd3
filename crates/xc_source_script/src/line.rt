// The lines before the commands.
ghost use Rattle.std.specs.Prelude.{◌≡◌, map};
ghost use Rattle.xc_source_script.specs.Kinds.{Answers};
ghost use Rattle.xc_source_script.specs.Words.{version_of, start_of, start_in, root_by, root_of, root_in};

use crate::kind::{Fail, SourceKind};
use xc_record::Header;
use xc_script::{hash, moment, tablet};
use xc_text::Version;

// The version that the words after the first one name.
pub(crate) fn read_version(words: &[&[u8]]) -> Option<Version>
    ensures { result ≡ version_of (map (λ word. word.now) words.now) }
{
    match words {
        [word] if *word == b"1".as_slice() => Some(Version::One),
        [word] if *word == b"2".as_slice() => Some(Version::Two),
        _ => None,
    }
}

// The time that the words after the first one name.
pub(crate) fn read_start(words: &[&[u8]]) -> Result<u64, Fail>
    ensures { Answers (λ time. time) result (start_in (start_of (map (λ word. word.now) words.now))) }
{
    match words {
        [word] => match moment(word)? {
            Some(time) => Ok(time),
            None => Err(Fail::Bad(SourceKind::Number)),
        },
        _ => Err(Fail::Bad(SourceKind::Form)),
    }
}

// The root that the words after the first one name.
#[tactic(auto, unfolding(crate::specs::Words::root_of))]
pub(crate) fn read_root(words: &[&[u8]]) -> Result<Header, Fail>
    ensures { Answers (λ header. header) result (root_in (root_of (map (λ word. word.now) words.now))) }
{
    match words {
        [id, lo, hi, root] if *root == b"root".as_slice() => root_from(id, lo, hi),
        _ => Err(Fail::Bad(SourceKind::Form)),
    }
}

fn root_from(id: &[u8], lo: &[u8], hi: &[u8]) -> Result<Header, Fail>
    ensures { Answers (λ header. header) result (root_in (root_by id.now lo.now hi.now)) }
{
    match (tablet(id)?, hash(lo)?, hash(hi)?) {
        (Some(id), Some(lo), Some(hi)) => Ok(Header {
            id,
            lo,
            hi,
            parent: None,
        }),
        _ => Err(Fail::Bad(SourceKind::Number)),
    }
}
