// The verb of a record's line.
ghost use Rattle.std.specs.Prelude.{◌≡◌, ◌∷◌, [], IfSome};
ghost use Rattle.std.specs.Option.{option_map_or};
ghost use Rattle.xc_base.specs.Words.{split_on};
ghost use Rattle.xc_text.specs.Verbs.{verb_word};

// What kind a record is of.
#[derive(Clone, Copy, PartialEq, Eq, Debug)]
pub(crate) enum Verb {
    Write,
    Intent,
    Apply,
    Abort,
    Safe,
    Split,
}

// The verb that bytes begin with, and what stands behind it and a space. None comes where they begin with no verb and
// a space.
#[inline(always)]
pub(crate) fn quick_verb(bytes: &[u8]) -> Option<(Verb, &[u8])>
    ensures { IfSome result (λ r. split_on 32 bytes.now ≡ verb_word r.0 ∷ split_on 32 r.1.now) }
{
    match bytes {
        [b'w', b'r', b'i', b't', b'e', b' ', after @ ..] => Some((Verb::Write, after)),
        [b'i', b'n', b't', b'e', b'n', b't', b' ', after @ ..] => Some((Verb::Intent, after)),
        [b'a', b'p', b'p', b'l', b'y', b' ', after @ ..] => Some((Verb::Apply, after)),
        [b'a', b'b', b'o', b'r', b't', b' ', after @ ..] => Some((Verb::Abort, after)),
        [b's', b'a', b'f', b'e', b' ', after @ ..] => Some((Verb::Safe, after)),
        [b's', b'p', b'l', b'i', b't', b' ', after @ ..] => Some((Verb::Split, after)),
        _ => None,
    }
}
