// The commands of a source script.
ghost use Rattle.std.specs.Prelude.{◌≡◌, true, false, map, option_map, if◌then◌else◌, MatchResult, Some, None};
ghost use Rattle.xc_base.specs.Words.{number_of};
ghost use Rattle.xc_source.specs.declared.command.SourceCommand.TheVariants as command;
ghost use Rattle.xc_source_script.specs.Kinds.{Answers};
ghost use Rattle.xc_source_script.specs.Words.{bare_of, command_in, command_of, pair_of, write_of, with_one, with_two};
ghost use Rattle.xc_source_script.specs.Words.{from_version_2, IsOp};
ghost use Rattle.xc_source_script.specs.declared.kind.Fail.TheVariants.{Bad};
ghost use Rattle.xc_source_script.specs.declared.kind.SourceKind.TheVariants.{Form};
ghost use Rattle.xc_text.specs.Lines.{op_of};

use crate::kind::{Fail, SourceKind};
use crate::numbers::{subtransaction, transaction};
use xc_record::Op;
use xc_script::{hash, moment, tablet};
use xc_source::SourceCommand;
use xc_text::{OpFail, Version, read_op};

// The command that a line's first word and the others form.
#[tactic(auto, unfolding(crate::specs::Words::command_of))]
pub(crate) fn read_command(
    version: Version,
    verb: &[u8],
    words: &[&[u8]],
) -> Result<SourceCommand, Fail>
    ensures { Answers (λ c. c) result (command_in (command_of version verb.now (map (λ word. word.now) words.now))) }
{
    match words {
        [] => bare(verb),
        [word] => with_one(version, verb, word),
        [word, other] => with_two(version, verb, word, other),
        _ => Err(Fail::Bad(SourceKind::Form)),
    }
}

fn bare(verb: &[u8]) -> Result<SourceCommand, Fail>
    ensures { Answers (λ c. c) result (command_in (bare_of verb.now)) }
{
    if verb == b"begin".as_slice() {
        Ok(SourceCommand::Begin)
    } else if verb == b"finish".as_slice() {
        Ok(SourceCommand::Finish)
    } else {
        Err(Fail::Bad(SourceKind::Form))
    }
}

fn with_one(version: Version, verb: &[u8], word: &[u8]) -> Result<SourceCommand, Fail>
    ensures { Answers (λ c. c) result (command_in (with_one version verb.now word.now)) }
{
    if verb == b"put".as_slice() {
        read_put(version, word)
    } else if verb == b"commit".as_slice() {
        read_commit(word)
    } else if verb == b"abort".as_slice() {
        read_abort(word)
    } else if verb == b"safe".as_slice() {
        read_safe(word)
    } else if verb == b"tick".as_slice() {
        read_tick(word)
    } else if verb == b"savepoint".as_slice() {
        read_savepoint(version, word)
    } else {
        Err(Fail::Bad(SourceKind::Form))
    }
}

// The operation that a word spells; None where its key or its value isn't well formed.
fn operation(version: Version, word: &[u8]) -> Result<Option<Op>, Fail>
    ensures { MatchResult result (IsOp version word.now) (λ e. (e ≡ Bad Form) × (op_of version word.now ≡ None)) }
{
    match read_op(version, word) {
        Ok(op) => Ok(Some(op)),
        Err(OpFail::Name) => Ok(None),
        Err(OpFail::Form) => Err(Fail::Bad(SourceKind::Form)),
    }
}

fn read_put(version: Version, word: &[u8]) -> Result<SourceCommand, Fail>
    ensures { Answers (λ c. c) result (command_in (option_map command.Put (op_of version word.now))) }
{
    match operation(version, word)? {
        Some(op) => Ok(SourceCommand::Put { op }),
        None => Err(Fail::Bad(SourceKind::Key)),
    }
}

fn read_commit(word: &[u8]) -> Result<SourceCommand, Fail>
    ensures { Answers (λ c. c) result (command_in (option_map command.Commit (number_of word.now))) }
{
    match transaction(word)? {
        Some(txn) => Ok(SourceCommand::Commit { txn }),
        None => Err(Fail::Bad(SourceKind::Number)),
    }
}

fn read_abort(word: &[u8]) -> Result<SourceCommand, Fail>
    ensures { Answers (λ c. c) result (command_in (option_map command.Abort (number_of word.now))) }
{
    match transaction(word)? {
        Some(txn) => Ok(SourceCommand::Abort { txn }),
        None => Err(Fail::Bad(SourceKind::Number)),
    }
}

fn read_safe(word: &[u8]) -> Result<SourceCommand, Fail>
    ensures { Answers (λ c. c) result (command_in (option_map command.Safe (number_of word.now))) }
{
    match tablet(word)? {
        Some(id) => Ok(SourceCommand::Safe { id }),
        None => Err(Fail::Bad(SourceKind::Number)),
    }
}

fn read_tick(word: &[u8]) -> Result<SourceCommand, Fail>
    ensures { Answers (λ c. c) result (command_in (option_map command.Tick (number_of word.now))) }
{
    match moment(word)? {
        Some(to) => Ok(SourceCommand::Tick { to }),
        None => Err(Fail::Bad(SourceKind::Number)),
    }
}

fn read_savepoint(version: Version, word: &[u8]) -> Result<SourceCommand, Fail>
    ensures { Answers (λ c. c) result (command_in (from_version_2 version (option_map command.Savepoint
        (number_of word.now)))) }
{
    if version == Version::One {
        return Err(Fail::Bad(SourceKind::Form));
    }
    match transaction(word)? {
        Some(txn) => Ok(SourceCommand::Savepoint { txn }),
        None => Err(Fail::Bad(SourceKind::Number)),
    }
}

fn with_two(version: Version, verb: &[u8], word: &[u8], other: &[u8]) -> Result<SourceCommand, Fail>
    ensures { Answers (λ c. c) result (command_in (with_two version verb.now word.now other.now)) }
{
    if verb == b"write".as_slice() {
        read_write(version, word, other)
    } else if verb == b"apply".as_slice() {
        read_apply(word, other)
    } else if verb == b"split".as_slice() {
        read_split(word, other)
    } else if verb == b"rollback".as_slice() {
        read_rollback(version, word, other)
    } else {
        Err(Fail::Bad(SourceKind::Form))
    }
}

fn read_write(version: Version, word: &[u8], other: &[u8]) -> Result<SourceCommand, Fail>
    ensures { Answers (λ c. c) result (command_in (write_of version word.now other.now)) }
{
    match (transaction(word)?, operation(version, other)?) {
        (Some(txn), Some(op)) => Ok(SourceCommand::Write { txn, op }),
        (Some(_), None) => Err(Fail::Bad(SourceKind::Key)),
        (None, _) => Err(Fail::Bad(SourceKind::Number)),
    }
}

fn read_apply(word: &[u8], other: &[u8]) -> Result<SourceCommand, Fail>
    ensures { Answers (λ c. c) result (command_in (pair_of command.Apply word.now other.now)) }
{
    match (transaction(word)?, tablet(other)?) {
        (Some(txn), Some(id)) => Ok(SourceCommand::Apply { txn, id }),
        _ => Err(Fail::Bad(SourceKind::Number)),
    }
}

fn read_split(word: &[u8], other: &[u8]) -> Result<SourceCommand, Fail>
    ensures { Answers (λ c. c) result (command_in (pair_of command.Split word.now other.now)) }
{
    match (tablet(word)?, hash(other)?) {
        (Some(id), Some(at)) => Ok(SourceCommand::Split { id, at }),
        _ => Err(Fail::Bad(SourceKind::Number)),
    }
}

fn read_rollback(version: Version, word: &[u8], other: &[u8]) -> Result<SourceCommand, Fail>
    ensures { Answers (λ c. c) result (command_in (from_version_2 version (pair_of command.Rollback word.now
        other.now))) }
{
    if version == Version::One {
        return Err(Fail::Bad(SourceKind::Form));
    }
    match (transaction(word)?, subtransaction(other)?) {
        (Some(txn), Some(sub)) => Ok(SourceCommand::Rollback { txn, sub }),
        _ => Err(Fail::Bad(SourceKind::Number)),
    }
}
