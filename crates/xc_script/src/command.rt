// The commands of a script.
ghost use Rattle.std.specs.Prelude.{map, option_map};
ghost use Rattle.xc_base.specs.Words.{number_of};
ghost use Rattle.xc_record.specs.declared.session.Command.TheVariants as command;
ghost use Rattle.xc_script.specs.Kinds.{Answers};
ghost use Rattle.xc_script.specs.Words.{bare_of, command_in, command_of, poll_of, stop_of, with_one, with_two};
ghost use Rattle.xc_script.specs.Words.{with_three};
ghost use Rattle.xc_script.specs.declared.reading.Version.{Version as Written};

use crate::kind::{Fail, ScriptKind};
use crate::numbers::{count, moment, tablet, target};
use crate::reading::Version;
use crate::words::key;
use xc_record::Command;

// The command that a line's first word and the others form.
#[tactic(auto, unfolding(crate::specs::Words::command_of))]
pub(crate) fn read_command(version: Version, verb: &[u8], words: &[&[u8]]) -> Result<Command, Fail>
    ensures { Answers (λ c. c) result (command_in version (command_of verb.now (map (λ word. word.now) words.now))) }
{
    match words {
        [] => bare(verb),
        [word] => with_one(version, verb, word),
        [word, other] => with_two(version, verb, word, other),
        [word, other, third] => with_three(verb, word, other, third),
        _ => Err(Fail::Bad(ScriptKind::Form)),
    }
}

fn bare(verb: &[u8]) -> Result<Command, Fail>
    ensures { (version : Written) → Answers (λ c. c) result (command_in version (bare_of verb.now)) }
{
    if verb == b"drain".as_slice() {
        Ok(Command::Drain)
    } else if verb == b"safe".as_slice() {
        Ok(Command::Safe)
    } else if verb == b"scan".as_slice() {
        Ok(Command::Scan)
    } else if verb == b"failover".as_slice() {
        Ok(Command::Failover)
    } else if verb == b"report".as_slice() {
        Ok(Command::Report)
    } else {
        Err(Fail::Bad(ScriptKind::Form))
    }
}

fn with_one(version: Version, verb: &[u8], word: &[u8]) -> Result<Command, Fail>
    ensures { Answers (λ c. c) result (command_in version (with_one verb.now word.now)) }
{
    if verb == b"ack".as_slice() {
        read_ack(word)
    } else if verb == b"restart".as_slice() {
        read_restart(word)
    } else if verb == b"read".as_slice() {
        Ok(Command::Read {
            key: key(version, word)?,
        })
    } else if verb == b"prune".as_slice() {
        read_prune(word)
    } else {
        Err(Fail::Bad(ScriptKind::Form))
    }
}

fn read_ack(word: &[u8]) -> Result<Command, Fail>
    ensures { (version : Written) → Answers (λ c. c) result (command_in version (option_map command.Ack
        (number_of word.now))) }
{
    match tablet(word)? {
        Some(id) => Ok(Command::Ack { id }),
        None => Err(Fail::Bad(ScriptKind::Number)),
    }
}

fn read_restart(word: &[u8]) -> Result<Command, Fail>
    ensures { (version : Written) → Answers (λ c. c) result (command_in version (option_map command.Restart
        (number_of word.now))) }
{
    match tablet(word)? {
        Some(id) => Ok(Command::Restart { id }),
        None => Err(Fail::Bad(ScriptKind::Number)),
    }
}

fn read_prune(word: &[u8]) -> Result<Command, Fail>
    ensures { (version : Written) → Answers (λ c. c) result (command_in version (option_map command.Prune
        (number_of word.now))) }
{
    match moment(word)? {
        Some(u) => Ok(Command::Prune { u }),
        None => Err(Fail::Bad(ScriptKind::Number)),
    }
}

fn with_two(version: Version, verb: &[u8], word: &[u8], other: &[u8]) -> Result<Command, Fail>
    ensures { Answers (λ c. c) result (command_in version (with_two verb.now word.now other.now)) }
{
    if verb == b"poll".as_slice() {
        read_poll(word, other)
    } else if verb == b"readat".as_slice() {
        read_readat(version, word, other)
    } else {
        Err(Fail::Bad(ScriptKind::Form))
    }
}

fn read_poll(word: &[u8], other: &[u8]) -> Result<Command, Fail>
    ensures { (version : Written) → Answers (λ c. c) result (command_in version (poll_of word.now other.now)) }
{
    match (tablet(word)?, count(other)?) {
        (Some(id), Some(n)) => Ok(Command::Poll { id, n }),
        _ => Err(Fail::Bad(ScriptKind::Number)),
    }
}

fn read_readat(version: Version, word: &[u8], other: &[u8]) -> Result<Command, Fail>
    ensures { Answers (λ c. c) result (command_in version (option_map
        (λ u. command.ReadAt u other.now) (number_of word.now))) }
{
    match moment(word)? {
        Some(u) => Ok(Command::ReadAt {
            u,
            key: key(version, other)?,
        }),
        None => Err(Fail::Bad(ScriptKind::Number)),
    }
}

fn with_three(verb: &[u8], word: &[u8], other: &[u8], third: &[u8]) -> Result<Command, Fail>
    ensures { (version : Written) → Answers (λ c. c) result (command_in version
        (with_three verb.now word.now other.now third.now)) }
{
    if verb == b"stop".as_slice() {
        read_stop(word, other, third)
    } else {
        Err(Fail::Bad(ScriptKind::Form))
    }
}

fn read_stop(word: &[u8], other: &[u8], third: &[u8]) -> Result<Command, Fail>
    ensures { (version : Written) → Answers (λ c. c) result (command_in version
        (stop_of word.now other.now third.now)) }
{
    match (tablet(word)?, count(other)?, target(third)?) {
        (Some(id), Some(n), Some(last)) => Ok(Command::Stop { id, n, last }),
        _ => Err(Fail::Bad(ScriptKind::Number)),
    }
}
