// What the commands of a script do at a target, which takes its records from a feed, and how they are answered.
ghost use Rattle.std.specs.Prelude.{◌≡◌, ◌<◌, ◌≤◌, ℕ, length, None, IfOk, IfSome, IsErrOf};
ghost use Rattle.xc_base.specs.Causes.{Rose};
ghost use Rattle.xc_record.specs.declared.record.Logs.{Logs};
ghost use Rattle.xc_record.specs.Agreement.{disagreement};
ghost use Rattle.xc_record.specs.Session.{Session, IsSession};
ghost use Rattle.xc_logs.specs.Feed.{SameFeed};
ghost use Rattle.xc_script.specs.Allowed.{IsAllowed};
ghost use Rattle.xc_target.specs.Stands.{StandsForSession};
ghost use Rattle.xc_target.specs.Answers.{KeepsAlone};
ghost use Rattle.xc_target.specs.Target.{FitsFeed};
ghost use Rattle.xc_tool.specs.Answers.{Kept, IsLine, GivesLine, IsAnswer, IsRestored};

use crate::answer::{Answer, Unanswered, halts_answer, line_answer, rows_answer};
use crate::report::report;
use std::alloc::Global;
use xc_base::Key;
use xc_logs::Feed;
use xc_record::{Command, Line, PollAnswer};
use xc_target::{NotReadable, PruneFail, Target, TargetFail};

/// Does at the target what the command asks, and answers it. The target's source tablets are `sources`.
pub(crate) fn answer<F: Feed>(
    alloc: Global,
    target: &mut Target,
    feed: &mut F,
    sources: u32,
    command: &Command,
) -> Result<Answer, Unanswered>
    requires sources { sources ≡ length target.old.pollers }
    requires allowed { IsAllowed sources (length target.old.tablets) command.now }
    requires fits { FitsFeed (F.headers feed.old) (F.counts feed.old) target.old }
    ensures kept { Kept (F.headers feed.new) (F.counts feed.new) target.old target.new }
    ensures feed { SameFeed F.headers F.counts F.logs F.faults feed.old feed.new }
    ensures step { IfSome (F.logs feed.old) (λ logs. (m : Session) → IsSession logs m
        → StandsForSession logs m target.old → disagreement logs ≡ None
        → IfOk result (λ a. IsAnswer logs m command.now a.text a.halted target.new)) }
    ensures read_fault { IsErrOf result Unanswered.ReadFault → Rose (F.faults feed.old) (F.faults feed.new) }
{
    match command {
        Command::Poll { id, n } => line_answer(alloc, poll(alloc, target, feed, *id, *n)),
        Command::Stop { id, n, last } => {
            line_answer(alloc, stop(alloc, target, feed, *id, *n, *last))
        }
        Command::Ack { id } => line_answer(alloc, Ok(acknowledge(target, *id))),
        Command::Restart { id } => line_answer(alloc, Ok(restart(target, *id))),
        Command::Drain => drain(alloc, target, feed),
        Command::Safe => line_answer(alloc, Ok(safe(target))),
        Command::Read { key } => line_answer(alloc, Ok(read(target, key))),
        Command::ReadAt { u, key } => line_answer(alloc, Ok(read_at(target, *u, key))),
        Command::Scan => scan(alloc, target),
        Command::Prune { u } => line_answer(alloc, Ok(prune(target, *u))),
        Command::Failover => failover(alloc, target),
        Command::Report => line_answer(alloc, report(alloc, target, sources)),
    }
}

fn poll<F: Feed>(
    alloc: Global,
    target: &mut Target,
    feed: &mut F,
    id: u32,
    n: u64,
) -> Result<Line, Unanswered>
    requires known { id < length target.old.pollers }
    requires some { 1 ≤ n }
    requires fits { FitsFeed (F.headers feed.old) (F.counts feed.old) target.old }
    ensures kept { Kept (F.headers feed.new) (F.counts feed.new) target.old target.new }
    ensures feed { SameFeed F.headers F.counts F.logs F.faults feed.old feed.new }
    ensures step { IfSome (F.logs feed.old) (λ logs. (m : Session) → IsSession logs m
        → StandsForSession logs m target.old → IfOk result (λ l. IsLine logs m (Command.Poll id n) l target.new)) }
    ensures read_fault { IsErrOf result Unanswered.ReadFault → Rose (F.faults feed.old) (F.faults feed.new) }
{
    match target.poll(alloc, feed, id, n) {
        Ok(PollAnswer::Polled(count)) => Ok(Line::Polled { id, count }),
        Ok(PollAnswer::Waits { parent }) => Ok(Line::Wait { id, parent }),
        Ok(PollAnswer::AtEnd) => Ok(Line::AtEnd { id }),
        Ok(PollAnswer::Halted { number, kind }) => Ok(Line::Halt { id, number, kind }),
        Err(TargetFail::Closed(t)) => Ok(Line::Closed { t }),
        Err(TargetFail::ReadFault) => Err(Unanswered::ReadFault),
        Err(TargetFail::NoMemory) => Err(Unanswered::NoMemory),
    }
}

fn stop<F: Feed>(
    alloc: Global,
    target: &mut Target,
    feed: &mut F,
    id: u32,
    n: u64,
    last: usize,
) -> Result<Line, Unanswered>
    requires known { id < length target.old.pollers }
    requires some { 1 ≤ n }
    requires last { last < length target.old.tablets }
    requires fits { FitsFeed (F.headers feed.old) (F.counts feed.old) target.old }
    ensures kept { Kept (F.headers feed.new) (F.counts feed.new) target.old target.new }
    ensures feed { SameFeed F.headers F.counts F.logs F.faults feed.old feed.new }
    ensures step { IfSome (F.logs feed.old) (λ logs. (m : Session) → IsSession logs m
        → StandsForSession logs m target.old
        → IfOk result (λ l. IsLine logs m (Command.Stop id n last) l target.new)) }
    ensures read_fault { IsErrOf result Unanswered.ReadFault → Rose (F.faults feed.old) (F.faults feed.new) }
{
    match target.stopped_poll(alloc, feed, id, n, last) {
        Ok(PollAnswer::Polled(count)) => Ok(Line::Stopped { id, count }),
        Ok(PollAnswer::Waits { parent }) => Ok(Line::Wait { id, parent }),
        Ok(PollAnswer::AtEnd) => Ok(Line::AtEnd { id }),
        Ok(PollAnswer::Halted { number, kind }) => Ok(Line::Halt { id, number, kind }),
        Err(TargetFail::Closed(t)) => Ok(Line::Closed { t }),
        Err(TargetFail::ReadFault) => Err(Unanswered::ReadFault),
        Err(TargetFail::NoMemory) => Err(Unanswered::NoMemory),
    }
}

fn acknowledge(target: &mut Target, id: u32) -> Line
    requires { id < length target.old.pollers }
    ensures kept { KeepsAlone target.old target.new }
    ensures step { GivesLine (Command.Ack id) target.old result target.new }
{
    match target.acknowledge(id) {
        Ok(place) => Line::Ack { id, place },
        Err(closed) => Line::Closed { t: closed.t },
    }
}

fn restart(target: &mut Target, id: u32) -> Line
    requires { id < length target.old.pollers }
    ensures kept { KeepsAlone target.old target.new }
    ensures step { GivesLine (Command.Restart id) target.old result target.new }
{
    match target.restart(id) {
        Ok(place) => Line::Restart { id, place },
        Err(closed) => Line::Closed { t: closed.t },
    }
}

fn drain<F: Feed>(alloc: Global, target: &mut Target, feed: &mut F) -> Result<Answer, Unanswered>
    requires fits { FitsFeed (F.headers feed.old) (F.counts feed.old) target.old }
    ensures kept { Kept (F.headers feed.new) (F.counts feed.new) target.old target.new }
    ensures feed { SameFeed F.headers F.counts F.logs F.faults feed.old feed.new }
    ensures step { IfSome (F.logs feed.old) (λ logs. (m : Session) → IsSession logs m
        → StandsForSession logs m target.old
        → IfOk result (λ a. IsAnswer logs m Command.Drain a.text a.halted target.new)) }
    ensures read_fault { IsErrOf result Unanswered.ReadFault → Rose (F.faults feed.old) (F.faults feed.new) }
{
    match target.drain(alloc, feed) {
        Ok(halts) => halts_answer(alloc, target.safe(), &halts),
        Err(TargetFail::Closed(t)) => line_answer(alloc, Ok(Line::Closed { t })),
        Err(TargetFail::ReadFault) => Err(Unanswered::ReadFault),
        Err(TargetFail::NoMemory) => Err(Unanswered::NoMemory),
    }
}

fn safe(target: &Target) -> Line
    ensures { GivesLine Command.Safe target.now result target.now }
{
    Line::Safe { t: target.safe() }
}

fn read(target: &Target, key: &Key) -> Line
    ensures { (logs : Logs) (m : Session) → IsSession logs m → StandsForSession logs m target.now
        → disagreement logs ≡ None → IsLine logs m (Command.Read key.now) result target.now }
{
    Line::Read {
        t: target.safe(),
        key: *key,
        value: target.read(key),
    }
}

fn read_at(target: &Target, u: u64, key: &Key) -> Line
    ensures { (logs : Logs) (m : Session) → IsSession logs m → StandsForSession logs m target.now
        → disagreement logs ≡ None → IsLine logs m (Command.ReadAt u key.now) result target.now }
{
    match target.read_at(u, key) {
        Ok(value) => Line::ReadAt {
            u,
            key: *key,
            value,
        },
        Err(NotReadable::Ahead { safe }) => Line::Ahead { u, safe },
        Err(NotReadable::Pruned { cutoff }) => Line::Pruned { u, cutoff },
    }
}

fn scan(alloc: Global, target: &Target) -> Result<Answer, Unanswered>
    ensures step { (logs : Logs) (m : Session) → IsSession logs m → StandsForSession logs m target.now
        → disagreement logs ≡ None
        → IfOk result (λ a. IsAnswer logs m Command.Scan a.text a.halted target.now) }
    ensures memory { IsErrOf result Unanswered.ReadFault → ⊥ }
{
    let Ok(rows) = target.scan(alloc) else {
        return Err(Unanswered::NoMemory);
    };
    let rows = rows.as_slice();
    let count = rows.len() as u64;
    rows_answer(
        alloc,
        Line::Scan {
            t: target.safe(),
            count,
        },
        rows,
    )
}

fn prune(target: &mut Target, u: u64) -> Line
    ensures kept { KeepsAlone target.old target.new }
    ensures step { GivesLine (Command.Prune u) target.old result target.new }
{
    match target.prune(u) {
        Ok(cutoff) => Line::Prune { cutoff },
        Err(PruneFail::Closed(t)) => Line::Closed { t },
        Err(PruneFail::Ahead { safe }) => Line::Ahead { u, safe },
    }
}

fn failover(alloc: Global, target: &mut Target) -> Result<Answer, Unanswered>
    ensures kept { KeepsAlone target.old target.new }
    ensures step { (logs : Logs) (m : Session) → IsSession logs m
        → StandsForSession logs m target.old → disagreement logs ≡ None
        → IfOk result (λ a. IsAnswer logs m Command.Failover a.text a.halted target.new) }
    ensures memory { IsErrOf result Unanswered.ReadFault → ⊥ }
{
    match target.failover() {
        Ok(t) => restored(alloc, target, t),
        Err(closed) => line_answer(alloc, Ok(Line::Closed { t: closed.t })),
    }
}

// The rows that were restored, at the time `t`.
fn restored(alloc: Global, target: &Target, t: u64) -> Result<Answer, Unanswered>
    ensures step { (logs : Logs) (m : Session) → IsSession logs m → StandsForSession logs m target.now
        → disagreement logs ≡ None → IfOk result (λ a. IsRestored logs m t a.text a.halted) }
    ensures memory { IsErrOf result Unanswered.ReadFault → ⊥ }
{
    let Ok(rows) = target.scan(alloc) else {
        return Err(Unanswered::NoMemory);
    };
    let rows = rows.as_slice();
    let count = rows.len() as u64;
    rows_answer(alloc, Line::Failover { t, count }, rows)
}
