// The command `replay`: the logs, the script, and then the commands one by one, the lines of each before the next.
ghost use Rattle.std.specs.Prelude.{◌≡◌, ◌<◌, length, Some, IfOk, IfErr, IfSome, None, true};
ghost use Rattle.std.specs.List.{AllByRecursion};
ghost use Rattle.xc_base.specs.Causes.{Rose};
ghost use Rattle.xc_record.specs.Agreement.{disagreement};
ghost use Rattle.xc_record.specs.Session.{start};
ghost use Rattle.xc_record.specs.Step.{lines_from};
ghost use Rattle.xc_run.specs.Ran.{Got, Wrote, Ran, Is};
ghost use Rattle.xc_run.specs.Streams.{stream};
ghost use Rattle.xc_script.specs.Allowed.{IsAllowed, IsScript};
ghost use Rattle.xc_target.specs.Stands.{StandsForSession};
ghost use Rattle.xc_target.specs.Target.{FitsFeed};
ghost use Rattle.xc_tool.specs.Outcome.{lines_output, replay_output, replay_input, output_for, reads_of, InOrder};
ghost use Rattle.xc_tool.specs.Outcome.{StopsInOrder};

use crate::answer::Unanswered;
use crate::commands::answer;
use crate::refusal::Refusal;
use crate::steps::{end, take_logs, take_script};
use crate::words::Form;
use std::alloc::Global;
use xc_base::{Sink, SinkFail, Source, Status, write_all};
use xc_logs::{Feed, LogSet, MemoryFeed};
use xc_record::Command;
use xc_run::Stop;
use xc_script::Script;
use xc_target::Target;

/// `replay LOGS SCRIPT`
pub(crate) fn replay<L: Source, S: Source, O: Sink>(
    alloc: Global,
    logs: &mut L,
    script: &mut S,
    out: &mut O,
) -> Status
    ensures ran { Ran (Is (output_for (Some Form.Replay))) (reads_of (Some Form.Replay)) result
        (stream L.left L.faults logs.old logs.new) (stream S.left S.faults script.old script.new)
        (stream O.written O.faults out.old out.new) }
    ensures order { InOrder (reads_of (Some Form.Replay)) result
        (stream L.left L.faults logs.old logs.new) (stream S.left S.faults script.old script.new) }
{
    match take_input(alloc, logs, script) {
        Ok((logs, script)) => run_session(alloc, &logs, &script, out),
        Err(stop) => end(alloc, stop, out),
    }
}

// The logs and then the script.
fn take_input<L: Source, S: Source>(
    alloc: Global,
    logs: &mut L,
    script: &mut S,
) -> Result<(LogSet, Script), Stop<Refusal>>
    ensures got { Got replay_input (reads_of (Some Form.Replay)) result
        (stream L.left L.faults logs.old logs.new) (stream S.left S.faults script.old script.new) }
    ensures agree { IfOk result (λ input. disagreement input.0 ≡ None) }
    ensures allowed { IfOk result (λ input. IsScript (length input.0.tablets) input.1) }
    ensures order { IfErr result (λ stop. StopsInOrder (reads_of (Some Form.Replay)) stop
        (stream L.left L.faults logs.old logs.new) (stream S.left S.faults script.old script.new)) }
{
    let logs = take_logs(alloc, logs)?;
    let script = take_script(alloc, script, logs.count())?;
    Ok((logs, script))
}

// The session of the logs that the script asks for.
fn run_session<O: Sink>(alloc: Global, logs: &LogSet, script: &Script, out: &mut O) -> Status
    requires agree { disagreement logs.now ≡ None }
    requires allowed { IsScript (length logs.now.tablets) script.now }
    ensures { Wrote (replay_output (logs.now, script.now)) ⊥ result (stream O.written O.faults out.old out.new) }
{
    let Ok(headers) = logs.headers(alloc) else {
        return Status::NoMemory;
    };
    let Ok(mut target) = Target::new(alloc, &headers, script.bounds.as_slice()) else {
        return Status::NoMemory;
    };
    let mut feed = MemoryFeed::new(logs);
    let commands = script.commands.as_slice();
    run_commands(alloc, &mut target, &mut feed, logs.count(), commands, out)
}

// Does all commands at the target, which stands for the session that nothing was asked of yet.
fn run_commands<F: Feed, O: Sink>(
    alloc: Global,
    target: &mut Target,
    feed: &mut F,
    sources: u32,
    commands: &[Command],
    out: &mut O,
) -> Status
    requires sources { sources ≡ length target.old.pollers }
    requires allowed { AllByRecursion (IsAllowed sources (length target.old.tablets)) commands.now }
    requires fits { FitsFeed (F.headers feed.old) (F.counts feed.old) target.old }
    ensures { IfSome (F.logs feed.old) (λ logs. StandsForSession logs (start logs) target.old
        → disagreement logs ≡ None
        → Wrote (lines_output (lines_from logs (start logs) commands.now))
        (Rose (F.faults feed.old) (F.faults feed.new)) result (stream O.written O.faults out.old out.new)) }
{
    let mut halted = false;
    for command in commands {
        let answer = match answer(alloc, target, feed, sources, command) {
            Ok(answer) => answer,
            Err(Unanswered::ReadFault) => return Status::ReadFault,
            Err(Unanswered::NoMemory) => return Status::NoMemory,
        };
        halted = halted | answer.halted;
        match write_all(out, answer.text.as_slice()) {
            Ok(()) => {}
            Err(SinkFail::Failed) => return Status::WriteFault,
            Err(SinkFail::NoMemory) => return Status::NoMemory,
        }
    }
    if halted { Status::Halted } else { Status::Ok }
}
