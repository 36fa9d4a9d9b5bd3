// What the commands of the tool are made of: reading a source whole, and writing a text.
ghost use Rattle.std.specs.Prelude.{◌≡◌, IfOk, IfErr, IsErrOf, Ok, None, true};
ghost use Rattle.xc_run.specs.Ran.{StopsAt, Took, Wrote, Ended};
ghost use Rattle.xc_run.specs.Streams.{stream};
ghost use Rattle.xc_agree.specs.Audit.{audit_of};
ghost use Rattle.xc_record.specs.Valid.{is_valid};
ghost use Rattle.xc_record.specs.Agreement.{disagreement};
ghost use Rattle.xc_script.specs.Allowed.{IsScript};
ghost use Rattle.xc_text.specs.LogText.{logs_of};
ghost use Rattle.xc_tool.specs.Outcome.{logs_input, logs_in, logs_spelled, agreed, upgrade_input, audit_input};
ghost use Rattle.xc_tool.specs.Outcome.{audit_in, unless_disagree, script_input, script_in, refusal_output};
ghost use Rattle.xc_tool.specs.Outcome.{usage_output};
ghost use Rattle.xc_tool.specs.Steps.{stop_of};

use crate::refusal::Refusal;
use std::alloc::Global;
use xc_agree::{AgreeFail, Audit, agree};
use xc_base::{LOGS_BYTES, SCRIPT_BYTES, Sink, Source, Status, write_all};
use xc_logs::LogSet;
use xc_record::Logs;
use xc_run::{Stop, read_text};
use xc_script::{Script, ScriptFail, read_script};
use xc_text::{LogsFail, read_logs};

const USAGE: &str = "usage: the words after xcr do not form a command\n";

/// The logs of a source, whose tablets agree.
pub(crate) fn take_logs<L: Source>(alloc: Global, logs: &mut L) -> Result<LogSet, Stop<Refusal>>
    ensures took { Took logs_input result (stream L.left L.faults logs.old logs.new) }
    ensures agree { IfOk result (λ logs. disagreement logs ≡ None) }
{
    let text = read_text(alloc, logs, LOGS_BYTES, Refusal::LogsTooLong)?;
    logs_in(alloc, text.as_slice())
}

// The logs that a text spells, where their tablets agree.
fn logs_in(alloc: Global, text: &[u8]) -> Result<LogSet, Stop<Refusal>>
    ensures read { IfOk result (λ logs. logs_in text.now ≡ Ok logs) }
    ensures refused { IfErr result (StopsAt (logs_in text.now)) }
    ensures memory { IsErrOf result Stop.ReadFault → ⊥ }
    ensures agree { IfOk result (λ logs. disagreement logs ≡ None) }
{
    let logs = spelled_logs(alloc, text)?;
    agreed(alloc, LogSet::new(logs))
}

// The logs, where their tablets agree.
fn agreed(alloc: Global, logs: LogSet) -> Result<LogSet, Stop<Refusal>>
    ensures read { IfOk result (λ found. agreed logs ≡ Ok found) }
    ensures refused { IfErr result (StopsAt (agreed logs)) }
    ensures memory { IsErrOf result Stop.ReadFault → ⊥ }
    ensures agree { IfOk result (λ found. disagreement found ≡ None) }
{
    match agree(alloc, &logs) {
        Ok(_) => Ok(logs),
        Err(fail) => Err(disagreed(fail)),
    }
}

// Why logs have no audit.
fn disagreed(fail: AgreeFail) -> Stop<Refusal>
    ensures { result ≡ stop_of fail }
{
    match fail {
        AgreeFail::Disagree { txn, tablet, kind } => {
            Stop::Refused(Refusal::Disagree { txn, tablet, kind })
        }
        AgreeFail::NoMemory => Stop::NoMemory,
    }
}

/// The logs of a source, whatever they hold.
pub(crate) fn take_any_logs<L: Source>(alloc: Global, logs: &mut L) -> Result<Logs, Stop<Refusal>>
    ensures took { Took upgrade_input result (stream L.left L.faults logs.old logs.new) }
    ensures valid { IfOk result (λ logs. is_valid logs ≡ true) }
{
    let text = read_text(alloc, logs, LOGS_BYTES, Refusal::LogsTooLong)?;
    spelled_logs(alloc, text.as_slice())
}

// The logs that a text spells.
fn spelled_logs(alloc: Global, text: &[u8]) -> Result<Logs, Stop<Refusal>>
    ensures read { IfOk result (λ logs. logs_spelled (logs_of text.now) ≡ Ok logs) }
    ensures refused { IfErr result (StopsAt (logs_spelled (logs_of text.now))) }
    ensures memory { IsErrOf result Stop.ReadFault → ⊥ }
    ensures valid { IfOk result (λ logs. is_valid logs ≡ true) }
{
    match read_logs(alloc, text) {
        Ok(logs) => Ok(logs),
        Err(LogsFail::Bad { line, kind }) => Err(Stop::Refused(Refusal::BadLogs { line, kind })),
        Err(LogsFail::NoMemory) => Err(Stop::NoMemory),
    }
}

/// The audit of the logs of a source.
pub(crate) fn take_audit<L: Source>(alloc: Global, logs: &mut L) -> Result<Audit, Stop<Refusal>>
    ensures { Took audit_input result (stream L.left L.faults logs.old logs.new) }
{
    let text = read_text(alloc, logs, LOGS_BYTES, Refusal::LogsTooLong)?;
    audit_in(alloc, text.as_slice())
}

// The audit of the logs that a text spells.
fn audit_in(alloc: Global, text: &[u8]) -> Result<Audit, Stop<Refusal>>
    ensures read { IfOk result (λ audit. audit_in text.now ≡ Ok audit) }
    ensures refused { IfErr result (StopsAt (audit_in text.now)) }
    ensures memory { IsErrOf result Stop.ReadFault → ⊥ }
{
    let logs = spelled_logs(alloc, text)?;
    audit_of_logs(alloc, &LogSet::new(logs))
}

fn audit_of_logs(alloc: Global, logs: &LogSet) -> Result<Audit, Stop<Refusal>>
    ensures read { IfOk result (λ audit. unless_disagree (audit_of logs.now) ≡ Ok audit) }
    ensures refused { IfErr result (StopsAt (unless_disagree (audit_of logs.now))) }
    ensures memory { IsErrOf result Stop.ReadFault → ⊥ }
{
    match agree(alloc, logs) {
        Ok(audit) => Ok(audit),
        Err(fail) => Err(disagreed(fail)),
    }
}

/// The script of a source, for logs of so many tablets.
pub(crate) fn take_script<S: Source>(
    alloc: Global,
    script: &mut S,
    sources: u32,
) -> Result<Script, Stop<Refusal>>
    ensures took { Took (script_input sources) result (stream S.left S.faults script.old script.new) }
    ensures allowed { IfOk result (IsScript sources) }
{
    let text = read_text(alloc, script, SCRIPT_BYTES, Refusal::ScriptTooLong)?;
    script_in(alloc, text.as_slice(), sources)
}

// The script that a text spells.
fn script_in(alloc: Global, text: &[u8], sources: u32) -> Result<Script, Stop<Refusal>>
    ensures read { IfOk result (λ script. script_in sources text.now ≡ Ok script) }
    ensures refused { IfErr result (StopsAt (script_in sources text.now)) }
    ensures memory { IsErrOf result Stop.ReadFault → ⊥ }
    ensures allowed { IfOk result (IsScript sources) }
{
    match read_script(alloc, text, sources) {
        Ok(script) => Ok(script),
        Err(ScriptFail::Bad { line, kind }) => Err(Stop::Refused(Refusal::BadScript {
            line,
            kind,
        })),
        Err(ScriptFail::NoMemory) => Err(Stop::NoMemory),
    }
}

/// Writes the line of a refusal.
pub(crate) fn refuse<O: Sink>(alloc: Global, refusal: Refusal, out: &mut O) -> Status
    ensures { Wrote (refusal_output refusal) ⊥ result (stream O.written O.faults out.old out.new) }
{
    let Ok(line) = refusal.line(alloc) else {
        return Status::NoMemory;
    };
    match write_all(out, line.as_bytes()) {
        Ok(()) => refusal.status(),
        Err(fail) => Status::from(fail),
    }
}

/// Writes the usage line.
pub(crate) fn usage<O: Sink>(out: &mut O) -> Status
    ensures { Wrote usage_output ⊥ result (stream O.written O.faults out.old out.new) }
{
    match write_all(out, USAGE.as_bytes()) {
        Ok(()) => Status::Usage,
        Err(fail) => Status::from(fail),
    }
}

/// Ends a run whose input stopped.
pub(crate) fn end<O: Sink>(alloc: Global, stop: Stop<Refusal>, out: &mut O) -> Status
    ensures { Ended refusal_output stop result (stream O.written O.faults out.old out.new) }
{
    match stop {
        Stop::Refused(refusal) => refuse(alloc, refusal, out),
        Stop::ReadFault => Status::ReadFault,
        Stop::NoMemory => Status::NoMemory,
    }
}
