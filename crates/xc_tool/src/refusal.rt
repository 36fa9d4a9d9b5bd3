// Why an input is refused.
ghost use Rattle.std.specs.Prelude.{◌≡◌, IfOk, string_bytes};
ghost use Rattle.xc_tool.specs.AuditLines.{agree_name};
ghost use Rattle.xc_tool.specs.Outcome.{line_of, refusal_status};
ghost use Rattle.xc_tool.specs.Sources.{bad_source, fail_name};

use std::alloc::{AllocError, Global};
use xc_base::Status;
use xc_record::AgreeKind;
use xc_script::ScriptKind;
use xc_source::SourceFail;
use xc_source_script::SourceKind;
use xc_text::LogKind;

/// Why an input is refused.
#[derive(Clone, Copy, Debug, PartialEq, Eq)]
pub enum Refusal {
    /// The logs have more than 2^26 bytes.
    LogsTooLong,
    /// The first bad line of the logs, counted from 1, and why it is bad.
    BadLogs {
        line: u64,
        kind: LogKind,
    },
    /// The logs are well formed, and their tablets disagree on a transaction: the case of the least transaction, then
    /// of the least tablet, then of the first kind.
    Disagree {
        txn: u32,
        tablet: u32,
        kind: AgreeKind,
    },
    /// The script has more than 2^20 bytes.
    ScriptTooLong,
    /// The first bad line of the script, counted from 1, and why it is bad.
    BadScript {
        line: u64,
        kind: ScriptKind,
    },
    /// The source script has more than 2^20 bytes.
    SourceTooLong,
    /// The first bad line of the source script, counted from 1, and why it is bad.
    BadSource {
        line: u64,
        kind: SourceKind,
    },
    /// The line of the first command that the source refuses, counted from 1, and why it does.
    RefusedCommand {
        line: u64,
        fail: SourceFail,
    },
}

impl Refusal {
    /// The status that a refused run ends with.
    pub fn status(self) -> Status
        ensures { result ≡ refusal_status self }
    {
        match self {
            Refusal::LogsTooLong | Refusal::BadLogs { .. } => Status::BadLogs,
            Refusal::Disagree { .. } => Status::Disagree,
            Refusal::ScriptTooLong
            | Refusal::BadScript { .. }
            | Refusal::SourceTooLong
            | Refusal::BadSource { .. }
            | Refusal::RefusedCommand { .. } => Status::BadScript,
        }
    }

    /// The line that a refused run writes, with its end.
    pub fn line(self, alloc: Global) -> Result<String, AllocError>
        ensures { IfOk result (λ line. string_bytes line ≡ line_of self) }
    {
        match self {
            Refusal::LogsTooLong => String::from_str(alloc, "logs too long\n"),
            Refusal::BadLogs { line, kind } => bad_logs(alloc, line, kind),
            Refusal::Disagree { txn, tablet, kind } => disagree(alloc, txn, tablet, kind),
            Refusal::ScriptTooLong => String::from_str(alloc, "script too long\n"),
            Refusal::BadScript { line, kind } => bad_script(alloc, line, kind),
            Refusal::SourceTooLong => String::from_str(alloc, "source too long\n"),
            Refusal::BadSource { line, kind } => bad_source(alloc, line, kind.name()),
            Refusal::RefusedCommand { line, fail } => bad_source(alloc, line, fail_name(fail)),
        }
    }
}

fn bad_logs(alloc: Global, line: u64, kind: LogKind) -> Result<String, AllocError>
    ensures { IfOk result (λ text. string_bytes text ≡ line_of (Refusal.BadLogs line kind)) }
{
    let name = kind.name();
    let text = format!(in alloc; "bad logs {line} {name}\n")?;
    Ok(text)
}

fn bad_script(alloc: Global, line: u64, kind: ScriptKind) -> Result<String, AllocError>
    ensures { IfOk result (λ text. string_bytes text ≡ line_of (Refusal.BadScript line kind)) }
{
    let name = kind.name();
    let text = format!(in alloc; "bad script {line} {name}\n")?;
    Ok(text)
}

// The line of a bad line of a source script, or of a refused command.
fn bad_source(alloc: Global, line: u64, name: &str) -> Result<String, AllocError>
    ensures { IfOk result (λ text. string_bytes text ≡ bad_source line name.now) }
{
    let text = format!(in alloc; "bad source {line} {name}\n")?;
    Ok(text)
}

// Why the source refuses a command. None is refused since memory ran out.
fn fail_name(fail: SourceFail) -> &'static str
    ensures { result.now ≡ fail_name fail }
{
    match fail {
        SourceFail::Unknown(_) => "unknown",
        SourceFail::Ended(_) => "ended",
        SourceFail::Conflict(_) => "conflict",
        SourceFail::NotOpen(_) => "not-open",
        SourceFail::NotCommitted(_) => "not-committed",
        SourceFail::NotThere(_) => "not-there",
        SourceFail::BadPlace { .. } => "bad-place",
        SourceFail::NoSavepoint(_) => "no-savepoint",
        SourceFail::Full => "full",
        SourceFail::ClockEnd => "clock-end",
        SourceFail::Back(_) => "back",
        SourceFail::NoMemory => "no-memory",
    }
}

fn disagree(alloc: Global, txn: u32, tablet: u32, kind: AgreeKind) -> Result<String, AllocError>
    ensures { IfOk result (λ text. string_bytes text ≡ line_of (Refusal.Disagree txn tablet kind)) }
{
    let name = agree_name(kind);
    let text = format!(in alloc; "disagree {txn} {tablet} {name}\n")?;
    Ok(text)
}

fn agree_name(kind: AgreeKind) -> &'static str
    ensures { result.now ≡ agree_name kind }
{
    match kind {
        AgreeKind::CommitDiffers => "commit-differs",
        AgreeKind::RollbackDiffers => "rollback-differs",
        AgreeKind::LateIntent => "late-intent",
        AgreeKind::Aborted => "aborted",
        AgreeKind::Straggler => "straggler",
    }
}
