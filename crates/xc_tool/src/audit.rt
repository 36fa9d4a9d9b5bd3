// The command `audit`: the logs, whether their tablets agree, then a line for each tablet and the number of commits.
ghost use Rattle.std.specs.Prelude.{◌≡◌, ◌++◌, [], ◌∷◌, IfOk, Some, string_bytes};
ghost use Rattle.std.specs.List.{list_any};
ghost use Rattle.xc_run.specs.Ran.{Wrote, Ran, Is};
ghost use Rattle.xc_run.specs.Streams.{Stream, stream, IsUntouched};
ghost use Rattle.xc_tool.specs.AuditLines.{state_words, log_words, line_of_words, log_line, logs_text, agrees_line};
ghost use Rattle.xc_tool.specs.AuditLines.{is_halted};
ghost use Rattle.xc_tool.specs.Outcome.{audit_output, output_for, reads_of, InOrder};

use crate::steps::{end, take_audit};
use crate::words::Form;
use std::alloc::{AllocError, Global};
use xc_agree::{Audit, End, EndState};
use xc_base::{Sink, Source, Status, write_all};
use xc_record::Break;
use xc_script::break_name;

/// `audit LOGS`, which is given no script: any script is as it was.
pub(crate) fn audit<L: Source, O: Sink>(alloc: Global, logs: &mut L, out: &mut O) -> Status
    ensures ran { (script : Stream) → IsUntouched script
        → Ran (Is (output_for (Some Form.Audit))) (reads_of (Some Form.Audit)) result
        (stream L.left L.faults logs.old logs.new) script (stream O.written O.faults out.old out.new) }
    ensures order { (script : Stream) → IsUntouched script
        → InOrder (reads_of (Some Form.Audit)) result (stream L.left L.faults logs.old logs.new) script }
{
    match take_audit(alloc, logs) {
        Ok(audit) => print_audit(alloc, &audit, out),
        Err(stop) => end(alloc, stop, out),
    }
}

fn print_audit<O: Sink>(alloc: Global, audit: &Audit, out: &mut O) -> Status
    ensures { Wrote (audit_output audit.now) ⊥ result (stream O.written O.faults out.old out.new) }
{
    let ends = audit.ends.as_slice();
    let Ok(text) = audit_text(alloc, ends, audit.commits) else {
        return Status::NoMemory;
    };
    match write_all(out, text.as_bytes()) {
        Ok(()) if any_is_halted(ends) => Status::Halted,
        Ok(()) => Status::Ok,
        Err(fail) => Status::from(fail),
    }
}

fn is_halted(end: &End) -> bool
    ensures { result ≡ is_halted end.now }
{
    matches!(end.state, EndState::Halt { .. })
}

fn any_is_halted(ends: &[End]) -> bool
    ensures { result ≡ list_any is_halted ends.now }
{
    ends.iter().any(|end| is_halted(end))
}

// All lines of an audit with these ends and so many commits.
fn audit_text(alloc: Global, ends: &[End], commits: u64) -> Result<String, AllocError>
    ensures { IfOk result (λ text. string_bytes text ≡ logs_text 0 ends.now ++ agrees_line commits) }
{
    let mut text = logs_text(alloc, ends)?;
    let last = format!(in alloc; "agrees {commits}\n")?;
    text.push_str(last.as_str())?;
    Ok(text)
}

#[tactic(auto, using(std::proofs::lemmas::Grind::common_steps))]
fn logs_text(alloc: Global, ends: &[End]) -> Result<String, AllocError>
    ensures { IfOk result (λ text. string_bytes text ≡ logs_text 0 ends.now) }
{
    let mut text = String::new(alloc);
    for (id, end) in ends.iter().enumerate() {
        let line = log_line(alloc, id as u64, end)?;
        text.push_str(line.as_str())?;
    }
    Ok(text)
}

// The line of the tablet of this number, with its end.
fn log_line(alloc: Global, id: u64, end: &End) -> Result<String, AllocError>
    ensures { IfOk result (λ line. string_bytes line ≡ log_line id end.now) }
{
    match end.state {
        EndState::Open => whole(alloc, id, end, "open"),
        EndState::Split => whole(alloc, id, end, "split"),
        EndState::Halt { number, kind } => halted(alloc, id, end, number, kind),
        EndState::Unreached => whole(alloc, id, end, "unreached"),
    }
}

// The line of a log that isn't halted.
fn whole(alloc: Global, id: u64, end: &End, state: &str) -> Result<String, AllocError>
    ensures { IfOk result (λ line. string_bytes line ≡ line_of_words (log_words id end.now (state.now ∷ []))) }
{
    let accepted = end.accepted;
    let floor = end.floor;
    let line = format!(in alloc; "log {id} {accepted} {floor} {state}\n")?;
    Ok(line)
}

fn halted(alloc: Global, id: u64, end: &End, number: u64, kind: Break) -> Result<String, AllocError>
    ensures { IfOk result (λ line. string_bytes line
        ≡ line_of_words (log_words id end.now (state_words (EndState.Halt number kind)))) }
{
    let accepted = end.accepted;
    let floor = end.floor;
    let name = break_name(kind);
    let line = format!(in alloc; "log {id} {accepted} {floor} halt {number} {name}\n")?;
    Ok(line)
}
