// The top call, and the command that the words name.
ghost use Rattle.std.specs.Prelude.{◌≡◌, List, ℕ, None, Some, IfSome, map, string_bytes};
ghost use Rattle.xc_base.specs.Causes.{Rose};
ghost use Rattle.xc_base.specs.Told.{TellsAlike};
ghost use Rattle.xc_run.specs.Ran.{Ran, Is, Shows, IsEnded, FaultIn, AreQuiet, AreTold};
ghost use Rattle.xc_run.specs.Streams.{stream, Gave, Used, IsUntouched};
ghost use Rattle.xc_tool.specs.Outcome.{outcome, output_for, reads_of, InOrder, IsUsage, RefusesLogs};
ghost use Rattle.xc_tool.specs.Words.{form_of, FormFits};

use crate::audit::audit;
use crate::generate::generate;
use crate::make::make;
use crate::replay::replay;
use crate::steps::usage;
use crate::upgrade::upgrade;
use crate::words::{Form, form_of};
use std::alloc::Global;
use xc_base::{Sink, Source, Status};

/// All that the program does, but for opening its files: runs the command that `words`, those after the program's
/// name, form, over the sources that they name, and writes its lines to `out`.
///
/// The sources and the sink may fail at any call. The status is `Usage` where the words form no command, `BadLogs` and
/// `BadScript` where an input is refused, `Disagree` where the tablets of the logs of a replay or of an audit disagree,
/// `Halted` where a poll, a drain or an audit met a break of the order rules, and else `Ok`: with each of these the
/// whole output was written. After `ReadFault`, `WriteFault` and `NoMemory` a prefix of it was.
pub fn run<L: Source, S: Source, O: Sink>(
    alloc: Global,
    words: &[String],
    logs: &mut L,
    script: &mut S,
    out: &mut O,
) -> Status
    // The output and the status are those of the words and of the bytes of the sources, or a prefix of the output
    // went out before a fault or out of memory. The bytes are those that a source told, and any where it told none.
    ensures defined { (a b : List ℕ) × Gave (L.left logs.old) a × Gave (S.left script.old) b
        × Shows (outcome (map string_bytes words.now) a b) result (stream O.written O.faults out.old out.new) }

    // The usage line is for words that form no command, and for these alone.
    ensures usage { result ≡ Status.Usage → form_of (map string_bytes words.now) ≡ None }
    ensures no_command { form_of (map string_bytes words.now) ≡ None → IsUsage result }

    // A fault has its cause in this call.
    ensures read_fault { result ≡ Status.ReadFault → FaultIn (reads_of (form_of (map string_bytes words.now)))
        (stream L.left L.faults logs.old logs.new) (stream S.left S.faults script.old script.new) }
    ensures write_fault { result ≡ Status.WriteFault → Rose (O.faults out.old) (O.faults out.new) }

    // Where no such fault is answered, none came. What told its bytes still does.
    ensures read_quiet { (result ≡ Status.ReadFault → ⊥) →
        AreQuiet (stream L.left L.faults logs.old logs.new) (stream S.left S.faults script.old script.new) }
    ensures write_quiet { (result ≡ Status.WriteFault → ⊥) → O.faults out.new ≡ O.faults out.old }
    ensures told_sources { AreTold (stream L.left L.faults logs.old logs.new)
        (stream S.left S.faults script.old script.new) }
    ensures told_sink { TellsAlike (O.written out.old) (O.written out.new) }

    // What the command reads was read to its end, and what it doesn't read wasn't touched.
    ensures logs { Used (reads_of (form_of (map string_bytes words.now))).logs (IsEnded result)
        (stream L.left L.faults logs.old logs.new) }
    ensures script { Used (reads_of (form_of (map string_bytes words.now))).script (IsEnded result)
        (stream S.left S.faults script.old script.new) }

    // The script waits for the logs.
    ensures refused_logs { RefusesLogs result → IsUntouched (stream S.left S.faults script.old script.new) }
    ensures refused_script { result ≡ Status.BadScript
        → Used (reads_of (form_of (map string_bytes words.now))).logs (Unit {0})
        (stream L.left L.faults logs.old logs.new) }
{
    dispatch(alloc, form_of(words), logs, script, out)
}

fn dispatch<L: Source, S: Source, O: Sink>(
    alloc: Global,
    form: Option<Form>,
    logs: &mut L,
    script: &mut S,
    out: &mut O,
) -> Status
    requires { IfSome form FormFits }
    ensures ran { Ran (Is (output_for form)) (reads_of form) result
        (stream L.left L.faults logs.old logs.new) (stream S.left S.faults script.old script.new)
        (stream O.written O.faults out.old out.new) }
    ensures order { InOrder (reads_of form) result
        (stream L.left L.faults logs.old logs.new) (stream S.left S.faults script.old script.new) }
{
    match form {
        Some(form) => command(alloc, form, logs, script, out),
        None => usage(out),
    }
}

fn command<L: Source, S: Source, O: Sink>(
    alloc: Global,
    form: Form,
    logs: &mut L,
    script: &mut S,
    out: &mut O,
) -> Status
    requires { FormFits form }
    ensures ran { Ran (Is (output_for (Some form))) (reads_of (Some form)) result
        (stream L.left L.faults logs.old logs.new) (stream S.left S.faults script.old script.new)
        (stream O.written O.faults out.old out.new) }
    ensures order { InOrder (reads_of (Some form)) result
        (stream L.left L.faults logs.old logs.new) (stream S.left S.faults script.old script.new) }
{
    match form {
        Form::Replay => replay(alloc, logs, script, out),
        Form::Audit => audit(alloc, logs, out),
        Form::Upgrade => upgrade(alloc, logs, out),
        Form::Make => make(alloc, script, out),
        Form::Gen { number, size } => generate(alloc, number, size, out),
    }
}
