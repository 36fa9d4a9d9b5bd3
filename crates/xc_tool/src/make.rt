// The command `make`: a source script, and then the logs that it makes.
ghost use Rattle.std.specs.Prelude.{◌≡◌, IfOk, IfErr, IsErrOf, Ok, Some, true};
ghost use Rattle.xc_record.specs.Valid.{is_valid};
ghost use Rattle.xc_run.specs.Ran.{StopsAt, Took, Wrote, Ran, Is};
ghost use Rattle.xc_run.specs.Streams.{Stream, stream, IsUntouched};
ghost use Rattle.xc_source.specs.Machine.{logs_of};
ghost use Rattle.xc_source_script.specs.Allowed.{IsSourceScript};
ghost use Rattle.xc_source_script.specs.Made.{made_of};
ghost use Rattle.xc_source_script.specs.SourceText.{source_of};
ghost use Rattle.xc_tool.specs.Outcome.{make_in, make_input, make_output, output_for, reads_of, InOrder};
ghost use Rattle.xc_tool.specs.Outcome.{source_spelled, unless_refused};

use crate::refusal::Refusal;
use crate::steps::end;
use crate::words::Form;
use std::alloc::Global;
use xc_base::{SCRIPT_BYTES, Sink, Source, Status, write_all};
use xc_run::{Stop, read_text};
use xc_source::SourceUniverse;
use xc_source_script::{
    MakeFail, SourceScript, SourceScriptFail, make as make_source, read_source,
};
use xc_text::print_logs;

/// `make SOURCE`, which is given no logs: any logs are as they were.
pub(crate) fn make<S: Source, O: Sink>(alloc: Global, script: &mut S, out: &mut O) -> Status
    ensures ran { (logs : Stream) → IsUntouched logs
        → Ran (Is (output_for (Some Form.Make))) (reads_of (Some Form.Make)) result
        logs (stream S.left S.faults script.old script.new) (stream O.written O.faults out.old out.new) }
    ensures order { (logs : Stream) → IsUntouched logs
        → InOrder (reads_of (Some Form.Make)) result logs (stream S.left S.faults script.old script.new) }
{
    match take_source(alloc, script) {
        Ok(universe) => print_made(alloc, &universe, out),
        Err(stop) => end(alloc, stop, out),
    }
}

// What a source script makes.
fn take_source<S: Source>(alloc: Global, script: &mut S) -> Result<SourceUniverse, Stop<Refusal>>
    ensures took { Took make_input result (stream S.left S.faults script.old script.new) }
    ensures valid { IfOk result (λ m. is_valid (logs_of m) ≡ true) }
{
    let text = read_text(alloc, script, SCRIPT_BYTES, Refusal::SourceTooLong)?;
    make_in(alloc, text.as_slice())
}

// What the script that a text spells makes.
fn make_in(alloc: Global, text: &[u8]) -> Result<SourceUniverse, Stop<Refusal>>
    ensures read { IfOk result (λ m. make_in text.now ≡ Ok m) }
    ensures refused { IfErr result (StopsAt (make_in text.now)) }
    ensures memory { IsErrOf result Stop.ReadFault → ⊥ }
    ensures valid { IfOk result (λ m. is_valid (logs_of m) ≡ true) }
{
    let script = spelled_source(alloc, text)?;
    made_source(alloc, &script)
}

// The source script that a text spells.
fn spelled_source(alloc: Global, text: &[u8]) -> Result<SourceScript, Stop<Refusal>>
    ensures read { IfOk result (λ script. source_spelled (source_of text.now) ≡ Ok script) }
    ensures refused { IfErr result (StopsAt (source_spelled (source_of text.now))) }
    ensures memory { IsErrOf result Stop.ReadFault → ⊥ }
    ensures allowed { IfOk result (λ script. IsSourceScript script) }
{
    match read_source(alloc, text) {
        Ok(script) => Ok(script),
        Err(SourceScriptFail::Bad { line, kind }) => Err(Stop::Refused(Refusal::BadSource {
            line,
            kind,
        })),
        Err(SourceScriptFail::NoMemory) => Err(Stop::NoMemory),
    }
}

// The source after all commands.
fn made_source(alloc: Global, script: &SourceScript) -> Result<SourceUniverse, Stop<Refusal>>
    requires { IsSourceScript script.now }
    ensures read { IfOk result (λ m. unless_refused (made_of script.now) ≡ Ok m) }
    ensures refused { IfErr result (StopsAt (unless_refused (made_of script.now))) }
    ensures memory { IsErrOf result Stop.ReadFault → ⊥ }
    ensures valid { IfOk result (λ m. is_valid (logs_of m) ≡ true) }
{
    match make_source(alloc, script) {
        Ok(universe) => Ok(universe),
        Err(MakeFail::Refused { line, fail }) => {
            Err(Stop::Refused(Refusal::RefusedCommand { line, fail }))
        }
        Err(MakeFail::NoMemory) => Err(Stop::NoMemory),
    }
}

fn print_made<O: Sink>(alloc: Global, universe: &SourceUniverse, out: &mut O) -> Status
    requires { is_valid (logs_of universe.now) ≡ true }
    ensures { Wrote (make_output universe.now) ⊥ result (stream O.written O.faults out.old out.new) }
{
    let Ok(text) = print_logs(alloc, universe.logs()) else {
        return Status::NoMemory;
    };
    match write_all(out, text.as_slice()) {
        Ok(()) => Status::Ok,
        Err(fail) => Status::from(fail),
    }
}
