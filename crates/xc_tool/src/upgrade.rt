// The command `upgrade`: the logs, whatever they hold, and then their text of version 2.
ghost use Rattle.std.specs.Prelude.{◌≡◌, Some, true};
ghost use Rattle.xc_record.specs.Valid.{is_valid};
ghost use Rattle.xc_run.specs.Ran.{Wrote, Ran, Is};
ghost use Rattle.xc_run.specs.Streams.{Stream, stream, IsUntouched};
ghost use Rattle.xc_tool.specs.Outcome.{upgrade_output, output_for, reads_of, InOrder};

use crate::steps::{end, take_any_logs};
use crate::words::Form;
use std::alloc::Global;
use xc_base::{Sink, Source, Status, write_all};
use xc_record::Logs;
use xc_text::print_logs2;

/// `upgrade LOGS`, which is given no script: any script is as it was.
pub(crate) fn upgrade<L: Source, O: Sink>(alloc: Global, logs: &mut L, out: &mut O) -> Status
    ensures ran { (script : Stream) → IsUntouched script
        → Ran (Is (output_for (Some Form.Upgrade))) (reads_of (Some Form.Upgrade)) result
        (stream L.left L.faults logs.old logs.new) script (stream O.written O.faults out.old out.new) }
    ensures order { (script : Stream) → IsUntouched script
        → InOrder (reads_of (Some Form.Upgrade)) result (stream L.left L.faults logs.old logs.new) script }
{
    match take_any_logs(alloc, logs) {
        Ok(logs) => print_upgraded(alloc, &logs, out),
        Err(stop) => end(alloc, stop, out),
    }
}

fn print_upgraded<O: Sink>(alloc: Global, logs: &Logs, out: &mut O) -> Status
    requires { is_valid logs.now ≡ true }
    ensures { Wrote (upgrade_output logs.now) ⊥ result (stream O.written O.faults out.old out.new) }
{
    let Ok(text) = print_logs2(alloc, logs) else {
        return Status::NoMemory;
    };
    match write_all(out, text.as_slice()) {
        Ok(()) => Status::Ok,
        Err(fail) => Status::from(fail),
    }
}
