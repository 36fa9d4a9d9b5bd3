// Over sources and a sink that never fail, a run is complete or wants memory.
ghost use Rattle.std.specs.Prelude.{◌≡◌, ◌⊎◌, List, ℕ, Some, map, string_bytes};
ghost use Rattle.std.specs.Io.KnownBytes.{Appends};
ghost use Rattle.xc_tool.specs.Outcome.{outcome};

use crate::top::run;
use std::alloc::Global;
use xc_base::{QuietSink, QuietSource, Sink, Source, Status};

/// `run` over sources and a sink in memory, which never fail: the whole outcome comes, or memory ran out.
pub fn run_quiet(
    alloc: Global,
    words: &[String],
    logs: &mut QuietSource,
    script: &mut QuietSource,
    out: &mut QuietSink,
) -> Status
    ensures read { result ≡ Status.ReadFault → ⊥ }
    ensures write { result ≡ Status.WriteFault → ⊥ }
    ensures complete { (a b : List ℕ)
        → ⟦<QuietSource as Source>⟧.left logs.old ≡ Some a → ⟦<QuietSource as Source>⟧.left script.old ≡ Some b →
        (result ≡ Status.NoMemory) ⊎ ((result ≡ (outcome (map string_bytes words.now) a b).status)
        × Appends (⟦<QuietSink as Sink>⟧.written out.old) (⟦<QuietSink as Sink>⟧.written out.new)
        (outcome (map string_bytes words.now) a b).text) }
{
    run(alloc, words, logs, script, out)
}
