// The command `gen`: a generated workload, a target that takes all its records, and a line of what that shows.
ghost use Rattle.std.specs.Prelude.{◌≡◌, ◌≤◌, IfOk, None, map, string_bytes, true};
ghost use Rattle.std.specs.List.{join_with_byte};
ghost use Rattle.xc_record.specs.Agreement.{disagreement};
ghost use Rattle.xc_record.specs.Session.{start};
ghost use Rattle.xc_record.specs.Step.{drained};
ghost use Rattle.xc_record.specs.Valid.{is_valid};
ghost use Rattle.xc_run.specs.Ran.{Wrote};
ghost use Rattle.xc_run.specs.Streams.{stream};
ghost use Rattle.xc_script.specs.Lines.{lines_text};
ghost use Rattle.xc_source.specs.Machine.{logs_of};
ghost use Rattle.xc_source.specs.Workload.{generated};
ghost use Rattle.xc_target.specs.Stands.{StandsForSession};
ghost use Rattle.xc_tool.specs.Answers.{row_line};
ghost use Rattle.xc_tool.specs.AuditLines.{line_of_words};
ghost use Rattle.xc_tool.specs.Generated.{digest, made_words, shown_words, summary_line, summary_of};
ghost use Rattle.xc_tool.specs.Outcome.{gen_output};
ghost use Rattle.xc_source.specs.declared.workload.TheConstants.{MOST_STEPS};

use crate::answer::print_rows;
use std::alloc::{AllocError, Global};
use xc_base::{Bytes, Key, NoMemory, Sink, Status, Value, write_all};
use xc_logs::{LogSet, MemoryFeed};
use xc_source::{SourceUniverse, generate as generate_source};
use xc_target::Target;

// The target has a tablet for each of the source's roots, and each a quarter of the hashes.
const BOUNDS: [u16; 4] = [0, 16_384, 32_768, 49_152];

/// What a generated workload comes to.
#[derive(Clone, Copy, Debug)]
pub(crate) struct Summary {
    /// How many records its logs have.
    pub(crate) records: u64,
    /// How many commits the source lists: the puts, and the transactions that committed a write.
    pub(crate) commits: u64,
    /// The safe time of a target that took all records.
    pub(crate) safe: u64,
    /// How many rows there are at that time.
    pub(crate) rows: u64,
    /// The digest of their `row` lines.
    pub(crate) digest: u32,
}

/// `gen NUMBER SIZE`, which reads nothing.
pub(crate) fn generate<O: Sink>(alloc: Global, number: u64, size: u64, out: &mut O) -> Status
    requires some { 1 ≤ size }
    requires most { size ≤ MOST_STEPS }
    ensures { Wrote (gen_output number size) ⊥ result (stream O.written O.faults out.old out.new) }
{
    let Ok(text) = summary_text(alloc, number, size) else {
        return Status::NoMemory;
    };
    match write_all(out, text.as_bytes()) {
        Ok(()) => Status::Ok,
        Err(fail) => Status::from(fail),
    }
}

fn summary_text(alloc: Global, number: u64, size: u64) -> Result<String, NoMemory>
    requires some { 1 ≤ size }
    requires most { size ≤ MOST_STEPS }
    ensures { IfOk result (λ text. string_bytes text
        ≡ summary_line number size (summary_of (generated number size))) }
{
    let universe = generate_source(alloc, number, size)?;
    let summary = summary_of(alloc, universe)?;
    Ok(summary_line(alloc, number, size, &summary)?)
}

fn summary_line(
    alloc: Global,
    number: u64,
    size: u64,
    summary: &Summary,
) -> Result<String, AllocError>
    ensures { IfOk result (λ line. string_bytes line ≡ summary_line number size summary.now) }
{
    let mut line = made_text(alloc, number, size, summary)?;
    line.push_str(" ")?;
    let shown = shown_line(alloc, summary)?;
    line.push_str(shown.as_str())?;
    Ok(line)
}

// What the source did.
fn made_text(alloc: Global, number: u64, size: u64, summary: &Summary) -> Result<String, AllocError>
    ensures { IfOk result (λ text. string_bytes text ≡ join_with_byte 32 (made_words number size summary.now)) }
{
    let records = summary.records;
    let commits = summary.commits;
    let text = format!(in alloc; "gen {number} {size} records {records} commits {commits}")?;
    Ok(text)
}

// What a target shows of it.
fn shown_line(alloc: Global, summary: &Summary) -> Result<String, AllocError>
    ensures { IfOk result (λ line. string_bytes line ≡ line_of_words (shown_words summary.now)) }
{
    let safe = summary.safe;
    let rows = summary.rows;
    let digest = summary.digest;
    let line = format!(in alloc; "safe {safe} rows {rows} digest {digest}\n")?;
    Ok(line)
}

// What the workload of this source comes to.
fn summary_of(alloc: Global, universe: SourceUniverse) -> Result<Summary, NoMemory>
    requires valid { is_valid (logs_of universe) ≡ true }
    requires agree { disagreement (logs_of universe) ≡ None }
    ensures { IfOk result (λ summary. summary ≡ summary_of universe) }
{
    let records = universe.record_count();
    let commits = universe.committed().len() as u64;
    let logs = LogSet::new(universe.into_logs());
    let target = drained_target(alloc, &logs)?;
    let rows = target.scan(alloc)?;
    let rows = rows.as_slice();
    Ok(Summary {
        records,
        commits,
        safe: target.safe(),
        rows: rows.len() as u64,
        digest: rows_digest(alloc, rows)?,
    })
}

// A target that took all records of the logs, by polls.
fn drained_target(alloc: Global, logs: &LogSet) -> Result<Target, NoMemory>
    ensures { IfOk result (λ target. StandsForSession logs.now (drained logs.now (start logs.now)) target) }
{
    let headers = logs.headers(alloc)?;
    let mut target = Target::new(alloc, &headers, &BOUNDS)?;
    match target.drain(alloc, &mut MemoryFeed::new(logs)) {
        Ok(_) => Ok(target),
        // The target is open, and a feed in memory never fails.
        Err(_) => Err(NoMemory),
    }
}

// The digest of the lines of these rows.
fn rows_digest(alloc: Global, rows: &[(Key, Value)]) -> Result<u32, NoMemory>
    ensures { IfOk result (λ found. found ≡ digest (lines_text (map row_line rows.now))) }
{
    let mut text = Bytes::new(alloc);
    print_rows(alloc, rows, &mut text)?;
    Ok(digest(text.as_slice()))
}

fn digest(bytes: &[u8]) -> u32
    ensures { result ≡ digest bytes.now }
{
    let mut digest = 0u32;
    for byte in bytes {
        digest = digest.wrapping_mul(31).wrapping_add(u32::from(*byte));
    }
    digest
}
