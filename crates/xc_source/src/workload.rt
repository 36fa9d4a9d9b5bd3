// The generated workload: a source on which the words of a seeded generator choose the calls.
ghost use Rattle.std.specs.Prelude.{◌≡◌, ◌≤◌, length, ◌∷◌, [], IfOk, OnOk, option_map, decimal};
ghost use Rattle.xc_source.specs.Commands.{run};
ghost use Rattle.xc_source.specs.Workload.{generated, words, commands_from, step_commands};
ghost use Rattle.xc_source.specs.Workload.{word_commands, key_of, set_op, remove_op, commit_commands, abort_commands};
ghost use Rattle.xc_source.specs.Workload.{apply_commands, safe_commands};
ghost use Rattle.xc_source.specs.Workload.{split_commands, width, most_width, widest, middle};
ghost use Rattle.xc_source.specs.declared.command.SourceCommand.TheVariants as command;

use crate::fail::SourceFail;
use crate::tablets::is_open;
use crate::universe::SourceUniverse;
use itoa::Buffer;
use rand_core::SeedableRng;
use rand_core::utils::NextWord;
use rand_xoshiro::SplitMix64;
use std::alloc::Global;
use xc_base::{Key, MOST_TABLETS, NoMemory, Value};
use xc_record::{Header, Op, Tablet};

/// A workload has 100,000 steps at most.
pub const MOST_STEPS: u64 = 100_000;

// How many keys there are, and how many values.
const NAMES: u64 = 1000;

// The most bytes of a key: `k` and the digits of a number.
const NAME_BYTES: usize = 21;

// No tablet is split where there are so many.
const ENOUGH_TABLETS: usize = 16;

// A split is due at each multiple of so many steps.
const STEPS_TO_SPLIT: u64 = 1000;

fn root(id: u32, lo: u16, hi: u16) -> Header
    ensures { result ≡ record { id = id; lo = lo; hi = hi; parent = None } }
{
    Header {
        id,
        lo,
        hi,
        parent: None,
    }
}

// The key of a number is `k` and its digits.
#[tactic(auto, using(crate::proofs::WorkloadLaws::is_key_of))]
fn key_of(number: u64) -> Key
    ensures { result ≡ key_of number }
{
    let mut buffer = Buffer::new();
    let digits = buffer.format(number).as_bytes();
    let mut name = [b'k'; NAME_BYTES];
    name[1..1 + digits.len()].copy_from_slice(digits);
    Key::of(&name[..1 + digits.len()])
}

// The value of a number is its digits.
#[tactic(auto, using(crate::proofs::WorkloadLaws::is_value_of))]
fn value_of(number: u64) -> Value
    ensures { result ≡ decimal number }
{
    let mut buffer = Buffer::new();
    Value::of(buffer.format(number).as_bytes())
}

// ---- what a word does

// The key is set to the value.
fn set(u: &mut SourceUniverse, key: u64, value: u64) -> Result<(), SourceFail>
    ensures { OnOk result (u.new ≡ run (command.Put (set_op key value) ∷ []) u.old) }
{
    let key = key_of(key);
    let value = value_of(value);
    u.put(Op {
        key,
        value: Some(value),
    })?;
    Ok(())
}

// The key is removed.
fn remove(u: &mut SourceUniverse, key: u64) -> Result<(), SourceFail>
    ensures { OnOk result (u.new ≡ run (command.Put (remove_op key) ∷ []) u.old) }
{
    let key = key_of(key);
    u.put(Op { key, value: None })?;
    Ok(())
}

// A transaction sets both keys to the value, and commits.
fn commit(u: &mut SourceUniverse, one: u64, two: u64, value: u64) -> Result<(), SourceFail>
    ensures { OnOk result (u.new ≡ run (commit_commands (set_op one value) (set_op two value) u.old) u.old) }
{
    let first = key_of(one);
    let second = key_of(two);
    let value = value_of(value);
    let txn = u.begin()?;
    u.write(
        txn,
        Op {
            key: first,
            value: Some(value),
        },
    )?;
    u.write(
        txn,
        Op {
            key: second,
            value: Some(value),
        },
    )?;
    u.commit(txn)?;
    Ok(())
}

// A transaction sets the key to the value, and aborts.
fn abort(u: &mut SourceUniverse, key: u64, value: u64) -> Result<(), SourceFail>
    ensures { OnOk result (u.new ≡ run (abort_commands (set_op key value) u.old) u.old) }
{
    let key = key_of(key);
    let value = value_of(value);
    let txn = u.begin()?;
    u.write(
        txn,
        Op {
            key,
            value: Some(value),
        },
    )?;
    u.abort(txn)?;
    Ok(())
}

// All that committed transactions have waiting is applied, by transaction and tablet.
fn apply_pending(u: &mut SourceUniverse) -> Result<(), SourceFail>
    ensures { OnOk result (u.new ≡ run (apply_commands u.old) u.old) }
{
    let pairs = u.pending()?;
    for pair in &pairs {
        u.apply(pair.0, pair.1)?;
    }
    Ok(())
}

// A safe record on the open tablet at this position, counted from 0 by number and round again.
fn log_safe(u: &mut SourceUniverse, position: u64) -> Result<(), SourceFail>
    ensures { OnOk result (u.new ≡ run (safe_commands position u.old) u.old) }
{
    let open = u.open_tablets()?;
    if open.len() == 0 {
        return Ok(());
    }
    let id = open[(position % open.len() as u64) as usize];
    u.safe(id)?;
    Ok(())
}

#[tactic(auto, unfolding(crate::specs::Workload::word_commands))]
fn do_word(u: &mut SourceUniverse, word: u64) -> Result<(), SourceFail>
    ensures { OnOk result (u.new ≡ run (word_commands word u.old) u.old) }
{
    let a = word / 16 % NAMES;
    let b = word / 16_000 % NAMES;
    let value = word / 16_000_000 % NAMES;
    match word % 16 {
        0..=5 => set(u, a, value),
        6 => remove(u, a),
        7..=12 => commit(u, a, b, value),
        13 => apply_pending(u),
        14 => log_safe(u, a),
        _ => abort(u, a, value),
    }
}

// ---- splits

// How many hashes the tablet has.
fn width(tablet: &Tablet) -> u32
    ensures { result ≡ width tablet.now }
{
    u32::from(tablet.header.hi.saturating_sub(tablet.header.lo)) + 1
}

// The width of the widest open tablet.
fn most_width(tablets: &[Tablet]) -> u32
    ensures { result ≡ most_width tablets.now }
{
    let mut most = 0;
    for tablet in tablets {
        if is_open(tablet) {
            most = most.max(width(tablet));
        }
    }
    most
}

// The number and the header of the widest open tablet, of these the one of the least number.
fn widest(tablets: &[Tablet]) -> Option<(u32, Header)>
    requires { length tablets.now ≤ MOST_TABLETS }
    ensures { result ≡ option_map (λ p. (p.0, p.1.header)) (widest tablets.now) }
{
    let most = most_width(tablets);
    for (id, tablet) in tablets.iter().enumerate() {
        if is_open(tablet) && width(tablet) == most {
            return Some((id as u32, tablet.header));
        }
    }
    None
}

// Where the upper half of its hashes begins.
fn middle(header: &Header) -> u16
    ensures { result ≡ middle header.now }
{
    let width = u32::from(header.hi.saturating_sub(header.lo)) + 1;
    header.lo + (width / 2) as u16
}

// The widest open tablet is split, where that is due before this step.
#[tactic(auto, unfolding(crate::specs::Workload::split_commands))]
fn split(u: &mut SourceUniverse, step: u64) -> Result<(), SourceFail>
    ensures { OnOk result (u.new ≡ run (split_commands step u.old) u.old) }
{
    let tablets = u.logs().tablets.as_slice();
    if step % STEPS_TO_SPLIT != 0 || tablets.len() >= ENOUGH_TABLETS {
        return Ok(());
    }
    let Some((id, header)) = widest(tablets) else {
        return Ok(());
    };
    u.split(id, middle(&header))?;
    Ok(())
}

// ---- all steps

#[tactic(auto, using(crate::proofs::WorkloadLaws::run_append))]
fn do_step(u: &mut SourceUniverse, step: u64, word: u64) -> Result<(), SourceFail>
    ensures { OnOk result (u.new ≡ run (step_commands step word u.old) u.old) }
{
    split(u, step)?;
    do_word(u, word)
}

// The steps from 1 to `size`, and a finish.
fn do_steps(u: &mut SourceUniverse, number: u64, size: u64) -> Result<(), SourceFail>
    requires { size ≤ MOST_STEPS }
    ensures { OnOk result (u.new ≡ run (commands_from 1 (words number size) u.old) u.old) }
{
    let mut rng = SplitMix64::from_seed(number.to_le_bytes());
    for step in 1..size + 1 {
        do_step(u, step, rng.next_word())?;
    }
    u.finish()?;
    Ok(())
}

/// The source after the workload that a number and a size make: `size` steps, 1 to [`MOST_STEPS`], on four tablets from
/// time 0, each of which does what the next word of SplitMix64 says, seeded with the number; and a finish.
///
/// A word puts or removes a key, commits a transaction of two writes, aborts one of a write, applies all that waits, or
/// logs a safe time; every 1000 steps the widest open tablet is split, until there are 16 tablets. `NoMemory` where
/// memory is out: no call of a workload is refused, as the law `no_call_is_refused` of xc_source_laws says.
#[tactic(auto, unfolding(crate::specs::Workload::workload, crate::specs::Workload::generated))]
pub fn generate(alloc: Global, number: u64, size: u64) -> Result<SourceUniverse, NoMemory>
    requires some { 1 ≤ size }
    requires few { size ≤ MOST_STEPS }
    ensures { IfOk result (λ u. u ≡ generated number size) }
{
    let roots = [
        root(0, 0, 16_383),
        root(1, 16_384, 32_767),
        root(2, 32_768, 49_151),
        root(3, 49_152, 65_535),
    ];
    let mut u = SourceUniverse::new(alloc, &roots, 0)?;
    match do_steps(&mut u, number, size) {
        Ok(()) => Ok(u),
        Err(_) => Err(NoMemory),
    }
}

#[cfg(test)]
mod tests {
    use super::*;
    use std::test::Fail;

    // How many records there are, and how many commits.
    fn counts(u: &SourceUniverse) -> (usize, usize) {
        let mut records = 0usize;
        for tablet in u.logs().tablets.as_slice() {
            records = records.saturating_add(tablet.records.as_slice().len());
        }
        (records, u.committed().len())
    }

    // The counts are those of another program.
    #[test]
    fn workloads_have_their_records_and_commits(rt: HostRuntime) -> Result<(), Fail> {
        let alloc = rt.alloc();
        assert_eq!(rt; counts(&generate(alloc, 0, 1)?), (6, 0));
        assert_eq!(rt; counts(&generate(alloc, 0, 3)?), (9, 1));
        assert_eq!(rt; counts(&generate(alloc, 1, 1000)?), (1848, 816));
        assert_eq!(rt; counts(&generate(alloc, 7, 2500)?), (4702, 2057));
        Ok(())
    }
}
