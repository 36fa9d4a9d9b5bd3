// A finish, which does all or nothing: it logs all first, where it can still go back, and takes what was applied last.
ghost use Rattle.std.specs.Prelude.{◌≡◌, ◌≤◌, ◌<◌, ◌+◌, true, length, map, is_some, IfOk, OnOk, OnErr};
ghost use Rattle.xc_time.specs.Times.{last_time};
ghost use Rattle.xc_source.specs.Machine.{commit_of, records_in};
ghost use Rattle.xc_source.specs.Calls.{apply_kind};
ghost use Rattle.xc_source.specs.Universe.{logged_in};
ghost use Rattle.xc_source.specs.Holders.{numbered, committed_at};
ghost use Rattle.xc_source.specs.Finish.{are_committed, applies_in, safes_in, headers_of, taken_at, all_taken};

use crate::journal::Journal;
use crate::transaction::Transaction;
use crate::transactions::Transactions;
use std::alloc::{AllocError, Global};
use xc_base::MOST_RECORDS;
use xc_record::{Kind, Tablet};

// A transaction and a tablet.
pub(crate) type Pair = (u32, u32);

// Logs that the committed transaction is applied on the tablet. After an error all is as before.
pub(crate) fn log_apply(
    journal: &mut Journal,
    txn: u32,
    t: &Transaction,
    id: u32,
) -> Result<u64, AllocError>
    requires committed { is_some (commit_of t.now.stage) ≡ true }
    requires room { records_in journal.old.tablets < MOST_RECORDS }
    requires time { journal.old.time < last_time }
    ensures ok { IfOk result (λ time. (time ≡ journal.old.time + 1)
        × (journal.new ≡ logged_in id (apply_kind txn t.now) journal.old)) }
    ensures count { OnOk result (records_in journal.new.tablets ≤ records_in journal.old.tablets + 1) }
    ensures err { OnErr result (journal.new ≡ journal.old) }
{
    let commit = t.commit_time().unwrap();
    let without = t.undone();
    let kind = Kind::Apply {
        txn,
        commit,
        without,
    };
    let time = journal.log(id as usize, kind)?;
    Ok(time)
}

// The tablets of the pairs.
fn places(alloc: Global, pairs: &[Pair]) -> Result<Vec<u32>, AllocError>
    ensures { IfOk result (λ ids. ids.items ≡ map (λ p. p.1) pairs.now) }
{
    let mut ids = Vec::new(alloc);
    for pair in pairs {
        if ids.push(pair.1).is_err() {
            return Err(AllocError);
        }
    }
    Ok(ids)
}

// Logs that the committed transactions are applied on the tablets, of which `places` are the numbers. After an error
// all is as before.
fn log_applies(
    journal: &mut Journal,
    txns: &Transactions,
    pairs: &[Pair],
    places: &[u32],
) -> Result<(), AllocError>
    requires committed { are_committed txns.now pairs.now ≡ true }
    requires places { places.now ≡ map (λ p. p.1) pairs.now }
    requires room { records_in journal.old.tablets + length pairs.now ≤ MOST_RECORDS }
    requires time { journal.old.time + length pairs.now ≤ last_time }
    ensures ok { OnOk result (journal.new ≡ applies_in txns.now pairs.now journal.old) }
    ensures count { OnOk result (records_in journal.new.tablets
        ≤ records_in journal.old.tablets + length pairs.now) }
    ensures time { OnOk result (journal.new.time ≡ journal.old.time + length pairs.now) }
    ensures err { OnErr result (journal.new ≡ journal.old) }
{
    for (i, pair) in pairs.iter().enumerate() {
        if log_apply(journal, pair.0, txns.at(pair.0), pair.1).is_err() {
            journal.unlog_all(&places[..i]);
            return Err(AllocError);
        }
    }
    Ok(())
}

// Logs that the committed transactions are applied on the tablets, and then a safe record at its own time on each of
// the tablets of `ids`. After an error all is as before.
pub(crate) fn log_finish(
    alloc: Global,
    journal: &mut Journal,
    txns: &Transactions,
    pairs: &[Pair],
    ids: &[u32],
) -> Result<(), AllocError>
    requires committed { are_committed txns.now pairs.now ≡ true }
    requires room { records_in journal.old.tablets + (length pairs.now + length ids.now) ≤ MOST_RECORDS }
    requires time { journal.old.time + (length pairs.now + length ids.now) ≤ last_time }
    ensures ok { OnOk result (journal.new ≡ safes_in ids.now (applies_in txns.now pairs.now journal.old)) }
    ensures err { OnErr result (journal.new ≡ journal.old) }
{
    let places = places(alloc, pairs)?;
    log_applies(journal, txns, pairs, &places)?;
    if journal.log_safes(ids).is_err() {
        journal.unlog_all(&places);
        return Err(AllocError);
    }
    Ok(())
}

// Takes what waits of the committed transaction on the tablet.
fn take_at(txns: &mut Transactions, tablets: &[Tablet], pair: &Pair)
    requires committed { committed_at (numbered txns.old pair.now.0) ≡ true }
    ensures { txns.new ≡ taken_at (headers_of tablets.now) pair.now txns.old }
{
    if let Some(tablet) = tablets.get(pair.1 as usize) {
        txns.take(pair.0, &tablet.header);
    }
}

// Takes what waits of the committed transactions on the tablets.
pub(crate) fn take_all(txns: &mut Transactions, tablets: &[Tablet], pairs: &[Pair])
    requires committed { are_committed txns.old pairs.now ≡ true }
    ensures { txns.new ≡ all_taken (headers_of tablets.now) pairs.now txns.old }
{
    for pair in pairs {
        take_at(txns, tablets, pair);
    }
}
