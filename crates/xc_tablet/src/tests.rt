// The conditions of a delivery are tested where it is made.
ghost use Rattle.std.specs.Prelude.{◌≡◌, ◌≤◌};
ghost use Rattle.std.specs.List.{list_all};
ghost use Rattle.xc_record.specs.Hash.{hash_of, holds};
ghost use Rattle.xc_record.specs.Order.{is_split};
ghost use Rattle.xc_record.specs.Valid.{ops_keep, keeps_header};
ghost use Rattle.xc_tablet.specs.Batch.{splits_end, records_keep};

use super::*;
use std::alloc::Global;
use std::test::Fail;
use xc_base::{Key, Value};
use xc_floor::children;
use xc_record::{Header, HybridTime, Kind, Op, Ops, Record, Subs, hash, hash_bytes};

// ---- the conditions of a delivery, tested

fn keys_are_in(header: &Header, ops: &Ops) -> bool
    ensures { result ≡ list_all (λ op. holds header.now (hash_of op.key)) ops.now }
{
    for op in ops.iter() {
        if !header.holds(hash_bytes(op.key_bytes())) {
            return false;
        }
    }
    true
}

fn ops_keep(header: &Header, ops: &Ops) -> bool
    ensures { result ≡ ops_keep header.now ops.now }
{
    ops.len() <= 64 && keys_are_in(header, ops)
}

fn kind_keeps(header: &Header, pair: &Option<(Header, Header)>, kind: &Kind) -> bool
    ensures { result ≡ keeps_header header.now pair.now kind.now }
{
    match kind {
        Kind::Write { ops } => ops_keep(header, ops),
        Kind::Intent { ops, .. } => ops_keep(header, ops),
        Kind::Apply { .. } | Kind::Abort { .. } | Kind::Safe { .. } => true,
        Kind::Split { at, left, right } => match pair {
            None => false,
            Some((l, r)) => *at == r.lo && *left == l.id && *right == r.id,
        },
    }
}

fn all_keep(header: &Header, pair: &Option<(Header, Header)>, records: &[Record]) -> bool
    ensures { result ≡ list_all (λ r. keeps_header header.now pair.now r.kind) records.now }
{
    records.iter().all(|r| kind_keeps(header, pair, &r.kind))
}

fn is_split(kind: &Kind) -> bool
    ensures { result ≡ is_split kind.now }
{
    matches!(kind, Kind::Split { .. })
}

fn splits_end(records: &[Record]) -> bool
    ensures { result ≡ splits_end records.now }
{
    for (i, r) in records.iter().enumerate() {
        if is_split(&r.kind) && i + 1 < records.len() {
            return false;
        }
    }
    true
}

fn records_keep(headers: &[Header], id: u32, records: &[Record]) -> bool
    ensures { result ≡ records_keep headers.now id records.now }
{
    let pair = children(headers, id);
    match headers.get(id as usize) {
        None => false,
        Some(header) => all_keep(header, &pair, records),
    }
}

// Gives the records to the tablet, if it can take them in.
fn give(x: &mut TargetTablet, id: u32, from: u64, records: &[Record]) -> bool {
    if id as usize >= x.headers().len() || from < 1 || from > 100 || records.len() > 100 {
        return false;
    }
    let place = x.through(id);
    let last = from - 1 + records.len() as u64;
    if from > place + 1 || (x.closed(id) && last > place) || !x.started(id) {
        return false;
    }
    if !records_keep(x.headers(), id, records) || !splits_end(records) {
        return false;
    }
    x.deliver(id, from, records).is_ok()
}

// Gives each record by itself or all at once, and each batch twice.
fn feed(x: &mut TargetTablet, id: u32, records: &[Record], whole: bool) -> bool {
    if whole {
        return give(x, id, 1, records) && give(x, id, 1, records);
    }
    for i in 0..records.len() {
        let from = i as u64 + 1;
        let one = &records[i..i + 1];
        if !give(x, id, from, one) || !give(x, id, from, one) {
            return false;
        }
    }
    true
}

// ---- what records say

fn record(time: u64, kind: Option<Kind>) -> Option<Record> {
    Some(Record {
        time: HybridTime::new(time)?,
        kind: kind?,
    })
}

fn ops(alloc: Global, key: &str, value: &str) -> Option<Ops> {
    let mut ops = Ops::new(alloc);
    ops.push(Op {
        key: Key::new(key.as_bytes()).ok()?,
        value: Some(Value::new(value.as_bytes()).ok()?),
    })
    .ok()?;
    Some(ops)
}

fn write(alloc: Global, key: &str, value: &str) -> Option<Kind> {
    Some(Kind::Write {
        ops: ops(alloc, key, value)?,
    })
}

fn intent(alloc: Global, txn: u32, sub: u8, key: &str, value: &str) -> Option<Kind> {
    Some(Kind::Intent {
        txn,
        sub,
        ops: ops(alloc, key, value)?,
    })
}

// An apply that names the subtransaction 2 as rolled back.
fn apply(txn: u32, commit: u64) -> Option<Kind> {
    let mut without = Subs::new();
    without.insert(2);
    Some(Kind::Apply {
        txn,
        commit: HybridTime::new(commit)?,
        without,
    })
}

fn safe(value: u64) -> Option<Kind> {
    Some(Kind::Safe {
        value: HybridTime::new(value)?,
    })
}

// A tablet of all hashes, and its two children.
static SPLIT: [Header; 3] = [
    Header {
        id: 0,
        lo: 0,
        hi: 65535,
        parent: None,
    },
    Header {
        id: 1,
        lo: 0,
        hi: 32767,
        parent: Some(0),
    },
    Header {
        id: 2,
        lo: 32768,
        hi: 65535,
        parent: Some(0),
    },
];

fn tablet(alloc: Global, lo: u16, hi: u16) -> Option<TargetTablet>
    requires { lo ≤ hi }
{
    TargetTablet::new(alloc, lo, hi, &SPLIT).ok()
}

fn parent_records(alloc: Global) -> Option<Vec<Record>> {
    let mut records = Vec::new(alloc);
    records.push(record(10, write(alloc, "aaa", "1"))?).ok()?;
    records
        .push(record(11, intent(alloc, 5, 1, "zzz", "9"))?)
        .ok()?;
    records
        .push(record(12, intent(alloc, 5, 2, "zzz", "8"))?)
        .ok()?;
    records.push(record(13, safe(12))?).ok()?;
    let split = Kind::Split {
        at: 32768,
        left: 1,
        right: 2,
    };
    records.push(record(14, Some(split))?).ok()?;
    Some(records)
}

fn right_records(alloc: Global) -> Option<Vec<Record>> {
    let mut records = Vec::new(alloc);
    records.push(record(18, apply(5, 16))?).ok()?;
    records.push(record(19, safe(17))?).ok()?;
    Some(records)
}

fn left_records(alloc: Global) -> Option<Vec<Record>> {
    let mut records = Vec::new(alloc);
    records.push(record(20, safe(20))?).ok()?;
    Some(records)
}

// What is read, and None where the key is out of the range.
fn shown(x: &TargetTablet, key: &str, t: u64) -> Option<Value> {
    let key = Key::new(key.as_bytes()).ok()?;
    let (lo, hi) = x.range();
    let hash = hash(&key);
    if hash < lo || hi < hash {
        return None;
    }
    x.read(&key, t)
}

fn value(text: &str) -> Option<Value> {
    Value::new(text.as_bytes()).ok()
}

#[test]
fn an_apply_on_a_child_takes_what_the_parents_records_left(rt: HostRuntime) -> Result<(), Fail> {
    let alloc = rt.alloc();
    let parent = parent_records(alloc).ok_or("memory")?;
    let left = left_records(alloc).ok_or("memory")?;
    let right = right_records(alloc).ok_or("memory")?;
    for whole in [true, false] {
        let mut x = tablet(alloc, 0, 65535).ok_or("memory")?;
        assert!(rt; !give(&mut x, 2, 1, &right), "the parent isn't closed");
        assert!(rt; feed(&mut x, 0, &parent, whole));
        assert!(rt; x.covers() == 12 && x.waiting() == 2 && x.closed(0) && !x.closed(2));
        assert!(rt; shown(&x, "aaa", 12) == value("1") && shown(&x, "aaa", 9).is_none());
        assert!(rt; feed(&mut x, 1, &left, whole) && x.covers() == 12);
        assert!(rt; feed(&mut x, 2, &right, whole) && x.covers() == 17 && x.waiting() == 0);
        assert!(rt; shown(&x, "zzz", 17) == value("9") && shown(&x, "zzz", 15).is_none());
        let rows = x.rows(alloc, 17).ok().ok_or("memory")?;
        assert!(rt; rows.len() == 2);
        x.restore(12);
        assert!(rt; shown(&x, "zzz", 17).is_none() && x.covers() == 17);
    }
    Ok(())
}

#[test]
fn a_tablet_keeps_the_keys_of_its_range_alone(rt: HostRuntime) -> Result<(), Fail> {
    let alloc = rt.alloc();
    let parent = parent_records(alloc).ok_or("memory")?;
    let mut x = tablet(alloc, 40000, 65535).ok_or("memory")?;
    assert!(rt; feed(&mut x, 0, &parent, true) && x.waiting() == 2);
    let rows = x.rows(alloc, 12).ok().ok_or("memory")?;
    assert!(rt; rows.len() == 0 && x.range() == (40000, 65535));
    Ok(())
}

#[test]
fn a_prune_keeps_the_newest_version_at_the_cutoff(rt: HostRuntime) -> Result<(), Fail> {
    let alloc = rt.alloc();
    let mut records = Vec::new(alloc);
    for (time, text) in [(10, "1"), (20, "2"), (30, "3")] {
        records.push(record(time, write(alloc, "aaa", text)).ok_or("memory")?)?;
    }
    let mut x = tablet(alloc, 0, 65535).ok_or("memory")?;
    assert!(rt; feed(&mut x, 0, &records, true));
    assert!(rt; shown(&x, "aaa", 19) == value("1"));
    x.keep_from(20);
    assert!(rt; shown(&x, "aaa", 19).is_none() && shown(&x, "aaa", 29) == value("2"));
    x.keep_from(31);
    assert!(rt; shown(&x, "aaa", 29).is_none() && shown(&x, "aaa", 30) == value("3"));
    Ok(())
}
