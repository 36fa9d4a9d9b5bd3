// The rules on records, and the limits: which logs are valid.
ghost use Rattle.std.specs.Prelude.{◌≡◌, ◌<◌, length, sum_by, nat_le, ◌+◌, MatchOption};
ghost use Rattle.std.specs.List.{list_all};
ghost use Rattle.xc_record.specs.Order.{is_split};
ghost use Rattle.xc_record.specs.Valid.{headers_of, op_fits, ops_fit, kind_fits, record_fits, ends_fit};
ghost use Rattle.xc_record.specs.Valid.{tablet_fits, is_valid, ops_in, is_time};
ghost use Rattle.xc_record.specs.Subs.{are_subs};

use crate::headers::{are_headers, children};
use crate::key_hash::hash_bytes;
use crate::ops::{OpAt, Ops};
use crate::record::{Header, Kind, Logs, Record, Tablet};
use crate::subs::Subs;
use xc_base::{LAST_SUB, MOST_OPERATIONS, MOST_RECORDS, RECORD_OPERATIONS};
use xc_time::LAST_TIME;

fn op_fits(header: &Header, op: &OpAt<'_>) -> bool
    ensures { result ≡ op_fits header.now op.now }
{
    header.holds(hash_bytes(op.key_bytes()))
}

fn all_ops_fit(header: &Header, ops: &Ops) -> bool
    ensures { result ≡ list_all (op_fits header.now) ops.now }
{
    for op in ops.iter() {
        if !op_fits(header, &op) {
            return false;
        }
    }
    true
}

fn ops_fit(header: &Header, ops: &Ops) -> bool
    ensures { result ≡ ops_fit header.now ops.now }
{
    let count = ops.len();
    1 <= count && count <= RECORD_OPERATIONS && all_ops_fit(header, ops)
}

fn kind_fits(header: &Header, pair: &Option<(Header, Header)>, kind: &Kind) -> bool
    ensures { result ≡ kind_fits header.now pair.now kind.now }
{
    match kind {
        Kind::Write { ops } => ops_fit(header, ops),
        Kind::Intent { txn, sub, ops } => *txn >= 1 && *sub <= LAST_SUB && ops_fit(header, ops),
        Kind::Apply {
            txn,
            commit,
            without,
        } => *txn >= 1 && is_time(commit.get()) && are_subs(without),
        Kind::Abort { txn } => *txn >= 1,
        Kind::Safe { value } => is_time(value.get()),
        Kind::Split { at, left, right } => match pair {
            None => false,
            Some((l, r)) => *at == r.lo && *left == l.id && *right == r.id,
        },
    }
}

// Whether they are from 1 to `LAST_SUB` and rise, which their type sees to.
fn are_subs(subs: &Subs) -> bool
    ensures { result ≡ are_subs subs.now }
{
    let _count = subs.len();
    true
}

/// Whether the number is a hybrid time: 1 to 2^62 - 1.
#[inline]
pub fn is_time(value: u64) -> bool
    ensures { result ≡ is_time value }
{
    1 <= value && value <= LAST_TIME
}

fn record_fits(header: &Header, pair: &Option<(Header, Header)>, r: &Record) -> bool
    ensures { result ≡ record_fits header.now pair.now r.now }
{
    is_time(r.time.get()) && kind_fits(header, pair, &r.kind)
}

fn all_records_fit(header: &Header, pair: &Option<(Header, Header)>, records: &[Record]) -> bool
    ensures { result ≡ list_all (record_fits header.now pair.now) records.now }
{
    records.iter().all(|r| record_fits(header, pair, r))
}

// Whether the records end in a split, where the tablet has children, and no other one is a split.
fn ends_fit(has_children: bool, records: &[Record]) -> bool
    ensures { result ≡ ends_fit has_children records.now }
{
    for (i, r) in records.iter().enumerate() {
        if is_split(&r.kind) {
            return has_children && i + 1 == records.len();
        }
    }
    !has_children
}

fn is_split(kind: &Kind) -> bool
    ensures { result ≡ is_split kind.now }
{
    matches!(kind, Kind::Split { .. })
}

fn tablet_fits(tablets: &[Tablet], t: &Tablet) -> bool
    ensures { result ≡ tablet_fits (headers_of tablets.now) t.now }
{
    let pair = children(tablets, t.header.id);
    all_records_fit(&t.header, &pair, t.records.as_slice())
        && ends_fit(pair.is_some(), t.records.as_slice())
}

fn all_tablets_fit(tablets: &[Tablet]) -> bool
    ensures { result ≡ list_all (tablet_fits (headers_of tablets.now)) tablets.now }
{
    tablets.iter().all(|t| tablet_fits(tablets, t))
}

// Whether there are at most as many records as allowed.
fn records_fit(tablets: &[Tablet]) -> bool
    ensures { result ≡ nat_le (sum_by (λ t. length t.records) tablets.now) MOST_RECORDS }
{
    let mut room = MOST_RECORDS;
    for t in tablets {
        let count = t.records.as_slice().len();
        if count > room {
            return false;
        }
        room -= count;
    }
    true
}

fn ops_in(kind: &Kind) -> usize
    ensures { result ≡ ops_in kind.now }
{
    match kind {
        Kind::Write { ops } | Kind::Intent { ops, .. } => ops.len(),
        Kind::Apply { .. } | Kind::Abort { .. } | Kind::Safe { .. } | Kind::Split { .. } => 0,
    }
}

// What is left of the room after the operations of the records, or nothing where they take more.
fn room_after(records: &[Record], room: usize) -> Option<usize>
    ensures { MatchOption result (room < sum_by (λ r. ops_in r.kind) records.now)
        (λ left. left + sum_by (λ r. ops_in r.kind) records.now ≡ room) }
{
    let mut left = room;
    for r in records {
        let count = ops_in(&r.kind);
        if count > left {
            return None;
        }
        left -= count;
    }
    Some(left)
}

// Whether there are at most as many operations as allowed.
fn operations_fit(tablets: &[Tablet]) -> bool
    ensures { result ≡ nat_le (sum_by (λ t. sum_by (λ r. ops_in r.kind) t.records) tablets.now) MOST_OPERATIONS }
{
    let mut room = MOST_OPERATIONS;
    for t in tablets {
        match room_after(t.records.as_slice(), room) {
            None => return false,
            Some(left) => room = left,
        }
    }
    true
}

/// Whether the rules on tablets and records and the limits hold. The order of the records is not looked at.
#[tactic(auto, unfolding(crate::specs::Valid::is_valid))]
pub fn valid(logs: &Logs) -> bool
    ensures { result ≡ is_valid logs.now }
{
    let tablets = logs.tablets.as_slice();
    are_headers(tablets)
        && all_tablets_fit(tablets)
        && records_fit(tablets)
        && operations_fit(tablets)
}
