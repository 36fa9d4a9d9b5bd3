// Sessions over small logs, asked call by call. The target has two tablets, which part the hashes at 40000.
ghost use Rattle.std.specs.Prelude.{◌≡◌, Some, IfSome};
ghost use Rattle.xc_target.specs.Target.{FitsFeed};

use super::*;
use std::alloc::Global;
use std::test::Fail;
use xc_base::{Key, Value};
use xc_logs::{Feed, FeedFail, LogSet, MemoryFeed};
use xc_record::{
    Header, HybridTime, Kind, Logs, Op, Ops, Record, Records, Subs, Tablet, Tablets, valid,
};

// ---- what the source logged

fn ops(alloc: Global, key: &str, value: &str) -> Option<Ops> {
    let mut ops = Ops::new(alloc);
    ops.push(Op {
        key: Key::new(key.as_bytes()).ok()?,
        value: Some(Value::new(value.as_bytes()).ok()?),
    })
    .ok()?;
    Some(ops)
}

fn write(alloc: Global, key: &str, value: &str) -> Option<Kind> {
    Some(Kind::Write {
        ops: ops(alloc, key, value)?,
    })
}

fn intent(alloc: Global, txn: u32, key: &str, value: &str) -> Option<Kind> {
    Some(Kind::Intent {
        txn,
        sub: 0,
        ops: ops(alloc, key, value)?,
    })
}

fn apply(txn: u32, commit: u64) -> Option<Kind> {
    Some(Kind::Apply {
        txn,
        commit: HybridTime::new(commit)?,
        without: Subs::new(),
    })
}

fn safe(value: u64) -> Option<Kind> {
    Some(Kind::Safe {
        value: HybridTime::new(value)?,
    })
}

fn header(id: u32, lo: u16, hi: u16, parent: Option<u32>) -> Header {
    Header { id, lo, hi, parent }
}

// Tablets without records.
fn empty(alloc: Global, headers: &[Header]) -> Option<Tablets> {
    let mut tablets = Vec::new(alloc);
    for header in headers {
        tablets
            .push(Tablet {
                header: *header,
                records: Records::from_vec(Vec::new(alloc)),
            })
            .ok()?;
    }
    Some(Tablets::from_vec(tablets))
}

fn log(tablets: &mut Tablets, id: u32, time: u64, kind: Option<Kind>) -> Option<()> {
    if id as usize >= tablets.as_slice().len() {
        return None;
    }
    let time = HybridTime::new(time)?;
    let logged = Record { time, kind: kind? };
    tablets.push_record(id, logged).ok()
}

fn set_of(tablets: Tablets) -> Option<LogSet> {
    let logs = Logs { tablets };
    if !valid(&logs) {
        return None;
    }
    Some(LogSet::new(logs))
}

// A root that is split while an operation waits, which is applied on the right child.
fn split_logs(alloc: Global) -> Option<LogSet> {
    let headers = [
        header(0, 0, 65535, None),
        header(1, 0, 32767, Some(0)),
        header(2, 32768, 65535, Some(0)),
    ];
    let mut tablets = empty(alloc, &headers)?;
    log(&mut tablets, 0, 10, write(alloc, "aaa", "1"))?;
    log(&mut tablets, 0, 12, intent(alloc, 5, "zzz", "9"))?;
    log(&mut tablets, 0, 13, safe(12))?;
    let split = Kind::Split {
        at: 32768,
        left: 1,
        right: 2,
    };
    log(&mut tablets, 0, 14, Some(split))?;
    log(&mut tablets, 1, 20, safe(20))?;
    log(&mut tablets, 2, 18, apply(5, 16))?;
    log(&mut tablets, 2, 19, safe(17))?;
    set_of(tablets)
}

// Two roots, and one transaction over both.
fn shared_logs(alloc: Global) -> Option<LogSet> {
    let headers = [header(0, 0, 32767, None), header(1, 32768, 65535, None)];
    let mut tablets = empty(alloc, &headers)?;
    log(&mut tablets, 0, 10, intent(alloc, 7, "aaa", "1"))?;
    log(&mut tablets, 0, 20, apply(7, 15))?;
    log(&mut tablets, 0, 22, safe(22))?;
    log(&mut tablets, 1, 11, intent(alloc, 7, "zzz", "2"))?;
    log(&mut tablets, 1, 21, safe(14))?;
    log(&mut tablets, 1, 25, apply(7, 15))?;
    log(&mut tablets, 1, 30, safe(28))?;
    set_of(tablets)
}

// One root, and three writes of a row.
fn written_logs(alloc: Global) -> Option<LogSet> {
    let mut tablets = empty(alloc, &[header(0, 0, 65535, None)])?;
    log(&mut tablets, 0, 10, write(alloc, "aaa", "1"))?;
    log(&mut tablets, 0, 20, write(alloc, "aaa", "2"))?;
    log(&mut tablets, 0, 30, write(alloc, "aaa", "3"))?;
    log(&mut tablets, 0, 31, safe(30))?;
    set_of(tablets)
}

// Two roots, one of which goes back in time.
fn broken_logs(alloc: Global) -> Option<LogSet> {
    let headers = [header(0, 0, 32767, None), header(1, 32768, 65535, None)];
    let mut tablets = empty(alloc, &headers)?;
    log(&mut tablets, 0, 10, write(alloc, "aaa", "1"))?;
    log(&mut tablets, 0, 20, safe(20))?;
    log(&mut tablets, 1, 11, write(alloc, "zzz", "2"))?;
    log(&mut tablets, 1, 12, safe(12))?;
    log(&mut tablets, 1, 12, write(alloc, "zzz", "3"))?;
    log(&mut tablets, 1, 30, safe(30))?;
    set_of(tablets)
}

// ---- what is asked, and answered

#[derive(Clone, Copy, Debug)]
enum Ask {
    Poll(u32, u64),
    Stop(u32, u64, usize),
    Acknowledge(u32),
    Restart(u32),
    Drain,
    Safe,
    Scan,
    Read(&'static str),
    ReadAt(u64, &'static str),
    Prune(u64),
    Failover,
}

#[derive(Clone, Copy, PartialEq, Eq, Debug)]
enum Answer {
    Polled(u64),
    Waits(u32),
    AtEnd,
    Halted(u64),
    Place(u64),
    // How many halts there are, and the tablet and the record of the first.
    Drained(usize, Option<(u32, u64)>),
    Safe(u64),
    // How many rows there are, and the first bytes of the first key and of the last.
    Rows(usize, Option<u8>, Option<u8>),
    // The first byte of a row's value.
    Row(Option<u8>),
    Ahead(u64),
    Pruned(u64),
    Cutoff(u64),
    Closed(u64),
    Fault,
    NoMemory,
    // There is no such tablet or key.
    Unknown,
}

fn polled(ended: Result<PollAnswer, TargetFail>) -> Answer {
    match ended {
        Ok(PollAnswer::Polled(count)) => Answer::Polled(count),
        Ok(PollAnswer::Waits { parent }) => Answer::Waits(parent),
        Ok(PollAnswer::AtEnd) => Answer::AtEnd,
        Ok(PollAnswer::Halted { number, .. }) => Answer::Halted(number),
        Err(TargetFail::Closed(t)) => Answer::Closed(t),
        Err(TargetFail::ReadFault) => Answer::Fault,
        Err(TargetFail::NoMemory) => Answer::NoMemory,
    }
}

fn drained(ended: Result<Vec<Halt>, TargetFail>) -> Answer {
    match ended {
        Ok(halts) => Answer::Drained(
            halts.len(),
            halts.first().map(|halt| (halt.id, halt.number)),
        ),
        Err(TargetFail::Closed(t)) => Answer::Closed(t),
        Err(TargetFail::ReadFault) => Answer::Fault,
        Err(TargetFail::NoMemory) => Answer::NoMemory,
    }
}

fn begins(row: Option<&(Key, Value)>) -> Option<u8> {
    row.and_then(|(key, _)| key.bytes().first().copied())
}

fn scanned(target: &Target, alloc: Global) -> Answer {
    let Ok(rows) = target.scan(alloc) else {
        return Answer::NoMemory;
    };
    let rows = rows.as_slice();
    Answer::Rows(rows.len(), begins(rows.first()), begins(rows.last()))
}

fn row(value: Option<Value>) -> Answer {
    Answer::Row(value.and_then(|value| value.bytes().first().copied()))
}

fn read(target: &Target, key: &str) -> Answer {
    match Key::new(key.as_bytes()) {
        Ok(key) => row(target.read(&key)),
        Err(_) => Answer::Unknown,
    }
}

fn read_at(target: &Target, u: u64, key: &str) -> Answer {
    let Ok(key) = Key::new(key.as_bytes()) else {
        return Answer::Unknown;
    };
    match target.read_at(u, &key) {
        Ok(value) => row(value),
        Err(NotReadable::Ahead { safe }) => Answer::Ahead(safe),
        Err(NotReadable::Pruned { cutoff }) => Answer::Pruned(cutoff),
    }
}

fn pruned(ended: Result<u64, PruneFail>) -> Answer {
    match ended {
        Ok(cutoff) => Answer::Cutoff(cutoff),
        Err(PruneFail::Closed(t)) => Answer::Closed(t),
        Err(PruneFail::Ahead { safe }) => Answer::Ahead(safe),
    }
}

fn place(ended: Result<u64, Closed>) -> Answer {
    match ended {
        Ok(place) => Answer::Place(place),
        Err(closed) => Answer::Closed(closed.t),
    }
}

fn answered<F: Feed>(target: &mut Target, alloc: Global, feed: &mut F, ask: Ask) -> Answer
    requires { FitsFeed (F.headers feed.old) (F.counts feed.old) target.old }
    ensures { FitsFeed (F.headers feed.new) (F.counts feed.new) target.new }
{
    let sources = target.sources();
    let tablets = target.tablets();
    match ask {
        Ask::Poll(id, n) => {
            if id as usize >= sources || n == 0 {
                return Answer::Unknown;
            }
            polled(target.poll(alloc, feed, id, n))
        }
        Ask::Stop(id, n, last) => {
            if id as usize >= sources || n == 0 || last >= tablets {
                return Answer::Unknown;
            }
            polled(target.stopped_poll(alloc, feed, id, n, last))
        }
        Ask::Acknowledge(id) => {
            if id as usize >= sources {
                return Answer::Unknown;
            }
            place(target.acknowledge(id))
        }
        Ask::Restart(id) => {
            if id as usize >= sources {
                return Answer::Unknown;
            }
            place(target.restart(id))
        }
        Ask::Drain => drained(target.drain(alloc, feed)),
        Ask::Safe => Answer::Safe(target.safe()),
        Ask::Scan => scanned(target, alloc),
        Ask::Read(key) => read(target, key),
        Ask::ReadAt(u, key) => read_at(target, u, key),
        Ask::Prune(u) => pruned(target.prune(u)),
        Ask::Failover => match target.failover() {
            Ok(t) => Answer::Safe(t),
            Err(closed) => Answer::Closed(closed.t),
        },
    }
}

// A poll or a drain that the feed failed is asked again.
fn answered_at_last<F: Feed>(target: &mut Target, alloc: Global, feed: &mut F, ask: Ask) -> Answer
    requires { FitsFeed (F.headers feed.old) (F.counts feed.old) target.old }
    ensures { FitsFeed (F.headers feed.new) (F.counts feed.new) target.new }
{
    match answered(target, alloc, feed, ask) {
        Answer::Fault => answered(target, alloc, feed, ask),
        came => came,
    }
}

// The number of the first answer that isn't as wanted, from 0, and what came.
fn first_other<F: Feed>(
    target: &mut Target,
    alloc: Global,
    feed: &mut F,
    asks: &[(Ask, Answer)],
) -> Option<(usize, Answer)>
    requires { FitsFeed (F.headers feed.old) (F.counts feed.old) target.old }
    ensures { FitsFeed (F.headers feed.new) (F.counts feed.new) target.new }
{
    for (i, (ask, wanted)) in asks.iter().enumerate() {
        let came = answered_at_last(target, alloc, feed, *ask);
        if came != *wanted {
            return Some((i, came));
        }
    }
    None
}

// A new target of two tablets for the logs of the feed.
#[tactic(auto, unfolding(xc_record::specs::Bounds::are_bounds))]
fn begin<F: Feed>(alloc: Global, logs: &LogSet, feed: &F) -> Option<Target>
    requires { F.logs feed.now ≡ Some logs.now }
    ensures { IfSome result (FitsFeed (F.headers feed.now) (F.counts feed.now)) }
{
    let headers = logs.headers(alloc).ok()?;
    Target::new(alloc, &headers, &[0, 40000]).ok()
}

fn other_in_memory(
    alloc: Global,
    logs: &LogSet,
    asks: &[(Ask, Answer)],
) -> Option<(usize, Answer)> {
    let mut feed = MemoryFeed::new(logs);
    match begin(alloc, logs, &feed) {
        Some(mut target) => first_other(&mut target, alloc, &mut feed, asks),
        None => Some((0, Answer::NoMemory)),
    }
}

#[test]
fn a_child_waits_until_its_parent_is_closed(rt: HostRuntime) -> Result<(), Fail> {
    let alloc = rt.alloc();
    let logs = split_logs(alloc).ok_or("memory")?;
    let asks = [
        (Ask::Poll(2, 9), Answer::Waits(0)),
        (Ask::Poll(0, 3), Answer::Polled(3)),
        (Ask::Poll(2, 9), Answer::Waits(0)),
        (Ask::Poll(0, 1), Answer::Polled(1)),
        (Ask::Poll(0, 1), Answer::AtEnd),
        (Ask::Poll(2, 9), Answer::Polled(2)),
        (Ask::Safe, Answer::Safe(12)),
        (Ask::Poll(1, 9), Answer::Polled(1)),
        (Ask::Safe, Answer::Safe(17)),
        (Ask::Read("zzz"), Answer::Row(Some(b'9'))),
    ];
    assert_eq!(rt; other_in_memory(alloc, &logs, &asks), None);
    Ok(())
}

#[test]
fn a_restart_polls_again_from_the_acknowledged_place(rt: HostRuntime) -> Result<(), Fail> {
    let alloc = rt.alloc();
    let logs = split_logs(alloc).ok_or("memory")?;
    let asks = [
        (Ask::Poll(0, 1), Answer::Polled(1)),
        (Ask::Acknowledge(0), Answer::Place(1)),
        (Ask::Poll(0, 2), Answer::Polled(2)),
        (Ask::Safe, Answer::Safe(12)),
        (Ask::Restart(0), Answer::Place(1)),
        (Ask::Safe, Answer::Safe(12)),
        (Ask::Poll(0, 2), Answer::Polled(2)),
        (Ask::Read("aaa"), Answer::Row(Some(b'1'))),
    ];
    assert_eq!(rt; other_in_memory(alloc, &logs, &asks), None);
    Ok(())
}

#[test]
fn a_poll_that_stops_between_target_tablets_shows_nothing_of_it(
    rt: HostRuntime,
) -> Result<(), Fail> {
    let alloc = rt.alloc();
    let logs = shared_logs(alloc).ok_or("memory")?;
    let asks = [
        (Ask::Stop(0, 3, 0), Answer::Polled(3)),
        (Ask::Read("aaa"), Answer::Row(None)),
        (Ask::Poll(1, 9), Answer::Polled(4)),
        (Ask::Read("aaa"), Answer::Row(None)),
        (Ask::Restart(0), Answer::Place(0)),
        (Ask::Poll(0, 9), Answer::Polled(3)),
        (Ask::Read("aaa"), Answer::Row(Some(b'1'))),
        (Ask::Read("zzz"), Answer::Row(Some(b'2'))),
    ];
    assert_eq!(rt; other_in_memory(alloc, &logs, &asks), None);
    Ok(())
}

#[test]
fn reads_reach_from_the_cutoff_to_the_safe_time(rt: HostRuntime) -> Result<(), Fail> {
    let alloc = rt.alloc();
    let logs = written_logs(alloc).ok_or("memory")?;
    let asks = [
        (Ask::Poll(0, 9), Answer::Polled(4)),
        (Ask::ReadAt(31, "aaa"), Answer::Ahead(30)),
        (Ask::ReadAt(30, "aaa"), Answer::Row(Some(b'3'))),
        (Ask::Prune(20), Answer::Cutoff(20)),
        (Ask::ReadAt(20, "aaa"), Answer::Row(Some(b'2'))),
        (Ask::ReadAt(19, "aaa"), Answer::Pruned(20)),
        (Ask::Prune(31), Answer::Ahead(30)),
        (Ask::Prune(10), Answer::Cutoff(20)),
        (Ask::ReadAt(29, "aaa"), Answer::Row(Some(b'2'))),
    ];
    assert_eq!(rt; other_in_memory(alloc, &logs, &asks), None);
    Ok(())
}

#[test]
fn a_failover_closes_at_the_safe_time_and_reads_go_on_there(rt: HostRuntime) -> Result<(), Fail> {
    let alloc = rt.alloc();
    let logs = shared_logs(alloc).ok_or("memory")?;
    let asks = [
        (Ask::Poll(0, 9), Answer::Polled(3)),
        (Ask::Poll(1, 2), Answer::Polled(2)),
        (Ask::Failover, Answer::Safe(14)),
        (Ask::Poll(1, 9), Answer::Closed(14)),
        (Ask::Stop(1, 9, 0), Answer::Closed(14)),
        (Ask::Acknowledge(1), Answer::Closed(14)),
        (Ask::Restart(1), Answer::Closed(14)),
        (Ask::Prune(1), Answer::Closed(14)),
        (Ask::Failover, Answer::Closed(14)),
        (Ask::Read("aaa"), Answer::Row(None)),
        (Ask::Safe, Answer::Safe(14)),
    ];
    assert_eq!(rt; other_in_memory(alloc, &logs, &asks), None);
    Ok(())
}

#[test]
fn a_drain_goes_on_to_the_ends_of_all_logs(rt: HostRuntime) -> Result<(), Fail> {
    let alloc = rt.alloc();
    let logs = split_logs(alloc).ok_or("memory")?;
    let asks = [
        (Ask::Scan, Answer::Rows(0, None, None)),
        (Ask::Stop(0, 4, 0), Answer::Polled(4)),
        (Ask::Drain, Answer::Drained(0, None)),
        (Ask::Poll(1, 9), Answer::AtEnd),
        (Ask::Poll(2, 9), Answer::AtEnd),
        (Ask::Safe, Answer::Safe(17)),
        (Ask::Scan, Answer::Rows(2, Some(b'a'), Some(b'z'))),
        (Ask::Failover, Answer::Safe(17)),
        (Ask::Drain, Answer::Closed(17)),
    ];
    assert_eq!(rt; other_in_memory(alloc, &logs, &asks), None);
    Ok(())
}

#[test]
fn a_drain_names_the_break_that_it_stops_at(rt: HostRuntime) -> Result<(), Fail> {
    let alloc = rt.alloc();
    let logs = broken_logs(alloc).ok_or("memory")?;
    let asks = [
        (Ask::Drain, Answer::Drained(1, Some((1, 3)))),
        (Ask::Poll(1, 9), Answer::Halted(3)),
        (Ask::Safe, Answer::Safe(12)),
        (Ask::Read("zzz"), Answer::Row(Some(b'2'))),
        (Ask::Scan, Answer::Rows(2, Some(b'a'), Some(b'z'))),
        (Ask::Drain, Answer::Drained(1, Some((1, 3)))),
    ];
    assert_eq!(rt; other_in_memory(alloc, &logs, &asks), None);
    Ok(())
}

#[test]
fn a_session_goes_on_from_its_parts(rt: HostRuntime) -> Result<(), Fail> {
    let alloc = rt.alloc();
    let logs = split_logs(alloc).ok_or("memory")?;
    let before = [
        (Ask::Poll(0, 3), Answer::Polled(3)),
        (Ask::Acknowledge(0), Answer::Place(3)),
        (Ask::Poll(0, 9), Answer::Polled(1)),
        (Ask::Prune(11), Answer::Cutoff(11)),
    ];
    let after = [
        (Ask::Restart(0), Answer::Place(3)),
        (Ask::Poll(0, 9), Answer::Polled(1)),
        (Ask::Poll(1, 9), Answer::Polled(1)),
        (Ask::Poll(2, 9), Answer::Polled(2)),
        (Ask::ReadAt(10, "aaa"), Answer::Pruned(11)),
        (Ask::Read("aaa"), Answer::Row(Some(b'1'))),
        (Ask::Read("zzz"), Answer::Row(Some(b'9'))),
    ];
    let mut feed = MemoryFeed::new(&logs);
    let mut target = begin(alloc, &logs, &feed).ok_or("memory")?;
    assert_eq!(rt; first_other(&mut target, alloc, &mut feed, &before), None);
    let mut taken_up = Target::from_parts(target.into_parts());
    assert_eq!(rt; first_other(&mut taken_up, alloc, &mut feed, &after), None);
    Ok(())
}

// ---- a feed that fails

// A feed of logs in memory that fails at one call, counted from 1.
#[derive(Drop)]
struct FailingFeed<'a> {
    given: MemoryFeed<'a>,
    calls: u64,
    fails_at: u64,
    faults: u64,
}

impl<'a> FailingFeed<'a> {
    fn new(logs: &'a LogSet, fails_at: u64) -> FailingFeed<'a>
        ensures { ⟦<FailingFeed<'a> as Feed>⟧.logs result ≡ Some logs.now }
    {
        FailingFeed {
            given: MemoryFeed::new(logs),
            calls: 0,
            fails_at,
            faults: 0,
        }
    }
}

impl<'a> Feed for FailingFeed<'a> {
    ghost headers = { λ f. ⟦<MemoryFeed<'a> as Feed>⟧.headers f.given };

    ghost counts = { λ f. ⟦<MemoryFeed<'a> as Feed>⟧.counts f.given };

    ghost logs = { λ f. ⟦<MemoryFeed<'a> as Feed>⟧.logs f.given };

    ghost faults = { λ f. f.faults };

    fn fetch(&mut self, alloc: Global, id: u32, from: u64, max: u64) -> Result<Records, FeedFail> {
        self.calls = self.calls.saturating_add(1);
        if self.calls == self.fails_at {
            self.faults = self.faults.saturating_add(1);
            return Err(FeedFail::Failed);
        }
        match self.given.fetch(alloc, id, from, max) {
            Ok(records) => Ok(records),
            Err(_) => Err(FeedFail::NoMemory),
        }
    }

    ghost shape = { λ f. f.given.shape };
}

// What came that isn't as wanted, where the feed fails at this call, and how often it failed.
fn other_with_a_fault(
    alloc: Global,
    logs: &LogSet,
    asks: &[(Ask, Answer)],
    fails_at: u64,
) -> (Option<(usize, Answer)>, u64) {
    let mut feed = FailingFeed::new(logs, fails_at);
    match begin(alloc, logs, &feed) {
        Some(mut target) => {
            let other = first_other(&mut target, alloc, &mut feed, asks);
            (other, feed.faults)
        }
        None => (Some((0, Answer::NoMemory)), 0),
    }
}

#[test]
fn a_session_goes_on_after_its_feed_failed(rt: HostRuntime) -> Result<(), Fail> {
    let alloc = rt.alloc();
    let logs = split_logs(alloc).ok_or("memory")?;
    let asks = [
        (Ask::Poll(0, 2), Answer::Polled(2)),
        (Ask::Stop(0, 2, 0), Answer::Polled(2)),
        (Ask::Poll(0, 9), Answer::Polled(4)),
        (Ask::Poll(0, 9), Answer::AtEnd),
        (Ask::Poll(1, 9), Answer::Polled(1)),
        (Ask::Poll(2, 1), Answer::Polled(1)),
        (Ask::Poll(2, 9), Answer::Polled(1)),
        (Ask::Safe, Answer::Safe(17)),
        (Ask::Read("aaa"), Answer::Row(Some(b'1'))),
        (Ask::Read("zzz"), Answer::Row(Some(b'9'))),
    ];
    for fails_at in 1..=7 {
        assert_eq!(rt;
            other_with_a_fault(alloc, &logs, &asks, fails_at),
            (None, 1),
            "{fails_at}"
        );
    }
    Ok(())
}

#[test]
fn a_drain_goes_on_after_its_feed_failed(rt: HostRuntime) -> Result<(), Fail> {
    let alloc = rt.alloc();
    let logs = split_logs(alloc).ok_or("memory")?;
    let asks = [
        (Ask::Drain, Answer::Drained(0, None)),
        (Ask::Safe, Answer::Safe(17)),
        (Ask::Scan, Answer::Rows(2, Some(b'a'), Some(b'z'))),
    ];
    for fails_at in 1..=3 {
        assert_eq!(rt;
            other_with_a_fault(alloc, &logs, &asks, fails_at),
            (None, 1),
            "{fails_at}"
        );
    }
    Ok(())
}
