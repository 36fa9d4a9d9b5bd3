// Sources asked call by call: each call once, worked scripts, and the refusals in their order.
use crate::*;
use std::alloc::Global;
use std::test::Fail;
use xc_base::{Key, NoMemory, Value};
use xc_record::{Header, Op};

// A source with one tablet, whose clock stands at 0.
fn one_tablet(alloc: Global) -> Result<SourceUniverse, NoMemory> {
    let root = Header {
        id: 0,
        lo: 0,
        hi: 65535,
        parent: None,
    };
    SourceUniverse::new(alloc, &[root], 0)
}

// What a call answers: its number, or why it is refused.
#[derive(Clone, Copy, PartialEq, Eq, Debug)]
enum Answer {
    Done,
    Number(u64),
    Children(u32, u32),
    Refused(SourceFail),
    BadName,
}

fn number(answer: Result<u64, SourceFail>) -> Answer {
    match answer {
        Ok(number) => Answer::Number(number),
        Err(fail) => Answer::Refused(fail),
    }
}

fn done(answer: Result<(), SourceFail>) -> Answer {
    match answer {
        Ok(()) => Answer::Done,
        Err(fail) => Answer::Refused(fail),
    }
}

fn begin(u: &mut SourceUniverse) -> Answer {
    match u.begin() {
        Ok(txn) => Answer::Number(u64::from(txn)),
        Err(fail) => Answer::Refused(fail),
    }
}

fn put(u: &mut SourceUniverse, key: &str, value: &str) -> Answer {
    let Ok(key) = Key::new(key.as_bytes()) else {
        return Answer::BadName;
    };
    let Ok(value) = Value::new(value.as_bytes()) else {
        return Answer::BadName;
    };
    let value = Some(value);
    number(u.put(Op { key, value }))
}

fn write(u: &mut SourceUniverse, txn: u32, key: &str, value: &str) -> Answer {
    let Ok(key) = Key::new(key.as_bytes()) else {
        return Answer::BadName;
    };
    let Ok(value) = Value::new(value.as_bytes()) else {
        return Answer::BadName;
    };
    let value = Some(value);
    number(u.write(txn, Op { key, value }))
}

fn savepoint(u: &mut SourceUniverse, txn: u32) -> Answer {
    match u.savepoint(txn) {
        Ok(sub) => Answer::Number(u64::from(sub)),
        Err(fail) => Answer::Refused(fail),
    }
}

fn roll_back(u: &mut SourceUniverse, txn: u32, sub: u8) -> Answer {
    match u.roll_back(txn, sub) {
        Ok(sub) => Answer::Number(u64::from(sub)),
        Err(fail) => Answer::Refused(fail),
    }
}

fn split(u: &mut SourceUniverse, id: u32, at: u16) -> Answer {
    match u.split(id, at) {
        Ok((left, right)) => Answer::Children(left, right),
        Err(fail) => Answer::Refused(fail),
    }
}

// Each call is answered once, in the order in which a source is used.
#[test]
fn each_call_is_answered(rt: HostRuntime) -> Result<(), Fail> {
    let mut u = one_tablet(rt.alloc())?;
    assert_eq!(rt; done(u.tick(99)), Answer::Done);
    assert_eq!(rt; put(&mut u, "aaa", "1"), Answer::Number(100));
    assert_eq!(rt; begin(&mut u), Answer::Number(1));
    assert_eq!(rt; write(&mut u, 1, "aaa", "2"), Answer::Number(101));
    assert_eq!(rt; savepoint(&mut u, 1), Answer::Number(1));
    assert_eq!(rt; write(&mut u, 1, "zzz", "3"), Answer::Number(102));
    assert_eq!(rt; roll_back(&mut u, 1, 1), Answer::Number(2));
    assert_eq!(rt; number(u.commit(1)), Answer::Number(103));
    assert_eq!(rt; number(u.safe(0)), Answer::Number(102));
    assert_eq!(rt; number(u.apply(1, 0)), Answer::Number(105));
    assert_eq!(rt; number(u.safe(0)), Answer::Number(106));
    assert_eq!(rt; begin(&mut u), Answer::Number(2));
    assert_eq!(rt; write(&mut u, 2, "aaa", "4"), Answer::Number(107));
    assert_eq!(rt; done(u.abort(2)), Answer::Done);
    assert_eq!(rt; put(&mut u, "aaa", "5"), Answer::Number(109));
    assert_eq!(rt; split(&mut u, 0, 30000), Answer::Children(1, 2));
    assert_eq!(rt; done(u.finish()), Answer::Done);
    assert_eq!(rt; u.record_count(), 12);
    assert_eq!(rt; u.committed().len(), 3);
    assert_eq!(rt; u.logs().tablets.as_slice().len(), 3);
    Ok(())
}

#[test]
fn a_commit_is_read_by_its_number(rt: HostRuntime) -> Result<(), Fail> {
    let alloc = rt.alloc();
    let mut u = one_tablet(alloc)?;
    put(&mut u, "aaa", "1");
    put(&mut u, "bbb", "2");
    let commit = u.committed().commit(alloc, 1)?.ok_or("no commit")?;
    assert_eq!(rt; commit.txn, 0);
    for op in commit.ops.iter() {
        assert!(rt; op.key_bytes() == b"bbb".as_slice());
    }
    assert!(rt; u.committed().commit(alloc, 2)?.is_none());
    Ok(())
}

// Of the refusals that apply to a call, the first is answered.
#[test]
fn refusals_come_in_their_order(rt: HostRuntime) -> Result<(), Fail> {
    let mut u = one_tablet(rt.alloc())?;
    assert_eq!(rt;
        write(&mut u, 1, "a", "1"),
        Answer::Refused(SourceFail::Unknown(1))
    );
    assert_eq!(rt;
        number(u.apply(1, 9)),
        Answer::Refused(SourceFail::Unknown(1))
    );
    assert_eq!(rt; begin(&mut u), Answer::Number(1));
    assert_eq!(rt; write(&mut u, 1, "a", "1"), Answer::Number(1));
    assert_eq!(rt;
        put(&mut u, "a", "2"),
        Answer::Refused(SourceFail::Conflict(1))
    );
    assert_eq!(rt; begin(&mut u), Answer::Number(2));
    assert_eq!(rt;
        write(&mut u, 2, "a", "2"),
        Answer::Refused(SourceFail::Conflict(1))
    );
    assert_eq!(rt;
        roll_back(&mut u, 1, 1),
        Answer::Refused(SourceFail::NoSavepoint(1))
    );
    assert_eq!(rt;
        number(u.apply(1, 9)),
        Answer::Refused(SourceFail::NotOpen(9))
    );
    assert_eq!(rt;
        number(u.apply(1, 0)),
        Answer::Refused(SourceFail::NotCommitted(1))
    );
    assert_eq!(rt; number(u.commit(1)), Answer::Number(2));
    assert_eq!(rt;
        write(&mut u, 1, "b", "1"),
        Answer::Refused(SourceFail::Ended(1))
    );
    assert_eq!(rt; done(u.abort(1)), Answer::Refused(SourceFail::Ended(1)));
    assert_eq!(rt; write(&mut u, 2, "a", "2"), Answer::Number(3));
    assert_eq!(rt; number(u.apply(1, 0)), Answer::Number(4));
    assert_eq!(rt;
        number(u.apply(1, 0)),
        Answer::Refused(SourceFail::NotThere(0))
    );
    assert_eq!(rt;
        split(&mut u, 1, 0),
        Answer::Refused(SourceFail::NotOpen(1))
    );
    assert_eq!(rt;
        split(&mut u, 0, 0),
        Answer::Refused(SourceFail::BadPlace { lo: 0, hi: 65535 })
    );
    assert_eq!(rt; done(u.tick(3)), Answer::Refused(SourceFail::Back(4)));
    assert_eq!(rt; done(u.tick(4611686018427387903)), Answer::Done);
    assert_eq!(rt;
        put(&mut u, "a", "3"),
        Answer::Refused(SourceFail::Conflict(2))
    );
    assert_eq!(rt; number(u.commit(2)), Answer::Refused(SourceFail::ClockEnd));
    assert_eq!(rt; number(u.safe(0)), Answer::Refused(SourceFail::ClockEnd));
    assert_eq!(rt; number(u.safe(1)), Answer::Refused(SourceFail::NotOpen(1)));
    assert_eq!(rt; done(u.finish()), Answer::Refused(SourceFail::ClockEnd));
    Ok(())
}
