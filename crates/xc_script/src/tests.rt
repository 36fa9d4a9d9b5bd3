// What no clause says: worked scripts, each kind of a bad line, and each line of output.
use crate::ScriptKind::{Form, Limit, NoEnd, Number, Target, UnknownTablet};
use crate::*;
use std::alloc::{AllocError, Global};
use std::test::Fail;
use xc_base::{Bytes, Key, Value};
use xc_record::{Break, Command, Line, Numbers};

const ONE: &str = "xcscript 1\ntarget 0\n";

const TWO: &str = "xcscript 2\ntarget 0 32768\n";

// The first bad line of the text of two parts, for three source tablets, and why it is bad.
fn bad_line(
    alloc: Global,
    head: &str,
    rest: &str,
) -> Result<Option<(u64, ScriptKind)>, AllocError> {
    let text = format!(in alloc; "{head}{rest}")?;
    match read_script(alloc, text.as_bytes(), 3) {
        Ok(_) => Ok(None),
        Err(ScriptFail::Bad { line, kind }) => Ok(Some((line, kind))),
        Err(ScriptFail::NoMemory) => Err(AllocError),
    }
}

#[test]
fn each_text_is_bad_at_its_first_bad_line(rt: HostRuntime) {
    let alloc = rt.alloc();
    for (head, rest, want) in [
        ("", "", Some((1, NoEnd))),
        ("xcscript 1", "", Some((1, Form))),
        ("xcscript 3\n", "", Some((1, Form))),
        ("xcscript 1\n", "poll 64 0\n", Some((2, Form))),
        ("xcscript 1\n", "target\n", Some((2, Form))),
        ("xcscript 1\n", "target 65536 01\n", Some((2, Form))),
        ("xcscript 1\n", "target 1 65536\n", Some((2, Number))),
        ("xcscript 1\n", "target 1\n", Some((2, Target))),
        ("xcscript 1\n", "target 0 9 9\n", Some((2, Target))),
        (
            "xcscript 1\n",
            "target 0 1 2 3 4 5 6 7 8 9 10 11 12 13 14 15 16\n",
            Some((2, Target)),
        ),
        (
            "xcscript 1\n",
            "target 0 1 2 3 4 5 6 7 8 9 10 11 12 13 14 65535\nend\n",
            None,
        ),
        (ONE, "end\n", None),
        (ONE, "end", Some((3, Form))),
        (ONE, "end\nend\n", Some((4, Form))),
        (ONE, "safe\n", Some((4, NoEnd))),
        (ONE, "end now\n", Some((3, Form))),
        (ONE, "target 70000\n", Some((3, Form))),
        (ONE, "watch\n", Some((3, Form))),
        (ONE, "watch aaa +\nend\n", Some((3, ScriptKind::Key))),
        (ONE, "watch aaa\nwatch +\n", Some((4, Form))),
        (ONE, "watch a a a a a a a a a a a a a a a a\nend\n", None),
        (
            ONE,
            "watch a a a a a a a a a a a a a a a a a\n",
            Some((3, Limit)),
        ),
        (ONE, "read  aaa\n", Some((3, Form))),
        (ONE, "read aaa \n", Some((3, Form))),
        (ONE, "read\n", Some((3, Form))),
        (ONE, "\n", Some((3, Form))),
        (ONE, "Safe\n", Some((3, Form))),
        (ONE, "safe 1\n", Some((3, Form))),
        (ONE, "poll 64 00\n", Some((3, Form))),
        (ONE, "poll 64 1\n", Some((3, Number))),
        (ONE, "poll 3 1048576\n", Some((3, UnknownTablet))),
        (ONE, "poll 2 1048576\nend\n", None),
        (ONE, "poll 2 1048577\n", Some((3, Number))),
        (ONE, "poll 2 18446744073709551617\n", Some((3, Number))),
        (ONE, "poll 0 0\n", Some((3, Number))),
        (ONE, "stop 2 1 0\nend\n", None),
        (ONE, "stop 2 1 1\n", Some((3, UnknownTablet))),
        (ONE, "stop 3 1 16\n", Some((3, Number))),
        (ONE, "ack 3\n", Some((3, UnknownTablet))),
        (ONE, "restart 63\n", Some((3, UnknownTablet))),
        (ONE, "readat 4611686018427387903 aaa\nend\n", None),
        (ONE, "readat 4611686018427387904 +\n", Some((3, Number))),
        (ONE, "readat 0 +\n", Some((3, ScriptKind::Key))),
        (ONE, "prune 0\nend\n", None),
        (ONE, "prune 4611686018427387904\n", Some((3, Number))),
        (
            ONE,
            "read aaaaaaaaaaaaaaaaaaaaaaaaaaaaaaaaa\n",
            Some((3, ScriptKind::Key)),
        ),
        (ONE, "read a%20b\n", Some((3, ScriptKind::Key))),
        (TWO, "watch a%20b %00\nread %25\nend\n", None),
        (TWO, "read %61\n", Some((3, ScriptKind::Key))),
        (TWO, "read a%2b\n", Some((3, ScriptKind::Key))),
        (TWO, "stop 0 1 1\nend\n", None),
        (
            ONE,
            "scan\nscan\nscan\nscan\nscan\nscan\nscan\nscan\nend\n",
            None,
        ),
        (
            ONE,
            "scan\nscan\nscan\nscan\nscan\nscan\nscan\nscan\nscan\n",
            Some((11, Limit)),
        ),
    ] {
        assert!(rt; bad_line(alloc, head, rest) == Ok(want), "{head}{rest}");
    }
}

// The first bad line of a script with a command so many times behind the bounds, and then this rest.
fn long_bad_line(
    alloc: Global,
    command: &str,
    times: usize,
    rest: &str,
) -> Result<Option<(u64, ScriptKind)>, AllocError> {
    let mut text = String::new(alloc);
    for _ in 0..times {
        text.push_str(command)?;
    }
    text.push_str(rest)?;
    bad_line(alloc, ONE, text.as_str())
}

#[test]
fn a_script_has_its_limits(rt: HostRuntime) {
    let alloc = rt.alloc();
    for (command, times, rest, want) in [
        ("drain\n", 64, "end\n", None),
        ("drain\n", 65, "end\n", Some((67, Limit))),
        ("safe\n", 65_533, "end\n", None),
        ("safe\n", 65_534, "end\n", Some((65_537, Limit))),
        ("safe\n", 65_534, "", Some((65_537, NoEnd))),
        ("safe\n", 65_534, "end", Some((65_537, Form))),
        ("safe\n", 65_534, "none\n", Some((65_537, Form))),
        ("safe\n", 65_533, "end\nend\n", Some((65_537, Form))),
    ] {
        let found = long_bad_line(alloc, command, times, rest);
        assert!(rt; found == Ok(want), "{times} times {command}{rest}");
    }
}

// What a script says whose watched key, and the key that it reads, is this.
fn asks(script: &Script, key: Key) -> bool {
    let commands = [
        Command::Stop {
            id: 0,
            n: 3,
            last: 1,
        },
        Command::Poll { id: 1, n: 9 },
        Command::Ack { id: 2 },
        Command::Restart { id: 0 },
        Command::Drain,
        Command::Safe,
        Command::Read { key },
        Command::ReadAt { u: 17, key },
        Command::Scan,
        Command::Prune { u: 15 },
        Command::Failover,
        Command::Report,
    ];
    script.bounds.as_slice() == [0, 40_000].as_slice()
        && script.watched.as_slice() == [key].as_slice()
        && script.commands.as_slice() == commands.as_slice()
}

#[test]
fn a_script_of_version_1_is_read(rt: HostRuntime) -> Result<(), Fail> {
    let text =
        b"xcscript 1\ntarget 0 40000\nwatch zzz\nstop 0 3 1\npoll 1 9\nack 2\nrestart 0\ndrain\n\
        safe\nread zzz\nreadat 17 zzz\nscan\nprune 15\nfailover\nreport\nend\n";
    let key = Key::any(b"zzz")?;
    let script = read_script(rt.alloc(), text, 3)?;
    assert!(rt; asks(&script, key));
    Ok(())
}

#[test]
fn a_script_of_version_2_is_read(rt: HostRuntime) -> Result<(), Fail> {
    let text =
        b"xcscript 2\ntarget 0 40000\nwatch a%20%25\nstop 0 3 1\npoll 1 9\nack 2\nrestart 0\ndrain\n\
        safe\nread a%20%25\nreadat 17 a%20%25\nscan\nprune 15\nfailover\nreport\nend\n";
    let key = Key::any(b"a %")?;
    let script = read_script(rt.alloc(), text, 3)?;
    assert!(rt; asks(&script, key));
    Ok(())
}

// Whether the line is written so, and is that of a halt exactly where its name says it.
fn is_written(alloc: Global, line: &Line, want: &str) -> bool {
    let mut out = Bytes::new(alloc);
    print_line(alloc, line, &mut out).is_ok()
        && out.as_slice() == want.as_bytes()
        && is_halt(line) == want.starts_with("halt ")
}

#[test]
fn lines_of_numbers_are_written(rt: HostRuntime) {
    let alloc = rt.alloc();
    let halt = Line::Halt {
        id: 0,
        number: 2,
        kind: Break::TimeBack,
    };
    assert!(rt; is_written(alloc, &Line::Wait { id: 1, parent: 0 }, "wait 1 0\n"));
    assert!(rt; is_written(alloc, &halt, "halt 0 2 time-back\n"));
    assert!(rt; is_written(alloc, &Line::AtEnd { id: 0 }, "atend 0\n"));
    assert!(rt; is_written(alloc, &Line::Polled { id: 0, count: 2 }, "polled 0 2\n"));
    assert!(rt; is_written(alloc, &Line::Stopped { id: 0, count: 3 }, "stopped 0 3\n"));
    assert!(rt; is_written(alloc, &Line::Ack { id: 0, place: 1 }, "ack 0 1\n"));
    assert!(rt; is_written(alloc, &Line::Restart { id: 0, place: 1 }, "restart 0 1\n"));
    assert!(rt; is_written(alloc, &Line::Closed { t: 14 }, "closed 14\n"));
    assert!(rt; is_written(alloc, &Line::Drain { t: 10 }, "drain 10\n"));
    assert!(rt; is_written(alloc, &Line::Safe { t: 12 }, "safe 12\n"));
    assert!(rt; is_written(alloc, &Line::Ahead { u: 23, safe: 22 }, "ahead 23 22\n"));
    assert!(rt; is_written(alloc, &Line::Pruned { u: 14, cutoff: 15 }, "pruned 14 15\n"));
    assert!(rt; is_written(alloc, &Line::Scan { t: 10, count: 2 }, "scan 10 2\n"));
    assert!(rt; is_written(alloc, &Line::Prune { cutoff: 20 }, "prune 20\n"));
    assert!(rt;
        is_written(
            alloc,
            &Line::Failover { t: 14, count: 0 },
            "failover 14 0\n"
        )
    );
}

#[test]
fn lines_of_keys_are_written(rt: HostRuntime) -> Result<(), Fail> {
    let alloc = rt.alloc();
    let key = Key::any(b"a b")?;
    let value = Value::any(b"1")?;
    let saw = Line::Saw {
        reader: 3,
        t: 11,
        key,
        value: None,
    };
    let read = Line::Read {
        t: 10,
        key,
        value: Some(value),
    };
    let read_at = Line::ReadAt {
        u: 14,
        key,
        value: None,
    };
    assert!(rt; is_written(alloc, &saw, "saw 3 11 a%20b absent\n"));
    assert!(rt; is_written(alloc, &read, "read 10 a%20b =1\n"));
    assert!(rt; is_written(alloc, &read_at, "readat 14 a%20b absent\n"));
    assert!(rt; is_written(alloc, &Line::Row { key, value }, "row a%20b =1\n"));
    Ok(())
}

#[test]
fn a_report_is_written(rt: HostRuntime) -> Result<(), Fail> {
    let alloc = rt.alloc();
    let acks = numbers(alloc, &[])?;
    let cursors = numbers(alloc, &[3])?;
    let places = numbers(alloc, &[0, 18_446_744_073_709_551_615])?;
    let report = Line::Report {
        acks,
        closed: true,
        cursors,
        cutoff: 7,
        places,
        safe: 12,
    };
    let want = "report {\"acks\":[],\"closed\":true,\"cursors\":[3],\"cutoff\":7,\
        \"places\":[0,18446744073709551615],\"safe\":12}\n";
    assert!(rt; is_written(alloc, &report, want));
    Ok(())
}

#[test]
fn kinds_and_breaks_have_their_words(rt: HostRuntime) {
    for (kind, want) in [
        (Form, "form"),
        (Number, "number"),
        (ScriptKind::Key, "key"),
        (Target, "target"),
        (UnknownTablet, "unknown-tablet"),
        (Limit, "limit"),
        (NoEnd, "no-end"),
    ] {
        assert_eq!(rt; kind.name(), want);
    }
    for (kind, want) in [
        (Break::CommitAhead, "commit-ahead"),
        (Break::CommitBelow, "commit-below"),
        (Break::SafeBack, "safe-back"),
        (Break::SafeAhead, "safe-ahead"),
        (Break::AfterSplit, "after-split"),
    ] {
        assert_eq!(rt; break_name(kind), want);
    }
}

fn numbers(alloc: Global, numbers: &[u64]) -> Result<Numbers, AllocError> {
    Ok(Numbers::from_vec(numbers.to_vec(alloc)?))
}
