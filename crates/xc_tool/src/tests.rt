// Whole runs of the tool, from the words and the bytes to the bytes.
use super::*;
use std::alloc::Global;
use std::test::Fail;
use xc_base::{Bytes, MemorySink, MemorySource, QuietSink, QuietSource};

const LOGS: &str = "xclog 1\ntablet 0 0 65535 root\n0 10 write +aaa=1\n0 12 safe 11\nend\n";

const SCRIPT: &str = "xcscript 1\ntarget 0\npoll 0 1\nread aaa\npoll 0 1\nread aaa\nend\n";

const OUTPUT: &str = "polled 0 1\nread 0 aaa absent\npolled 0 1\nread 11 aaa =1\n";

const REPLAY: &str = "replay logs script";

const AUDIT: &str = "audit logs";

const UPGRADE: &str = "upgrade logs";

// Of two tablets whose lines are mixed, and which disagree.
const MIXED: &str = "xclog 1
tablet 0 0 32767 root
tablet 1 32768 65535 root
1 11 intent 4 sub 1 +zzz=2
0 10 intent 4 sub 1 +aaa=1
1 21 apply 4 15
0 20 apply 4 15 without 1
end
";

const MIXED_UPGRADED: &str = "xclog 2
tablet 0 0 32767 root
tablet 1 32768 65535 root
0 10 intent 4 sub 1 +aaa=1
0 20 apply 4 15 without 1
1 11 intent 4 sub 1 +zzz=2
1 21 apply 4 15
end
";

const ANY_BYTES: &str =
    "xclog 2\ntablet 0 0 65535 root\n0 10 write +aaa=%201%0A +a%20b=2\n0 12 safe 11\nend\n";

fn bytes(alloc: Global, text: &str) -> Result<Bytes, Fail> {
    Ok(Bytes::from_vec(text.as_bytes().to_vec(alloc)?))
}

// The words of a command line.
fn words(alloc: Global, line: &str) -> Result<Vec<String>, Fail> {
    let mut all = Vec::new(alloc);
    for word in line.split(' ') {
        all.push(String::from_str(alloc, word)?)?;
    }
    Ok(all)
}

#[test]
fn an_input_has_its_output_and_status(rt: HostRuntime) -> Result<(), Fail> {
    let alloc = rt.alloc();
    let broken = "xclog 1\ntablet 0 0 65535 root\n0 10 write +aaa=1\n0 10 write +aaa=2\nend\n";
    let split = "xclog 1
tablet 0 0 65535 root
tablet 1 0 32767 child 0
tablet 2 32768 65535 child 0
0 10 write +aaa=1
0 12 intent 5 +zzz=9
0 13 safe 12
0 14 split 32768 1 2
1 20 safe 20
2 18 apply 5 16
2 19 safe 17
end
";
    let split_ends = "log 0 4 12 split\nlog 1 1 20 open\nlog 2 2 17 open\nagrees 2\n";
    let commits_below = "xclog 1
tablet 0 0 65535 root
0 10 write +aaa=1
0 11 intent 5 +bbb=2
0 13 safe 12
0 20 apply 5 12
0 21 safe 21
end
";
    let straggles = "xclog 1
tablet 0 0 32767 root
tablet 1 32768 65535 root
0 10 intent 7 +aaa=1
0 20 apply 7 15
0 22 safe 22
1 11 intent 7 +zzz=2
1 21 safe 15
1 25 apply 7 15
1 30 safe 28
end
";
    let polls = "xcscript 1\ntarget 0\npoll 0 9\npoll 0 9\nend\n";
    let halted = "polled 0 1\nhalt 0 2 time-back\n";
    let usage = "usage: the words after xcr do not form a command\n";
    for (asked, logs, script, status, output) in [
        (REPLAY, LOGS, SCRIPT, Status::Ok, OUTPUT),
        (REPLAY, broken, polls, Status::Halted, halted),
        (
            REPLAY,
            straggles,
            "",
            Status::Disagree,
            "disagree 7 1 straggler\n",
        ),
        (
            REPLAY,
            LOGS,
            "xcscript 1\ntarget 0\npoll 1 1\nend\n",
            Status::BadScript,
            "bad script 3 unknown-tablet\n",
        ),
        (REPLAY, "", SCRIPT, Status::BadLogs, "bad logs 1 no-end\n"),
        ("replay -x script", LOGS, SCRIPT, Status::Usage, usage),
        ("audit logs script", LOGS, SCRIPT, Status::Usage, usage),
        (AUDIT, split, "", Status::Ok, split_ends),
        (
            AUDIT,
            commits_below,
            "",
            Status::Halted,
            "log 0 3 12 halt 4 commit-below\nagrees 1\n",
        ),
        (
            AUDIT,
            straggles,
            "",
            Status::Disagree,
            "disagree 7 1 straggler\n",
        ),
        (AUDIT, "", "", Status::BadLogs, "bad logs 1 no-end\n"),
        (
            "gen 0 3",
            LOGS,
            SCRIPT,
            Status::Ok,
            "gen 0 3 records 9 commits 1 safe 6 rows 1 digest 1271599064\n",
        ),
        ("gen 0 0", "", "", Status::Usage, usage),
        ("gen -1 3", "", "", Status::Usage, usage),
    ] {
        let mut logs = QuietSource::new(bytes(alloc, logs)?);
        let mut script = QuietSource::new(bytes(alloc, script)?);
        let mut out = QuietSink::new(alloc);
        let asked = words(alloc, asked)?;
        let found = run_quiet(alloc, &asked, &mut logs, &mut script, &mut out);
        assert_eq!(rt; found, status);
        assert_eq!(rt; out.written(), output.as_bytes());
    }
    Ok(())
}

#[test]
fn an_upgrade_writes_the_logs_as_version_2(rt: HostRuntime) -> Result<(), Fail> {
    let alloc = rt.alloc();
    for (logs, status, output) in [
        (MIXED, Status::Ok, MIXED_UPGRADED),
        (ANY_BYTES, Status::Ok, ANY_BYTES),
        ("xclog 3\n", Status::BadLogs, "bad logs 1 form\n"),
    ] {
        let mut logs = QuietSource::new(bytes(alloc, logs)?);
        let mut script = QuietSource::new(bytes(alloc, SCRIPT)?);
        let mut out = QuietSink::new(alloc);
        let asked = words(alloc, UPGRADE)?;
        let found = run_quiet(alloc, &asked, &mut logs, &mut script, &mut out);
        assert_eq!(rt; found, status);
        assert_eq!(rt; out.written(), output.as_bytes());
    }
    Ok(())
}

#[test]
fn a_fault_at_any_call_leaves_a_prefix(rt: HostRuntime) -> Result<(), Fail> {
    let alloc = rt.alloc();
    let asked = words(alloc, REPLAY)?;
    for (logs, script, out, status) in [
        (1, 9, 9, Status::ReadFault),
        (2, 9, 9, Status::ReadFault),
        (9, 1, 9, Status::ReadFault),
        (9, 2, 9, Status::ReadFault),
        (9, 9, 1, Status::WriteFault),
        (9, 9, 2, Status::WriteFault),
        (9, 9, 3, Status::WriteFault),
        (9, 9, 4, Status::WriteFault),
        (9, 9, 9, Status::Ok),
    ] {
        let mut logs = MemorySource::new(bytes(alloc, LOGS)?, vec![in alloc; logs]?);
        let mut script = MemorySource::new(bytes(alloc, SCRIPT)?, vec![in alloc; script]?);
        let mut out = MemorySink::new(alloc, vec![in alloc; out]?);
        let found = run(alloc, &asked, &mut logs, &mut script, &mut out);
        assert_eq!(rt; found, status);
        assert!(rt; OUTPUT.as_bytes().starts_with(out.written()));
    }
    Ok(())
}

// Two tablets that came of a split, and a transaction over both.
const WHOLE_LOGS: &str = "xclog 1
tablet 0 0 65535 root
tablet 1 0 32767 child 0
tablet 2 32768 65535 child 0
0 10 write +aaa=1
0 12 intent 5 +aaa=2 +zzz=9
0 13 safe 12
0 14 split 32768 1 2
1 17 apply 5 16
1 20 safe 20
2 18 apply 5 16
2 19 safe 17
end
";

// Each command with its lines.
const ASKED: [(&str, &str); 21] = [
    ("poll 1 1", "wait 1 0\n"),
    ("poll 0 3", "polled 0 3\n"),
    ("ack 0", "ack 0 3\n"),
    ("stop 0 9 0", "stopped 0 1\n"),
    ("poll 0 9", "polled 0 1\n"),
    ("restart 0", "restart 0 3\n"),
    ("read aaa", "read 12 aaa =1\n"),
    ("readat 5 aaa", "readat 5 aaa absent\n"),
    ("prune 4", "prune 4\n"),
    ("readat 3 aaa", "pruned 3 4\n"),
    ("readat 99 aaa", "ahead 99 12\n"),
    ("poll 1 1", "polled 1 1\n"),
    ("drain", "drain 17\n"),
    ("poll 0 1", "atend 0\n"),
    ("safe", "safe 17\n"),
    ("scan", "scan 17 2\nrow aaa =2\nrow zzz =9\n"),
    (
        "report",
        "report {\"acks\":[3,0,0],\"closed\":false,\"cursors\":[4,2,2],\"cutoff\":4,\"places\":[4,2,2],\"safe\":17}\n",
    ),
    ("failover", "failover 17 2\nrow aaa =2\nrow zzz =9\n"),
    ("poll 0 1", "closed 17\n"),
    ("read zzz", "read 17 zzz =9\n"),
    (
        "report",
        "report {\"acks\":[3,0,0],\"closed\":true,\"cursors\":[4,2,2],\"cutoff\":4,\"places\":[4,2,2],\"safe\":17}\n",
    ),
];

// A script of all the commands, and the lines of the first `count`.
fn whole_script(alloc: Global, count: usize) -> Result<(Bytes, Bytes), Fail> {
    let mut script = bytes(alloc, "xcscript 1\ntarget 0 40000\n")?;
    let mut lines = Bytes::new(alloc);
    for (i, (command, answer)) in ASKED.iter().enumerate() {
        script.extend(command.as_bytes())?;
        script.extend(b"\n")?;
        if i < count {
            lines.extend(answer.as_bytes())?;
        }
    }
    script.extend(b"end\n")?;
    Ok((script, lines))
}

#[test]
fn each_command_has_its_lines_and_they_go_out_before_the_next(rt: HostRuntime) -> Result<(), Fail> {
    let alloc = rt.alloc();
    let asked = words(alloc, REPLAY)?;
    for count in 0..22 {
        let (script, lines) = whole_script(alloc, count)?;
        let mut logs = MemorySource::new(bytes(alloc, WHOLE_LOGS)?, Vec::new(alloc));
        let mut script = MemorySource::new(script, Vec::new(alloc));
        let mut out = MemorySink::new(alloc, vec![in alloc; count as u64 + 1]?);
        let found = run(alloc, &asked, &mut logs, &mut script, &mut out);
        let status = if count < 21 {
            Status::WriteFault
        } else {
            Status::Ok
        };
        assert_eq!(rt; found, status);
        assert_eq!(rt; out.written(), lines.as_slice());
    }
    Ok(())
}

// The second of two roots is split while a committed transaction waits there.
const SOURCE: &str = "xcsource 1
start 100
tablet 0 0 32767 root
tablet 1 32768 65535 root
put +aaa=1
begin
write 1 +aaa=2
write 1 +zzz=3
commit 1
safe 0
apply 1 0
split 1 50000
safe 0
finish
end
";

const MADE: &str = "xclog 1
tablet 0 0 32767 root
tablet 1 32768 65535 root
tablet 2 32768 49999 child 1
tablet 3 50000 65535 child 1
0 101 write +aaa=1
0 102 intent 1 +aaa=2
0 105 safe 103
0 106 apply 1 104
0 108 safe 108
0 110 safe 110
1 103 intent 1 +zzz=3
1 107 split 50000 2 3
2 111 safe 111
3 109 apply 1 104
3 112 safe 112
end
";

const SAVEPOINTS: &str = "xcsource 2
start 0
tablet 0 0 65535 root
begin
write 1 +aaa=1
savepoint 1
write 1 +a%20b=2
rollback 1 1
write 1 +ccc=3
commit 1
finish
end
";

const SAVEPOINTS_MADE: &str = "xclog 2
tablet 0 0 65535 root
0 1 intent 1 +aaa=1
0 2 intent 1 sub 1 +a%20b=2
0 3 intent 1 sub 2 +ccc=3
0 5 apply 1 4 without 1
0 6 safe 6
end
";

// A source script of version 2 with one root from time 0, and these commands.
fn source(alloc: Global, commands: &str) -> Result<Bytes, Fail> {
    let mut text = bytes(alloc, "xcsource 2\nstart 0\ntablet 0 0 65535 root\n")?;
    text.extend(commands.as_bytes())?;
    text.extend(b"end\n")?;
    Ok(text)
}

// What `make` writes for a source script, with its status.
fn made(alloc: Global, text: Bytes) -> Result<(Status, QuietSink), Fail> {
    let mut logs = QuietSource::new(Bytes::new(alloc));
    let mut script = QuietSource::new(text);
    let mut out = QuietSink::new(alloc);
    let asked = words(alloc, "make source")?;
    let found = run_quiet(alloc, &asked, &mut logs, &mut script, &mut out);
    Ok((found, out))
}

#[test]
fn a_source_script_makes_its_logs(rt: HostRuntime) -> Result<(), Fail> {
    let alloc = rt.alloc();
    for (text, status, output) in [
        (SOURCE, Status::Ok, MADE),
        (SAVEPOINTS, Status::Ok, SAVEPOINTS_MADE),
        ("", Status::BadScript, "bad source 1 no-end\n"),
        (
            "xcsource 1\nstart 0\nend\n",
            Status::BadScript,
            "bad source 3 header\n",
        ),
    ] {
        let (found, out) = made(alloc, bytes(alloc, text)?)?;
        assert_eq!(rt; found, status);
        assert_eq!(rt; out.written(), output.as_bytes());
    }
    Ok(())
}

#[test]
fn the_first_refused_command_is_told_by_its_line(rt: HostRuntime) -> Result<(), Fail> {
    let alloc = rt.alloc();
    for (commands, output) in [
        ("commit 1\n", "bad source 4 unknown\n"),
        ("begin\ncommit 1\ncommit 1\n", "bad source 6 ended\n"),
        (
            "begin\nwrite 1 -a\nput -a\ncommit 2\n",
            "bad source 6 conflict\n",
        ),
        ("safe 1\n", "bad source 4 not-open\n"),
        ("begin\napply 1 0\n", "bad source 5 not-committed\n"),
        ("begin\ncommit 1\napply 1 0\n", "bad source 6 not-there\n"),
        ("split 0 0\n", "bad source 4 bad-place\n"),
        ("begin\nrollback 1 1\n", "bad source 5 no-savepoint\n"),
        ("put -a\ntick 0\n", "bad source 5 back\n"),
        (
            "tick 4611686018427387903\nput -a\n",
            "bad source 5 clock-end\n",
        ),
    ] {
        let (found, out) = made(alloc, source(alloc, commands)?)?;
        assert_eq!(rt; found, Status::BadScript);
        assert_eq!(rt; out.written(), output.as_bytes());
    }
    Ok(())
}
