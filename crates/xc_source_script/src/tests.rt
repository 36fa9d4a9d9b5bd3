// What no clause says: worked source scripts, and each kind of a bad line.
use crate::SourceKind::{Form, Header, Limit, NoEnd, Number};
use crate::*;
use std::alloc::{AllocError, Global};
use std::test::Fail;
use xc_source::SourceCommand;

const ONE: &str = "xcsource 1\nstart 0\ntablet 0 0 65535 root\n";

const TWO: &str = "xcsource 2\nstart 0\ntablet 0 0 65535 root\n";

// The first bad line of the text of two parts, and why it is bad.
fn bad_line(
    alloc: Global,
    head: &str,
    rest: &str,
) -> Result<Option<(u64, SourceKind)>, AllocError> {
    let text = format!(in alloc; "{head}{rest}")?;
    match read_source(alloc, text.as_bytes()) {
        Ok(_) => Ok(None),
        Err(SourceScriptFail::Bad { line, kind }) => Ok(Some((line, kind))),
        Err(SourceScriptFail::NoMemory) => Err(AllocError),
    }
}

#[test]
fn each_text_is_bad_at_its_first_bad_line(rt: HostRuntime) -> Result<(), Fail> {
    let alloc = rt.alloc();
    for (head, rest, want) in [
        ("", "", Some((1, NoEnd))),
        ("xcsource 3\n", "", Some((1, Form))),
        ("xcsource 1\n", "begin\n", Some((2, Form))),
        (
            "xcsource 1\n",
            "start 4611686018427387904\n",
            Some((2, Number)),
        ),
        (
            "xcsource 1\nstart 0\n",
            "tablet 0 0 65535\n",
            Some((3, Form)),
        ),
        (
            "xcsource 1\nstart 0\n",
            "tablet 0 0 65536 root\n",
            Some((3, Number)),
        ),
        (
            "xcsource 1\nstart 0\n",
            "tablet 0 1 65535 root\n",
            Some((3, Header)),
        ),
        (
            "xcsource 1\nstart 0\n",
            "tablet 0 0 65534 root\nend\n",
            Some((4, Header)),
        ),
        ("xcsource 1\nstart 0\n", "finish\n", Some((3, Header))),
        (ONE, "tablet 1 0 9 child 0\n", Some((4, Form))),
        (ONE, "begin\ntablet 1 0 9 root\n", Some((5, Header))),
        (ONE, "end\n", None),
        (ONE, "end", Some((4, Form))),
        (ONE, "end\nend\n", Some((5, Form))),
        (ONE, "begin\n", Some((5, NoEnd))),
        (ONE, "put  -a\n", Some((4, Form))),
        (ONE, "put a=1\n", Some((4, Form))),
        (ONE, "put +=1\n", Some((4, SourceKind::Key))),
        (ONE, "write 0 +=1\n", Some((4, Number))),
        (ONE, "write 4294967295 --a\nend\n", None),
        (ONE, "apply 1 64\n", Some((4, Number))),
        (ONE, "split 63 65536\n", Some((4, Number))),
        (ONE, "savepoint 1\n", Some((4, Form))),
        (ONE, "rollback 1 1\n", Some((4, Form))),
        (ONE, "put -a%20b\n", Some((4, SourceKind::Key))),
        (TWO, "put -a%20b\nsavepoint 1\nrollback 1 64\nend\n", None),
        (TWO, "rollback 1 65\n", Some((4, Number))),
        (TWO, "put -a%61\n", Some((4, SourceKind::Key))),
    ] {
        let bad = bad_line(alloc, head, rest)?;
        assert_eq!(rt; bad, want);
    }
    Ok(())
}

#[test]
fn a_script_is_read_with_its_start_its_roots_and_its_commands(rt: HostRuntime) -> Result<(), Fail> {
    let alloc = rt.alloc();
    let text = "xcsource 1
start 100
tablet 0 0 32767 root
tablet 1 32768 65535 root
begin
commit 1
split 1 50000
end
";
    let Ok(script) = read_source(alloc, text.as_bytes()) else {
        return Err(Fail::from("the script is not read"));
    };
    assert_eq!(rt; script.start, 100);
    let [_, second] = script.roots.as_slice() else {
        return Err(Fail::from("there are not two roots"));
    };
    assert_eq!(rt;
        (second.id, second.lo, second.hi, second.parent),
        (1, 32768, 65535, None)
    );
    let [SourceCommand::Begin, SourceCommand::Commit { txn: 1 }, last] = script.commands.as_slice()
    else {
        return Err(Fail::from("the commands are others"));
    };
    assert_eq!(rt; *last, SourceCommand::Split { id: 1, at: 50000 });
    Ok(())
}

#[test]
fn a_script_ends_by_line_65536(rt: HostRuntime) -> Result<(), Fail> {
    let alloc = rt.alloc();
    for (count, want) in [(65532, None), (65533, Some((65537, Limit)))] {
        let mut rest = String::new(alloc);
        for _ in 0..count {
            rest.push_str("begin\n")?;
        }
        rest.push_str("end\n")?;
        assert_eq!(rt; bad_line(alloc, ONE, rest.as_str())?, want);
    }
    Ok(())
}
