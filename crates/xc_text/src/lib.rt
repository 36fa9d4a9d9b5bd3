//! The log text, versions 1 and 2: read exactly, and printed back.
//!
//! Which logs a text spells is said without reading it; laws join that to what is read and to what is printed.
#![tactic(auto)]

mod cut;
mod kind;
mod laws;
mod line;
mod line_ops;
mod operations;
mod plain;
mod plain_op;
mod print;
mod read;
mod reading;
mod record_line;
mod verb;
mod without;

pub use kind::{LogKind, LogsFail};
pub use laws::{
    no_text_spells_two_logs, what_is_printed_is_spelled, what_is_read_is_spelled,
    what_is_spelled_is_read,
};
pub use line::Version;
pub use operations::{OpFail, read_op};
pub use print::{print_logs, print_logs2};
pub use read::read_logs;

#[cfg(test)]
mod tests {
    use super::LogKind::{
        AfterSplit, Form, Header, Key, Limit, NoEnd, Number, Orphan, Range, UnknownTablet,
    };
    use super::*;
    use std::alloc::{AllocError, Global};
    use xc_base::Bytes;

    const FIRST: &str = "xclog 1\n";

    const ONE: &str = "xclog 1\ntablet 0 0 65535 root\n";

    const ONE2: &str = "xclog 2\ntablet 0 0 65535 root\n";

    const TWO: &str = "xclog 1\ntablet 0 0 32767 root\ntablet 1 32768 65535 root\n";

    const SPLIT: &str =
        "xclog 1\ntablet 0 0 65535 root\ntablet 1 0 32767 child 0\ntablet 2 32768 65535 child 0\n";

    // The first bad line of the text of two parts, and why it is bad.
    fn bad_line(
        alloc: Global,
        head: &str,
        rest: &str,
    ) -> Result<Option<(u64, LogKind)>, AllocError> {
        let mut text = Vec::from_slice(alloc, head.as_bytes())?;
        text.extend_from_slice(rest.as_bytes())?;
        match read_logs(alloc, &text) {
            Ok(_) => Ok(None),
            Err(LogsFail::Bad { line, kind }) => Ok(Some((line, kind))),
            Err(LogsFail::NoMemory) => Err(AllocError),
        }
    }

    #[test]
    fn each_text_is_bad_at_its_first_bad_line(rt: HostRuntime) {
        let alloc = rt.alloc();
        for (head, rest, want) in [
            ("", "", Some((1, NoEnd))),
            (ONE, "end\n", None),
            (ONE, "end", Some((3, Form))),
            (
                ONE,
                "0 4611686018427387903 write \
                +aaaaaaaaaaaaaaaaaaaaaaaaaaaaaaaa=vvvvvvvvvvvvvvvvvvvvvvvvvvvvvvvvvvvvvvvvvvvvvvvvvvvvvvvvvvvvvvvv\n\
                end\n",
                None,
            ),
            (
                ONE,
                "0 4611686018427387904 write +aaaaaaaaaaaaaaaaaaaaaaaaaaaaaaaaa=\n",
                Some((3, Number)),
            ),
            (
                ONE,
                "0 4611686018427387903 write +aaaaaaaaaaaaaaaaaaaaaaaaaaaaaaaaa=\n",
                Some((3, Key)),
            ),
            (
                ONE,
                "0 1 write -a -a -a -a -a -a -a -a -a -a -a -a -a -a -a -a -a -a -a -a -a -a -a -a -a -a -a -a -a -a \
                -a -a -a -a -a -a -a -a -a -a -a -a -a -a -a -a -a -a -a -a -a -a -a -a -a -a -a -a -a -a -a -a -a \
                -a\nend\n",
                None,
            ),
            (
                ONE,
                "0 1 write -a -a -a -a -a -a -a -a -a -a -a -a -a -a -a -a -a -a -a -a -a -a -a -a -a -a -a -a -a -a \
                -a -a -a -a -a -a -a -a -a -a -a -a -a -a -a -a -a -a -a -a -a -a -a -a -a -a -a -a -a -a -a -a -a -a \
                -a\nend\n",
                Some((3, Limit)),
            ),
            (
                FIRST,
                "tablet 0 0 65534 root\n0 1 abort 1\n",
                Some((3, Header)),
            ),
            (ONE, "63 1 abort 1\n", Some((3, UnknownTablet))),
            (TWO, "0 10 write +zzz=1\n", Some((4, Range))),
            (
                SPLIT,
                "0 14 split 32768 1 2\n0 15 abort 9\n",
                Some((6, AfterSplit)),
            ),
            (SPLIT, "end\n", Some((5, Orphan))),
            (ONE, "0 1 write -\0\n", Some((3, Key))),
            (ONE, "0 1 write -é\n", Some((3, Key))),
            (ONE, "0 1 write -a\r\n", Some((3, Key))),
            (ONE, "end\r\n", Some((3, Form))),
            (ONE, "0 10 write +a%20b=2\n", Some((3, Key))),
            (ONE2, "0 10 write +a%20b=2 +a%3D=%0A -%25\nend\n", None),
            (ONE2, "0 10 write +a%61=2\n", Some((3, Key))),
            (ONE2, "0 10 write +a%3d=2\n", Some((3, Key))),
            (ONE2, "0 10 write -a%\n", Some((3, Key))),
            (ONE2, "0 10 write +a=b=c\n", Some((3, Key))),
            (
                ONE,
                "0 10 intent 4 sub 1 -a\n0 20 apply 4 15 without 1 64\nend\n",
                None,
            ),
            (ONE, "0 10 intent 4 sub 0 +aaa=1\n", Some((3, Number))),
            (ONE, "0 10 intent 4 sub 65 +aaa=1\n", Some((3, Number))),
            (ONE, "0 10 intent 4 sub 1\n", Some((3, Form))),
            (ONE, "0 20 apply 4 15 without 2 1\n", Some((3, Number))),
            (ONE, "0 20 apply 4 15 without 1 1\n", Some((3, Number))),
            (ONE, "0 20 apply 4 15 without\n", Some((3, Form))),
            (ONE, "0 20 apply 4 15 1\n", Some((3, Form))),
        ] {
            assert!(rt; bad_line(alloc, head, rest) == Ok(want), "{head}{rest}");
        }
    }

    // What is printed of the logs of the text, by the least version and by version 2.
    fn reprinted(alloc: Global, text: &str) -> Option<(Bytes, Bytes)> {
        let logs = read_logs(alloc, text.as_bytes()).ok()?;
        Some((
            print_logs(alloc, &logs).ok()?,
            print_logs2(alloc, &logs).ok()?,
        ))
    }

    #[test]
    fn what_is_printed_is_read(rt: HostRuntime) {
        let alloc = rt.alloc();
        for (lines, is_plain) in [
            (
                "tablet 0 0 65535 root\ntablet 1 0 32767 child 0\ntablet 2 32768 65535 child 0\n\
                0 10 write +aaa=1 -zzz +bbb=\n0 11 intent 5 +zzz=9\n0 11 intent 5 sub 3 -zzz\n0 12 abort 7\n\
                0 13 safe 12\n0 14 split 32768 1 2\n2 18 apply 5 16 without 1 3 64\nend\n",
                true,
            ),
            (
                "tablet 0 0 65535 root\n0 10 write +a%20b=%00%FF -%25\nend\n",
                false,
            ),
        ] {
            let (Ok(first), Ok(second)) = (
                format!(in alloc; "xclog 1\n{lines}"),
                format!(in alloc; "xclog 2\n{lines}"),
            ) else {
                panic!(rt; "no memory");
            };
            let text = if is_plain { &first } else { &second };
            match reprinted(alloc, text.as_str()) {
                Some((least, later)) => {
                    assert!(rt; least.as_slice() == text.as_bytes(), "{lines}");
                    assert!(rt; later.as_slice() == second.as_bytes(), "{lines}");
                }
                None => assert!(rt; false, "{lines}"),
            }
        }
    }
}
