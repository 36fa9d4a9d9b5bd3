//! The versions of a target tablet's rows, in order of key, commit, transaction and place.
#![tactic(auto)]

ghost use Rattle.std.specs.Prelude.{◌≤◌, length};

mod compact;
mod head;
mod least;
mod page;
mod pages;
#[cfg(test)]
mod plain;
mod prune;
mod queue;
mod rows;
mod shrink;
mod stored;
mod versions;

pub use rows::Rows;
pub use stored::StoredVersion;
pub use versions::Versions;

#[cfg(test)]
mod tests {
    use super::*;
    use std::alloc::Global;
    use std::test::Fail;
    use xc_base::{Key, Value};
    use xc_record::{Op, Ops};

    // Versions that commit at 1, 2 and so on, each with a key and a value, or a removal where the text is no value.
    fn rising(alloc: Global, list: &[(&str, &str)]) -> Result<Versions, Fail>
        requires { length list.now ≤ 100 }
    {
        let mut versions = Versions::new(alloc);
        versions.reserve(list.len())?;
        let mut commit = 0;
        for (key, value) in list {
            commit += 1;
            let mut ops = Ops::new(alloc);
            ops.push(Op {
                key: Key::any(key.as_bytes())?,
                value: Value::new(value.as_bytes()).ok(),
            })?;
            let op = ops.iter().next().ok_or("no operation")?;
            versions.add(&op, commit, 0, 0);
        }
        Ok(versions)
    }

    #[test]
    fn ninety_seven_additions_fill_three_pages(rt: HostRuntime) -> Result<(), Fail> {
        let list = [("aaa", "1"); 97];
        let versions = rising(rt.alloc(), &list)?;
        assert_eq!(rt; versions.pages(), 3);
        assert!(rt; !versions.is_empty());
        Ok(())
    }

    // The rows as one text.
    fn shown(alloc: Global, versions: &Versions, t: u64) -> Result<String, Fail> {
        let mut text = String::new(alloc);
        let rows = versions.rows(alloc, t)?;
        for (key, value) in rows.as_slice() {
            for byte in key.bytes() {
                text.push(char::from(*byte))?;
            }
            for byte in value.bytes() {
                text.push(char::from(*byte))?;
            }
            text.push(' ')?;
        }
        Ok(text)
    }

    static LIST: [(&str, &str); 6] = [
        ("bbb", "1"),
        ("aaa", "2"),
        ("bbb", "3"),
        ("aaa", "(none)"),
        ("ccc", "5"),
        ("aaa", "6"),
    ];

    #[test]
    fn rows_follow_the_time(rt: HostRuntime) -> Result<(), Fail> {
        let alloc = rt.alloc();
        let versions = rising(alloc, &LIST)?;
        let aaa = Key::new(b"aaa")?;
        for (t, rows, value) in [
            (0, "", None),
            (1, "bbb1 ", None),
            (2, "aaa2 bbb1 ", Some("2")),
            (3, "aaa2 bbb3 ", Some("2")),
            (4, "bbb3 ", None),
            (5, "bbb3 ccc5 ", None),
            (6, "aaa6 bbb3 ccc5 ", Some("6")),
            (9, "aaa6 bbb3 ccc5 ", Some("6")),
        ] {
            let text = shown(alloc, &versions, t)?;
            assert!(rt; text.as_str() == rows, "{t}");
            let at = versions.at(&aaa, t);
            let at = at.as_ref().map(|value| value.bytes());
            assert!(rt; at == value.map(|text| text.as_bytes()), "{t}");
        }
        Ok(())
    }

    #[test]
    fn keys_that_begin_alike_are_told_apart(rt: HostRuntime) -> Result<(), Fail> {
        let alloc = rt.alloc();
        let list = [
            ("abcdefghijklmnopq", "17"),
            ("abcdefghijklmno", "15"),
            ("a\0", "2"),
            ("abcdefghijklmnop", "16"),
            ("a", "1"),
        ];
        let versions = rising(alloc, &list)?;
        let text = shown(alloc, &versions, 9)?;
        assert_eq!(rt;
            text.as_str(),
            "a1 a\02 abcdefghijklmno15 abcdefghijklmnop16 abcdefghijklmnopq17 "
        );
        for (key, value) in &list {
            let at = versions.at(&Key::any(key.as_bytes())?, 9);
            let at = at.as_ref().map(|value| value.bytes());
            assert!(rt; at == Some(value.as_bytes()), "{key}");
        }
        Ok(())
    }

    #[test]
    fn a_prune_keeps_the_last_at_the_cutoff(rt: HostRuntime) -> Result<(), Fail> {
        let alloc = rt.alloc();
        let mut versions = rising(alloc, &LIST)?;
        versions.keep_from(4);
        for (t, rows) in [(1, ""), (3, "bbb3 "), (4, "bbb3 "), (6, "aaa6 bbb3 ccc5 ")] {
            let text = shown(alloc, &versions, t)?;
            assert!(rt; text.as_str() == rows, "{t}");
        }
        versions.drop_after(5);
        let text = shown(alloc, &versions, 9)?;
        assert!(rt; text.as_str() == "bbb3 ccc5 ");
        versions.drop_after(0);
        assert!(rt; versions.is_empty());
        assert_eq!(rt; versions.pages(), 0);
        Ok(())
    }
}
