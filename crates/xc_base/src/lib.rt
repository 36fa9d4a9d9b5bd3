//! What every crate stands on: streams that count their faults, bytes read and written whole, the names of rows with
//! their words, and numbers in decimal.
#![tactic(auto)]

mod bytes;
mod calls;
mod limits;
mod memory;
mod name;
mod number;
mod quiet;
mod status;
mod streams;
mod whole;
mod word;
mod words;

pub use bytes::Bytes;
pub use limits::{
    KEY_BYTES, LAST_SUB, LOGS_BYTES, MOST_DRAINS, MOST_OPERATIONS, MOST_RECORDS, MOST_SCANS,
    MOST_TABLETS, MOST_TARGETS, RECORD_OPERATIONS, SCRIPT_BYTES, SCRIPT_LINES, VALUE_BYTES,
    WATCHED_KEYS,
};
pub use memory::{MemorySink, MemorySource};
pub use name::{BadName, Key, Value, in_alphabet, is_key, is_plain, is_value};
pub use number::{NumberFail, read_number};
pub use quiet::{QuietSink, QuietSource};
pub use status::Status;
pub use streams::{Failed, NoMemory, Sink, SinkFail, Source};
pub use whole::{ReadAllFail, read_all, write_all};
pub use word::{escape, read_key, read_value, what_is_read_is_the_word, words_are_read_back};
pub use words::word_at;

#[cfg(test)]
mod tests {
    use super::*;
    use std::alloc::{AllocError, Global};

    #[test]
    fn numbers_have_no_leading_zero_and_an_end(rt: HostRuntime) {
        for (word, max, want) in [
            ("0", 0, Ok(0)),
            ("1", 0, Err(NumberFail::TooLarge)),
            ("10", 10, Ok(10)),
            ("11", 10, Err(NumberFail::TooLarge)),
            ("18446744073709551615", u64::MAX, Ok(u64::MAX)),
            ("18446744073709551616", u64::MAX, Err(NumberFail::TooLarge)),
            ("100000000000000000000000", 7, Err(NumberFail::TooLarge)),
            ("", 9, Err(NumberFail::Spelling)),
            ("01", 9, Err(NumberFail::Spelling)),
            ("00", 9, Err(NumberFail::Spelling)),
            ("+1", 9, Err(NumberFail::Spelling)),
            ("1x", 0, Err(NumberFail::Spelling)),
        ] {
            assert!(rt; read_number(word.as_bytes(), max) == want, "{word}");
        }
    }

    #[test]
    fn names_are_judged_by_length_and_then_by_byte(rt: HostRuntime) {
        let long = "abcdefghijklmnopqrstuvwxyzABCDEFGHIJKLMNOPQRSTUVWXYZ0123456789_.-";
        for (name, key, value) in [
            ("aaa", None, None),
            ("order/7:a_b.c-d", None, None),
            ("", Some(BadName::Length(0)), None),
            (&long[..32], None, None),
            (&long[..33], Some(BadName::Length(33)), None),
            (&long[..64], Some(BadName::Length(64)), None),
            (long, Some(BadName::Length(65)), Some(BadName::Length(65))),
            ("a b+", Some(BadName::Byte(1)), Some(BadName::Byte(1))),
        ] {
            assert!(rt; Key::new(name.as_bytes()).err() == key, "{name}");
            assert!(rt; Value::new(name.as_bytes()).err() == value, "{name}");
            assert!(rt; is_key(name.as_bytes()) == !matches!(key, Some(BadName::Length(_))));
            assert!(rt; is_value(name.as_bytes()) == !matches!(value, Some(BadName::Length(_))));
            if let Ok(key) = Key::any(name.as_bytes()) {
                assert!(rt; key.bytes() == name.as_bytes(), "{name}");
                assert!(rt; key.plain() == Key::new(name.as_bytes()).is_ok(), "{name}");
            }
            if let Ok(value) = Value::any(name.as_bytes()) {
                assert!(rt; value.bytes() == name.as_bytes(), "{name}");
                assert!(rt; value.plain() == is_plain(name.as_bytes()), "{name}");
            }
        }
        assert!(rt;
            Key::new(b"order/10").ok() < Key::new(b"order/2").ok(),
            "by bytes"
        );
    }

    #[test]
    fn keys_follow_their_bytes_in_each_word(rt: HostRuntime) {
        let keys = [
            "\0",
            "\0\0",
            "a",
            "a\0",
            "a\0b",
            "aaaaaaaa",
            "aaaaaaaa\0",
            "aaaaaaaab",
            "aaaaaaaabbbbbbbba",
            "aaaaaaaabbbbbbbbb",
            "aaaaaaaabbbbbbbbccccccccdddddddc",
            "aaaaaaaabbbbbbbbccccccccdddddddd",
            "aaaaaaac",
            "b",
        ];
        for i in 0..keys.len() {
            for k in 0..keys.len() {
                let (Ok(left), Ok(right)) = (
                    Key::any(keys[i].as_bytes()),
                    Key::any(keys[k].as_bytes()),
                ) else {
                    assert!(rt; false);
                    continue;
                };
                assert!(rt; left.cmp(&right) == i.cmp(&k), "{i} {k}");
                assert!(rt; (left == right) == (i == k), "{i} {k}");
            }
        }
    }

    #[test]
    fn each_byte_is_read_back_from_its_word(rt: HostRuntime) {
        for byte in 0..=255u8 {
            let mut word = Bytes::new(rt.alloc());
            assert!(rt; escape(&[byte], &mut word) == Ok(()));
            assert!(rt;
                word.len() == if is_plain(&[byte]) { 1 } else { 3 },
                "{byte}"
            );
            assert!(rt;
                read_key(word.as_slice()).ok() == Key::any(&[byte]).ok(),
                "{byte}"
            );
            assert!(rt;
                read_value(word.as_slice()).ok() == Value::any(&[byte]).ok(),
                "{byte}"
            );
        }
    }

    #[test]
    fn words_are_refused_by_place_and_then_by_length(rt: HostRuntime) {
        for (word, want) in [
            ("a%20b", Ok("a b")),
            ("%3D%25", Ok("=%")),
            ("", Err(BadName::Length(0))),
            (
                "%20%20%20%20%20%20%20%20%20%20%20%20%20%20%20%20abcdefghijklmnop",
                Ok("                abcdefghijklmnop"),
            ),
            (
                "%20%20%20%20%20%20%20%20%20%20%20%20%20%20%20%20abcdefghijklmnopq",
                Err(BadName::Length(33)),
            ),
            (
                "abcdefghijklmnopqrstuvwxyzABCDEFG",
                Err(BadName::Length(33)),
            ),
            ("abcdefghijklmnopqrstuvwxyzABCDEF%", Err(BadName::Byte(32))),
            ("a%20%2", Err(BadName::Byte(4))),
            ("a%3d", Err(BadName::Byte(1))),
            ("a%61", Err(BadName::Byte(1))),
            ("a%20 ", Err(BadName::Byte(4))),
            ("a=", Err(BadName::Byte(1))),
        ] {
            match (read_key(word.as_bytes()), want) {
                (Ok(key), Ok(bytes)) => {
                    assert!(rt; key.bytes() == bytes.as_bytes(), "{word}");
                }
                (Err(bad), Err(known)) => assert!(rt; bad == known, "{word}"),
                _ => assert!(rt; false, "{word}"),
            }
        }
    }

    // What five bytes give, with these limit and failing call: how many bytes, or how it failed.
    fn read_five(
        alloc: Global,
        limit: u64,
        failing: u64,
    ) -> Result<Result<usize, ReadAllFail>, AllocError> {
        let bytes = Bytes::from_vec(Vec::from_slice(alloc, b"12345")?);
        let mut source = MemorySource::new(bytes, vec![in alloc; failing]?);
        Ok(read_all(alloc, &mut source, limit).map(|bytes| bytes.len()))
    }

    #[test]
    fn a_source_fails_at_each_listed_call(rt: HostRuntime) {
        let alloc = rt.alloc();
        assert!(rt; matches!(read_five(alloc, 5, 1), Ok(Err(ReadAllFail::Failed))));
        assert!(rt; matches!(read_five(alloc, 5, 2), Ok(Err(ReadAllFail::Failed))));
        assert!(rt; matches!(read_five(alloc, 5, 3), Ok(Ok(5))));
        assert!(rt; matches!(read_five(alloc, 4, 3), Ok(Err(ReadAllFail::TooLong))));
    }

    #[test]
    fn a_sink_fails_at_each_listed_call(rt: HostRuntime) {
        let alloc = rt.alloc();
        for (failing, want) in [(1, "34"), (2, "12"), (3, "1234")] {
            let Ok(listed) = vec![in alloc; failing] else {
                continue;
            };
            let mut sink = MemorySink::new(alloc, listed);
            let first = write_all(&mut sink, b"12");
            let second = write_all(&mut sink, b"34");
            assert!(rt; first.is_ok() == (failing != 1));
            assert!(rt; second.is_ok() == (failing != 2));
            assert!(rt; sink.written() == want.as_bytes(), "{failing}");
        }
    }
}
