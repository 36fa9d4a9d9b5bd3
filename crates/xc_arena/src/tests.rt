use super::*;
use crate::arena;
use std::test::Fail;
use xc_base::{Key, Value};
use xc_record::packed::OP_BYTES;

// Operations, None where a key is removed, and their bytes.
static TABLE: [(&str, Option<&str>, &[u8]); 4] = [
    ("a", Some("1"), &[1, 97, 1, 1, 49]),
    ("bb", None, &[2, 98, 98, 0]),
    ("ccc", Some(""), &[3, 99, 99, 99, 1, 0]),
    ("d", Some("ee"), &[1, 100, 1, 2, 101, 101]),
];

fn value(text: &Option<&str>) -> Result<Option<Value>, Fail> {
    match text {
        None => Ok(None),
        Some(text) => Ok(Some(Value::new(text.as_bytes())?)),
    }
}

#[test]
fn an_operation_is_read_where_it_begins(rt: HostRuntime) -> Result<(), Fail> {
    let alloc = rt.alloc();
    for (key, text, packed) in &TABLE {
        let key = Key::new(key.as_bytes())?;
        let value = value(text)?;
        let mut bytes = Vec::new(alloc);
        reserve_ops(&mut bytes, 2)?;
        put_op(&mut bytes, &Key::new(b"first")?, &None);
        let at = bytes.len() as u32;
        put_op(&mut bytes, &key, &value);
        assert!(rt; key_bytes(&bytes, at) == key.bytes());
        assert!(rt; arena::key(&bytes, at) == key);
        assert!(rt; value_of(&bytes, at) == value);
        assert!(rt; op_bytes(&bytes, at) == *packed);
        let op = op(&bytes, at);
        assert!(rt; op.key() == key && op.value() == value && op.bytes() == *packed);
    }
    Ok(())
}

#[test]
fn an_operation_moves_with_its_bytes(rt: HostRuntime) -> Result<(), Fail> {
    let alloc = rt.alloc();
    for (key, text, packed) in &TABLE {
        let mut bytes = Vec::new(alloc);
        reserve_ops(&mut bytes, 1)?;
        put_op(&mut bytes, &Key::new(key.as_bytes())?, &value(text)?);
        let long = op_bytes(&bytes, 0).len();
        assert!(rt; long <= OP_BYTES);
        let mut to = Vec::with_capacity(alloc, long)?;
        assert_eq!(rt; move_op(&bytes, 0, &mut to), 0);
        assert!(rt; to.as_slice() == *packed);
        let mut copy = Vec::new(alloc);
        reserve_ops(&mut copy, 1)?;
        copy_op(&mut copy, &op(&bytes, 0));
        assert!(rt; copy.as_slice() == *packed);
    }
    Ok(())
}

#[test]
fn no_room_is_made_behind_the_last_place(rt: HostRuntime) -> Result<(), Fail> {
    let mut bytes = Vec::new(rt.alloc());
    assert!(rt; reserve_ops(&mut bytes, ARENA_BYTES / OP_BYTES + 1).is_err());
    assert!(rt; bytes.is_empty());
    Ok(())
}
