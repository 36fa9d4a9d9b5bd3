// The bytes of operations one behind another, each read at the place where it begins.
ghost use Rattle.std.specs.Prelude.{◌≡◌, ◌≤◌, ◌+◌, ◌*◌, ◌++◌, length, drop, min, true, OnOk, vec_len};
ghost use Rattle.std.specs.Prelude.{vec_capacity};
ghost use Rattle.xc_arena.specs.declared.limits.TheConstants.{ARENA_BYTES};
ghost use Rattle.xc_record.specs.declared.packed.TheConstants.{OP_BYTES};
ghost use Rattle.xc_record.specs.Packed.{encode_op, is_op, IsAt};
ghost use Rattle.xc_arena.specs.Arena.{Lies, key_at, value_at, op_at};

use crate::limits::ARENA_BYTES;
use xc_base::{Key, NoMemory, Value};
use xc_record::OpAt;
use xc_record::packed::{self, OP_BYTES};

/// The bytes of the key of the operation at the place. Behind the last byte there are none.
#[inline]
pub fn key_bytes(bytes: &[u8], at: u32) -> &[u8]
    ensures { result.now ≡ key_at bytes.now at }
{
    let from = bytes.len().min(at as usize);
    let rest = &bytes[from..];
    if rest.is_empty() {
        return rest;
    }
    let end = rest.len().min(1 + rest[0] as usize);
    &rest[1..end]
}

// The bytes from the place on.
#[inline]
fn from(bytes: &[u8], at: u32) -> &[u8]
    requires { Lies bytes.now at }
    ensures same { result.now ≡ drop at bytes.now }
    ensures op { IsAt result.now }
{
    &bytes[at as usize..]
}

/// The key of the operation at the place.
pub fn key(bytes: &[u8], at: u32) -> Key
    requires { Lies bytes.now at }
    ensures { result ≡ key_at bytes.now at }
{
    Key::of(packed::text(from(bytes, at)))
}

/// The value of the operation at the place, or None where it removes its key.
pub fn value_of(bytes: &[u8], at: u32) -> Option<Value>
    requires { Lies bytes.now at }
    ensures { result ≡ value_at bytes.now at }
{
    packed::value(packed::after_text(from(bytes, at)))
}

/// The bytes of the operation at the place.
pub fn op_bytes(bytes: &[u8], at: u32) -> &[u8]
    requires { Lies bytes.now at }
    ensures { result.now ≡ encode_op (op_at bytes.now at) }
{
    packed::op_bytes(from(bytes, at))
}

/// The operation at the place, where it lies.
#[inline]
pub fn op(bytes: &[u8], at: u32) -> OpAt<'_>
    requires { Lies bytes.now at }
    ensures { result ≡ op_at bytes.now at }
{
    OpAt::of(from(bytes, at))
}

/// Puts an operation last, for which there is room.
pub fn put_op(bytes: &mut Vec<u8>, key: &Key, value: &Option<Value>)
    requires room { vec_len bytes.old + OP_BYTES ≤ vec_capacity bytes.old }
    ensures items { bytes.new.items ≡ bytes.old.items ++ encode_op (record { key = key.now; value = value.now }) }
    ensures well { is_op (record { key = key.now; value = value.now }) ≡ true }
    ensures lies { Lies bytes.new.items (length bytes.old.items) }
    ensures op { op_at bytes.new.items (length bytes.old.items) ≡ record { key = key.now; value = value.now } }
    ensures len { vec_len bytes.new ≤ vec_len bytes.old + OP_BYTES }
    ensures capacity { vec_capacity bytes.old ≤ vec_capacity bytes.new }
{
    packed::put_op(bytes, key, value);
}

/// Puts an operation last that lies in other bytes. There is room for it.
#[inline]
pub fn copy_op(bytes: &mut Vec<u8>, op: &OpAt<'_>)
    requires room { vec_len bytes.old + OP_BYTES ≤ vec_capacity bytes.old }
    ensures items { bytes.new.items ≡ bytes.old.items ++ encode_op op.now }
    ensures well { is_op op.now ≡ true }
    ensures lies { Lies bytes.new.items (length bytes.old.items) }
    ensures op { op_at bytes.new.items (length bytes.old.items) ≡ op.now }
    ensures len { vec_len bytes.new ≤ vec_len bytes.old + OP_BYTES }
    ensures capacity { vec_capacity bytes.old ≤ vec_capacity bytes.new }
{
    let _ = bytes.extend_from_slice(op.bytes());
}

/// Puts the operation at the place in `bytes` last in another arena, which has room for it, and says where it begins
/// there.
pub fn move_op(bytes: &[u8], at: u32, to: &mut Vec<u8>) -> u32
    requires lies { Lies bytes.now at }
    requires room { vec_len to.old + length (encode_op (op_at bytes.now at)) ≤ min (vec_capacity to.old) ARENA_BYTES }
    ensures items { to.new.items ≡ to.old.items ++ encode_op (op_at bytes.now at) }
    ensures place { result ≡ length to.old.items }
    ensures lies { Lies to.new.items result }
    ensures op { op_at to.new.items result ≡ op_at bytes.now at }
    ensures len { vec_len to.new ≡ vec_len to.old + length (encode_op (op_at bytes.now at)) }
    ensures capacity { vec_capacity to.old ≤ vec_capacity to.new }
{
    let place = to.len() as u32;
    let _ = to.extend_from_slice(op_bytes(bytes, at));
    place
}

/// Makes room for n operations more, of the most bytes. Out of memory the bytes are as before, and so where a u32
/// wouldn't say where each begins.
pub fn reserve_ops(bytes: &mut Vec<u8>, n: usize) -> Result<(), NoMemory>
    ensures items { bytes.new.items ≡ bytes.old.items }
    ensures len { vec_len bytes.new ≡ vec_len bytes.old }
    ensures capacity { vec_capacity bytes.old ≤ vec_capacity bytes.new }
    ensures room { OnOk result (vec_len bytes.old + OP_BYTES * n ≤ min (vec_capacity bytes.new) ARENA_BYTES) }
{
    if bytes.len() > ARENA_BYTES || n > (ARENA_BYTES - bytes.len()) / OP_BYTES {
        return Err(NoMemory);
    }
    match bytes.reserve(n * OP_BYTES) {
        Ok(()) => Ok(()),
        Err(_) => Err(NoMemory),
    }
}
