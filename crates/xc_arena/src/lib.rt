//! Operations packed in bytes, one behind another, each found by the place where it begins.
#![tactic(auto)]

mod arena;
mod limits;

pub use arena::{copy_op, key, key_bytes, move_op, op, op_bytes, put_op, reserve_ops, value_of};
pub use limits::ARENA_BYTES;

#[cfg(test)]
mod tests;
