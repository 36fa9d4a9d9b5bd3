//! The limit of an arena, named once: code, contracts and definitions cite it here.

/// The most bytes of all operations of an arena, so that a u32 says where each begins.
pub const ARENA_BYTES: usize = 0xffff_ffff;
