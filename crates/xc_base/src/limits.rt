//! The limits of logs and scripts, each named once: code, contracts and definitions cite them here.

/// The most bytes of a key.
pub const KEY_BYTES: usize = 32;

/// The most bytes of a value.
pub const VALUE_BYTES: usize = 64;

/// The most tablets of logs.
pub const MOST_TABLETS: usize = 64;

/// The most operations of a record.
pub const RECORD_OPERATIONS: usize = 64;

/// The greatest number of a subtransaction. The transaction itself, outside all of them, is 0.
pub const LAST_SUB: u8 = 64;

/// The most records of logs, over all tablets.
pub const MOST_RECORDS: usize = 1 << 20;

/// The most operations of logs, over all records.
pub const MOST_OPERATIONS: usize = 1 << 22;

/// The most bytes of a text of logs.
pub const LOGS_BYTES: u64 = 1 << 26;

/// The most bytes of the text of a script, or of a source script.
pub const SCRIPT_BYTES: u64 = 1 << 20;

/// The most lines of a script, or of a source script.
pub const SCRIPT_LINES: u64 = 65_536;

/// The most target tablets.
pub const MOST_TARGETS: usize = 16;

/// The most watched keys of a script.
pub const WATCHED_KEYS: usize = 16;

/// The most scans of a script.
pub const MOST_SCANS: usize = 8;

/// The most drains of a script.
pub const MOST_DRAINS: usize = 64;
