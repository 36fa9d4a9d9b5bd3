use xc_record::Op;

/// One command of a source. Transactions are numbered from 1, tablets from 0.
#[derive(Clone, Copy, PartialEq, Eq, Debug)]
pub enum SourceCommand {
    /// Begins the next transaction.
    Begin,
    /// Logs an operation of the transaction, which waits for its commit.
    Write { txn: u32, op: Op },
    /// Logs an operation that commits at its log time.
    Put { op: Op },
    /// Commits the transaction at the clock's next time.
    Commit { txn: u32 },
    /// Aborts the transaction wherever it waits.
    Abort { txn: u32 },
    /// Applies a committed transaction on one tablet.
    Apply { txn: u32, id: u32 },
    /// Logs a safe time on the tablet.
    Safe { id: u32 },
    /// Splits the tablet: the right child begins at the hash `at`.
    Split { id: u32, at: u16 },
    /// Moves the clock on to a time, 2^62 - 1 at most.
    Tick { to: u64 },
    /// Applies all that committed transactions have waiting, and logs a safe time on each open tablet.
    Finish,
    /// Begins the next subtransaction of the transaction.
    Savepoint { txn: u32 },
    /// Rolls the subtransaction and all later ones back, and begins the next one.
    Rollback { txn: u32, sub: u8 },
}
