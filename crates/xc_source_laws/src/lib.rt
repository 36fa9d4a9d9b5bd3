//! The laws of the source: what holds of the logs that it makes, whatever commands it is given. Each function's
//! contract is one law.
//!
//! A source starts from root tablets, and runs a list of commands, of which each is answered or refused. Its logs are
//! logs that a replication can take in whole.
#![tactic(auto)]

ghost use Rattle.xc_source_laws.specs.Finished.{FinishedLogsAreWhole};
ghost use Rattle.xc_source_laws.specs.Laws.{LogsAreValid, NothingBreaks, LogsAgree, CommitsAreListed, RowsAreListed};

mod workloads;

pub use workloads::{generated_logs_are_whole, no_call_is_refused, workloads_fit};

/// The logs are well-formed: their headers form trees, each record fits its tablet, and the limits hold.
pub fn logs_are_valid()
    ensures { LogsAreValid }
{}

/// Every record of every tablet keeps the order rules: all are accepted.
pub fn nothing_breaks()
    ensures { NothingBreaks }
{}

/// The tablets agree on every transaction: one commit, one set of rolled back subtransactions, no intent at or above
/// the commit, no abort, and no safe record that passes a commit which still waits.
pub fn logs_agree()
    ensures { LogsAgree }
{}

/// The commits of the logs, without the tablet column, are the source's list of commits in its order, less the
/// transactions that no tablet has applied yet.
pub fn commits_are_listed()
    ensures { CommitsAreListed }
{}

/// At each time up to the safe time at the ends of the logs, their rows are the fold of what the source committed by
/// then, each transaction in full, whether or not the source was finished.
pub fn rows_are_listed()
    ensures { RowsAreListed }
{}

/// After a finish that is answered, the commits of the logs, without the tablet column, are all of the source's list,
/// and the safe time at the ends of the logs is at or above each of them.
pub fn finished_logs_are_whole()
    ensures { FinishedLogsAreWhole }
{}
