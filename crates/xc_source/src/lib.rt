//! The source universe: a machine that makes the logs of a source, and its definition.
#![tactic(auto)]

mod command;
mod commit;
mod commits;
mod cursor;
mod fail;
mod finish;
mod journal;
mod tablets;
#[cfg(test)]
mod tests;
mod transaction;
mod transactions;
mod universe;
mod workload;
mod write;

pub use command::SourceCommand;
pub use commit::Commit;
pub use commits::Commits;
pub use fail::SourceFail;
pub use transaction::{Provisional, Stage};
pub use universe::SourceUniverse;
pub use workload::{MOST_STEPS, generate};
