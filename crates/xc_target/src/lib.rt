//! The target of a replication session: its tablets, and the pollers that deliver the source's records to them.
//!
//! A target stands for a session of the source's logs, and each call makes its command's step of that session.
#![tactic(auto)]

mod answers;
mod draining;
mod looks;
mod opening;
mod scanning;
mod target;

pub use answers::{Closed, Halt, PruneFail, SessionLine, TargetFail};
pub use target::Target;
pub use xc_poller::{Parts, PollAnswer, Pollers, Targets};
pub use xc_retain::NotReadable;
pub use xc_versions::Rows;

#[cfg(test)]
mod tests;
