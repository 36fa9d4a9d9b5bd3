//! The board of safe times that the threads of a drain share: one word for each source tablet, and one for the
//! watermark. Whatever the threads do, and in whatever order, the watermark is at most the time of each active tablet,
//! and at most the end of the parent of each waiting one, at which that tablet will start.
//!
//! No call waits, so none takes a lock: each change of a word is one atomic step.
#![tactic(auto)]

mod board;
mod laws;
mod rule;
mod tablet;
#[cfg(test)]
mod tests;

pub use board::{Board, BoardSeat};
pub use laws::{fitting_has_three_cases, rule_is_sound, words_stand_for_states};
pub use tablet::{BoardTablet, WordState};
pub use xc_base::NoMemory;
