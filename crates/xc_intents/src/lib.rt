//! The operations of intents that wait in a target tablet for their transactions' applies and aborts.
#![tactic(auto)]

mod held;
mod intents;
mod limits;
mod link;
mod search;
mod slots;
mod tree;

pub use held::Held;
pub use intents::{Intents, walks_give_all};

#[cfg(test)]
mod tests;
