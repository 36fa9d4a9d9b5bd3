//! The safe time of what was applied: of each source tablet its last safe value, and the least over those that count.
#![tactic(auto)]

mod floor;
mod safe_at;

pub use floor::{Floor, children};
pub use safe_at::safe_of;

#[cfg(test)]
mod tests;
