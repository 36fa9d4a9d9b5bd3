//! One tablet of the target: it takes the records of the source's tablets in, and answers reads at a time.
#![tactic(auto)]

mod contents;
mod room;
mod state;
mod tablet;

pub use tablet::TargetTablet;

#[cfg(test)]
mod tests;
