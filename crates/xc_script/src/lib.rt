//! Scripts, versions 1 and 2, read exactly; and the lines of output, as they are written.
//!
//! Which script a text spells is said without reading it; laws join that to what is read.
#![tactic(auto)]

mod command;
mod kind;
mod laws;
mod numbers;
mod print;
mod read;
mod reading;
mod script;
#[cfg(test)]
mod tests;
mod words;

pub use kind::{ScriptFail, ScriptKind};
pub use laws::{no_text_spells_two_scripts, what_is_read_is_spelled, what_is_spelled_is_read};
pub use numbers::{NoNumber, hash, moment, number_up_to, tablet};
pub use print::{break_name, is_halt, print_line};
pub use read::read_script;
pub use script::{Bounds, Commands, Keys, Script};
pub use words::{are_words, pieces};
