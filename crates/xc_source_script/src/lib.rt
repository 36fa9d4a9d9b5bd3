//! Source scripts, versions 1 and 2, read exactly: what is to happen at a source, command by command.
//!
//! Which source script a text spells is said without reading it; laws join that to what is read.
#![tactic(auto)]

mod command;
mod kind;
mod laws;
mod line;
mod making;
mod numbers;
mod read;
mod reading;
mod script;
#[cfg(test)]
mod tests;

pub use kind::{SourceKind, SourceScriptFail};
pub use laws::{
    no_text_spells_two_source_scripts, what_is_read_is_spelled, what_is_spelled_is_read,
};
pub use making::{MakeFail, make};
pub use read::read_source;
pub use script::{Roots, SourceCommands, SourceScript};
