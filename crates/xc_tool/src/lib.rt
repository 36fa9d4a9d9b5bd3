//! The top call of the tool: the words of the command line, the sources, and the whole output.
#![tactic(auto)]

mod answer;
mod audit;
mod commands;
mod generate;
mod laws;
mod make;
mod quiet;
mod refusal;
mod replay;
mod report;
mod steps;
mod top;
mod upgrade;
mod words;

pub use laws::{
    an_upgrade_keeps_the_audit, made_logs_show_commits, replays_show_the_past,
    workloads_show_commits,
};
pub use quiet::run_quiet;
pub use refusal::Refusal;
pub use top::run;
pub use words::Form;
pub use xc_base::Status;

#[cfg(test)]
mod tests;
