// What a source script makes of a source.
ghost use Rattle.std.specs.Prelude.{◌≡◌, ◌+◌, ◌≤◌, ◌^◌, true, length};
ghost use Rattle.std.specs.Result.{result_err};
ghost use Rattle.std.specs.List.{list_all};
ghost use Rattle.xc_source.specs.Commands.{made_from, step};
ghost use Rattle.xc_source_script.specs.Allowed.{is_allowed, IsSourceScript};
ghost use Rattle.xc_source_script.specs.Made.{made_of, Did, Makes, Runs};
ghost use Rattle.xc_base.specs.declared.limits.TheConstants.{SCRIPT_LINES};

use crate::script::SourceScript;
use std::alloc::Global;
use xc_base::Value;
use xc_record::Op;
use xc_source::{SourceCommand, SourceFail, SourceUniverse};

/// Why a source script made no source.
#[derive(Clone, Copy, PartialEq, Eq, Debug)]
pub enum MakeFail {
    /// The line of the first command that the source refuses, counted from 1, and why it does.
    Refused { line: u64, fail: SourceFail },
    /// Memory ran out.
    NoMemory,
}

/// The source after all commands of a source script, done in order at one that begins with its start and its roots.
///
/// `Refused` comes exactly where the source refuses a command: nothing behind the first such is done.
pub fn make(alloc: Global, script: &SourceScript) -> Result<SourceUniverse, MakeFail>
    requires { IsSourceScript script.now }
    ensures { Makes result (made_of script.now) }
{
    let roots = script.roots.as_slice();
    let Ok(mut universe) = SourceUniverse::new(alloc, roots, script.start) else {
        return Err(MakeFail::NoMemory);
    };
    do_commands(
        &mut universe,
        script.commands.as_slice(),
        roots.len() as u64 + 3,
    )?;
    Ok(universe)
}

// Does the commands, of which the first stands in the line of this number.
fn do_commands(
    universe: &mut SourceUniverse,
    commands: &[SourceCommand],
    first: u64,
) -> Result<(), MakeFail>
    requires allowed { list_all is_allowed commands.now ≡ true }
    requires lines { first + length commands.now ≤ SCRIPT_LINES }
    ensures { Runs result universe.new (made_from first commands.now universe.old) }
{
    let mut line = first;
    for command in commands {
        match do_command(universe, command) {
            Ok(()) => line += 1,
            Err(SourceFail::NoMemory) => return Err(MakeFail::NoMemory),
            Err(fail) => return Err(MakeFail::Refused { line, fail }),
        }
    }
    Ok(())
}

// Does the command.
#[tactic(auto, using(crate::proofs::MadeLaws::did), unfolding(xc_source::specs::Commands::step))]
fn do_command(universe: &mut SourceUniverse, command: &SourceCommand) -> Result<(), SourceFail>
    requires { is_allowed command.now ≡ true }
    ensures { Did result universe.new (step command.now universe.old) }
{
    match command {
        SourceCommand::Begin => done(universe.begin()),
        SourceCommand::Write { txn, op } => done(universe.write(*txn, *op)),
        SourceCommand::Put { op } => done(universe.put(*op)),
        SourceCommand::Commit { txn } => done(universe.commit(*txn)),
        SourceCommand::Abort { txn } => universe.abort(*txn),
        SourceCommand::Apply { txn, id } => done(universe.apply(*txn, *id)),
        SourceCommand::Safe { id } => done(universe.safe(*id)),
        SourceCommand::Split { id, at } => done(universe.split(*id, *at)),
        SourceCommand::Tick { to } => universe.tick(*to),
        SourceCommand::Finish => universe.finish(),
        SourceCommand::Savepoint { txn } => done(universe.savepoint(*txn)),
        SourceCommand::Rollback { txn, sub } => done(universe.roll_back(*txn, *sub)),
    }
}

// Whether a call was refused.
fn done<T: Drop>(answer: Result<T, SourceFail>) -> Result<(), SourceFail>
    ensures { result_err result ≡ result_err answer }
{
    match answer {
        Ok(_) => Ok(()),
        Err(fail) => Err(fail),
    }
}
