// A source script, as it was read.
ghost use Rattle.std.specs.Prelude.{◌≡◌, ◌++◌, ◌∷◌, [], is_ok, if◌then◌else◌};

use std::alloc::{AllocError, Global};
use std::marker::Model;
use xc_base::Value;
use xc_record::{Header, Op};
use xc_source::SourceCommand;

/// The headers of the tablets that a source begins with, which contracts see as a list.
#[derive(Drop, Debug)]
pub struct Roots {
    items: Vec<Header>,
}

impl Roots {
    /// No headers. It keeps the allocator for its growth.
    pub fn new(alloc: Global) -> Roots
        ensures { result ≡ [] }
    {
        Roots {
            items: Vec::new(alloc),
        }
    }

    /// The headers in order, to be read.
    pub fn as_slice(&self) -> &[Header]
        ensures { result.now ≡ self.now }
    {
        self.items.as_slice()
    }

    /// Puts a header last. After an error the headers are as before.
    pub fn push(&mut self, item: Header) -> Result<(), AllocError>
        ensures { self.new ≡ (if is_ok result then self.old ++ item ∷ [] else self.old) }
    {
        self.items.push(item)?;
        Ok(())
    }
}

impl Model for Roots {
    ghost use Rattle.std.specs.Prelude.{List};
    ghost use Rattle.xc_record.specs.declared.record.Header.{Header};

    ghost Value = { List Header };

    ghost view = { λ l. l.items.items };
}

/// Commands of a source script, which contracts see as a list.
#[derive(Drop, Debug)]
pub struct SourceCommands {
    items: Vec<SourceCommand>,
}

impl SourceCommands {
    /// No commands. It keeps the allocator for its growth.
    pub fn new(alloc: Global) -> SourceCommands
        ensures { result ≡ [] }
    {
        SourceCommands {
            items: Vec::new(alloc),
        }
    }

    /// The commands in order, to be read.
    pub fn as_slice(&self) -> &[SourceCommand]
        ensures { result.now ≡ self.now }
    {
        self.items.as_slice()
    }

    /// Puts a command last. After an error the commands are as before.
    pub fn push(&mut self, item: SourceCommand) -> Result<(), AllocError>
        ensures { self.new ≡ (if is_ok result then self.old ++ item ∷ [] else self.old) }
    {
        // The borrow checker is told by these what a command may hold.
        let _op: Option<Op> = None;
        let _value: Option<Value> = None;
        self.items.push(item)?;
        Ok(())
    }
}

impl Model for SourceCommands {
    ghost use Rattle.std.specs.Prelude.{List};
    ghost use Rattle.xc_source.specs.declared.command.SourceCommand.{SourceCommand};

    ghost Value = { List SourceCommand };

    ghost view = { λ l. l.items.items };
}

/// What a source script says.
#[derive(Drop, Debug)]
pub struct SourceScript {
    /// The time that the source's clock begins at.
    pub start: u64,
    /// The tablets that it begins with.
    pub roots: Roots,
    /// What happens there, in order.
    pub commands: SourceCommands,
}
