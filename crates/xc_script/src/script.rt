// A script, as it was read.
ghost use Rattle.std.specs.Prelude.{◌≡◌, ◌++◌, ◌∷◌, [], is_ok, if◌then◌else◌};

use std::alloc::{AllocError, Global};
use std::marker::Model;
use xc_base::Key;
use xc_record::Command;

/// Where the ranges of the target's tablets begin, which contracts see as the list of these hashes.
#[derive(Drop, Debug)]
pub struct Bounds {
    items: Vec<u16>,
}

impl Bounds {
    /// No hashes. It keeps the allocator for its growth.
    pub fn new(alloc: Global) -> Bounds
        ensures { result ≡ [] }
    {
        Bounds {
            items: Vec::new(alloc),
        }
    }

    /// The hashes of a vector, which it takes over.
    pub fn from_vec(items: Vec<u16>) -> Bounds
        ensures { result ≡ items.items }
    {
        Bounds { items }
    }

    /// Gives the vector back, without taking memory.
    pub fn into_vec(self) -> Vec<u16>
        ensures { result.items ≡ self }
    {
        self.items
    }

    /// The hashes in order, to be read.
    pub fn as_slice(&self) -> &[u16]
        ensures { result.now ≡ self.now }
    {
        self.items.as_slice()
    }

    /// Puts a hash last. After an error the hashes are as before.
    pub fn push(&mut self, item: u16) -> Result<(), AllocError>
        ensures { self.new ≡ (if is_ok result then self.old ++ item ∷ [] else self.old) }
    {
        self.items.push(item)?;
        Ok(())
    }
}

impl Model for Bounds {
    ghost use Rattle.std.specs.Prelude.{ℕ, List};

    ghost Value = { List ℕ };

    ghost view = { λ l. l.items.items };
}

/// Keys, which contracts see as a list, each as the list of its bytes.
#[derive(Drop, Debug)]
pub struct Keys {
    items: Vec<Key>,
}

impl Keys {
    /// No keys. It keeps the allocator for its growth.
    pub fn new(alloc: Global) -> Keys
        ensures { result ≡ [] }
    {
        Keys {
            items: Vec::new(alloc),
        }
    }

    /// The keys of a vector, which it takes over.
    pub fn from_vec(items: Vec<Key>) -> Keys
        ensures { result ≡ items.items }
    {
        Keys { items }
    }

    /// Gives the vector back, without taking memory.
    pub fn into_vec(self) -> Vec<Key>
        ensures { result.items ≡ self }
    {
        self.items
    }

    /// The keys in order, to be read.
    pub fn as_slice(&self) -> &[Key]
        ensures { result.now ≡ self.now }
    {
        self.items.as_slice()
    }

    /// Puts a key last. After an error the keys are as before.
    pub fn push(&mut self, item: Key) -> Result<(), AllocError>
        ensures { self.new ≡ (if is_ok result then self.old ++ item ∷ [] else self.old) }
    {
        self.items.push(item)?;
        Ok(())
    }
}

impl Model for Keys {
    ghost use Rattle.std.specs.Prelude.{ℕ, List};

    ghost Value = { List (List ℕ) };

    ghost view = { λ l. l.items.items };
}

/// Commands, which contracts see as a list.
#[derive(Drop, Debug)]
pub struct Commands {
    items: Vec<Command>,
}

impl Commands {
    /// No commands. It keeps the allocator for its growth.
    pub fn new(alloc: Global) -> Commands
        ensures { result ≡ [] }
    {
        Commands {
            items: Vec::new(alloc),
        }
    }

    /// The commands of a vector, which it takes over.
    pub fn from_vec(items: Vec<Command>) -> Commands
        ensures { result ≡ items.items }
    {
        Commands { items }
    }

    /// Gives the vector back, without taking memory.
    pub fn into_vec(self) -> Vec<Command>
        ensures { result.items ≡ self }
    {
        self.items
    }

    /// The commands in order, to be read.
    pub fn as_slice(&self) -> &[Command]
        ensures { result.now ≡ self.now }
    {
        self.items.as_slice()
    }

    /// Puts a command last. After an error the commands are as before.
    pub fn push(&mut self, item: Command) -> Result<(), AllocError>
        ensures { self.new ≡ (if is_ok result then self.old ++ item ∷ [] else self.old) }
    {
        self.items.push(item)?;
        Ok(())
    }
}

impl Model for Commands {
    ghost use Rattle.std.specs.Prelude.{List};
    ghost use Rattle.xc_record.specs.declared.session.Command.{Command};

    ghost Value = { List Command };

    ghost view = { λ l. l.items.items };
}

/// What a script says.
#[derive(Drop, Debug)]
pub struct Script {
    /// The first hash of each of the target's tablets.
    pub bounds: Bounds,
    /// The keys that readers watch while the target drains in several threads, up to 16; none where no line names any.
    pub watched: Keys,
    /// What is asked of the session, in order.
    pub commands: Commands,
}
