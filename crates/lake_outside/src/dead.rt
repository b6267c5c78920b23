ghost use Rattle.std.specs.Prelude.{◌≡◌, ◌≤◌, IsErrOf};
ghost use Rattle.lake_outside.specs.Counts.{raised};

use crate::{Port, PortError, Staged, Stored};
use lake_values::{Name, NoMemory};
use std::marker::Model;

/// A port to nowhere: each call fails. It tells nothing. Contracts see how often it failed.
#[derive(Debug, Drop)]
pub struct DeadPort {
    faults: u64,
}

impl Model for DeadPort {
    ghost use Rattle.std.specs.Prelude.{ℕ};

    ghost Value = { ℕ };

    ghost view = { λ p. p.faults };
}

/// A block of a dead port. No call makes one.
#[derive(Clone, Copy, Debug, PartialEq, Eq)]
pub struct DeadBlock {
    name: Name,
    number: u32,
}

/// A blob of a dead port. No call makes one.
#[derive(Clone, Copy, Debug, PartialEq, Eq)]
pub struct DeadBlob {
    name: Name,
}

impl DeadPort {
    /// A port that wasn't called yet.
    pub fn new() -> DeadPort
        ensures { result ≡ 0 }
    {
        DeadPort { faults: 0 }
    }

    fn fail(&mut self) -> PortError
        ensures error { result ≡ PortError.Failed }
        ensures counted { self.new ≡ raised self.old }
        ensures never_falls { self.old ≤ self.new }
    {
        self.faults = self.faults.saturating_add(1);
        PortError::Failed
    }
}

impl Staged for DeadBlock {
    ghost use Rattle.std.specs.Prelude.{[]};

    ghost name = { λ block. block.name };

    ghost number = { λ block. block.number };

    ghost bytes = { λ _. [] };

    fn name(&self) -> Name {
        self.name
    }

    fn number(&self) -> u32 {
        self.number
    }

    fn copy(&self) -> Result<DeadBlock, NoMemory>
        ensures { result ≡ Ok self.now }
    {
        Ok(*self)
    }
}

impl Stored for DeadBlob {
    ghost use Rattle.std.specs.Prelude.{[]};

    ghost name = { λ blob. blob.name };

    ghost bytes = { λ _. [] };

    fn name(&self) -> Name {
        self.name
    }

    fn copy(&self) -> Result<DeadBlob, NoMemory>
        ensures { result ≡ Ok self.now }
    {
        Ok(*self)
    }
}

impl Port for DeadPort {
    type Block = DeadBlock;

    type Blob = DeadBlob;

    ghost faults = { λ p. p };

    fn stage(&mut self, _name: &Name, _no: u32, _bytes: &[u8]) -> Result<DeadBlock, PortError>
        ensures fails { IsErrOf result PortError.Failed }
        ensures counted { self.new ≡ raised self.old }
        ensures never_falls { self.old ≤ self.new }
    {
        Err(self.fail())
    }

    fn commit(&mut self, _name: &Name, _blocks: &Vec<DeadBlock>) -> Result<DeadBlob, PortError>
        ensures fails { IsErrOf result PortError.Failed }
        ensures counted { self.new ≡ raised self.old }
        ensures never_falls { self.old ≤ self.new }
    {
        Err(self.fail())
    }

    fn read(&mut self, _blob: &DeadBlob) -> Result<Vec<u8>, PortError>
        ensures fails { IsErrOf result PortError.Failed }
        ensures counted { self.new ≡ raised self.old }
        ensures never_falls { self.old ≤ self.new }
    {
        Err(self.fail())
    }

    fn list(&mut self) -> Result<Vec<Name>, PortError>
        ensures fails { IsErrOf result PortError.Failed }
        ensures counted { self.new ≡ raised self.old }
        ensures never_falls { self.old ≤ self.new }
    {
        Err(self.fail())
    }

    fn delete(&mut self, _name: &Name) -> Result<(), PortError>
        ensures fails { IsErrOf result PortError.Failed }
        ensures counted { self.new ≡ raised self.old }
        ensures never_falls { self.old ≤ self.new }
    {
        Err(self.fail())
    }
}
