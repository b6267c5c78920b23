//! A port that notes what is staged by it, in order, and keeps nothing.

use lake_outside::{Port, PortError, Staged, Stored};
use lake_values::{Name, NoMemory};
use std::alloc::Global;

/// What was staged: the name and number of a block, and how many bytes it has.
pub type Note = (Name, u32, usize);

#[derive(Drop)]
pub struct NotingPort {
    pub alloc: Global,
    pub notes: Vec<Note>,
}

#[derive(Drop)]
pub struct NotedBlock {
    name: Name,
    number: u32,
}

#[derive(Drop)]
pub struct NotedBlob {
    name: Name,
}

impl NotingPort {
    fn note(&mut self, note: Note) -> Result<(), NoMemory> {
        self.notes.push(note)?;
        Ok(())
    }
}

impl Staged for NotedBlock {
    ghost use Rattle.std.specs.Prelude.{[]};

    ghost name = { λ block. block.name };

    ghost number = { λ block. block.number };

    ghost bytes = { λ _. [] };

    fn name(&self) -> Name {
        self.name
    }

    fn number(&self) -> u32 {
        self.number
    }

    fn copy(&self) -> Result<NotedBlock, NoMemory> {
        Ok(NotedBlock {
            name: self.name,
            number: self.number,
        })
    }
}

impl Stored for NotedBlob {
    ghost use Rattle.std.specs.Prelude.{[]};

    ghost name = { λ blob. blob.name };

    ghost bytes = { λ _. [] };

    fn name(&self) -> Name {
        self.name
    }

    fn copy(&self) -> Result<NotedBlob, NoMemory> {
        Ok(NotedBlob { name: self.name })
    }
}

impl Port for NotingPort {
    type Block = NotedBlock;

    type Blob = NotedBlob;

    ghost faults = { λ _. 0 };

    fn stage(&mut self, name: &Name, no: u32, bytes: &[u8]) -> Result<NotedBlock, PortError> {
        self.note((*name, no, bytes.len()))?;
        Ok(NotedBlock {
            name: *name,
            number: no,
        })
    }

    fn commit(&mut self, name: &Name, _blocks: &Vec<NotedBlock>) -> Result<NotedBlob, PortError> {
        Ok(NotedBlob { name: *name })
    }

    fn read(&mut self, _blob: &NotedBlob) -> Result<Vec<u8>, PortError> {
        Ok(Vec::new(self.alloc))
    }

    fn list(&mut self) -> Result<Vec<Name>, PortError> {
        Err(PortError::NoMemory)
    }

    fn delete(&mut self, _name: &Name) -> Result<(), PortError> {
        Ok(())
    }
}
