ghost use Rattle.std.specs.Prelude.{◌≡◌, ◌+◌, ◌<◌, ◌≤◌, [], ◌∷◌, ◌++◌, OnOk, OnErr};

use lake_model::Entry;
use lake_values::NoMemory;
use std::alloc::Global;
use std::marker::Model;

/// All entries in the order in which they took place. Contracts see the entries, and for how many more there is room.
#[derive(Debug, Drop)]
pub struct Chronicle {
    entries: Vec<Entry>,
}

impl Model for Chronicle {
    ghost use Rattle.std.specs.Prelude.{◌-◌, vec_capacity, vec_len};
    ghost use Rattle.lake_core.specs.Rooms.{Recorded};

    ghost Value = { Recorded };

    ghost view = { λ c. record { entries = c.entries.items; spare = vec_capacity c.entries - vec_len c.entries } };
}

impl Chronicle {
    pub fn empty(alloc: Global) -> Chronicle
        ensures { result.entries ≡ [] }
    {
        Chronicle {
            entries: Vec::new(alloc),
        }
    }

    pub fn entries(&self) -> &[Entry]
        ensures { result.now ≡ self.now.entries }
    {
        self.entries.as_slice()
    }

    /// Makes room for more entries.
    pub fn reserve(&mut self, entries: usize) -> Result<(), NoMemory>
        ensures same { self.new.entries ≡ self.old.entries }
        ensures keeps { self.old.spare ≤ self.new.spare }
        ensures room { OnOk result (entries ≤ self.new.spare) }
    {
        self.entries.reserve(entries)?;
        Ok(())
    }

    /// Puts an entry behind the others. It takes no memory.
    pub fn push(&mut self, entry: Entry)
        requires { 0 < self.old.spare }
        ensures entries { self.new.entries ≡ self.old.entries ++ entry ∷ [] }
        ensures room { self.old.spare ≤ self.new.spare + 1 }
    {
        self.entries.push_reserved(entry);
    }
}
