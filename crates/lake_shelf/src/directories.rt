ghost use Rattle.std.specs.Prelude.{◌≡◌, ◌↔◌, ◌≤◌, [], map, IsTrue, IfOk, OnOk, OnErr};
ghost use Rattle.std.specs.List.Sorted.{IsStrictlySortedBy};
ghost use Rattle.lake_shelf.specs.Directories.{name_cmp, IsListed, len_at, with_blob, without_blob, total_of};

use crate::bytes::SharedBytes;
use lake_values::{Name, NoMemory};
use std::alloc::Global;
use std::collections::BTreeMap;
use std::marker::Model;

/// The blobs of a store by their names, ascending and distinct, and how many bytes they have together.
#[derive(Drop)]
pub struct Directory {
    blobs: BTreeMap<Name, SharedBytes>,
    total: u64,
}

impl Model for Directory {
    ghost use Rattle.std.specs.Prelude.{List, ℕ};
    ghost use Rattle.lake_values.specs.declared.names.Name.{Name};
    ghost use Rattle.lake_shelf.specs.Directories.{IsDirectory};

    ghost Value = { List (Name × List ℕ) };

    ghost view = { λ d. d.blobs.entries };

    ghost invariant = { λ d. IsDirectory d.blobs.entries d.total };
}

impl Directory {
    pub fn new(alloc: Global) -> Directory
        ensures { result ≡ [] }
    {
        Directory {
            blobs: BTreeMap::new(alloc),
            total: 0,
        }
    }

    pub fn lists(&self, name: &Name) -> bool
        ensures { IsTrue result ↔ IsListed name.now self.now }
    {
        self.blobs.contains_key(name)
    }

    /// Lists a blob. What was listed under its name gives way. More bytes than a number of 64 bits can
    /// count are no memory.
    #[tactic(auto, using(crate::proofs::Totals::total_of_with))]
    pub fn put(&mut self, name: Name, bytes: SharedBytes) -> Result<(), NoMemory>
        ensures ok { OnOk result (self.new ≡ with_blob name bytes self.old) }
        ensures err { OnErr result (self.new ≡ self.old) }
    {
        let others = self.total - self.len_at(&name);
        let Some(total) = others.checked_add(bytes.len() as u64) else {
            return Err(NoMemory);
        };
        self.blobs.insert(name, bytes)?;
        self.total = total;
        Ok(())
    }

    /// Takes a name out, and says whether it was listed.
    #[tactic(auto, using(crate::proofs::Totals::total_of_without))]
    pub fn remove(&mut self, name: &Name) -> bool
        ensures found { IsTrue result ↔ IsListed name.now self.old }
        ensures removed { self.new ≡ without_blob name.now self.old }
    {
        let freed = self.len_at(name);
        let found = self.blobs.remove(name).is_some();
        self.total -= freed;
        found
    }

    /// How many bytes are listed under a name.
    #[tactic(auto, using(crate::proofs::Totals::len_at_le))]
    fn len_at(&self, name: &Name) -> u64
        ensures len { result ≡ len_at name.now self.now }
        ensures within { result ≤ total_of self.now }
    {
        match self.blobs.get(name) {
            Some(bytes) => bytes.len() as u64,
            None => 0,
        }
    }

    /// The names, ascending.
    pub fn names(&self, alloc: Global) -> Result<Vec<Name>, NoMemory>
        ensures all { IfOk result (λ names. names.items ≡ map (λ blob. blob.0) self.now) }
        ensures ascending { IfOk result (λ names. IsStrictlySortedBy name_cmp names.items) }
    {
        Ok(self.blobs.keys().copied().collect(alloc)?)
    }

    /// How many bytes the blobs have together.
    pub fn total(&self) -> u64
        ensures { result ≡ total_of self.now }
    {
        self.total
    }
}
