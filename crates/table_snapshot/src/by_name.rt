ghost use Rattle.std.specs.Prelude.{◌≡◌, [], true, map, OnOk, IfOk};
ghost use Rattle.sql_model.specs.Listing.{placed};
ghost use Rattle.table_snapshot.specs.Files.{file_cmp, in_order, with_vector, without_file};

use crate::{FileRow, Files};
use lake_values::{Name, NoMemory};
use std::alloc::Global;
use std::collections::BTreeMap;
use std::marker::Model;

/// Files of a table that are found by name. Contracts see the list of them, in order.
#[derive(Drop)]
pub struct ByName {
    files: BTreeMap<Name, FileRow>,
}

impl Model for ByName {
    ghost use Rattle.std.specs.Prelude.{List};
    ghost use Rattle.std.specs.BTreeMap.{values};
    ghost use Rattle.table_snapshot.specs.declared.files.FileRow.{FileRow as AnyFile};
    ghost use Rattle.table_snapshot.specs.NamedFiles.{AreByName};

    ghost Value = { List AnyFile };

    ghost view = { λ f. values f.files };

    ghost invariant = { λ f. AreByName f.files.entries };
}

impl ByName {
    pub fn empty(alloc: Global) -> ByName
        ensures { result ≡ [] }
    {
        ByName {
            files: BTreeMap::new(alloc),
        }
    }

    /// Puts a file in its place, and takes out one of the same name.
    pub fn put(&mut self, file: FileRow) -> Result<(), NoMemory>
        ensures { OnOk result
            (self.new ≡ placed file_cmp file (without_file file.file self.old)) }
    {
        self.files.insert(file.file, file)?;
        Ok(())
    }

    pub fn take_out(&mut self, name: &Name)
        ensures { self.new ≡ without_file name.now self.old }
    {
        self.files.remove(name);
    }

    /// Gives the file of this name a vector, if it is there.
    pub fn set_vector(&mut self, name: &Name, vector: Name, removed: u64)
        ensures { self.new ≡ map (with_vector name.now vector removed) self.old }
    {
        let Some(file) = self.files.get_mut(name) else {
            return;
        };
        file.vector = Some((vector, removed));
    }

    pub fn into_files(self, alloc: Global) -> Result<Files, NoMemory>
        ensures files { IfOk result (λ files. files ≡ self) }
        ensures order { IfOk result (λ files. in_order files ≡ true) }
    {
        let mut files = Vec::with_capacity(alloc, self.files.len())?;
        for file in self.files.into_values() {
            files.push(file)?;
        }
        Ok(Files::from_list(files))
    }
}
