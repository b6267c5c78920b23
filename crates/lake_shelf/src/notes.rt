ghost use Rattle.std.specs.Prelude.{◌≡◌, [], ◌∷◌, ◌++◌, OnOk, OnErr};

use lake_values::{Listed, Name, Names, NoMemory};
use std::alloc::Global;
use std::marker::Model;

/// What a port listed, and what it was asked to delete.
#[derive(Debug, Drop)]
pub struct Notes {
    listings: Vec<Names>,
    deletions: Vec<Name>,
}

impl Model for Notes {
    ghost use Rattle.lake_shelf.specs.Told.{Told};

    ghost Value = { Told };

    ghost view = { λ n. record { listings = n.listings.items; deletions = n.deletions.items } };
}

impl Notes {
    pub fn new(alloc: Global) -> Notes
        ensures { result ≡ record { listings = []; deletions = [] } }
    {
        Notes {
            listings: Vec::new(alloc),
            deletions: Vec::new(alloc),
        }
    }

    pub fn add_listing(&mut self, names: &Vec<Name>) -> Result<(), NoMemory>
        ensures ok { OnOk result (self.new ≡ record self.old { listings = self.old.listings ++ names.now.items ∷ [] }) }
        ensures err { OnErr result (self.new ≡ self.old) }
    {
        let listing = Listed::from_list(names.clone()?);
        self.listings.push(listing)?;
        Ok(())
    }

    pub fn add_deletion(&mut self, name: Name) -> Result<(), NoMemory>
        ensures ok { OnOk result (self.new ≡ record self.old { deletions = self.old.deletions ++ name ∷ [] }) }
        ensures err { OnErr result (self.new ≡ self.old) }
    {
        self.deletions.push(name)?;
        Ok(())
    }
}
