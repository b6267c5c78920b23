ghost use Rattle.std.specs.Prelude.{◌≡◌, ◌^◌, ◌<◌, [], ◌∷◌, ◌++◌, length, IsTrue, ◌↔◌, OnOk, OnErr};

use crate::NoMemory;
use std::alloc::Global;
use std::marker::Model;

/// A list that contracts see as the list of its members.
#[derive(Debug, Drop)]
pub struct Listed<T> {
    members: Vec<T>,
}

impl<T> Model for Listed<T> {
    ghost use Rattle.std.specs.Prelude.{List};
    ghost use Rattle.std.specs.Coded.{coded_list};

    ghost Value = { List T };

    ghost coded = { coded_list T.code };

    ghost view = { λ l. l.members.items };
}

impl<T> Listed<T> {
    /// The list without members.
    pub fn empty(alloc: Global) -> Listed<T>
        ensures { result ≡ [] }
    {
        Listed {
            members: Vec::new(alloc),
        }
    }

    pub fn from_list(list: Vec<T>) -> Listed<T>
        ensures { result ≡ list.items }
    {
        Listed { members: list }
    }

    pub fn list(&self) -> &Vec<T>
        ensures { result.now.items ≡ self.now }
    {
        &self.members
    }

    pub fn into_list(self) -> Vec<T>
        ensures { result.items ≡ self }
    {
        self.members
    }

    pub fn as_slice(&self) -> &[T]
        ensures { result.now ≡ self.now }
    {
        self.members.as_slice()
    }

    pub fn len(&self) -> usize
        ensures { result ≡ length self.now }
    {
        self.members.len()
    }

    pub fn is_empty(&self) -> bool
        ensures { IsTrue result ↔ (self.now ≡ []) }
    {
        self.members.is_empty()
    }
}

impl<T: Drop> Listed<T> {
    /// Puts a member at the end.
    pub fn push(&mut self, member: T) -> Result<(), NoMemory>
        ensures ok { OnOk result (self.new ≡ self.old ++ member ∷ []) }
        ensures err { OnErr result (self.new ≡ self.old) }
    {
        self.members.push(member)?;
        Ok(())
    }

    /// Puts members at the end, in their order.
    pub fn append(&mut self, mut more: Vec<T>) -> Result<(), NoMemory>
        ensures ok { OnOk result (self.new ≡ self.old ++ more.items) }
        ensures err { OnErr result (self.new ≡ self.old) }
    {
        self.members.append(&mut more)?;
        Ok(())
    }
}
