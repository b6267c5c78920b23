ghost use Rattle.std.specs.Prelude.{◌≡◌, ◌&&◌, ◌||◌, true, not, [], ◌∷◌, IfOk, OnOk};
ghost use Rattle.std.specs.BTreeSet.{keys};
ghost use Rattle.lake_values.specs.Names.{is_among, is_ascending, same_name};
ghost use Rattle.table_snapshot.specs.Files.{names_in};

use crate::{FileRow, Files};
use lake_values::{Name, Names, NoMemory};
use std::alloc::Global;
use std::collections::BTreeSet;

/// The names of files and vectors that some files have and others lack, ascending.
pub fn names_beyond(alloc: Global, files: &Files, others: &Files) -> Result<Names, NoMemory>
    ensures names { IfOk result (λ names. (name : Name) → is_among name names
        ≡ (is_among name (names_in files.now) && not (is_among name (names_in others.now)))) }
    ensures order { IfOk result (λ names. is_ascending names ≡ true) }
{
    let has = names_of(alloc, files)?;
    let lacks = names_of(alloc, others)?;
    let names = has.difference(&lacks).copied().collect::<Vec<Name>>(alloc)?;
    Ok(Names::from_list(names))
}

fn names_of(alloc: Global, files: &Files) -> Result<BTreeSet<Name>, NoMemory>
    ensures { IfOk result (λ names. (name : Name) →
        is_among name (keys names) ≡ is_among name (names_in files.now)) }
{
    let mut names = BTreeSet::new(alloc);
    for file in files.list() {
        add_file(&mut names, file)?;
    }
    Ok(names)
}

fn add_file(names: &mut BTreeSet<Name>, file: &FileRow) -> Result<(), NoMemory>
    ensures { OnOk result ((name : Name) → is_among name (keys names.new)
        ≡ (is_among name (keys names.old) || is_among name (names_in (file.now ∷ [])))) }
{
    add(names, file.file)?;
    if let Some((vector, _)) = file.vector {
        add(names, vector)?;
    }
    Ok(())
}

fn add(names: &mut BTreeSet<Name>, name: Name) -> Result<(), NoMemory>
    ensures { OnOk result ((other : Name) → is_among other (keys names.new)
        ≡ (is_among other (keys names.old) || same_name other name)) }
{
    names.insert(name)?;
    Ok(())
}
