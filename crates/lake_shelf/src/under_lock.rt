//! What a port some of whose calls fail does while it has the lock.
ghost use Rattle.std.specs.Prelude.{◌≡◌, ◌≤◌, ◌↔◌, ◌⊎◌, OnOk, OnErr, IsErr, IsErrOf};
ghost use Rattle.lake_outside.specs.Counts.{FailsNext, Rises, with_passed, with_failed};
ghost use Rattle.lake_shelf.specs.Directories.{IsListed, with_blob, without_blob};
ghost use Rattle.lake_shelf.specs.Told.{IsCounted};

use crate::bytes::SharedBytes;
use crate::directories::Directory;
use lake_outside::{CallCount, Failed, PortError};
use lake_values::Name;

/// Lists a blob. A name that is listed already is a fault.
pub fn commit(
    directory: &mut Directory,
    calls: &mut CallCount,
    name: Name,
    bytes: SharedBytes,
) -> Result<(), PortError>
    ensures fails { IsErrOf result PortError.Failed ↔ (FailsNext calls.old ⊎ IsListed name directory.old) }
    ensures ok { OnOk result (directory.new ≡ with_blob name bytes directory.old) }
    ensures err { OnErr result (directory.new ≡ directory.old) }
    ensures counted { IsCounted result calls.old calls.new }
    ensures failed { IsErrOf result PortError.Failed → Rises calls.old.failed calls.new.failed }
    ensures never_falls { calls.old.failed ≤ calls.new.failed }
{
    if calls.fails_next() || directory.lists(&name) {
        calls.fail();
        return Err(PortError::Failed);
    }
    directory.put(name, bytes)?;
    calls.pass();
    Ok(())
}

/// Looks for a name. One that isn't listed is a fault.
pub fn find(directory: &Directory, calls: &mut CallCount, name: &Name) -> Result<(), Failed>
    ensures fails { IsErr result ↔ (FailsNext calls.old ⊎ ¬ IsListed name.now directory.now) }
    ensures passed { OnOk result (calls.new ≡ with_passed calls.old) }
    ensures failed { OnErr result (calls.new ≡ with_failed calls.old) }
    ensures never_falls { calls.old.failed ≤ calls.new.failed }
{
    if calls.fails_next() || !directory.lists(name) {
        calls.fail();
        return Err(Failed);
    }
    calls.pass();
    Ok(())
}

/// Takes a name out. One that isn't listed is a fault.
pub fn delete(directory: &mut Directory, calls: &mut CallCount, name: &Name) -> Result<(), Failed>
    ensures fails { IsErr result ↔ (FailsNext calls.old ⊎ ¬ IsListed name.now directory.old) }
    ensures ok { OnOk result (directory.new ≡ without_blob name.now directory.old) }
    ensures err { OnErr result (directory.new ≡ directory.old) }
    ensures passed { OnOk result (calls.new ≡ with_passed calls.old) }
    ensures failed { OnErr result (calls.new ≡ with_failed calls.old) }
    ensures never_falls { calls.old.failed ≤ calls.new.failed }
{
    find(directory, calls, name)?;
    directory.remove(name);
    Ok(())
}
