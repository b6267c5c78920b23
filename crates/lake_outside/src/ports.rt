ghost use Rattle.std.specs.Prelude.{◌≡◌, ◌<◌, ◌≤◌, [], ◌∷◌, ◌++◌, ℕ, List, Bool, false, length, IfOk, OnOk, OnErr, All, IsTrue, IsErrOf};
ghost use Rattle.std.specs.List.{flat_map};
ghost use Rattle.std.specs.List.Sorted.{IsStrictlySortedBy};
ghost use Rattle.lake_values.specs.declared.names.Name.{Name};
ghost use Rattle.lake_outside.specs.Counts.{Rises};
ghost use Rattle.lake_outside.specs.Ports.{IsBlockOf};

use crate::PortError;
use lake_values::{Listed, Name, NoMemory};

/// A block of bytes that a port staged.
pub trait Staged: Drop + Send + Sync {
    ghost name: { Self → Name };

    ghost number: { Self → ℕ };

    // Its bytes, where its port tells.
    ghost bytes: { Self → List ℕ };

    /// The name of the blob that it was staged for.
    fn name(&self) -> Name
        ensures { result ≡ name self.now };

    /// Its number among the blocks of the blob.
    fn number(&self) -> u32
        ensures { result ≡ number self.now };

    /// An equal block.
    fn copy(&self) -> Result<Self, NoMemory>
        ensures name { IfOk result (λ copy. name copy ≡ name self.now) }
        ensures number { IfOk result (λ copy. number copy ≡ number self.now) }
        ensures bytes { IfOk result (λ copy. bytes copy ≡ bytes self.now) };
}

/// A blob that a port committed.
pub trait Stored: Drop + Send + Sync {
    ghost name: { Self → Name };

    // Its bytes, where its port tells.
    ghost bytes: { Self → List ℕ };

    /// The name that it was committed under.
    fn name(&self) -> Name
        ensures { result ≡ name self.now };

    /// An equal blob.
    fn copy(&self) -> Result<Self, NoMemory>
        ensures name { IfOk result (λ copy. name copy ≡ name self.now) }
        ensures bytes { IfOk result (λ copy. bytes copy ≡ bytes self.now) };
}

/// A way to the store of blobs. Several ports may lead to one store.
pub trait Port: Drop + Send {
    type Block: Staged;

    type Blob: Stored;

    // Whether ports of this type tell: the bytes of their blocks and blobs, what they listed, and what
    // they were asked to delete.
    ghost tells: { Bool } = { false };

    // How often it failed.
    ghost faults: { Self → ℕ };

    // The answers of its lists, one after another.
    ghost listings: { Self → List (List Name) } = { λ _. [] };

    // The names that it was asked to delete, one after another.
    ghost deletions: { Self → List Name } = { λ _. [] };

    /// Stages a block of a blob.
    fn stage(&mut self, name: &Name, no: u32, bytes: &[u8]) -> Result<Self::Block, PortError>
        ensures name { IfOk result (λ block. Self.Block.name block ≡ name.now) }
        ensures number { IfOk result (λ block. Self.Block.number block ≡ no) }
        ensures bytes { IsTrue tells → IfOk result (λ block. Self.Block.bytes block ≡ bytes.now) }

        ensures never_falls { faults self.old ≤ faults self.new }
        ensures failed { IsErrOf result PortError.Failed → Rises (faults self.old) (faults self.new) }
        ensures listings { listings self.new ≡ listings self.old }
        ensures deletions { deletions self.new ≡ deletions self.old };

    /// Puts a blob of staged blocks into the store. Its bytes are those of the blocks in their order.
    fn commit(&mut self, name: &Name, blocks: &Vec<Self::Block>) -> Result<Self::Blob, PortError>
        requires some { 0 < length blocks.now.items }
        requires own { All (λ block. IsBlockOf name.now (Self.Block.name block)) blocks.now.items }

        ensures name { IfOk result (λ blob. Self.Blob.name blob ≡ name.now) }
        ensures bytes { IsTrue tells → IfOk result
            (λ blob. Self.Blob.bytes blob ≡ flat_map (λ block. Self.Block.bytes block) blocks.now.items) }

        ensures never_falls { faults self.old ≤ faults self.new }
        ensures failed { IsErrOf result PortError.Failed → Rises (faults self.old) (faults self.new) }
        ensures listings { listings self.new ≡ listings self.old }
        ensures deletions { deletions self.new ≡ deletions self.old };

    /// The bytes of a blob.
    fn read(&mut self, blob: &Self::Blob) -> Result<Vec<u8>, PortError>
        ensures bytes { IsTrue tells → IfOk result (λ bytes. bytes.items ≡ Self.Blob.bytes blob.now) }

        ensures never_falls { faults self.old ≤ faults self.new }
        ensures failed { IsErrOf result PortError.Failed → Rises (faults self.old) (faults self.new) }
        ensures listings { listings self.new ≡ listings self.old }
        ensures deletions { deletions self.new ≡ deletions self.old };

    /// The names of the store's blobs, ascending. A port that tells makes room for its note of them first.
    fn list(&mut self) -> Result<Vec<Name>, PortError>
        ensures ascending { IfOk result (λ names. IsStrictlySortedBy ⟦<Name as Ord>⟧.cmp names.items) }
        ensures listed { IsTrue tells → IfOk result
            (λ names. listings self.new ≡ listings self.old ++ names.items ∷ []) }
        ensures not_listed { OnErr result (listings self.new ≡ listings self.old) }

        ensures never_falls { faults self.old ≤ faults self.new }
        ensures failed { IsErrOf result PortError.Failed → Rises (faults self.old) (faults self.new) }
        ensures deletions { deletions self.new ≡ deletions self.old };

    /// Takes a blob out of the store. A port that tells makes room for its note of the name first, and keeps
    /// the note also where it fails. Where it found no memory, it deleted nothing.
    fn delete(&mut self, name: &Name) -> Result<(), PortError>
        ensures deleted { IsTrue tells → OnOk result (deletions self.new ≡ deletions self.old ++ name.now ∷ []) }
        ensures also_failed { IsTrue tells → IsErrOf result PortError.Failed
            → deletions self.new ≡ deletions self.old ++ name.now ∷ [] }
        ensures no_memory { IsErrOf result PortError.NoMemory → deletions self.new ≡ deletions self.old }

        ensures never_falls { faults self.old ≤ faults self.new }
        ensures failed { IsErrOf result PortError.Failed → Rises (faults self.old) (faults self.new) }
        ensures listings { listings self.new ≡ listings self.old };
}

/// A list of the blocks of a port.
pub type Blocks<P> = Listed<<P as Port>::Block>;

/// A list of the blobs of a port.
pub type Blobs<P> = Listed<<P as Port>::Blob>;
