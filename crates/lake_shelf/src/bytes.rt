ghost use Rattle.std.specs.Prelude.{◌≡◌, length, IfOk};

use lake_values::NoMemory;
use std::alloc::Global;
use std::marker::Model;
use std::sync::Arc;

/// Bytes that blobs, their copies and the store share.
#[derive(Drop)]
pub struct SharedBytes {
    shared: Arc<Vec<u8>>,
}

impl Model for SharedBytes {
    ghost use Rattle.std.specs.Prelude.{List, ℕ};
    ghost use Rattle.std.specs.Arc.{arc_value};

    ghost Value = { List ℕ };

    ghost view = { λ b. (arc_value b.shared).items };
}

impl SharedBytes {
    pub fn new(bytes: Vec<u8>) -> Result<SharedBytes, NoMemory>
        ensures { IfOk result (λ shared. shared ≡ bytes.items) }
    {
        let shared = Arc::new(*bytes.allocator(), bytes)?;
        Ok(SharedBytes { shared })
    }

    /// The same bytes.
    pub fn copy(&self) -> Result<SharedBytes, NoMemory>
        ensures { IfOk result (λ copy. copy ≡ self.now) }
    {
        let shared = Arc::try_clone(&self.shared)?;
        Ok(SharedBytes { shared })
    }

    pub fn as_slice(&self) -> &[u8]
        ensures { result.now ≡ self.now }
    {
        self.shared.as_slice()
    }

    /// A vector of its own with these bytes.
    pub fn to_vec(&self, alloc: Global) -> Result<Vec<u8>, NoMemory>
        ensures { IfOk result (λ bytes. bytes.items ≡ self.now) }
    {
        Ok(self.shared.to_vec(alloc)?)
    }

    pub fn len(&self) -> usize
        ensures { result ≡ length self.now }
    {
        self.shared.len()
    }
}
