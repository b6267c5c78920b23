ghost use Rattle.std.specs.Prelude.{◌≡◌};
ghost use Rattle.lake_values.specs.declared.names.Kind.{Kind as AnyKind};
ghost use Rattle.op_write.specs.Writes.{name_of};

use lake_values::{Kind, Name, Text};

/// An attempt of a task: the transaction and part that it belongs to, its number among the attempts
/// of the task, and the table and cell that the task writes. What it writes is named after it.
#[derive(Debug, Drop)]
pub struct WriteKey {
    pub txn: u64,
    pub part: u32,
    pub task: u32,
    pub attempt: u32,
    pub table: Text,
    /// From 0 to 15. A task that removes rows has none, and any number stands here.
    pub cell: u32,
}

impl WriteKey {
    /// The name of the attempt's blob or block of a kind.
    pub fn name(&self, kind: Kind) -> Name
        ensures { result ≡ name_of kind self.now }
    {
        Name {
            kind,
            txn: self.txn,
            part: self.part,
            task: self.task,
            attempt: self.attempt,
        }
    }
}
