use crate::Listed;

/// What a blob holds.
#[derive(Clone, Copy, Debug, PartialEq, Eq, PartialOrd, Ord, Hash)]
pub enum Kind {
    File,
    Vector,
    Manifest,
    Checkpoint,
}

/// The name of a blob: its kind, and the transaction, part, task and attempt that wrote it. Names are in
/// the order of these fields.
#[derive(Clone, Copy, Debug, PartialEq, Eq, PartialOrd, Ord, Hash)]
pub struct Name {
    pub kind: Kind,
    pub txn: u64,
    pub part: u32,
    pub task: u32,
    pub attempt: u32,
}

pub type Names = Listed<Name>;
