ghost use Rattle.std.specs.Prelude.{◌≡◌, IfOk};

use lake_values::{Name, NoMemory, Rows, Text};
use std::alloc::Global;

/// Why a statement was refused.
#[derive(Debug, Drop)]
pub enum Refusal {
    UnknownTable(Text),
    UnknownColumn(Text),
    Ambiguous(Text),
    TypeMismatch,
    ColumnCount,
    NotGrouped,
    TableExists(Text),
    NoTransaction,
    InTransaction,
    TooManyRows,
    Arith,
}

impl Refusal {
    /// An equal refusal.
    pub fn copy(&self) -> Result<Refusal, NoMemory>
        ensures { IfOk result (λ copy. copy ≡ self.now) }
    {
        match self {
            Refusal::UnknownTable(name) => Ok(Refusal::UnknownTable(name.copy()?)),
            Refusal::UnknownColumn(name) => Ok(Refusal::UnknownColumn(name.copy()?)),
            Refusal::Ambiguous(name) => Ok(Refusal::Ambiguous(name.copy()?)),
            Refusal::TypeMismatch => Ok(Refusal::TypeMismatch),
            Refusal::ColumnCount => Ok(Refusal::ColumnCount),
            Refusal::NotGrouped => Ok(Refusal::NotGrouped),
            Refusal::TableExists(name) => Ok(Refusal::TableExists(name.copy()?)),
            Refusal::NoTransaction => Ok(Refusal::NoTransaction),
            Refusal::InTransaction => Ok(Refusal::InTransaction),
            Refusal::TooManyRows => Ok(Refusal::TooManyRows),
            Refusal::Arith => Ok(Refusal::Arith),
        }
    }
}

/// Why a statement failed. Task 0 stands for the session's own calls of the store.
#[derive(Clone, Copy, Debug, PartialEq, Eq)]
pub enum Failure {
    StoreFault { task: u32 },
    Damaged { name: Name, place: u64 },
}

#[derive(Clone, Copy, Debug, PartialEq, Eq)]
pub enum Verb {
    Inserted,
    Updated,
    Deleted,
}

/// What a statement answers.
#[derive(Debug, Drop)]
pub enum Reply {
    Created {
        table: Text,
        seq: u64,
    },
    Begun {
        snapshot: u64,
    },
    /// `seq` is there where the statement stood alone and made a version.
    Wrote {
        verb: Verb,
        count: u64,
        seq: Option<u64>,
    },
    Rows(Rows),
    Committed {
        seq: u64,
    },
    Ended,
    RolledBack,
    Conflict {
        seq: u64,
    },
    Compacted {
        cells: u64,
        seq: Option<u64>,
    },
    Checkpointed {
        table: Text,
        at: u64,
    },
    Collected {
        floor: u64,
    },
    Refused(Refusal),
    Failed(Failure),
}

impl Reply {
    /// An equal reply.
    pub fn copy(&self, alloc: Global) -> Result<Reply, NoMemory>
        ensures { IfOk result (λ copy. copy ≡ self.now) }
    {
        match self {
            Reply::Created { table, seq } => Ok(Reply::Created {
                table: table.copy()?,
                seq: *seq,
            }),
            Reply::Begun { snapshot } => Ok(Reply::Begun {
                snapshot: *snapshot,
            }),
            Reply::Wrote { verb, count, seq } => Ok(Reply::Wrote {
                verb: *verb,
                count: *count,
                seq: *seq,
            }),
            Reply::Rows(rows) => Ok(Reply::Rows(rows.copy(alloc)?)),
            Reply::Committed { seq } => Ok(Reply::Committed { seq: *seq }),
            Reply::Ended => Ok(Reply::Ended),
            Reply::RolledBack => Ok(Reply::RolledBack),
            Reply::Conflict { seq } => Ok(Reply::Conflict { seq: *seq }),
            Reply::Compacted { cells, seq } => Ok(Reply::Compacted {
                cells: *cells,
                seq: *seq,
            }),
            Reply::Checkpointed { table, at } => Ok(Reply::Checkpointed {
                table: table.copy()?,
                at: *at,
            }),
            Reply::Collected { floor } => Ok(Reply::Collected { floor: *floor }),
            Reply::Refused(cause) => Ok(Reply::Refused(cause.copy()?)),
            Reply::Failed(cause) => Ok(Reply::Failed(*cause)),
        }
    }
}
