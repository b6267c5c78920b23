use lake_values::{Listed, Name, Names, Schema, Text};
use sql_model::{Change, Failure, Marks, Refusal, Reply};

/// The numbers of cells, from 0 to 15.
pub type Cells16 = Listed<u32>;

/// What an entry of the chronicle records.
#[derive(Debug, Drop)]
pub enum Fact {
    /// A table was created as version `seq`.
    Created {
        table: Text,
        schema: Schema,
        seq: u64,
    },
    /// A transaction began; it is explicit where BEGIN opened it.
    Began {
        explicit: bool,
        txn: u64,
        snapshot: u64,
    },
    /// A statement ran in the session's transaction.
    Ran {
        reply: Reply,
        change: Change,
    },
    /// The session's transaction became version `seq`.
    Committed {
        seq: u64,
        added: Names,
        dropped: Names,
    },
    /// The session's transaction ended without a change, since version `seq` wrote what it wrote.
    Conflict {
        seq: u64,
    },
    /// The session's transaction ended; it had changed nothing.
    Ended,
    RolledBack,
    Refused {
        cause: Refusal,
    },
    Failed {
        cause: Failure,
    },
    /// The files of these cells were replaced, as version `seq`.
    Compacted {
        table: Text,
        cells: Cells16,
        marks: Marks,
        seq: u64,
        added: Names,
        dropped: Names,
    },
    /// The file list of a table at version `at` was written.
    Checkpointed {
        table: Text,
        at: u64,
        name: Name,
    },
    /// These names were given up, and the floor was raised.
    Collected {
        names: Names,
        floor: u64,
    },
}

/// An entry of the chronicle: what the statement at this place, of this session, did.
#[derive(Debug, Drop)]
pub struct Entry {
    pub session: u32,
    pub place: u32,
    pub fact: Fact,
}

/// All entries in the order in which they took place.
pub type Chronicle = Listed<Entry>;
