ghost use Rattle.std.specs.Prelude.{◌≡◌, ℕ};
ghost use Rattle.lake_model.specs.State.{Transaction};
ghost use Rattle.lake_core.specs.Opened.{opened};
ghost use Rattle.lake_core.specs.Rooms.{IsOpen};

use crate::transactions::KeptTransaction;

/// A session's open transaction.
#[derive(Clone, Copy, Debug)]
pub struct OpenTxn {
    /// Whether BEGIN opened it.
    pub explicit: bool,
    /// Its number.
    pub txn: u64,
    /// The version that it sees.
    pub snapshot: u64,
    /// How many parts it has, statements that were refused counted.
    pub parts: u32,
    /// Whether it changes something.
    pub changed: bool,
}

impl OpenTxn {
    pub fn of(transaction: &KeptTransaction) -> OpenTxn
        ensures { (o : ℕ × Transaction) → IsOpen o transaction.now → result ≡ opened o.1 }
    {
        OpenTxn {
            explicit: transaction.explicit,
            txn: transaction.number,
            snapshot: transaction.snapshot,
            parts: transaction.parts,
            changed: !transaction.is_unchanged(),
        }
    }
}
