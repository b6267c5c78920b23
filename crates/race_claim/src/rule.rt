//! The rule of the words: what a seat knows of them is true of them, and what each step tells its
//! seat.
use atomic_table::{Join, Play, Split, TableRule};
use std::collections::LinkedList;

/// What a seat knows. No value of it is made.
pub struct Known {
    /// Tasks with the attempts that their words hold, the newest first.
    pub held: LinkedList<(u64, u64)>,
    /// The task whose word was looked at last, and what the word held.
    pub last: (u64, u64),
}

/// A word that isn't 0 stays as it is.
pub struct OneWinner;

impl TableRule<(), Known, usize> for OneWinner {
    ghost use Rattle.race_claim.specs.Race.{Kept, known};
    ghost use Rattle.std.specs.Prelude.{[]};

    ghost holds = { λ n s. Kept n s };

    ghost first = { λ n. known [] (0, 0) };
}

/// A compare and exchange of 0.
pub(crate) struct Claim;

impl Play<(), Known> for Claim {
    ghost use Rattle.race_claim.specs.Race.{claimed};

    ghost then = { claimed };
}

/// A load whose finding is noted.
pub(crate) struct Look;

impl Play<(), Known> for Look {
    ghost use Rattle.race_claim.specs.Race.{looked};

    ghost then = { looked };
}

/// A load that tells that what the seat knows is true.
pub(crate) struct Agree;

impl Play<(), Known> for Agree {
    ghost use Rattle.race_claim.specs.Race.{agrees};

    ghost then = { agrees };
}

/// A split copies what is known, and a join puts both together.
pub(crate) struct Copies;

impl Split<Known> for Copies {
    ghost left = { λ v. v };

    ghost right = { λ v. v };
}

impl Join<Known> for Copies {
    ghost use Rattle.race_claim.specs.Race.{known};
    ghost use Rattle.std.specs.Prelude.{[], ◌++◌};

    ghost both = { λ v w. known (v.held ++ w.held) v.last };

    ghost spent = { known [] (0, 0) };
}
