ghost use Rattle.std.specs.Prelude.{◌≡◌};

use crate::NoMemory;
use std::alloc::{AllocError, AllocFailed};

/// Why bytes aren't a spelling.
#[derive(Clone, Copy, Debug, PartialEq, Eq)]
pub enum BadKind {
    /// The field needs more bytes than are left.
    Short,
    /// A magic, a kind, a flag or a tag isn't one of those allowed there.
    BadTag,
    /// The bytes of a text aren't UTF-8.
    BadUtf8,
    /// Bytes stand behind the last field.
    Trailing,
    /// A number is out of its range, or an element breaks the order that its format asks for.
    NotCanonical,
}

/// The first field that no value has after the fields before it.
#[derive(Clone, Copy, Debug, PartialEq, Eq)]
pub struct Bad {
    /// The offset of the field's first byte.
    pub place: u64,
    pub kind: BadKind,
}

impl Bad {
    /// A field that is bad in this way at a place of the bytes.
    pub fn at(place: usize, kind: BadKind) -> Bad
        ensures place { result.place ≡ place }
        ensures kind { result.kind ≡ kind }
    {
        Bad {
            place: place as u64,
            kind,
        }
    }
}

/// Why a decoder answered no value.
#[derive(Clone, Copy, Debug, PartialEq, Eq)]
pub enum DecodeFault {
    Bad(Bad),
    NoMemory,
}

impl From<Bad> for DecodeFault {
    ghost use Rattle.std.specs.Prelude.{◌≡◌};
    ghost use Rattle.lake_values.specs.declared.faults.DecodeFault.TheVariants.{Bad as BadField};

    ghost from_gives = { λ bad fault. fault ≡ BadField bad };

    fn from(bad: Bad) -> DecodeFault {
        DecodeFault::Bad(bad)
    }
}

impl From<NoMemory> for DecodeFault {
    ghost use Rattle.std.specs.Prelude.{◌≡◌};
    ghost use Rattle.lake_values.specs.declared.faults.DecodeFault.TheVariants.{NoMemory as OutOfMemory};

    ghost from_gives = { λ _ fault. fault ≡ OutOfMemory };

    fn from(_refused: NoMemory) -> DecodeFault {
        DecodeFault::NoMemory
    }
}

impl From<AllocError> for DecodeFault {
    ghost use Rattle.std.specs.Prelude.{◌≡◌};
    ghost use Rattle.lake_values.specs.declared.faults.DecodeFault.TheVariants.{NoMemory as OutOfMemory};

    ghost from_gives = { λ _ fault. fault ≡ OutOfMemory };

    fn from(_refused: AllocError) -> DecodeFault {
        DecodeFault::NoMemory
    }
}

impl<T: Drop> From<AllocFailed<T>> for DecodeFault {
    ghost use Rattle.std.specs.Prelude.{◌≡◌};
    ghost use Rattle.lake_values.specs.declared.faults.DecodeFault.TheVariants.{NoMemory as OutOfMemory};

    ghost from_gives = { λ _ fault. fault ≡ OutOfMemory };

    fn from(_refused: AllocFailed<T>) -> DecodeFault {
        DecodeFault::NoMemory
    }
}
