use lake_values::NoMemory;
use std::alloc::{AllocError, AllocFailed};

/// What is wrong with the bytes at the place where a script is refused.
#[derive(Clone, Copy, Debug, PartialEq, Eq)]
pub enum ParseKind {
    /// A byte that begins no token.
    BadChar,
    /// A text without its closing quote.
    OpenText,
    /// A text whose bytes aren't UTF-8.
    NotUtf8,
    /// A text of more than 4,096 bytes.
    LongText,
    /// A name or a keyword of more than 64 bytes.
    LongName,
    /// A number that is too big where it stands.
    BigNumber,
    /// One member, level or operator more than may be.
    Limit,
    /// A token that no script goes on with.
    Syntax,
}

/// The first place at which a script is refused. Lines count from 1 and end behind a line feed; columns
/// count bytes from 1. A number that doesn't fit stands at the last one that does.
#[derive(Clone, Copy, Debug, PartialEq, Eq)]
pub struct ScriptBad {
    pub line: u32,
    pub column: u32,
    pub kind: ParseKind,
}

/// Bytes that are no token: the offset of the first, and why.
#[derive(Clone, Copy, Debug, PartialEq, Eq)]
pub struct BadToken {
    pub place: u64,
    pub kind: ParseKind,
}

/// Why there are no tokens, or no script.
#[derive(Clone, Copy, Debug, PartialEq, Eq)]
pub enum ParseFault {
    Refused(ScriptBad),
    NoMemory,
}

impl From<NoMemory> for ParseFault {
    ghost use Rattle.std.specs.Prelude.{◌≡◌};
    ghost use Rattle.sql_tokens.specs.declared.faults.ParseFault.TheVariants.{NoMemory as OutOfMemory};

    ghost from_gives = { λ _ fault. fault ≡ OutOfMemory };

    fn from(_refused: NoMemory) -> ParseFault {
        ParseFault::NoMemory
    }
}

impl From<AllocError> for ParseFault {
    ghost use Rattle.std.specs.Prelude.{◌≡◌};
    ghost use Rattle.sql_tokens.specs.declared.faults.ParseFault.TheVariants.{NoMemory as OutOfMemory};

    ghost from_gives = { λ _ fault. fault ≡ OutOfMemory };

    fn from(_refused: AllocError) -> ParseFault {
        ParseFault::NoMemory
    }
}

impl<T: Drop> From<AllocFailed<T>> for ParseFault {
    ghost use Rattle.std.specs.Prelude.{◌≡◌};
    ghost use Rattle.sql_tokens.specs.declared.faults.ParseFault.TheVariants.{NoMemory as OutOfMemory};

    ghost from_gives = { λ _ fault. fault ≡ OutOfMemory };

    fn from(_refused: AllocFailed<T>) -> ParseFault {
        ParseFault::NoMemory
    }
}
