use lake_values::{DecodeFault, NoMemory, TextFault};
use op_rows::OpFault;
use op_write::WriteFault;
use sql_parser::ParseFault;
use std::alloc::{AllocError, AllocFailed};
use std::io;
use std::num::ParseIntError;
use thiserror::Error;

/// Why a measurement stopped.
#[derive(Debug, Drop, Error)]
pub enum Stop {
    #[error("say formats N, scripts N, operators J N, writes N, files N, turns N or all")]
    Usage,
    #[error("not a number from 0 to 4294967295: {0}")]
    Number(#[from] ParseIntError),
    #[error("out of memory")]
    NoMemory,
    #[error("a file isn't read: {0:?}")]
    File(DecodeFault),
    #[error("a script isn't read: {0:?}")]
    Script(ParseFault),
    #[error("an operator refused: {0:?}")]
    Operator(OpFault),
    #[error("a file isn't staged: {0:?}")]
    Write(WriteFault),
    #[error("input or output failed: {0}")]
    Io(#[from] io::Error),
}

impl From<NoMemory> for Stop {
    fn from(_refused: NoMemory) -> Stop {
        Stop::NoMemory
    }
}

impl From<AllocError> for Stop {
    fn from(_refused: AllocError) -> Stop {
        Stop::NoMemory
    }
}

impl<T: Drop> From<AllocFailed<T>> for Stop {
    fn from(_refused: AllocFailed<T>) -> Stop {
        Stop::NoMemory
    }
}

// The texts that are measured are short.
impl From<TextFault> for Stop {
    fn from(_refused: TextFault) -> Stop {
        Stop::NoMemory
    }
}

impl From<DecodeFault> for Stop {
    fn from(fault: DecodeFault) -> Stop {
        Stop::File(fault)
    }
}

impl From<ParseFault> for Stop {
    fn from(fault: ParseFault) -> Stop {
        Stop::Script(fault)
    }
}

impl From<OpFault> for Stop {
    fn from(fault: OpFault) -> Stop {
        Stop::Operator(fault)
    }
}

impl From<WriteFault> for Stop {
    fn from(fault: WriteFault) -> Stop {
        Stop::Write(fault)
    }
}
