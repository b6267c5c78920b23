use lake_outside::PortError;
use lake_values::NoMemory;
use std::alloc::{AllocError, AllocFailed};

/// Why an attempt wrote nothing.
#[derive(Clone, Copy, Debug, PartialEq, Eq)]
pub enum WriteFault {
    /// Its port failed.
    StoreFault,
    NoMemory,
}

impl From<PortError> for WriteFault {
    ghost use Rattle.op_write.specs.Faults.{fault_of};
    ghost use Rattle.std.specs.Prelude.{◌≡◌};

    ghost from_gives = { λ error fault. fault ≡ fault_of error };

    fn from(error: PortError) -> WriteFault {
        match error {
            PortError::Failed => WriteFault::StoreFault,
            PortError::NoMemory => WriteFault::NoMemory,
        }
    }
}

impl From<NoMemory> for WriteFault {
    ghost use Rattle.std.specs.Prelude.{◌≡◌};
    ghost use Rattle.op_write.specs.declared.faults.WriteFault.TheVariants as cause;

    ghost from_gives = { λ _ fault. fault ≡ cause.NoMemory };

    fn from(_refused: NoMemory) -> WriteFault {
        WriteFault::NoMemory
    }
}

impl From<AllocError> for WriteFault {
    ghost use Rattle.std.specs.Prelude.{◌≡◌};
    ghost use Rattle.op_write.specs.declared.faults.WriteFault.TheVariants as cause;

    ghost from_gives = { λ _ fault. fault ≡ cause.NoMemory };

    fn from(_refused: AllocError) -> WriteFault {
        WriteFault::NoMemory
    }
}

impl<T: Drop> From<AllocFailed<T>> for WriteFault {
    ghost use Rattle.std.specs.Prelude.{◌≡◌};
    ghost use Rattle.op_write.specs.declared.faults.WriteFault.TheVariants as cause;

    ghost from_gives = { λ _ fault. fault ≡ cause.NoMemory };

    fn from(_refused: AllocFailed<T>) -> WriteFault {
        WriteFault::NoMemory
    }
}
