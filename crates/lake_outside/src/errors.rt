use lake_values::NoMemory;
use std::alloc::AllocError;
use thiserror::Error;

/// The outside failed.
#[derive(Clone, Copy, Debug, PartialEq, Eq, Error)]
#[error("failed")]
pub struct Failed;

/// Why a sink took nothing.
#[derive(Clone, Copy, Debug, PartialEq, Eq, Error)]
pub enum PutError {
    #[error("failed")]
    Failed,
    #[error("out of memory")]
    NoMemory,
}

/// Why a port didn't do what it was asked.
#[derive(Clone, Copy, Debug, PartialEq, Eq, Error)]
pub enum PortError {
    #[error("failed")]
    Failed,
    #[error("out of memory")]
    NoMemory,
}

impl From<AllocError> for PutError {
    ghost use Rattle.std.specs.Prelude.{◌≡◌};
    ghost use Rattle.lake_outside.specs.declared.errors.PutError.TheVariants.{NoMemory as OutOfMemory};

    ghost from_gives = { λ _ error. error ≡ OutOfMemory };

    fn from(_refused: AllocError) -> PutError {
        PutError::NoMemory
    }
}

impl From<Failed> for PutError {
    ghost use Rattle.std.specs.Prelude.{◌≡◌};
    ghost use Rattle.lake_outside.specs.declared.errors.PutError.TheVariants.{Failed as Fails};

    ghost from_gives = { λ _ error. error ≡ Fails };

    fn from(_failed: Failed) -> PutError {
        PutError::Failed
    }
}

impl From<NoMemory> for PutError {
    ghost use Rattle.std.specs.Prelude.{◌≡◌};
    ghost use Rattle.lake_outside.specs.declared.errors.PutError.TheVariants.{NoMemory as OutOfMemory};

    ghost from_gives = { λ _ error. error ≡ OutOfMemory };

    fn from(_refused: NoMemory) -> PutError {
        PutError::NoMemory
    }
}

impl From<AllocError> for PortError {
    ghost use Rattle.std.specs.Prelude.{◌≡◌};
    ghost use Rattle.lake_outside.specs.declared.errors.PortError.TheVariants.{NoMemory as OutOfMemory};

    ghost from_gives = { λ _ error. error ≡ OutOfMemory };

    fn from(_refused: AllocError) -> PortError {
        PortError::NoMemory
    }
}

impl From<Failed> for PortError {
    ghost use Rattle.std.specs.Prelude.{◌≡◌};
    ghost use Rattle.lake_outside.specs.declared.errors.PortError.TheVariants.{Failed as Fails};

    ghost from_gives = { λ _ error. error ≡ Fails };

    fn from(_failed: Failed) -> PortError {
        PortError::Failed
    }
}

impl From<NoMemory> for PortError {
    ghost use Rattle.std.specs.Prelude.{◌≡◌};
    ghost use Rattle.lake_outside.specs.declared.errors.PortError.TheVariants.{NoMemory as OutOfMemory};

    ghost from_gives = { λ _ error. error ≡ OutOfMemory };

    fn from(_refused: NoMemory) -> PortError {
        PortError::NoMemory
    }
}
