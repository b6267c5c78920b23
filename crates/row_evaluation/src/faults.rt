use crate::evaluation::Overflow;
use crate::rows::EvaluationFault;
use lake_values::NoMemory;

/// Why an operator has no answer.
#[derive(Clone, Copy, Debug, PartialEq, Eq)]
pub enum OpFault {
    /// A + - *, a count or a final sum left 64 bits.
    Arith,
    /// There are more rows than the budget allows.
    TooManyRows,
    NoMemory,
}

impl From<NoMemory> for OpFault {
    ghost use Rattle.std.specs.Prelude.{◌≡◌};
    ghost use Rattle.row_evaluation.specs.declared.faults.OpFault.TheVariants.{NoMemory as OutOfMemory};

    ghost from_gives = { λ _ fault. fault ≡ OutOfMemory };

    fn from(_refused: NoMemory) -> OpFault {
        OpFault::NoMemory
    }
}

impl From<Overflow> for OpFault {
    ghost use Rattle.std.specs.Prelude.{◌≡◌};
    ghost use Rattle.row_evaluation.specs.declared.faults.OpFault.TheVariants.{Arith as LeftRange};

    ghost from_gives = { λ _ fault. fault ≡ LeftRange };

    fn from(_left: Overflow) -> OpFault {
        OpFault::Arith
    }
}

impl From<EvaluationFault> for OpFault {
    ghost use Rattle.std.specs.Prelude.{◌≡◌};
    ghost use Rattle.row_evaluation.specs.Faults.{of_evaluation};

    ghost from_gives = { λ refused fault. fault ≡ of_evaluation refused };

    fn from(refused: EvaluationFault) -> OpFault {
        match refused {
            EvaluationFault::Overflow => OpFault::Arith,
            EvaluationFault::NoMemory => OpFault::NoMemory,
        }
    }
}
