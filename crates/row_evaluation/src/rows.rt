ghost use Rattle.std.specs.Prelude.{◌≡◌, true, false, [], ◌∷◌, ◌++◌, IfOk, OnOk, IsErrOf};
ghost use Rattle.lake_values.specs.Lending.{owned, IsShort};
ghost use Rattle.sql_model.specs.Evaluation as spec;
ghost use Rattle.row_evaluation.specs.declared.rows.EvaluationFault.TheVariants as fault;

use crate::cells::Cells;
use crate::evaluation::{Overflow, look};
use lake_values::{NoMemory, Row, Value, ValueRef};
use sql_model::BoundExpr;
use std::alloc::{AllocError, AllocFailed, Global};

/// Why a row wasn't made.
#[derive(Clone, Copy, Debug, PartialEq, Eq)]
pub enum EvaluationFault {
    Overflow,
    NoMemory,
}

impl From<NoMemory> for EvaluationFault {
    ghost use Rattle.std.specs.Prelude.{◌≡◌};
    ghost use Rattle.row_evaluation.specs.declared.rows.EvaluationFault.TheVariants.{NoMemory as OutOfMemory};

    ghost from_gives = { λ _ fault. fault ≡ OutOfMemory };

    fn from(_refused: NoMemory) -> EvaluationFault {
        EvaluationFault::NoMemory
    }
}

impl From<AllocError> for EvaluationFault {
    ghost use Rattle.std.specs.Prelude.{◌≡◌};
    ghost use Rattle.row_evaluation.specs.declared.rows.EvaluationFault.TheVariants.{NoMemory as OutOfMemory};

    ghost from_gives = { λ _ fault. fault ≡ OutOfMemory };

    fn from(_refused: AllocError) -> EvaluationFault {
        EvaluationFault::NoMemory
    }
}

impl<T: Drop> From<AllocFailed<T>> for EvaluationFault {
    ghost use Rattle.std.specs.Prelude.{◌≡◌};
    ghost use Rattle.row_evaluation.specs.declared.rows.EvaluationFault.TheVariants.{NoMemory as OutOfMemory};

    ghost from_gives = { λ _ fault. fault ≡ OutOfMemory };

    fn from(_refused: AllocFailed<T>) -> EvaluationFault {
        EvaluationFault::NoMemory
    }
}

impl From<Overflow> for EvaluationFault {
    ghost use Rattle.std.specs.Prelude.{◌≡◌};
    ghost use Rattle.row_evaluation.specs.declared.rows.EvaluationFault.TheVariants.{Overflow as LeftRange};

    ghost from_gives = { λ _ fault. fault ≡ LeftRange };

    fn from(_left: Overflow) -> EvaluationFault {
        EvaluationFault::Overflow
    }
}

/// The row of what the expressions are on a row.
pub fn evaluated<C: Cells>(
    alloc: Global,
    items: &[BoundExpr],
    cells: &C,
) -> Result<Row, EvaluationFault>
    ensures value { IfOk result (λ row. row ≡ spec.evaluated items.now (C.cells cells.now)) }
    ensures fits { IfOk result (λ _. spec.all_fit items.now (C.cells cells.now) ≡ true) }
    ensures overflow { IsErrOf result fault.Overflow → spec.all_fit items.now (C.cells cells.now) ≡ false }
{
    let mut values = Vec::with_capacity(alloc, items.len())?;
    for item in items {
        let seen = look(item, cells)?;
        push_value(alloc, &mut values, seen.value)?;
    }
    Ok(Row::from_values(values))
}

/// Puts an equal value at the end.
pub fn push_value(
    alloc: Global,
    values: &mut Vec<Value>,
    value: ValueRef<'_>,
) -> Result<(), NoMemory>
    requires { IsShort value }
    ensures { OnOk result (values.new.items ≡ values.old.items ++ owned value.entry ∷ []) }
{
    values.push(value.to_value(alloc)?)?;
    Ok(())
}
