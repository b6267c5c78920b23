ghost use Rattle.std.specs.Prelude.{◌≡◌, true, false, IfOk, OnErr};
ghost use Rattle.std.specs.List.{list_all};
ghost use Rattle.sql_model.specs.BoundForms.{has_arithmetic};
ghost use Rattle.sql_model.specs.Evaluation as spec;
ghost use Rattle.sql_model.specs.Writing.{is_matched, condition_fits};
ghost use Rattle.row_evaluation.specs.Conditions.{is_guard, AreGuards};

use crate::cells::Cells;
use crate::evaluation::{Overflow, look};
use sql_model::BoundExpr;

/// Whether + - * stands in the expression.
fn has_arithmetic(expression: &BoundExpr) -> bool
    ensures { result ≡ has_arithmetic expression.now }
{
    match expression {
        BoundExpr::Column(_) | BoundExpr::Literal(_) => false,
        BoundExpr::Arith(_, _, _) => true,
        BoundExpr::IsNull(operand) | BoundExpr::Not(operand) => has_arithmetic(operand.get()),
        BoundExpr::Compare(_, left, right) => {
            has_arithmetic(left.get()) || has_arithmetic(right.get())
        }
        BoundExpr::And(left, right) | BoundExpr::Or(left, right) => {
            has_arithmetic(left.get()) || has_arithmetic(right.get())
        }
    }
}

/// Whether none of the conditions has + - *, as guards have none.
pub fn are_guards(conditions: &[BoundExpr]) -> bool
    ensures { result ≡ list_all is_guard conditions.now }
{
    conditions
        .iter()
        .all(|condition| !has_arithmetic(condition))
}

/// Whether a condition is true on a row.
pub fn holds<C: Cells>(condition: &BoundExpr, cells: &C) -> Result<bool, Overflow>
    ensures value { IfOk result (λ holds. holds ≡ spec.holds condition.now (C.cells cells.now)) }
    ensures fits { IfOk result (λ _. spec.fits condition.now (C.cells cells.now) ≡ true) }
    ensures overflow { OnErr result (spec.fits condition.now (C.cells cells.now) ≡ false) }
    ensures arithmetic { OnErr result (has_arithmetic condition.now ≡ true) }
{
    Ok(look(condition, cells)?.truth == Some(true))
}

/// Whether all of the conditions are true on a row. Each of them is evaluated.
pub fn meets<C: Cells>(conditions: &[BoundExpr], cells: &C) -> Result<bool, Overflow>
    ensures value { IfOk result (λ meets. meets ≡ spec.meets conditions.now (C.cells cells.now)) }
    ensures fits { IfOk result (λ _. spec.all_fit conditions.now (C.cells cells.now) ≡ true) }
    ensures overflow { OnErr result (spec.all_fit conditions.now (C.cells cells.now) ≡ false) }
{
    let mut met = true;
    for condition in conditions {
        met = holds(condition, cells)? && met;
    }
    Ok(met)
}

fn guard_holds<C: Cells>(guard: &BoundExpr, cells: &C) -> bool
    requires { is_guard guard.now ≡ true }
    ensures { result ≡ spec.holds guard.now (C.cells cells.now) }
{
    match holds(guard, cells) {
        Ok(holds) => holds,
        Err(Overflow) => unreachable!(),
    }
}

/// Whether all guards are true on a row. A guard has no + - *, so none leaves 64 bits.
pub fn meets_guards<C: Cells>(guards: &[BoundExpr], cells: &C) -> bool
    requires { AreGuards guards.now }
    ensures { result ≡ spec.meets guards.now (C.cells cells.now) }
{
    for guard in guards {
        if !guard_holds(guard, cells) {
            return false;
        }
    }
    true
}

/// Whether all guards and then all computed conditions are true on a row. The computed ones are evaluated where the
/// guards are true.
pub fn is_matched<C: Cells>(
    guards: &[BoundExpr],
    computed: &[BoundExpr],
    cells: &C,
) -> Result<bool, Overflow>
    requires { AreGuards guards.now }
    ensures value { IfOk result (λ matched. matched ≡ is_matched guards.now computed.now (C.cells cells.now)) }
    ensures fits { IfOk result (λ _. condition_fits guards.now computed.now (C.cells cells.now) ≡ true) }
    ensures overflow { OnErr result (condition_fits guards.now computed.now (C.cells cells.now) ≡ false) }
{
    if !meets_guards(guards, cells) {
        return Ok(false);
    }
    meets(computed, cells)
}
