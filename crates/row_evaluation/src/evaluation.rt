ghost use Rattle.std.specs.Prelude.{◌≡◌, true, false, None, IfOk, OnErr, SomeIff, IsTrue};
ghost use Rattle.lake_values.specs.Lending.{owned, IsShort};
ghost use Rattle.lake_values.specs.declared.values.ValueRef.TheVariants as lent;
ghost use Rattle.sql_model.specs.BoundForms.{has_arithmetic};
ghost use Rattle.sql_model.specs.Evaluation as spec;
ghost use Rattle.row_evaluation.specs.Lending.{IsSeen};

use crate::cells::{Cells, is_null, value_at};
use lake_values::{ValueRef, compare_lent};
use sql_model::{ArithOp, BoundExpr, CmpOp};
use std::cmp::Ordering;

/// What an expression is on a row: a value, or whether it is true, where nothing stands for unknown.
#[derive(Clone, Copy, Debug)]
pub struct Seen<'a> {
    pub value: ValueRef<'a>,
    pub truth: Option<bool>,
}

/// A + - * left 64 bits.
#[derive(Clone, Copy, Debug, PartialEq, Eq)]
pub struct Overflow;

/// What an expression is on a row. Every part of it is evaluated, whatever the others are.
pub fn look<'a, C: Cells>(expression: &'a BoundExpr, cells: &'a C) -> Result<Seen<'a>, Overflow>
    ensures seen { IfOk result (λ seen. IsSeen seen (spec.look (C.cells cells.now) expression.now)) }
    ensures overflow { OnErr result ((spec.look (C.cells cells.now) expression.now).fits ≡ false) }
    ensures arithmetic { OnErr result (has_arithmetic expression.now ≡ true) }
{
    match expression {
        BoundExpr::Column(column) => Ok(of_value(value_at(cells, *column))),
        BoundExpr::Literal(value) => Ok(of_value(value.lend())),
        BoundExpr::Arith(operator, left, right) => {
            let left = look(left.get(), cells)?;
            let right = look(right.get(), cells)?;
            Ok(of_value(computed(*operator, left.value, right.value)?))
        }
        BoundExpr::Compare(operator, left, right) => {
            let left = look(left.get(), cells)?;
            let right = look(right.get(), cells)?;
            Ok(of_truth(compared(*operator, left.value, right.value)))
        }
        BoundExpr::IsNull(operand) => {
            let operand = look(operand.get(), cells)?;
            Ok(of_truth(Some(is_null(operand.value))))
        }
        BoundExpr::Not(operand) => {
            let operand = look(operand.get(), cells)?;
            Ok(of_truth(negated(operand.truth)))
        }
        BoundExpr::And(left, right) => {
            let left = look(left.get(), cells)?;
            let right = look(right.get(), cells)?;
            Ok(of_truth(both(left.truth, right.truth)))
        }
        BoundExpr::Or(left, right) => {
            let left = look(left.get(), cells)?;
            let right = look(right.get(), cells)?;
            Ok(of_truth(either(left.truth, right.truth)))
        }
    }
}

fn of_value(value: ValueRef<'_>) -> Seen<'_>
    ensures { result ≡ record { value = value.entry; truth = None } }
{
    Seen { value, truth: None }
}

fn of_truth<'a>(truth: Option<bool>) -> Seen<'a>
    ensures { result ≡ record { value = lent.Null; truth = truth } }
{
    Seen {
        value: ValueRef::Null,
        truth,
    }
}

fn computed<'a>(
    operator: ArithOp,
    left: ValueRef<'a>,
    right: ValueRef<'a>,
) -> Result<ValueRef<'a>, Overflow>
    ensures value { IfOk result (λ value. owned value ≡ spec.computed operator (owned left.entry) (owned right.entry)) }
    ensures short { IfOk result IsShort }
    ensures fits { IfOk result (λ value. spec.value_fits (owned value) ≡ true) }
    ensures overflow { OnErr result (spec.value_fits (spec.computed operator (owned left.entry) (owned right.entry)) ≡ false) }
{
    let (ValueRef::Int(m), ValueRef::Int(n)) = (left, right) else {
        return Ok(ValueRef::Null);
    };
    match exact(operator, m, n) {
        Some(number) => Ok(ValueRef::Int(number)),
        None => Err(Overflow),
    }
}

fn exact(operator: ArithOp, m: i64, n: i64) -> Option<i64>
    ensures { SomeIff result (IsTrue (spec.is_64_bits (spec.exact operator m n))) (spec.exact operator m n) }
{
    match operator {
        ArithOp::Add => m.checked_add(n),
        ArithOp::Sub => m.checked_sub(n),
        ArithOp::Mul => m.checked_mul(n),
    }
}

/// A comparison with NULL is unknown.
fn compared(operator: CmpOp, left: ValueRef<'_>, right: ValueRef<'_>) -> Option<bool>
    ensures { result ≡ spec.compared operator (owned left.entry) (owned right.entry) }
{
    if is_null(left) || is_null(right) {
        return None;
    }
    Some(compares_as(operator, compare_lent(left, right)))
}

fn compares_as(operator: CmpOp, order: Ordering) -> bool
    ensures { result ≡ spec.compares_as operator order }
{
    match operator {
        CmpOp::Eq => order.is_eq(),
        CmpOp::Ne => order.is_ne(),
        CmpOp::Lt => order.is_lt(),
        CmpOp::Le => order.is_le(),
        CmpOp::Gt => order.is_gt(),
        CmpOp::Ge => order.is_ge(),
    }
}

fn negated(truth: Option<bool>) -> Option<bool>
    ensures { result ≡ spec.negated truth }
{
    truth.map(|truth| !truth)
}

/// False where one is false, else unknown where one is unknown.
fn both(left: Option<bool>, right: Option<bool>) -> Option<bool>
    ensures { result ≡ spec.both left right }
{
    match (left, right) {
        (Some(false), _) | (_, Some(false)) => Some(false),
        (Some(true), Some(true)) => Some(true),
        _ => None,
    }
}

/// True where one is true, else unknown where one is unknown.
fn either(left: Option<bool>, right: Option<bool>) -> Option<bool>
    ensures { result ≡ spec.either left right }
{
    match (left, right) {
        (Some(true), _) | (_, Some(true)) => Some(true),
        (Some(false), Some(false)) => Some(false),
        _ => None,
    }
}
