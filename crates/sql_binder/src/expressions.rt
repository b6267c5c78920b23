//! Expressions with their references as places.

ghost use Rattle.std.specs.Prelude.{◌≡◌, ◌≤◌, ◌++◌, length, IfOk, OnOk, not, filter};
ghost use Rattle.sql_model.specs.BoundForms as spec;
ghost use Rattle.sql_model.specs.Scopes.{column_of as place_of_column};

use crate::scopes::named;
use lake_values::NoMemory;
use sql_model::{BoundExpr, Expr, Found, Heading, Ref};
use sqlite_items::Boxed;
use std::alloc::Global;

/// The place of the column that a reference names.
pub fn column_of(scope: &[Heading], reference: &Ref) -> u32
    requires { length scope.now ≤ 256 }
    ensures { result ≡ place_of_column scope.now reference.now }
{
    match named(scope, &reference.table, &reference.column) {
        Found::One(place) => place,
        Found::Absent | Found::Several => 0,
    }
}

/// An expression over the columns of a row.
pub fn bound_expr(
    alloc: Global,
    scope: &[Heading],
    expression: &Expr,
) -> Result<BoundExpr, NoMemory>
    requires { length scope.now ≤ 256 }
    ensures { IfOk result (λ bound. bound ≡ spec.bound_expr scope.now expression.now) }
{
    match expression {
        Expr::Column(reference) => Ok(BoundExpr::Column(column_of(scope, reference))),
        Expr::Literal(value) => Ok(BoundExpr::Literal(value.copy()?)),
        Expr::Arith(operator, left, right) => {
            let left = Boxed::new(alloc, bound_expr(alloc, scope, left.get())?)?;
            let right = Boxed::new(alloc, bound_expr(alloc, scope, right.get())?)?;
            Ok(BoundExpr::Arith(*operator, left, right))
        }
        Expr::Compare(operator, left, right) => {
            let left = Boxed::new(alloc, bound_expr(alloc, scope, left.get())?)?;
            let right = Boxed::new(alloc, bound_expr(alloc, scope, right.get())?)?;
            Ok(BoundExpr::Compare(*operator, left, right))
        }
        Expr::IsNull(operand) => {
            let operand = Boxed::new(alloc, bound_expr(alloc, scope, operand.get())?)?;
            Ok(BoundExpr::IsNull(operand))
        }
        Expr::Not(operand) => {
            let operand = Boxed::new(alloc, bound_expr(alloc, scope, operand.get())?)?;
            Ok(BoundExpr::Not(operand))
        }
        Expr::And(left, right) => {
            let left = Boxed::new(alloc, bound_expr(alloc, scope, left.get())?)?;
            let right = Boxed::new(alloc, bound_expr(alloc, scope, right.get())?)?;
            Ok(BoundExpr::And(left, right))
        }
        Expr::Or(left, right) => {
            let left = Boxed::new(alloc, bound_expr(alloc, scope, left.get())?)?;
            let right = Boxed::new(alloc, bound_expr(alloc, scope, right.get())?)?;
            Ok(BoundExpr::Or(left, right))
        }
    }
}

/// Whether + - * stands in the expression.
fn has_arithmetic(expression: &BoundExpr) -> bool
    ensures { result ≡ spec.has_arithmetic expression.now }
{
    match expression {
        BoundExpr::Column(_) | BoundExpr::Literal(_) => false,
        BoundExpr::Arith(_, _, _) => true,
        BoundExpr::IsNull(operand) | BoundExpr::Not(operand) => has_arithmetic(operand.get()),
        BoundExpr::Compare(_, left, right) => {
            has_arithmetic(left.get()) || has_arithmetic(right.get())
        }
        BoundExpr::And(left, right) | BoundExpr::Or(left, right) => {
            has_arithmetic(left.get()) || has_arithmetic(right.get())
        }
    }
}

/// Whether a row of so many columns has all that the expression needs.
pub fn is_within(width: usize, expression: &BoundExpr) -> bool
    ensures { result ≡ spec.is_within width expression.now }
{
    match expression {
        BoundExpr::Column(place) => (*place as usize) < width,
        BoundExpr::Literal(_) => true,
        BoundExpr::IsNull(operand) | BoundExpr::Not(operand) => is_within(width, operand.get()),
        BoundExpr::Arith(_, left, right) => {
            is_within(width, left.get()) && is_within(width, right.get())
        }
        BoundExpr::Compare(_, left, right) => {
            is_within(width, left.get()) && is_within(width, right.get())
        }
        BoundExpr::And(left, right) | BoundExpr::Or(left, right) => {
            is_within(width, left.get()) && is_within(width, right.get())
        }
    }
}

/// The conjuncts of a WHERE without + - *, and those with them.
#[derive(Drop)]
pub struct Conditions {
    pub guards: Vec<BoundExpr>,
    pub computed: Vec<BoundExpr>,
}

/// Puts the conjuncts of a condition at the end: the AND tree at its root is taken apart on both
/// sides.
fn put_conjuncts(
    alloc: Global,
    scope: &[Heading],
    condition: &Expr,
    out: &mut Conditions,
) -> Result<(), NoMemory>
    requires { length scope.now ≤ 256 }
    ensures guards { OnOk result (out.new.guards.items ≡ out.old.guards.items
        ++ filter (λ c. not (spec.has_arithmetic c))
        (spec.placed scope.now condition.now).conjuncts) }
    ensures computed { OnOk result (out.new.computed.items ≡ out.old.computed.items
        ++ filter spec.has_arithmetic (spec.placed scope.now condition.now).conjuncts) }
{
    if let Expr::And(left, right) = condition {
        put_conjuncts(alloc, scope, left.get(), out)?;
        put_conjuncts(alloc, scope, right.get(), out)?;
        return Ok(());
    }
    let conjunct = bound_expr(alloc, scope, condition)?;
    if has_arithmetic(&conjunct) {
        out.computed.push(conjunct)?;
    } else {
        out.guards.push(conjunct)?;
    }
    Ok(())
}

pub fn conditions_of(
    alloc: Global,
    scope: &[Heading],
    filter: &Option<Expr>,
) -> Result<Conditions, NoMemory>
    requires { length scope.now ≤ 256 }
    ensures guards { IfOk result (λ made. made.guards.items ≡ spec.guards_of scope.now filter.now) }
    ensures computed { IfOk result
        (λ made. made.computed.items ≡ spec.computed_of scope.now filter.now) }
{
    let mut conditions = Conditions {
        guards: Vec::new(alloc),
        computed: Vec::new(alloc),
    };
    if let Some(condition) = filter {
        put_conjuncts(alloc, scope, condition, &mut conditions)?;
    }
    Ok(conditions)
}
