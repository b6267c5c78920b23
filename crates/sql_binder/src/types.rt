//! The types of expressions.

ghost use Rattle.std.specs.Prelude.{◌≡◌, ◌≤◌, length, take, IsTrue};
ghost use Rattle.std.specs.List.{list_all};
ghost use Rattle.sql_model.specs.Scopes.{scope_of};
ghost use Rattle.sql_model.specs.Types as spec;
ghost use Rattle.sql_binder.specs.Scoping.{statement_scope, IsFrom};

use crate::scopes::{columns_named, joined, named};
use lake_values::{ColType, Column, Row, Value};
use sql_model::{
    Agg, Expr, ExprType, Found, Heading, Item, Ref, RefPairs, Schemas, Select, Set, SourceRef,
    Statement,
};

fn type_of_value(value: &Value) -> ExprType
    ensures { result ≡ spec.type_of_value value.now }
{
    match value {
        Value::Null => ExprType::Null,
        Value::Int(_) => ExprType::Int,
        Value::Text(_) => ExprType::Text,
    }
}

fn type_at(scope: &[Heading], found: Found) -> ExprType
    ensures { result ≡ spec.type_at scope.now found }
{
    let Found::One(place) = found else {
        return ExprType::Unknown;
    };
    match scope.get(place as usize) {
        Some(heading) => match heading.kind {
            ColType::Int => ExprType::Int,
            ColType::Text => ExprType::Text,
        },
        None => ExprType::Unknown,
    }
}

fn type_of_ref(scope: &[Heading], reference: &Ref) -> ExprType
    requires { length scope.now ≤ 256 }
    ensures { result ≡ spec.type_of_ref scope.now reference.now }
{
    type_at(scope, named(scope, &reference.table, &reference.column))
}

/// Whether a value of the type can stand where a column's type is asked.
fn fits(column: ColType, kind: ExprType) -> bool
    ensures { result ≡ spec.fits_column column kind }
{
    match column {
        ColType::Int => !matches!(kind, ExprType::Text | ExprType::Bool),
        ColType::Text => !matches!(kind, ExprType::Int | ExprType::Bool),
    }
}

fn fits_bool(kind: ExprType) -> bool
    ensures { result ≡ spec.fits_bool kind }
{
    matches!(kind, ExprType::Bool | ExprType::Unknown)
}

fn is_no_bool(kind: ExprType) -> bool
    ensures { result ≡ spec.is_no_bool kind }
{
    !matches!(kind, ExprType::Bool)
}

fn are_comparable(left: ExprType, right: ExprType) -> bool
    ensures { result ≡ spec.are_comparable left right }
{
    fits(ColType::Int, left) && fits(ColType::Int, right)
        || fits(ColType::Text, left) && fits(ColType::Text, right)
}

/// The type of an expression; none where an operand in it has a type that doesn't fit.
fn type_of(scope: &[Heading], expression: &Expr) -> Option<ExprType>
    requires { length scope.now ≤ 256 }
    ensures { result ≡ spec.type_of scope.now expression.now }
{
    match expression {
        Expr::Column(reference) => Some(type_of_ref(scope, reference)),
        Expr::Literal(value) => Some(type_of_value(value)),
        Expr::Arith(_, left, right) => {
            let left = type_of(scope, left.get())?;
            let right = type_of(scope, right.get())?;
            (fits(ColType::Int, left) && fits(ColType::Int, right)).then_some(ExprType::Int)
        }
        Expr::Compare(_, left, right) => {
            let left = type_of(scope, left.get())?;
            let right = type_of(scope, right.get())?;
            are_comparable(left, right).then_some(ExprType::Bool)
        }
        Expr::IsNull(operand) => {
            is_no_bool(type_of(scope, operand.get())?).then_some(ExprType::Bool)
        }
        Expr::Not(operand) => fits_bool(type_of(scope, operand.get())?).then_some(ExprType::Bool),
        Expr::And(left, right) | Expr::Or(left, right) => {
            let left = type_of(scope, left.get())?;
            let right = type_of(scope, right.get())?;
            (fits_bool(left) && fits_bool(right)).then_some(ExprType::Bool)
        }
    }
}

fn is_value(scope: &[Heading], expression: &Expr) -> bool
    requires { length scope.now ≤ 256 }
    ensures { result ≡ spec.passes spec.is_no_bool (spec.type_of scope.now expression.now) }
{
    match type_of(scope, expression) {
        Some(kind) => is_no_bool(kind),
        None => false,
    }
}

fn is_typed_item(scope: &[Heading], item: &Item) -> bool
    requires { length scope.now ≤ 256 }
    ensures { result ≡ spec.is_typed_item scope.now item.now }
{
    match item {
        Item::Agg(Agg::CountAll, _) => true,
        Item::Agg(Agg::Sum(argument), _) => match type_of(scope, argument) {
            Some(kind) => fits(ColType::Int, kind),
            None => false,
        },
        Item::Plain(expression, _) => is_value(scope, expression),
        Item::Agg(Agg::Count(argument), _) => is_value(scope, argument),
        Item::Agg(Agg::Min(argument), _) => is_value(scope, argument),
        Item::Agg(Agg::Max(argument), _) => is_value(scope, argument),
    }
}

fn are_typed_items(scope: &[Heading], items: &[Item]) -> bool
    requires { length scope.now ≤ 256 }
    ensures { result ≡ list_all (spec.is_typed_item scope.now) items.now }
{
    for item in items {
        if !is_typed_item(scope, item) {
            return false;
        }
    }
    true
}

fn are_typed_pairs(scope: &[Heading], pairs: &[(Ref, Ref)]) -> bool
    requires { length scope.now ≤ 256 }
    ensures { result ≡ list_all (spec.is_typed_pair scope.now) pairs.now }
{
    for pair in pairs {
        if !are_comparable(type_of_ref(scope, &pair.0), type_of_ref(scope, &pair.1)) {
            return false;
        }
    }
    true
}

/// The ONs of the sources behind the first, whose columns begin at a place.
fn are_typed_joins(
    schemas: &Schemas,
    scope: &[Heading],
    start: usize,
    sources: &[SourceRef],
    ons: &[RefPairs],
) -> bool
    requires room { length scope.now ≤ 256 }
    requires scope { IsFrom schemas.now scope.now start sources.now }
    ensures { result ≡ spec.are_typed_joins schemas.now (take start scope.now) sources.now ons.now }
{
    let row = joined(schemas, scope, start, sources);
    let [_, sources @ ..] = sources else {
        return true;
    };
    let [on, ons @ ..] = ons else {
        return true;
    };
    are_typed_pairs(row, on.as_slice()) && are_typed_joins(schemas, scope, row.len(), sources, ons)
}

fn are_typed_sources(
    schemas: &Schemas,
    scope: &[Heading],
    sources: &[SourceRef],
    ons: &[RefPairs],
) -> bool
    requires room { length scope.now ≤ 256 }
    requires scope { scope.now ≡ scope_of schemas.now sources.now }
    ensures { result ≡ spec.are_typed_sources schemas.now sources.now ons.now }
{
    let row = joined(schemas, scope, 0, sources);
    let [_, sources @ ..] = sources else {
        return true;
    };
    are_typed_joins(schemas, scope, row.len(), sources, ons)
}

fn is_typed_filter(scope: &[Heading], filter: &Option<Expr>) -> bool
    requires { length scope.now ≤ 256 }
    ensures { result ≡ spec.is_typed_filter scope.now filter.now }
{
    let Some(condition) = filter else {
        return true;
    };
    match type_of(scope, condition) {
        Some(kind) => fits_bool(kind),
        None => false,
    }
}

fn fits_found(scope: &[Heading], found: Found, kind: ExprType) -> bool
    ensures { result ≡ spec.fits_found scope.now found kind }
{
    let Found::One(place) = found else {
        return true;
    };
    match scope.get(place as usize) {
        Some(heading) => fits(heading.kind, kind),
        None => true,
    }
}

fn are_typed_sets(scope: &[Heading], sets: &[Set]) -> bool
    requires { length scope.now ≤ 256 }
    ensures { result ≡ list_all (spec.is_typed_set scope.now) sets.now }
{
    for set in sets {
        let Some(kind) = type_of(scope, &set.value) else {
            return false;
        };
        if !fits_found(scope, named(scope, &None, &set.column), kind) {
            return false;
        }
    }
    true
}

/// The values of a tuple, at the positions that both it and the table have.
fn are_typed_values(columns: &[Column], values: &[Value]) -> bool
    ensures { result ≡ spec.are_typed_values columns.now values.now }
{
    let [column, columns @ ..] = columns else {
        return true;
    };
    let [value, values @ ..] = values else {
        return true;
    };
    fits(column.kind, type_of_value(value)) && are_typed_values(columns, values)
}

fn are_typed_rows(columns: &[Column], rows: &[Row]) -> bool
    ensures { result ≡ list_all (spec.are_typed_values columns.now) rows.now }
{
    for row in rows {
        if !are_typed_values(columns, row.values()) {
            return false;
        }
    }
    true
}

fn is_typed_select(schemas: &Schemas, scope: &[Heading], query: &Select) -> bool
    requires room { length scope.now ≤ 256 }
    requires scope { scope.now ≡ scope_of schemas.now query.now.sources }
    ensures { result ≡ spec.is_typed_select schemas.now query.now }
{
    are_typed_items(scope, query.items.as_slice())
        && are_typed_sources(
            schemas,
            scope,
            query.sources.as_slice(),
            query.ons.as_slice(),
        )
        && is_typed_filter(scope, &query.filter)
}

/// Whether every operand and value of a statement has a type that fits.
pub fn is_typed(schemas: &Schemas, scope: &[Heading], statement: &Statement) -> bool
    requires room { length scope.now ≤ 256 }
    requires scope { scope.now ≡ statement_scope schemas.now statement.now }
    ensures { result ≡ spec.is_typed schemas.now statement.now }
{
    match statement {
        Statement::Select(query) => is_typed_select(schemas, scope, query),
        Statement::Insert { table, rows } => {
            are_typed_rows(columns_named(schemas, table), rows.rows())
        }
        Statement::Update { sets, filter, .. } => {
            are_typed_sets(scope, sets.as_slice()) && is_typed_filter(scope, filter)
        }
        Statement::Delete { filter, .. } => is_typed_filter(scope, filter),
        Statement::Create { .. } => true,
        Statement::Begin => true,
        Statement::Commit => true,
        Statement::RollBack => true,
        Statement::Compact { .. } => true,
        Statement::Checkpoint { .. } => true,
        Statement::Collect { .. } => true,
    }
}
