//! The bound forms of statements.

ghost use Rattle.std.specs.Prelude.{◌≡◌, ◌≤◌, true, false, length, IfOk, IsTrue};
ghost use Rattle.sql_model.specs.BoundForms as spec;
ghost use Rattle.sql_model.specs.Form.{is_select, is_bindable, IsInForm};
ghost use Rattle.sql_model.specs.Scopes.{scope_of};
ghost use Rattle.sql_binder.specs.Answering.{IsAnswer};
ghost use Rattle.sql_binder.specs.Scoping.{statement_scope};

use crate::expressions::{Conditions, bound_expr, conditions_of};
use crate::outputs::{
    aggs_of, group_outputs, is_grouped, item_numbers, keys_of, order_of, projection,
};
use crate::scopes::schema_named;
use crate::stages::{Stages, stages_of, tables_of, widths_of};
use lake_values::{Listed, NoMemory, Text};
use sql_model::{Bound, BoundAgg, BoundExpr, Heading, Query, Schemas, Select, Set, Statement};
use std::alloc::Global;

/// What an answer is projected or grouped to, and its columns in that.
#[derive(Drop)]
struct AnswerRow {
    items: Vec<BoundExpr>,
    keys: Vec<u32>,
    aggs: Vec<BoundAgg>,
    outputs: Vec<u32>,
}

#[tactic(auto, unfolding(sql_model::specs::BoundForms::answered_by))]
fn grouped(alloc: Global, scope: &[Heading], query: &Select) -> Result<AnswerRow, NoMemory>
    requires room { length scope.now ≤ 256 }
    requires form { IsTrue (is_select query.now) }
    ensures { IfOk result (λ made. IsAnswer made (spec.answered_by true scope.now query.now)) }
{
    let items = query.items.as_slice();
    let keys = keys_of(alloc, scope, query.groups.as_slice())?;
    let aggs = aggs_of(alloc, scope, items)?;
    let outputs = group_outputs(alloc, scope, keys.as_slice(), items)?;
    Ok(AnswerRow {
        items: Vec::new(alloc),
        keys,
        aggs,
        outputs,
    })
}

#[tactic(auto, unfolding(sql_model::specs::BoundForms::answered_by))]
fn listed(alloc: Global, scope: &[Heading], query: &Select) -> Result<AnswerRow, NoMemory>
    requires room { length scope.now ≤ 256 }
    requires form { IsTrue (is_select query.now) }
    ensures { IfOk result (λ made. IsAnswer made (spec.answered_by false scope.now query.now)) }
{
    let items = projection(alloc, scope, query)?;
    let outputs = item_numbers(alloc, items.as_slice())?;
    Ok(AnswerRow {
        items,
        keys: Vec::new(alloc),
        aggs: Vec::new(alloc),
        outputs,
    })
}

fn answered(alloc: Global, scope: &[Heading], query: &Select) -> Result<AnswerRow, NoMemory>
    requires room { length scope.now ≤ 256 }
    requires form { IsTrue (is_select query.now) }
    ensures { IfOk result (λ made. IsAnswer made
        (spec.answered_by (spec.is_grouped query.now) scope.now query.now)) }
{
    if is_grouped(query) {
        grouped(alloc, scope, query)
    } else {
        listed(alloc, scope, query)
    }
}

fn bound_select(
    alloc: Global,
    schemas: &Schemas,
    scope: &[Heading],
    query: &Select,
) -> Result<Query, NoMemory>
    requires room { length scope.now ≤ 256 }
    requires scope { scope.now ≡ scope_of schemas.now query.now.sources }
    requires form { IsTrue (is_select query.now) }
    ensures { IfOk result (λ bound. bound ≡ spec.bound_select schemas.now query.now) }
{
    let sources = query.sources.as_slice();
    let Conditions { guards, computed } = conditions_of(alloc, scope, &query.filter)?;
    let stages = stages_of(alloc, schemas, scope, sources, query.ons.as_slice(), guards)?;
    let answer = answered(alloc, scope, query)?;
    let tables = tables_of(alloc, sources)?;
    let widths = widths_of(alloc, schemas, sources)?;
    let order = order_of(alloc, scope, query)?;
    Ok(Query {
        tables: Listed::from_list(tables),
        widths: Listed::from_list(widths),
        pairs: Listed::from_list(stages.pairs),
        guards: Listed::from_list(stages.guards),
        computed: Listed::from_list(computed),
        items: Listed::from_list(answer.items),
        keys: Listed::from_list(answer.keys),
        aggs: Listed::from_list(answer.aggs),
        outputs: Listed::from_list(answer.outputs),
        order: Listed::from_list(order),
        limit: query.limit,
    })
}

fn distribution_named(schemas: &Schemas, table: &Text) -> u32
    ensures { result ≡ spec.distribution_named table.now schemas.now }
{
    match schema_named(table, schemas) {
        Some(schema) => schema.distribution(),
        None => 0,
    }
}

fn new_value(
    alloc: Global,
    scope: &[Heading],
    sets: &[Set],
    place: u32,
    name: &Text,
) -> Result<BoundExpr, NoMemory>
    requires { length scope.now ≤ 256 }
    ensures { IfOk result (λ made. made ≡ spec.new_value scope.now sets.now place name.now) }
{
    for set in sets {
        if set.column == *name {
            return bound_expr(alloc, scope, &set.value);
        }
    }
    Ok(BoundExpr::Column(place))
}

fn changed_row(alloc: Global, scope: &[Heading], sets: &[Set]) -> Result<Vec<BoundExpr>, NoMemory>
    requires { length scope.now ≤ 256 }
    ensures { IfOk result (λ row. row.items ≡ spec.changed_row scope.now sets.now 0 scope.now) }
{
    let mut row = Vec::new(alloc);
    for (place, heading) in scope.iter().enumerate() {
        row.push(new_value(alloc, scope, sets, place as u32, &heading.name)?)?;
    }
    Ok(row)
}

/// The bound form of a statement that no refusal holds of.
pub fn bound_form(
    alloc: Global,
    schemas: &Schemas,
    scope: &[Heading],
    statement: &Statement,
) -> Result<Bound, NoMemory>
    requires room { length scope.now ≤ 256 }
    requires scope { scope.now ≡ statement_scope schemas.now statement.now }
    requires form { IsInForm statement.now }
    requires bindable { IsTrue (is_bindable statement.now) }
    ensures { IfOk result (λ bound. bound ≡ spec.bound_form schemas.now statement.now) }
{
    match statement {
        Statement::Select(query) => Ok(Bound::Select(bound_select(alloc, schemas, scope, query)?)),
        Statement::Insert { table, rows } => Ok(Bound::Insert {
            table: table.copy()?,
            rows: rows.copy(alloc)?,
            column: distribution_named(schemas, table),
        }),
        Statement::Update {
            table,
            sets,
            filter,
        } => {
            let Conditions { guards, computed } = conditions_of(alloc, scope, filter)?;
            let items = changed_row(alloc, scope, sets.as_slice())?;
            Ok(Bound::Update {
                table: table.copy()?,
                guards: Listed::from_list(guards),
                computed: Listed::from_list(computed),
                items: Listed::from_list(items),
                column: distribution_named(schemas, table),
            })
        }
        Statement::Delete { table, filter } => {
            let Conditions { guards, computed } = conditions_of(alloc, scope, filter)?;
            Ok(Bound::Delete {
                table: table.copy()?,
                guards: Listed::from_list(guards),
                computed: Listed::from_list(computed),
            })
        }
        Statement::Create { table, .. }
        | Statement::Compact { table }
        | Statement::Checkpoint { table } => Ok(Bound::Named {
            table: table.copy()?,
        }),
        Statement::Begin | Statement::Commit | Statement::RollBack | Statement::Collect { .. } => {
            unreachable!()
        }
    }
}
