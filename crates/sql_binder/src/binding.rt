//! Binding: the least refusal that holds, or else the bound form.

ghost use Rattle.std.specs.Prelude.{◌≡◌, ◌≤◌, length, IfOk, IsTrue};
ghost use Rattle.std.specs.List.{list_all};
ghost use Rattle.sql_model.specs.Binding as spec;
ghost use Rattle.sql_model.specs.Binding.{IsBound, IsRefused};
ghost use Rattle.sql_model.specs.Form.{IsInForm, is_bindable};
ghost use Rattle.sql_model.specs.Mentions.{mentions};
ghost use Rattle.sql_binder.specs.Judging.{Judges, IfRefused};
ghost use Rattle.sql_binder.specs.Noting.{no_faults, noted, least};
ghost use Rattle.sql_binder.specs.Scoping.{statement_scope};

use crate::faults::{BindFault, NameFaults};
use crate::forms::bound_form;
use crate::groups::is_of_groups;
use crate::names::Names;
use crate::scopes::{columns_named, scope_of};
use crate::types::is_typed;
use lake_values::{NoMemory, Row};
use sql_model::{Bound, Heading, Refusal, Schemas, Statement};
use std::alloc::Global;

fn check_names(
    alloc: Global,
    schemas: &Schemas,
    scope: &[Heading],
    statement: &Statement,
) -> Result<(), BindFault>
    requires room { length scope.now ≤ 256 }
    requires scope { scope.now ≡ statement_scope schemas.now statement.now }
    requires form { IsInForm statement.now }
    ensures { Judges result (least
        (noted schemas.now no_faults (mentions schemas.now statement.now))) }
{
    let names = Names { alloc, schemas };
    let mut faults = NameFaults {
        table: None,
        column: None,
        ambiguous: None,
    };
    names.statement(scope, statement, &mut faults)?;
    faults.judge()
}

fn check_types(schemas: &Schemas, scope: &[Heading], statement: &Statement) -> Result<(), BindFault>
    requires room { length scope.now ≤ 256 }
    requires scope { scope.now ≡ statement_scope schemas.now statement.now }
    ensures { Judges result (spec.mistyped schemas.now statement.now) }
{
    if !is_typed(schemas, scope, statement) {
        return Err(BindFault::Refused(Refusal::TypeMismatch));
    }
    Ok(())
}

fn are_wide(width: usize, rows: &[Row]) -> bool
    ensures { result ≡ list_all (spec.is_wide width) rows.now }
{
    for row in rows {
        if row.values().len() != width {
            return false;
        }
    }
    true
}

fn check_counts(schemas: &Schemas, statement: &Statement) -> Result<(), BindFault>
    ensures { Judges result (spec.miscounted schemas.now statement.now) }
{
    if let Statement::Insert { table, rows } = statement
        && !are_wide(columns_named(schemas, table).len(), rows.rows())
    {
        return Err(BindFault::Refused(Refusal::ColumnCount));
    }
    Ok(())
}

fn check_groups(
    alloc: Global,
    schemas: &Schemas,
    scope: &[Heading],
    statement: &Statement,
) -> Result<(), BindFault>
    requires room { length scope.now ≤ 256 }
    requires scope { scope.now ≡ statement_scope schemas.now statement.now }
    requires form { IsInForm statement.now }
    ensures { Judges result (spec.misgrouped schemas.now statement.now) }
{
    if let Statement::Select(query) = statement
        && !is_of_groups(alloc, scope, query)?
    {
        return Err(BindFault::Refused(Refusal::NotGrouped));
    }
    Ok(())
}

#[tactic(auto, using(crate::proofs::Noting::refused_by_names))]
fn check(
    alloc: Global,
    schemas: &Schemas,
    scope: &[Heading],
    statement: &Statement,
) -> Result<(), BindFault>
    requires room { length scope.now ≤ 256 }
    requires scope { scope.now ≡ statement_scope schemas.now statement.now }
    requires form { IsInForm statement.now }
    ensures { Judges result (spec.refused schemas.now statement.now) }
{
    check_names(alloc, schemas, scope, statement)?;
    check_types(schemas, scope, statement)?;
    check_counts(schemas, statement)?;
    check_groups(alloc, schemas, scope, statement)?;
    Ok(())
}

/// The bound form of a statement over the schemas of its tables, or the least refusal that holds,
/// with its first name in the order of the text.
pub fn bind(alloc: Global, statement: &Statement, schemas: &Schemas) -> Result<Bound, BindFault>
    requires form { IsInForm statement.now }
    requires bindable { IsTrue (is_bindable statement.now) }
    ensures bound { IfOk result (λ bound. IsBound statement.now schemas.now bound) }
    ensures refused { IfRefused result (λ refusal. IsRefused statement.now schemas.now refusal) }
{
    let columns = scope_of(alloc, schemas, statement)?;
    let scope = columns.as_slice();
    check(alloc, schemas, scope, statement)?;
    Ok(bound_form(alloc, schemas, scope, statement)?)
}
