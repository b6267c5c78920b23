//! What the names of a statement stand for.

ghost use Rattle.std.specs.Prelude.{◌≡◌, ◌+◌, ◌*◌, ◌≤◌, ◌++◌, length, take, codes, IfOk, OnOk, IsTrue};
ghost use Rattle.std.specs.Fmt.{decimal};
ghost use Rattle.std.specs.List.{list_any};
ghost use Rattle.std.specs.Option.{option_copied};
ghost use Rattle.std.specs.String.{string_bytes};
ghost use Rattle.sql_model.specs.Form.{is_name, is_name_or_none, IsInForm};
ghost use Rattle.sql_model.specs.Scopes as spec;
ghost use Rattle.sql_binder.specs.Scoping.{statement_scope, next_headings, behind, IsFrom};

use lake_values::{Column, NoMemory, Schema, Text, short_text};
use sql_model::{Found, Heading, Schemas, SourceRef, Statement};
use std::alloc::{AllocError, Global};

/// The schema of the table of this name.
pub fn schema_named<'a>(name: &Text, schemas: &'a Schemas) -> Option<&'a Schema>
    ensures { option_copied result ≡ spec.schema_named name.now schemas.now }
{
    for entry in schemas.as_slice() {
        if entry.0 == *name {
            return Some(&entry.1);
        }
    }
    None
}

/// The columns of the table of this name; one that isn't there has none.
pub fn columns_named<'a>(schemas: &'a Schemas, name: &Text) -> &'a [Column]
    ensures columns { result.now ≡ spec.columns_named name.now schemas.now }
    ensures few { length result.now ≤ 64 }
{
    match schema_named(name, schemas) {
        Some(schema) => schema.columns(),
        None => &[],
    }
}

/// Puts the columns of a table at the end, under the name that the statement has for it.
fn put_headings(name: &Text, columns: &[Column], scope: &mut Vec<Heading>) -> Result<(), NoMemory>
    ensures { OnOk result (scope.new.items ≡ scope.old.items
        ++ spec.headings name.now columns.now) }
{
    for column in columns {
        scope.push(Heading {
            table: name.copy()?,
            name: column.name.copy()?,
            kind: column.kind,
        })?;
    }
    Ok(())
}

fn table_scope(alloc: Global, name: &Text, columns: &[Column]) -> Result<Vec<Heading>, NoMemory>
    ensures { IfOk result (λ scope. scope.items ≡ spec.headings name.now columns.now) }
{
    let mut scope = Vec::new(alloc);
    put_headings(name, columns, &mut scope)?;
    Ok(scope)
}

/// The columns of the joined row of all sources.
fn joined_scope(
    alloc: Global,
    schemas: &Schemas,
    sources: &[SourceRef],
) -> Result<Vec<Heading>, NoMemory>
    ensures scope { IfOk result (λ scope. scope.items ≡ spec.scope_of schemas.now sources.now) }
    ensures few { IfOk result (λ scope. length scope.items ≤ 64 * length sources.now) }
{
    let mut scope = Vec::new(alloc);
    for source in sources {
        put_headings(
            &source.name,
            columns_named(schemas, &source.table),
            &mut scope,
        )?;
    }
    Ok(scope)
}

/// The columns that the references of a statement may name.
pub fn scope_of(
    alloc: Global,
    schemas: &Schemas,
    statement: &Statement,
) -> Result<Vec<Heading>, NoMemory>
    requires { IsInForm statement.now }
    ensures scope { IfOk result (λ scope. scope.items ≡ statement_scope schemas.now statement.now) }
    ensures few { IfOk result (λ scope. length scope.items ≤ 256) }
{
    match statement {
        Statement::Select(query) => joined_scope(alloc, schemas, query.sources.as_slice()),
        Statement::Create { table, columns, .. } => table_scope(alloc, table, columns.as_slice()),
        Statement::Update { table, .. } => table_scope(alloc, table, columns_named(schemas, table)),
        Statement::Delete { table, .. } => table_scope(alloc, table, columns_named(schemas, table)),
        Statement::Insert { .. } => Ok(Vec::new(alloc)),
        Statement::Compact { .. } => Ok(Vec::new(alloc)),
        Statement::Checkpoint { .. } => Ok(Vec::new(alloc)),
        Statement::Begin => Ok(Vec::new(alloc)),
        Statement::Commit => Ok(Vec::new(alloc)),
        Statement::RollBack => Ok(Vec::new(alloc)),
        Statement::Collect { .. } => Ok(Vec::new(alloc)),
    }
}

/// The columns of the row once the first of these sources is joined, whose own begin at a place.
pub fn joined<'a>(
    schemas: &Schemas,
    scope: &'a [Heading],
    start: usize,
    sources: &[SourceRef],
) -> &'a [Heading]
    requires { IsFrom schemas.now scope.now start sources.now }
    ensures joined { result.now ≡ take start scope.now ++ next_headings schemas.now sources.now }
    ensures first { take (length result.now) scope.now ≡ result.now }
    ensures rest { IsFrom schemas.now scope.now (length result.now) (behind sources.now) }
{
    match sources {
        [source, ..] => &scope[..start + columns_named(schemas, &source.table).len()],
        [] => &scope[..start],
    }
}

fn fits(table: &Option<Text>, column: &Text, heading: &Heading) -> bool
    ensures { result ≡ spec.fits table.now column.now heading.now }
{
    match table {
        None => *column == heading.name,
        Some(table) => *table == heading.table && *column == heading.name,
    }
}

fn fits_some(table: &Option<Text>, column: &Text, scope: &[Heading]) -> bool
    ensures { result ≡ list_any (spec.fits table.now column.now) scope.now }
{
    for heading in scope {
        if fits(table, column, heading) {
            return true;
        }
    }
    false
}

/// Which column a reference names.
pub fn named(scope: &[Heading], table: &Option<Text>, column: &Text) -> Found
    requires { length scope.now ≤ 256 }
    ensures { result ≡ spec.named scope.now table.now column.now }
{
    for (place, heading) in scope.iter().enumerate() {
        if fits(table, column, heading) {
            if fits_some(table, column, &scope[place + 1..]) {
                return Found::Several;
            }
            return Found::One(place as u32);
        }
    }
    Found::Absent
}

fn with_dot(alloc: Global, table: &str, column: &str) -> Result<String, AllocError>
    ensures { IfOk result (λ text. string_bytes text ≡ table.now ++ codes "." ++ column.now) }
{
    Ok(format!(in alloc; "{table}.{column}")?)
}

fn dotted(alloc: Global, table: &Text, column: &Text) -> Result<Text, NoMemory>
    requires short_table { IsTrue (is_name table.now) }
    requires short_column { IsTrue (is_name column.now) }
    ensures { IfOk result (λ text. text ≡ table.now ++ codes "." ++ column.now) }
{
    let text = with_dot(alloc, table.as_str(), column.as_str())?;
    short_text(alloc, text.as_str())
}

/// A reference as it is printed.
pub fn printed(alloc: Global, table: &Option<Text>, column: &Text) -> Result<Text, NoMemory>
    requires short_table { IsTrue (is_name_or_none table.now) }
    requires short_column { IsTrue (is_name column.now) }
    ensures { IfOk result (λ text. text ≡ spec.printed table.now column.now) }
{
    match table {
        None => column.copy(),
        Some(table) => dotted(alloc, table, column),
    }
}

/// The number of an output as it is printed.
pub fn number_text(alloc: Global, number: u64) -> Result<Text, NoMemory>
    ensures { IfOk result (λ text. text ≡ decimal number) }
{
    let text = format!(in alloc; "{number}")?;
    short_text(alloc, text.as_str())
}
