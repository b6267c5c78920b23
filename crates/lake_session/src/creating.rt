//! CREATE: its refusals, and the schema of its table.

ghost use Rattle.std.specs.Prelude.{◌≡◌, ◌<◌, ◌≤◌, ℕ, List, [], Option, Some, length, map, position, IfOk, IfSome};
ghost use Rattle.lake_values.specs.Schemas.{AllDistinct};
ghost use Rattle.lake_values.specs.declared.schemas.Column.{Column as Declared};
ghost use Rattle.lake_core.specs.Lakes.{IsExplicit, state_of};
ghost use Rattle.sql_model.specs.Creating.{distribution_of, schema_of};
ghost use Rattle.sql_model.specs.Binding.{IsRefused};
ghost use Rattle.lake_model.specs.Refusals.{refusal};
ghost use Rattle.lake_values.specs.Texts.{same_text};
ghost use Rattle.sql_model.specs.declared.statements.Statement.TheVariants as statement;

use lake_core::LakeState;
use lake_outside::Port;
use lake_values::{Column, Columns, NoMemory, Schema, Text, copy_columns};
use sql_model::Refusal;
use std::alloc::Global;

/// The refusal of a CREATE that the binder refuses: that of the transaction's state and that of a name that is taken
/// come before.
pub fn first_refusal<P: Port>(
    lake: &LakeState<P>,
    session: u32,
    table: &Text,
    cause: Refusal,
) -> Result<Refusal, NoMemory>
    requires { IsExplicit (state_of lake.now) session }
    ensures { IfOk result (λ first. (columns : List Declared) (distribution : Option (List ℕ)) → IsRefused (statement.Create table.now columns distribution) [] cause → refusal (state_of lake.now) session (statement.Create table.now columns distribution) ≡ Some first) }
{
    if lake.transaction(session).is_some() {
        return Ok(Refusal::InTransaction);
    }
    if lake.has_table(table) {
        return Ok(Refusal::TableExists(table.copy()?));
    }
    Ok(cause)
}

/// The schema of columns that are declared so.
pub fn schema_of(
    alloc: Global,
    columns: &Columns,
    distribution: &Option<Text>,
) -> Result<Schema, NoMemory>
    requires some { 1 ≤ length columns.now }
    requires at_most { length columns.now ≤ 64 }
    requires distinct { AllDistinct (map (λ c. c.name) columns.now) }
    ensures { IfOk result (λ schema. schema ≡ schema_of columns.now distribution.now) }
{
    let distributes = distribution_of(columns.as_slice(), distribution);
    let columns = copy_columns(alloc, columns.as_slice())?;
    Ok(Schema::new(columns, distributes))
}

/// The place of the distribution column: the named one, and without a name the first.
fn distribution_of(columns: &[Column], name: &Option<Text>) -> u32
    requires some { 1 ≤ length columns.now }
    requires at_most { length columns.now ≤ 64 }
    ensures place { result ≡ distribution_of columns.now name.now }
    ensures in_range { result < length columns.now }
{
    let Some(name) = name else {
        return 0;
    };
    match place_of_column(columns, name) {
        Some(place) => place as u32,
        None => 0,
    }
}

fn place_of_column(columns: &[Column], name: &Text) -> Option<usize>
    ensures place { result ≡ position (λ c. same_text c.name name.now) columns.now }
    ensures in_range { IfSome result (λ place. place < length columns.now) }
{
    columns.iter().position(|column| column.name == *name)
}
