ghost use Rattle.std.specs.Prelude.{◌≡◌, ◌++◌, [], ℕ, List, map, IfOk, OnOk};
ghost use Rattle.std.specs.List.{flat_map};
ghost use Rattle.sql_model.specs.Changes.{added_to, applied};
ghost use Rattle.sql_model.specs.Versions.{marked_rows_of};
ghost use Rattle.sql_model.specs.Writing.{schemas_of};
ghost use Rattle.table_history.specs.Histories.{IsIn, change_from, tables_in};
ghost use Rattle.table_history.specs.Strikes.{IsAscending};
ghost use Rattle.lake_core.specs.Rooms.{empty_table};
ghost use Rattle.table_history.specs.Stores.{marked_of};

use crate::transactions::KeptTransaction;
use lake_values::{NoMemory, Schema, Text};
use sql_model::{Added, Schemas};
use std::alloc::Global;
use std::marker::Model;
use table_history::{History, ViewRow, cell_in};

/// What a session's transaction sees, lent: its version with its own changes.
///
/// Contracts see the tables with their rows and the rows' marks.
#[derive(Debug, Drop)]
pub struct Lent<'a> {
    history: &'a History,
    transaction: &'a KeptTransaction,
}

impl<'a> Model for Lent<'a> {
    ghost use Rattle.std.specs.Prelude.{◌≡◌};
    ghost use Rattle.sql_model.specs.Changes.{applied};
    ghost use Rattle.sql_model.specs.Versions.{Tables};
    ghost use Rattle.table_history.specs.Histories.{IsIn, change_from, tables_in};
    ghost use Rattle.table_history.specs.Strikes.{IsAscending};

    ghost Value = { Tables };

    ghost view = { λ l. applied 0 (change_from l.transaction.now.removed.items l.transaction.now.added.items) (tables_in l.history.now l.transaction.now.snapshot) };

    ghost invariant = { λ l. IsIn l.history.now l.transaction.now.snapshot × IsAscending l.transaction.now.removed.items };
}

impl<'a> Lent<'a> {
    pub fn of(history: &'a History, transaction: &'a KeptTransaction) -> Lent<'a>
        requires kept { IsIn history.now transaction.now.snapshot }
        requires ascending { IsAscending transaction.now.removed.items }
        ensures { result ≡ applied 0 (change_from transaction.now.removed.items transaction.now.added.items) (tables_in history.now transaction.now.snapshot) }
    {
        Lent {
            history,
            transaction,
        }
    }

    /// The names of the tables with their schemas, in the order in which the tables were created.
    pub fn schemas(&self, alloc: Global) -> Result<Schemas, NoMemory>
        ensures { IfOk result (λ schemas. schemas ≡ schemas_of self.now) }
    {
        self.history.schemas(alloc, self.transaction.snapshot)
    }

    /// The rows of a table, lent: those of the version that the transaction didn't remove, and behind them those that it
    /// added. A table that isn't there has none.
    pub fn rows(&self, alloc: Global, table: &Text) -> Result<Vec<ViewRow<'a>>, NoMemory>
        ensures { IfOk result (λ rows. map (marked_of table.now) rows.items ≡ marked_rows_of table.now self.now) }
    {
        let Some(schema) = self.history.schema(self.transaction.snapshot, table) else {
            return Ok(Vec::new(alloc));
        };
        let removed = self.transaction.removed.as_slice();
        let mut rows = self
            .history
            .rows(alloc, self.transaction.snapshot, table, removed)?;
        put_added(self.transaction.added.as_slice(), table, schema, &mut rows)?;
        Ok(rows)
    }
}

/// Puts the rows that the parts of a transaction added to a table behind others, lent.
pub fn put_added<'a>(
    added: &'a [Added],
    table: &Text,
    schema: &Schema,
    rows: &mut Vec<ViewRow<'a>>,
) -> Result<(), NoMemory>
    ensures { OnOk result (map (marked_of table.now) rows.new.items ≡ map (marked_of table.now) rows.old.items ++ flat_map (added_to (empty_table table.now schema.now) 0) added.now) }
{
    for part in added {
        put_part(part, table, schema, rows)?;
    }
    Ok(())
}

/// Puts the rows of a part behind others, if it added them to the table.
fn put_part<'a>(
    part: &'a Added,
    table: &Text,
    schema: &Schema,
    rows: &mut Vec<ViewRow<'a>>,
) -> Result<(), NoMemory>
    ensures { OnOk result (map (marked_of table.now) rows.new.items ≡ map (marked_of table.now) rows.old.items ++ added_to (empty_table table.now schema.now) 0 part.now) }
{
    if part.table != *table {
        return Ok(());
    }
    for row in part.rows.rows() {
        rows.push(ViewRow {
            seq: 0,
            part: part.part,
            cell: cell_in(schema, row),
            row,
        })?;
    }
    Ok(())
}
