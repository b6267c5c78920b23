ghost use Rattle.std.specs.Prelude.{◌≡◌, IfOk, OnOk};
ghost use Rattle.sql_model.specs.Listing.{ordered};
ghost use Rattle.sql_model.specs.Query.{order_cmp, limited};

use lake_values::{NoMemory, Row, Rows};
use row_evaluation::compare_by_keys;
use sql_model::Key;
use std::cmp::Ordering;

/// The order of two rows by the keys, and then by the whole row.
fn compare_by(keys: &[Key], a: &Row, b: &Row) -> Ordering
    ensures { result ≡ order_cmp keys.now a.now b.now }
{
    match compare_by_keys(keys, a, b) {
        Ordering::Equal => a.cmp(b),
        order => order,
    }
}

/// Puts the rows in order.
fn sort_by_keys(rows: &mut Vec<Row>, keys: &[Key]) -> Result<(), NoMemory>
    ensures { OnOk result (rows.new.items ≡ ordered (order_cmp keys.now) rows.old.items) }
{
    rows.sort_by(|a, b| compare_by(keys, a, b))?;
    Ok(())
}

/// The rows in order, and only the first of them where there is a limit.
pub fn ordered_rows(mut rows: Vec<Row>, keys: &[Key], limit: Option<u64>) -> Result<Rows, NoMemory>
    ensures { IfOk result (λ answer. answer ≡ limited limit (ordered (order_cmp keys.now) rows.items)) }
{
    sort_by_keys(&mut rows, keys)?;
    if let Some(limit) = limit {
        rows.truncate(limit as usize);
    }
    Ok(Rows::from_rows(rows))
}
