ghost use Rattle.std.specs.Prelude.{◌≡◌};
ghost use Rattle.std.specs.Ordering.{ordering_then};
ghost use Rattle.lake_values.specs.Order.{row_cmp};
ghost use Rattle.sql_model.specs.Query.{key_cmp, order_cmp};

use crate::cells::{Cells, value_at};
use lake_values::compare_lent;
use sql_model::Key;
use std::cmp::Ordering;

/// The order of two rows by one key.
fn compare_by_key<C: Cells>(key: Key, a: &C, b: &C) -> Ordering
    ensures { result ≡ key_cmp key (C.cells a.now) (C.cells b.now) }
{
    let order = compare_lent(value_at(a, key.column), value_at(b, key.column));
    if key.descending {
        order.reverse()
    } else {
        order
    }
}

/// The order of two rows by the keys, equal where all keys tie. Where they do, the order of an answer goes by the whole
/// row.
pub fn compare_by_keys<C: Cells>(keys: &[Key], a: &C, b: &C) -> Ordering
    ensures { ordering_then result (row_cmp (C.cells a.now) (C.cells b.now)) ≡ order_cmp keys.now (C.cells a.now) (C.cells b.now) }
{
    for key in keys {
        let order = compare_by_key(*key, a, b);
        if order.is_ne() {
            return order;
        }
    }
    Ordering::Equal
}
