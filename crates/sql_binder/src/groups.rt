//! What a grouped query may list.

ghost use Rattle.std.specs.Prelude.{◌≡◌, ◌≤◌, length, IfOk, IsTrue};
ghost use Rattle.std.specs.List.{list_all};
ghost use Rattle.sql_model.specs.Binding as spec;
ghost use Rattle.sql_model.specs.Form.{is_select};
ghost use Rattle.sql_binder.specs.Keys.{is_of_its_groups};

use crate::outputs::{is_grouped, key_place, keys_of};
use lake_values::NoMemory;
use sql_model::{Heading, Item, Select};
use std::alloc::Global;

fn is_of_group(scope: &[Heading], keys: &[u32], item: &Item) -> bool
    requires room { length scope.now ≤ 256 }
    requires few { length keys.now ≤ 64 }
    ensures { result ≡ spec.is_of_group scope.now keys.now item.now }
{
    match item {
        Item::Plain(expression, _) => key_place(scope, keys, expression).is_some(),
        Item::Agg(_, _) => true,
    }
}

fn are_of_group(scope: &[Heading], keys: &[u32], items: &[Item]) -> bool
    requires room { length scope.now ≤ 256 }
    requires few { length keys.now ≤ 64 }
    ensures { result ≡ list_all (spec.is_of_group scope.now keys.now) items.now }
{
    for item in items {
        if !is_of_group(scope, keys, item) {
            return false;
        }
    }
    true
}

/// Whether a query, if it is grouped, lists aggregates and group columns alone.
pub fn is_of_groups(alloc: Global, scope: &[Heading], query: &Select) -> Result<bool, NoMemory>
    requires room { length scope.now ≤ 256 }
    requires form { IsTrue (is_select query.now) }
    ensures { IfOk result (λ holds. holds ≡ is_of_its_groups scope.now query.now) }
{
    if !is_grouped(query) {
        return Ok(true);
    }
    if query.star {
        return Ok(false);
    }
    let keys = keys_of(alloc, scope, query.groups.as_slice())?;
    Ok(are_of_group(scope, keys.as_slice(), query.items.as_slice()))
}
