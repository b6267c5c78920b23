//! The outputs of a query: their names, and what they are in the row of an answer.

ghost use Rattle.std.specs.Prelude.{◌≡◌, ◌+◌, ◌≤◌, ℕ, length, map, nat_eq, unwrap_or, IfOk, IsTrue};
ghost use Rattle.std.specs.List.{list_any, position_from};
ghost use Rattle.std.specs.Option.{option_copied};
ghost use Rattle.sql_model.specs.BoundForms as form;
ghost use Rattle.sql_model.specs.Form.{is_select};
ghost use Rattle.sql_model.specs.Mentions as mention;
ghost use Rattle.sql_model.specs.Scopes as spec;
ghost use Rattle.sql_binder.specs.Keys.{place_of_key};

use crate::expressions::{bound_expr, column_of};
use crate::scopes::named;
use lake_values::{NoMemory, Text};
use sql_model::{Agg, BoundAgg, BoundExpr, Expr, Found, Heading, Item, Key, OrderBy, Ref, Select};
use std::alloc::Global;

/// The reference that an expression is, if it is one.
fn referred(expression: &Expr) -> Option<&Ref>
    ensures { option_copied result ≡ mention.referred expression.now }
{
    match expression {
        Expr::Column(reference) => Some(reference),
        _ => None,
    }
}

fn is_called(item: &Item, name: &Text) -> bool
    ensures { result ≡ spec.has_name name.now (mention.output_name item.now) }
{
    match item {
        Item::Plain(_, Some(own)) => name == own,
        Item::Plain(expression, None) => match referred(expression) {
            Some(reference) => *name == reference.column,
            None => false,
        },
        Item::Agg(_, Some(own)) => name == own,
        Item::Agg(_, None) => false,
    }
}

fn some_is_called(items: &[Item], name: &Text) -> bool
    ensures { result ≡ list_any (spec.has_name name.now) (map mention.output_name items.now) }
{
    for item in items {
        if is_called(item, name) {
            return true;
        }
    }
    false
}

fn item_named(items: &[Item], name: &Text) -> Found
    requires { length items.now ≤ 64 }
    ensures { result ≡ spec.output_named (map mention.output_name items.now) name.now }
{
    for (place, item) in items.iter().enumerate() {
        if is_called(item, name) {
            if some_is_called(&items[place + 1..], name) {
                return Found::Several;
            }
            return Found::One(place as u32);
        }
    }
    Found::Absent
}

/// Which output a name of ORDER BY names.
pub fn output_named(scope: &[Heading], query: &Select, name: &Text) -> Found
    requires room { length scope.now ≤ 256 }
    requires form { IsTrue (is_select query.now) }
    ensures { result ≡ spec.output_named (mention.output_names scope.now query.now) name.now }
{
    if query.star {
        named(scope, &None, name)
    } else {
        item_named(query.items.as_slice(), name)
    }
}

pub fn output_count(scope: &[Heading], query: &Select) -> usize
    ensures { result ≡ length (mention.output_names scope.now query.now) }
{
    if query.star {
        scope.len()
    } else {
        query.items.len()
    }
}

fn has_aggregate(items: &[Item]) -> bool
    ensures { result ≡ list_any form.is_aggregate items.now }
{
    for item in items {
        if let Item::Agg(_, _) = item {
            return true;
        }
    }
    false
}

/// Whether the query has GROUP BY or an aggregate.
pub fn is_grouped(query: &Select) -> bool
    ensures { result ≡ form.is_grouped query.now }
{
    match query.groups.as_slice() {
        [] => has_aggregate(query.items.as_slice()),
        [_, ..] => true,
    }
}

/// The columns of GROUP BY.
pub fn keys_of(alloc: Global, scope: &[Heading], groups: &[Ref]) -> Result<Vec<u32>, NoMemory>
    requires { length scope.now ≤ 256 }
    ensures { IfOk result (λ keys. keys.items ≡ form.keys_of scope.now groups.now) }
{
    let mut keys = Vec::new(alloc);
    for group in groups {
        keys.push(column_of(scope, group))?;
    }
    Ok(keys)
}

fn place_in(numbers: &[u32], number: u32) -> Option<u32>
    requires { length numbers.now ≤ 64 }
    ensures { result ≡ position_from (nat_eq number) 0 numbers.now }
{
    for (place, other) in numbers.iter().enumerate() {
        if number == *other {
            return Some(place as u32);
        }
    }
    None
}

/// The place among the keys of the group column that an expression is, if it is one.
pub fn key_place(scope: &[Heading], keys: &[u32], expression: &Expr) -> Option<u32>
    requires room { length scope.now ≤ 256 }
    requires few { length keys.now ≤ 64 }
    ensures { result ≡ place_of_key scope.now keys.now expression.now }
{
    match referred(expression) {
        Some(reference) => place_in(keys, column_of(scope, reference)),
        None => None,
    }
}

fn bound_agg(alloc: Global, scope: &[Heading], aggregate: &Agg) -> Result<BoundAgg, NoMemory>
    requires { length scope.now ≤ 256 }
    ensures { IfOk result (λ bound. bound ≡ form.bound_agg_of scope.now aggregate.now) }
{
    match aggregate {
        Agg::CountAll => Ok(BoundAgg::CountAll),
        Agg::Count(argument) => Ok(BoundAgg::Count(bound_expr(alloc, scope, argument)?)),
        Agg::Sum(argument) => Ok(BoundAgg::Sum(bound_expr(alloc, scope, argument)?)),
        Agg::Min(argument) => Ok(BoundAgg::Min(bound_expr(alloc, scope, argument)?)),
        Agg::Max(argument) => Ok(BoundAgg::Max(bound_expr(alloc, scope, argument)?)),
    }
}

/// The aggregates among the items.
pub fn aggs_of(alloc: Global, scope: &[Heading], items: &[Item]) -> Result<Vec<BoundAgg>, NoMemory>
    requires { length scope.now ≤ 256 }
    ensures { IfOk result (λ aggs. aggs.items ≡ form.aggs_of scope.now items.now) }
{
    let mut aggs = Vec::new(alloc);
    for item in items {
        if let Item::Agg(aggregate, _) = item {
            aggs.push(bound_agg(alloc, scope, aggregate)?)?;
        }
    }
    Ok(aggs)
}

fn items_of(alloc: Global, scope: &[Heading], items: &[Item]) -> Result<Vec<BoundExpr>, NoMemory>
    requires { length scope.now ≤ 256 }
    ensures bound { IfOk result (λ bound. bound.items ≡ form.items_of scope.now items.now) }
    ensures few { IfOk result (λ bound. length bound.items ≤ length items.now) }
{
    let mut bound = Vec::new(alloc);
    for item in items {
        if let Item::Plain(expression, _) = item {
            bound.push(bound_expr(alloc, scope, expression)?)?;
        }
    }
    Ok(bound)
}

fn all_columns(alloc: Global, scope: &[Heading]) -> Result<Vec<BoundExpr>, NoMemory>
    requires { length scope.now ≤ 256 }
    ensures bound { IfOk result (λ bound. bound.items ≡ form.all_columns scope.now) }
    ensures few { IfOk result (λ bound. length bound.items ≤ length scope.now) }
{
    let mut bound = Vec::new(alloc);
    for (place, _) in scope.iter().enumerate() {
        bound.push(BoundExpr::Column(place as u32))?;
    }
    Ok(bound)
}

/// What a row of a query without groups is projected to.
pub fn projection(
    alloc: Global,
    scope: &[Heading],
    query: &Select,
) -> Result<Vec<BoundExpr>, NoMemory>
    requires room { length scope.now ≤ 256 }
    requires form { IsTrue (is_select query.now) }
    ensures bound { IfOk result (λ bound. bound.items ≡ form.projection scope.now query.now) }
    ensures few { IfOk result (λ bound. length bound.items ≤ 256) }
{
    if query.star {
        all_columns(alloc, scope)
    } else {
        items_of(alloc, scope, query.items.as_slice())
    }
}

/// The place of each item in a group's row.
pub fn group_outputs(
    alloc: Global,
    scope: &[Heading],
    keys: &[u32],
    items: &[Item],
) -> Result<Vec<u32>, NoMemory>
    requires room { length scope.now ≤ 256 }
    requires few { length keys.now ≤ 64 }
    requires items { length items.now ≤ 64 }
    ensures { IfOk result (λ outputs. outputs.items ≡
        form.group_outputs scope.now keys.now (length keys.now) items.now) }
{
    let mut outputs = Vec::new(alloc);
    let mut next = keys.len() as u32;
    for item in items {
        match item {
            Item::Plain(expression, _) => {
                outputs.push(key_place(scope, keys, expression).unwrap_or(0))?;
            }
            Item::Agg(_, _) => {
                outputs.push(next)?;
                next += 1;
            }
        }
    }
    Ok(outputs)
}

/// The numbers of the items.
pub fn item_numbers(alloc: Global, items: &[BoundExpr]) -> Result<Vec<u32>, NoMemory>
    requires { length items.now ≤ 256 }
    ensures { IfOk result (λ numbers. numbers.items ≡ form.numbers_from 0 items.now) }
{
    let mut numbers = Vec::new(alloc);
    for (number, _) in items.iter().enumerate() {
        numbers.push(number as u32)?;
    }
    Ok(numbers)
}

fn output_of(scope: &[Heading], query: &Select, by: &OrderBy) -> u32
    requires room { length scope.now ≤ 256 }
    requires form { IsTrue (is_select query.now) }
    ensures { result ≡ form.output_of (mention.output_names scope.now query.now) by.now }
{
    match by {
        OrderBy::Name(name) => match output_named(scope, query, name) {
            Found::One(place) => place,
            Found::Absent | Found::Several => 0,
        },
        OrderBy::Number(number) => {
            if *number > output_count(scope, query) as u64 {
                return 0;
            }
            number.saturating_sub(1) as u32
        }
    }
}

/// The keys of ORDER BY as places of outputs.
pub fn order_of(alloc: Global, scope: &[Heading], query: &Select) -> Result<Vec<Key>, NoMemory>
    requires room { length scope.now ≤ 256 }
    requires form { IsTrue (is_select query.now) }
    ensures { IfOk result (λ keys. keys.items ≡
        map (form.order_key (mention.output_names scope.now query.now)) query.now.order) }
{
    let mut keys = Vec::new(alloc);
    for key in query.order.as_slice() {
        keys.push(Key {
            column: output_of(scope, query, &key.by),
            descending: key.descending,
        })?;
    }
    Ok(keys)
}
