//! What a part of the rows keeps of each group.

ghost use Rattle.std.specs.Prelude.{All, ◌≡◌, ◌≤ℤ◌, ◌+ℤ◌, ◌+◌, ◌*◌, ◌^◌, ◌<◌, ◌≤◌, ◌-◌, [], ◌∷◌, ◌++◌, pos, true, false, map, length, IfOk, OnOk, IsErrOf};
ghost use Rattle.std.specs.List.{flat_map, list_all};
ghost use Rattle.lake_values.specs.Order.{number_of};
ghost use Rattle.lake_values.specs.Lending.{owned, IsShort};
ghost use Rattle.lake_values.specs.declared.values.Value.TheVariants as member;
ghost use Rattle.row_evaluation.specs.Aggregates.{totalled, IsShortTotal};
ghost use Rattle.row_evaluation.specs.declared.rows.EvaluationFault.TheVariants as fault;
ghost use Rattle.row_evaluation.specs.declared.faults.OpFault.TheVariants as op;
ghost use Rattle.op_aggregate.specs.Fits.{part_fits, arguments_fit};
ghost use Rattle.op_aggregate.specs.Grouping.{first_key as key_of_first};
ghost use Rattle.op_aggregate.specs.Partials as spec;

use crate::groups::{first_key, grouped};
use lake_values::{NoMemory, Row, Value, ValueRef};
use row_evaluation::{
    Cells, EvaluationFault, OpFault, Total, aggregate, push_value, rows_of, total_of,
};
use row_packet::{Packet, PacketView};
use sql_model::BoundAgg;
use std::alloc::Global;

/// For each group of the rows, in the order of their first rows, its key and what is kept of its aggregates: of a SUM
/// two columns, of any other one. Without key columns there is one row, also where the packet has none.
pub fn partial(
    alloc: Global,
    packet: &PacketView<'_>,
    keys: &[u32],
    aggs: &[BoundAgg],
) -> Result<Packet, OpFault>
    requires { length keys.now + spec.kept_width aggs.now < 2 ^ 32 }
    ensures width { IfOk result (λ made. made.width ≡ length keys.now + spec.kept_width aggs.now) }
    ensures rows { IfOk result (λ made. made.rows ≡ spec.partial_rows keys.now aggs.now packet.now.rows) }
    ensures fits { IfOk result (λ _. arguments_fit aggs.now packet.now.rows ≡ true) }
    ensures arithmetic { IsErrOf result op.Arith → arguments_fit aggs.now packet.now.rows ≡ false }
    ensures few { IsErrOf result op.TooManyRows → ⊥ }
{
    let rows = rows_of(alloc, packet)?;
    let groups = grouped(alloc, keys, rows.as_slice())?;
    Ok(partial_groups(alloc, keys, aggs, groups.as_slice())?)
}

/// For each group its key and what is kept of its aggregates.
fn partial_groups<C: Cells>(
    alloc: Global,
    keys: &[u32],
    aggs: &[BoundAgg],
    groups: &[Vec<&C>],
) -> Result<Packet, EvaluationFault>
    requires few { length keys.now + spec.kept_width aggs.now < 2 ^ 32 }
    requires wide { All (λ group. length (key_of_first keys.now (map (λ row. C.cells row.now) group.items)) ≡ length keys.now) groups.now }
    ensures width { IfOk result (λ made. made.width ≡ length keys.now + spec.kept_width aggs.now) }
    ensures rows { IfOk result (λ made. made.rows ≡ map (λ group. key_of_first keys.now (map (λ row. C.cells row.now) group.items) ++ flat_map (spec.kept (map (λ row. C.cells row.now) group.items)) aggs.now) groups.now) }
    ensures fits { IfOk result (λ _. list_all (λ group. arguments_fit aggs.now (map (λ row. C.cells row.now) group.items)) groups.now ≡ true) }
    ensures overflow { IsErrOf result fault.Overflow → list_all (λ group. arguments_fit aggs.now (map (λ row. C.cells row.now) group.items)) groups.now ≡ false }
{
    let mut made = Packet::empty(alloc, part_width(keys.len() as u32, aggs) as u32);
    for group in groups {
        made.push(partial_row(alloc, keys, aggs, group.as_slice())?)?;
    }
    Ok(made)
}

/// How many columns a part has: the keys, and what is kept of the aggregates. A packet has fewer than 2^32.
pub fn part_width(keys: u32, aggs: &[BoundAgg]) -> u64
    ensures { result ≡ keys + spec.kept_width aggs.now }
{
    let mut width = u64::from(keys);
    for agg in aggs {
        width += u64::from(columns_kept(agg));
    }
    width
}

/// How many columns are kept of an aggregate.
pub fn columns_kept(agg: &BoundAgg) -> u32
    ensures value { result ≡ spec.columns_kept agg.now }
    ensures few { result ≤ 2 }
{
    match agg {
        BoundAgg::Sum(_) => 2,
        BoundAgg::CountAll | BoundAgg::Count(_) | BoundAgg::Min(_) | BoundAgg::Max(_) => 1,
    }
}

/// The key of a group, and behind it what is kept of its aggregates.
fn partial_row<C: Cells>(
    alloc: Global,
    keys: &[u32],
    aggs: &[BoundAgg],
    group: &[C],
) -> Result<Row, EvaluationFault>
    ensures row { IfOk result (λ row. row ≡ key_of_first keys.now (map C.cells group.now) ++ flat_map (spec.kept (map C.cells group.now)) aggs.now) }
    ensures fits { IfOk result (λ _. arguments_fit aggs.now (map C.cells group.now) ≡ true) }
    ensures overflow { IsErrOf result fault.Overflow → arguments_fit aggs.now (map C.cells group.now) ≡ false }
{
    // No memory holds 2^63 rows, so the count of a part is a number of 64 bits.
    if MOST < group.len() {
        return Err(EvaluationFault::NoMemory);
    }
    let mut values = first_key(alloc, keys, group)?;
    for agg in aggs {
        put_kept(alloc, agg, group, &mut values)?;
    }
    Ok(Row::from_values(values))
}

const MOST: usize = 0x7fff_ffff_ffff_ffff;

/// Puts what a part keeps of an aggregate at the end.
fn put_kept<C: Cells>(
    alloc: Global,
    agg: &BoundAgg,
    rows: &[C],
    values: &mut Vec<Value>,
) -> Result<(), EvaluationFault>
    requires { length rows.now < 2 ^ 63 }
    ensures kept { OnOk result (values.new.items ≡ values.old.items ++ spec.kept (map C.cells rows.now) agg.now) }
    ensures fits { OnOk result (part_fits (map C.cells rows.now) agg.now ≡ true) }
    ensures overflow { IsErrOf result fault.Overflow → part_fits (map C.cells rows.now) agg.now ≡ false }
{
    if let BoundAgg::Sum(argument) = agg {
        let total = total_of(argument, rows)?;
        put_halves(alloc, total, values)?;
        return Ok(());
    }
    let value = aggregate(alloc, agg, rows)?;
    values.push(value)?;
    Ok(())
}

/// 2^63: the low one of the two numbers of a sum is below it.
pub const HALF: i128 = 0x8000_0000_0000_0000;

/// Puts a sum in two numbers at the end: how often `HALF` is in it, and what is left.
fn put_halves(alloc: Global, total: Total<'_>, values: &mut Vec<Value>) -> Result<(), NoMemory>
    requires short { IsShortTotal total }
    requires most { number_of (totalled total) ≤ℤ pos ((2 ^ 63 - 1) * 2 ^ 63) }
    requires least { pos 0 ≤ℤ (number_of (totalled total) +ℤ pos ((2 ^ 63 - 1) * 2 ^ 63)) }
    ensures { OnOk result (values.new.items ≡ values.old.items ++ spec.halves (totalled total.entry)) }
{
    match total {
        Total::AtMostOne(ValueRef::Int(number)) => put_number(i128::from(number), values),
        Total::AtMostOne(ValueRef::Null) => put_alone(alloc, ValueRef::Null, values),
        Total::AtMostOne(ValueRef::Text(text)) => put_alone(alloc, ValueRef::Text(text), values),
        Total::Several(number) => put_number(number, values),
    }
}

fn put_number(number: i128, values: &mut Vec<Value>) -> Result<(), NoMemory>
    requires most { number ≤ℤ pos ((2 ^ 63 - 1) * 2 ^ 63) }
    requires least { pos 0 ≤ℤ (number +ℤ pos ((2 ^ 63 - 1) * 2 ^ 63)) }
    ensures { OnOk result (values.new.items ≡ values.old.items ++ spec.halves (member.Int number)) }
{
    values.push(Value::Int(number.div_euclid(HALF) as i64))?;
    values.push(Value::Int(number.rem_euclid(HALF) as i64))?;
    Ok(())
}

/// A value that is no number stands alone.
fn put_alone(alloc: Global, value: ValueRef<'_>, values: &mut Vec<Value>) -> Result<(), NoMemory>
    requires { IsShort value }
    ensures { OnOk result (values.new.items ≡ values.old.items ++ owned value.entry ∷ member.Null ∷ []) }
{
    push_value(alloc, values, value)?;
    values.push(Value::Null)?;
    Ok(())
}
