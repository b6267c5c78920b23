//! The groups of all rows, made of what their parts keep.

ghost use Rattle.std.specs.Prelude.{◌≡◌, ◌<◌, ◌+◌, ◌+ℤ◌, ◌*ℤ◌, ◌^◌, ◌++◌, All, pos, true, false, map, drop, length, IfOk, OnOk, OnErr, IsErrOf};
ghost use Rattle.std.specs.List.{list_all, range_with_len};
ghost use Rattle.lake_values.specs.Order.{number_of};
ghost use Rattle.lake_values.specs.declared.values.Value.TheVariants as member;
ghost use Rattle.sql_model.specs.Evaluation.{is_64_bits};
ghost use Rattle.sql_model.specs.Groups.{sum_of_both, summary};
ghost use Rattle.row_evaluation.specs.Aggregates.{kept_by, totalled, IsShortTotal};
ghost use Rattle.row_evaluation.specs.declared.rows.EvaluationFault.TheVariants as fault;
ghost use Rattle.row_packet.specs.Packets.{rows_of_all};
ghost use Rattle.row_evaluation.specs.declared.faults.OpFault.TheVariants as op;
ghost use Rattle.op_aggregate.specs.Fits.{final_fits, finals_fit, group_fits};
ghost use Rattle.op_aggregate.specs.Grouping.{first_key as key_of_first};
ghost use Rattle.op_aggregate.specs.Partials as spec;

use crate::groups::{first_key, grouped};
use crate::partials::{HALF, columns_kept};
use lake_values::{NoMemory, Row, Value, ValueRef};
use row_evaluation::{
    Cells, EvaluationFault, Extreme, OpFault, Overflow, PacketRow, Total, extreme_of, put_rows,
    total_of,
};
use row_packet::Packet;
use sql_model::{BoundAgg, BoundExpr};
use std::alloc::Global;

/// The groups of the rows of all parts, in the order of their first rows: each group's key, and behind it its
/// aggregates. The first columns of the parts are the keys, and the others what `partial` keeps. Without key columns
/// there is one group, also where there is no part.
pub fn finish(
    alloc: Global,
    parts: &[Packet],
    keys: u32,
    aggs: &[BoundAgg],
) -> Result<Packet, OpFault>
    requires columns { keys + spec.kept_width aggs.now < 2 ^ 32 }
    requires widths { All (λ part. part.width ≡ keys + spec.kept_width aggs.now) parts.now }
    ensures width { IfOk result (λ made. made.width ≡ keys + length aggs.now) }
    ensures rows { IfOk result (λ made. made.rows ≡ spec.finished_rows keys aggs.now (rows_of_all parts.now)) }
    ensures fits { IfOk result (λ _. finals_fit keys aggs.now (rows_of_all parts.now) ≡ true) }
    ensures arithmetic { IsErrOf result op.Arith → finals_fit keys aggs.now (rows_of_all parts.now) ≡ false }
    ensures few { IsErrOf result op.TooManyRows → ⊥ }
{
    let rows = rows_of_parts(alloc, parts)?;
    let columns = columns_up_to(alloc, keys)?;
    let key_columns = columns.as_slice();
    let all_rows = rows.as_slice();
    let groups = grouped(alloc, key_columns, all_rows)?;
    let lent = groups.as_slice();
    Ok(finished_groups(alloc, key_columns, aggs, lent)?)
}

/// For each group its key and its aggregates.
fn finished_groups<C: Cells>(
    alloc: Global,
    columns: &[u32],
    aggs: &[BoundAgg],
    groups: &[Vec<&C>],
) -> Result<Packet, EvaluationFault>
    requires few { length columns.now + spec.kept_width aggs.now < 2 ^ 32 }
    requires wide { All (λ group. length (key_of_first columns.now (map (λ row. C.cells row.now) group.items)) ≡ length columns.now) groups.now }
    ensures width { IfOk result (λ made. made.width ≡ length columns.now + length aggs.now) }
    ensures rows { IfOk result (λ made. made.rows ≡ map (λ group. key_of_first columns.now (map (λ row. C.cells row.now) group.items) ++ spec.finals aggs.now (map (drop (length columns.now)) (map (λ row. C.cells row.now) group.items))) groups.now) }
    ensures fits { IfOk result (λ _. list_all (λ group. group_fits aggs.now (map (drop (length columns.now)) (map (λ row. C.cells row.now) group.items))) groups.now ≡ true) }
    ensures overflow { IsErrOf result fault.Overflow → list_all (λ group. group_fits aggs.now (map (drop (length columns.now)) (map (λ row. C.cells row.now) group.items))) groups.now ≡ false }
{
    let mut made = Packet::empty(alloc, columns.len() as u32 + aggs.len() as u32);
    for group in groups {
        made.push(finished_row(alloc, columns, aggs, group.as_slice())?)?;
    }
    Ok(made)
}

/// The rows of all packets, in their order.
fn rows_of_parts(alloc: Global, parts: &[Packet]) -> Result<Vec<PacketRow<'_>>, NoMemory>
    ensures { IfOk result (λ rows. rows.items ≡ rows_of_all parts.now) }
{
    let mut rows = Vec::new(alloc);
    for part in parts {
        put_rows(&part.view(), &mut rows)?;
    }
    Ok(rows)
}

fn columns_up_to(alloc: Global, count: u32) -> Result<Vec<u32>, NoMemory>
    ensures { IfOk result (λ columns. columns.items ≡ range_with_len 0 count) }
{
    let mut columns = Vec::with_capacity(alloc, count as usize)?;
    for column in 0..count {
        columns.push(column)?;
    }
    Ok(columns)
}

/// The key of a group, and behind it its aggregates, of what its parts keep.
fn finished_row<C: Cells>(
    alloc: Global,
    columns: &[u32],
    aggs: &[BoundAgg],
    group: &[C],
) -> Result<Row, EvaluationFault>
    requires { length columns.now + spec.kept_width aggs.now < 2 ^ 32 }
    ensures row { IfOk result (λ row. row ≡ key_of_first columns.now (map C.cells group.now) ++ spec.finals aggs.now (map (drop (length columns.now)) (map C.cells group.now))) }
    ensures fits { IfOk result (λ _. group_fits aggs.now (map (drop (length columns.now)) (map C.cells group.now)) ≡ true) }
    ensures overflow { IsErrOf result fault.Overflow → group_fits aggs.now (map (drop (length columns.now)) (map C.cells group.now)) ≡ false }
{
    let mut values = first_key(alloc, columns, group)?;
    let mut place = columns.len() as u32;
    for agg in aggs {
        values.push(final_value(alloc, agg, place, group)?)?;
        place += columns_kept(agg);
    }
    Ok(Row::from_values(values))
}

/// An aggregate over a group, of what its parts keep of it from a column on.
fn final_value<C: Cells>(
    alloc: Global,
    agg: &BoundAgg,
    place: u32,
    rows: &[C],
) -> Result<Value, EvaluationFault>
    requires { place + spec.columns_kept agg.now < 2 ^ 32 }
    ensures value { IfOk result (λ value. value ≡ spec.final agg.now (map (drop place) (map C.cells rows.now))) }
    ensures fits { IfOk result (λ _. final_fits agg.now (map (drop place) (map C.cells rows.now)) ≡ true) }
    ensures overflow { IsErrOf result fault.Overflow → final_fits agg.now (map (drop place) (map C.cells rows.now)) ≡ false }
{
    match agg {
        BoundAgg::CountAll => final_count(place, rows),
        BoundAgg::Count(_) => final_count(place, rows),
        BoundAgg::Sum(_) => final_sum(alloc, place, rows),
        BoundAgg::Min(_) => final_extreme(alloc, Extreme::Least, place, rows),
        BoundAgg::Max(_) => final_extreme(alloc, Extreme::Greatest, place, rows),
    }
}

/// The sum of the counts of the parts.
fn final_count<C: Cells>(place: u32, rows: &[C]) -> Result<Value, EvaluationFault>
    ensures value { IfOk result (λ value. value ≡ member.Int (spec.total (spec.column 0 (map (drop place) (map C.cells rows.now))))) }
    ensures fits { IfOk result (λ _. is_64_bits (spec.total (spec.column 0 (map (drop place) (map C.cells rows.now)))) ≡ true) }
    ensures overflow { IsErrOf result fault.Overflow → is_64_bits (spec.total (spec.column 0 (map (drop place) (map C.cells rows.now)))) ≡ false }
{
    let counts = BoundExpr::Column(place);
    let total = total_of(&counts, rows)?;
    number_value(total)
}

fn number_value(total: Total<'_>) -> Result<Value, EvaluationFault>
    ensures value { IfOk result (λ value. value ≡ member.Int (number_of (totalled total.entry))) }
    ensures fits { IfOk result (λ _. is_64_bits (number_of (totalled total.entry)) ≡ true) }
    ensures overflow { IsErrOf result fault.Overflow → is_64_bits (number_of (totalled total.entry)) ≡ false }
{
    match i64::try_from(total.number()) {
        Ok(number) => Ok(Value::Int(number)),
        Err(_) => Err(EvaluationFault::Overflow),
    }
}

/// The sum of the sums of the parts, whose halves are summed apart.
fn final_sum<C: Cells>(alloc: Global, place: u32, rows: &[C]) -> Result<Value, EvaluationFault>
    requires { place + 1 < 2 ^ 32 }
    ensures value { IfOk result (λ value. value ≡ spec.whole (summary sum_of_both (spec.column 0 (map (drop place) (map C.cells rows.now)))) (summary sum_of_both (spec.column 1 (map (drop place) (map C.cells rows.now))))) }
    ensures fits { IfOk result (λ _. is_64_bits (number_of (spec.whole (summary sum_of_both (spec.column 0 (map (drop place) (map C.cells rows.now)))) (summary sum_of_both (spec.column 1 (map (drop place) (map C.cells rows.now)))))) ≡ true) }
    ensures overflow { IsErrOf result fault.Overflow → is_64_bits (number_of (spec.whole (summary sum_of_both (spec.column 0 (map (drop place) (map C.cells rows.now)))) (summary sum_of_both (spec.column 1 (map (drop place) (map C.cells rows.now)))))) ≡ false }
{
    let (highs, lows) = (BoundExpr::Column(place), BoundExpr::Column(place + 1));
    let high = total_of(&highs, rows)?;
    let low = total_of(&lows, rows)?;
    whole(alloc, high, low)
}

/// The sum that the sums of both halves stand for.
fn whole(alloc: Global, high: Total<'_>, low: Total<'_>) -> Result<Value, EvaluationFault>
    requires { IsShortTotal high }
    ensures value { IfOk result (λ value. value ≡ spec.whole (totalled high.entry) (totalled low.entry)) }
    ensures fits { IfOk result (λ _. is_64_bits (number_of (spec.whole (totalled high.entry) (totalled low.entry))) ≡ true) }
    ensures overflow { IsErrOf result fault.Overflow → is_64_bits (number_of (spec.whole (totalled high.entry) (totalled low.entry))) ≡ false }
{
    match high {
        Total::AtMostOne(ValueRef::Null) => Ok(Value::Null),
        Total::AtMostOne(ValueRef::Int(number)) => {
            Ok(whole_number(i128::from(number), low.number())?)
        }
        Total::AtMostOne(ValueRef::Text(text)) => Ok(ValueRef::Text(text).to_value(alloc)?),
        Total::Several(number) => Ok(whole_number(number, low.number())?),
    }
}

/// The number in which 2^63 is so often, and besides it the low number. It has 64 bits exactly where, once the low
/// number is below 2^63, 2^63 is in it 0 or -1 times.
fn whole_number(high: i128, low: i128) -> Result<Value, Overflow>
    ensures value { IfOk result (λ value. value ≡ member.Int ((high *ℤ pos (2 ^ 63)) +ℤ low)) }
    ensures fits { IfOk result (λ _. is_64_bits ((high *ℤ pos (2 ^ 63)) +ℤ low) ≡ true) }
    ensures overflow { OnErr result (is_64_bits ((high *ℤ pos (2 ^ 63)) +ℤ low) ≡ false) }
{
    let rest = low.rem_euclid(HALF) as i64;
    let Some(times) = high.checked_add(low.div_euclid(HALF)) else {
        return Err(Overflow);
    };
    if times == 0 {
        return Ok(Value::Int(rest));
    }
    if times == -1 {
        return Ok(Value::Int(rest - i64::MAX - 1));
    }
    Err(Overflow)
}

/// The least or greatest of the values of the parts.
fn final_extreme<C: Cells>(
    alloc: Global,
    extreme: Extreme,
    place: u32,
    rows: &[C],
) -> Result<Value, EvaluationFault>
    ensures value { IfOk result (λ value. value ≡ summary (kept_by extreme) (spec.column 0 (map (drop place) (map C.cells rows.now)))) }
    ensures no_overflow { IsErrOf result fault.Overflow → ⊥ }
{
    let values = BoundExpr::Column(place);
    Ok(extreme_of(extreme, &values, rows)?.to_value(alloc)?)
}
