ghost use Rattle.std.specs.Prelude.{◌≡◌, ◌+ℤ◌, ◌≤ℤ◌, pos, ◌-◌, ◌*◌, ◌^◌, true, false, length, map, IfOk, OnErr, IsErrOf};
ghost use Rattle.lake_values.specs.Order.{number_of};
ghost use Rattle.sql_model.specs.Evaluation.{is_64_bits};
ghost use Rattle.sql_model.specs.Groups as spec;
ghost use Rattle.row_evaluation.specs.declared.rows.EvaluationFault.TheVariants as fault;
ghost use Rattle.lake_values.specs.Lending.{owned, IsShort};
ghost use Rattle.row_evaluation.specs.Aggregates.{counted, kept_by, totalled, IsShortTotal};

use crate::cells::{Cells, is_null};
use crate::evaluation::{Overflow, look};
use crate::rows::EvaluationFault;
use lake_values::{Value, ValueRef, compare_lent};
use sql_model::{BoundAgg, BoundExpr};
use std::alloc::Global;

/// What an aggregate is over the rows of a group. Its argument is evaluated on each row.
pub fn aggregate<C: Cells>(
    alloc: Global,
    aggregate: &BoundAgg,
    rows: &[C],
) -> Result<Value, EvaluationFault>
    ensures value { IfOk result (λ value. value ≡ spec.aggregate (map C.cells rows.now) aggregate.now) }
    ensures fits { IfOk result (λ _. spec.aggregate_fits (map C.cells rows.now) aggregate.now ≡ true) }
    ensures overflow { IsErrOf result fault.Overflow → spec.aggregate_fits (map C.cells rows.now) aggregate.now ≡ false }
{
    match aggregate {
        BoundAgg::CountAll => Ok(count_value(rows.len())?),
        BoundAgg::Count(argument) => Ok(count_value(count_of(argument, rows)?)?),
        BoundAgg::Sum(argument) => total_value(alloc, total_of(argument, rows)?),
        BoundAgg::Min(argument) => {
            Ok(extreme_of(Extreme::Least, argument, rows)?.to_value(alloc)?)
        },
        BoundAgg::Max(argument) => {
            Ok(extreme_of(Extreme::Greatest, argument, rows)?.to_value(alloc)?)
        },
    }
}

fn count_value(count: usize) -> Result<Value, Overflow>
    ensures value { IfOk result (λ value. value ≡ spec.number count) }
    ensures fits { IfOk result (λ _. is_64_bits (pos count) ≡ true) }
    ensures overflow { OnErr result (is_64_bits (pos count) ≡ false) }
{
    match i64::try_from(count) {
        Ok(number) => Ok(Value::Int(number)),
        Err(_) => Err(Overflow),
    }
}

/// On how many rows the argument isn't NULL.
fn count_of<C: Cells>(argument: &BoundExpr, rows: &[C]) -> Result<usize, Overflow>
    ensures value { IfOk result (λ count. count ≡ counted (spec.values_on argument.now (map C.cells rows.now))) }
    ensures fits { IfOk result (λ _. spec.argument_fits (map C.cells rows.now) argument.now ≡ true) }
    ensures overflow { OnErr result (spec.argument_fits (map C.cells rows.now) argument.now ≡ false) }
{
    let mut count = 0;
    for row in rows {
        if !is_null(look(argument, row)?.value) {
            count += 1;
        }
    }
    Ok(count)
}

/// The sum of the values so far. The values of a bound SUM are numbers; as its definition has it, a lone value stays
/// what it is, and among several a text counts as 0.
#[derive(Clone, Copy)]
pub enum Total<'a> {
    AtMostOne(ValueRef<'a>),
    Several(i128),
}

/// The exact sum of the argument's values. Fewer than 2^64 numbers of 64 bits don't leave 128 bits.
pub fn total_of<'a, C: Cells>(argument: &'a BoundExpr, rows: &'a [C]) -> Result<Total<'a>, Overflow>
    ensures short { IfOk result IsShortTotal }
    ensures value { IfOk result (λ total. totalled total ≡ spec.summary spec.sum_of_both (spec.values_on argument.now (map C.cells rows.now))) }
    ensures most { IfOk result (λ total. number_of (totalled total) ≤ℤ pos (length rows.now * 2 ^ 63)) }
    ensures least { IfOk result (λ total. pos 0 ≤ℤ (number_of (totalled total) +ℤ pos (length rows.now * 2 ^ 63))) }
    ensures fits { IfOk result (λ _. spec.argument_fits (map C.cells rows.now) argument.now ≡ true) }
    ensures overflow { OnErr result (spec.argument_fits (map C.cells rows.now) argument.now ≡ false) }
{
    let mut total = Total::AtMostOne(ValueRef::Null);
    for row in rows {
        total = total.plus(look(argument, row)?.value);
    }
    Ok(total)
}

impl<'a> Total<'a> {
    fn plus(self, value: ValueRef<'a>) -> Total<'a>
        requires above { number_of (totalled self) ≤ℤ pos (2 ^ 127 - 2 ^ 63) }
        requires total { IsShortTotal self }
        requires value { IsShort value }
        requires below { pos 0 ≤ℤ (number_of (totalled self) +ℤ pos (2 ^ 127 - 2 ^ 63)) }
        ensures short { IsShortTotal result }
        ensures value { totalled result ≡ spec.joined_by spec.sum_of_both (totalled self.entry) (owned value.entry) }
        ensures up { number_of (totalled result) ≤ℤ (number_of (totalled self.entry) +ℤ pos (2 ^ 63)) }
        ensures down { number_of (totalled self.entry) ≤ℤ (number_of (totalled result) +ℤ pos (2 ^ 63)) }
    {
        if is_null(value) {
            return self;
        }
        if let Total::AtMostOne(ValueRef::Null) = self {
            return Total::AtMostOne(value);
        }
        Total::Several(self.number() + i128::from(number_in(value)))
    }

    pub fn number(self) -> i128
        ensures { result ≡ number_of (totalled self.entry) }
    {
        match self {
            Total::AtMostOne(value) => i128::from(number_in(value)),
            Total::Several(number) => number,
        }
    }
}

fn number_in(value: ValueRef<'_>) -> i64
    ensures { result ≡ number_of (owned value.entry) }
{
    match value {
        ValueRef::Int(number) => number,
        ValueRef::Null | ValueRef::Text(_) => 0,
    }
}

fn total_value(alloc: Global, total: Total<'_>) -> Result<Value, EvaluationFault>
    requires { IsShortTotal total }
    ensures value { IfOk result (λ value. value ≡ totalled total.entry) }
    ensures fits { IfOk result (λ _. is_64_bits (number_of (totalled total.entry)) ≡ true) }
    ensures overflow { IsErrOf result fault.Overflow → is_64_bits (number_of (totalled total.entry)) ≡ false }
{
    match total {
        Total::AtMostOne(value) => Ok(value.to_value(alloc)?),
        Total::Several(number) => match i64::try_from(number) {
            Ok(number) => Ok(Value::Int(number)),
            Err(_) => Err(EvaluationFault::Overflow),
        },
    }
}

/// Which of two values stays.
#[derive(Clone, Copy)]
pub enum Extreme {
    Least,
    Greatest,
}

/// The least or greatest of the argument's values. NULL is none of them.
pub fn extreme_of<'a, C: Cells>(
    extreme: Extreme,
    argument: &'a BoundExpr,
    rows: &'a [C],
) -> Result<ValueRef<'a>, Overflow>
    ensures short { IfOk result IsShort }
    ensures value { IfOk result (λ value. owned value ≡ spec.summary (kept_by extreme) (spec.values_on argument.now (map C.cells rows.now))) }
    ensures fits { IfOk result (λ _. spec.argument_fits (map C.cells rows.now) argument.now ≡ true) }
    ensures overflow { OnErr result (spec.argument_fits (map C.cells rows.now) argument.now ≡ false) }
{
    let mut kept = ValueRef::Null;
    for row in rows {
        kept = extreme.of_both(kept, look(argument, row)?.value);
    }
    Ok(kept)
}

impl Extreme {
    fn of_both<'a>(self, kept: ValueRef<'a>, value: ValueRef<'a>) -> ValueRef<'a>
        requires kept { IsShort kept }
        requires value { IsShort value }
        ensures short { IsShort result }
        ensures value { owned result ≡ spec.joined_by (kept_by self) (owned kept.entry) (owned value.entry) }
    {
        if is_null(kept) {
            return value;
        }
        if is_null(value) {
            return kept;
        }
        let is_above = compare_lent(kept, value).is_gt();
        match self {
            Extreme::Least => if is_above { value } else { kept },
            Extreme::Greatest => if is_above { kept } else { value },
        }
    }
}
