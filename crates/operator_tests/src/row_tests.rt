//! What expressions are on small rows, and the operators that go row by row.

use crate::expressions::{compared, guard, number, product};
use crate::texts::{outcome, packet, row};
use lake_values::{Row, Text, Value, ValueRef};
use op_rows::{OpFault, eval, filter, holds, project, top};
use row_evaluation::{Beside, Overflow, is_null, look, meets, value_at};
use row_packet::Packet;
use sql_model::{BoundExpr, CmpOp, Key};
use sqlite_items::Boxed;
use std::alloc::Global;
use std::test::Fail;

#[test]
fn rows_side_by_side_lend_their_values(rt: HostRuntime) -> Result<(), Fail> {
    let (left, right) = (row(rt.alloc(), "7 NULL 'pear")?, row(rt.alloc(), "9")?);
    let beside = Beside {
        left: &left,
        right: &right,
    };
    assert!(rt; matches!(value_at(&beside, 0), ValueRef::Int(7)));
    assert!(rt; is_null(value_at(&beside, 1)));
    assert!(rt; matches!(value_at(&beside, 2), ValueRef::Text("pear")));
    assert!(rt; matches!(value_at(&beside, 3), ValueRef::Int(9)));
    assert!(rt; is_null(value_at(&&left, 3)));
    Ok(())
}

/// The second column is 1.
fn second_is_one(alloc: Global) -> Result<BoundExpr, Fail> {
    compared(alloc, CmpOp::Eq, BoundExpr::Column(1), number(1))
}

/// The third column is `pea` or above.
fn third_is_above(alloc: Global) -> Result<BoundExpr, Fail> {
    let text = BoundExpr::Literal(Value::Text(Text::new(alloc, "pea")?));
    compared(alloc, CmpOp::Ge, BoundExpr::Column(2), text)
}

fn truth(condition: &BoundExpr, row: &Row) -> Result<Option<bool>, Overflow> {
    Ok(look(condition, row)?.truth)
}

#[test]
fn unknown_is_not_true(rt: HostRuntime) -> Result<(), Fail> {
    let alloc = rt.alloc();
    let row = row(alloc, "7 NULL 'pear")?;
    let unknown = second_is_one(alloc)?;
    assert_eq!(rt; truth(&unknown, &row)?, None);
    let negated = BoundExpr::Not(Boxed::new(alloc, unknown)?);
    assert_eq!(rt; truth(&negated, &row)?, None);
    let right = Boxed::new(alloc, third_is_above(alloc)?)?;
    let either = BoundExpr::Or(Boxed::new(alloc, negated)?, right);
    assert!(rt; meets(&[either], &row)?);
    Ok(())
}

/// The first column of a row times a number, and whether the second one is 1.
fn evaluated(alloc: Global, factor: i64, words: &str) -> Result<(Option<i64>, bool), Fail> {
    let packet = packet(alloc, words)?;
    let view = packet.view();
    if view.rows() == 0 {
        return Err(Fail::new("no row"));
    }
    let holds = holds(&second_is_one(alloc)?, &view, 0)?;
    match eval(alloc, &product(alloc, factor)?, &view, 0) {
        Ok(Value::Int(number)) => Ok((Some(number), holds)),
        Err(OpFault::Arith) => Ok((None, holds)),
        _ => Err(Fail::new("no number")),
    }
}

#[test]
fn evaluates_on_a_row(rt: HostRuntime) -> Result<(), Fail> {
    for (factor, words, wanted) in [
        (2, "-4 1 / 3 2", (Some(-8), true)),
        (i64::MAX, "1 NULL", (Some(i64::MAX), false)),
        (i64::MAX, "-4 5", (None, false)),
    ] {
        assert_eq!(rt; evaluated(rt.alloc(), factor, words)?, wanted, "{words}");
    }
    Ok(())
}

/// The rows whose second column is above 0, and whose first one, times a factor, is above a number.
fn filtered(alloc: Global, packet: &Packet, factor: i64, least: i64) -> Result<Vec<u8>, Fail> {
    let guards = guard(alloc, CmpOp::Gt, BoundExpr::Column(1), number(0))?;
    let product = product(alloc, factor)?;
    let computed = [compared(alloc, CmpOp::Gt, product, number(least))?];
    outcome(
        alloc,
        filter(alloc, &packet.view(), guards.as_slice(), &computed),
    )
}

#[test]
fn filters_by_guards_and_then_by_computed_conditions(rt: HostRuntime) -> Result<(), Fail> {
    let packet = packet(rt.alloc(), "3 1 / 9 0 / 1 7 / 3 NULL / 2 2 / 3 1")?;
    for (factor, least, wanted) in [
        (2, 3, "(3,1)(2,2)(3,1)"),
        (i64::MAX / 3, 0, "(3,1)(1,7)(2,2)(3,1)"),
        (i64::MAX / 2, 0, "arithmetic"),
    ] {
        let kept = filtered(rt.alloc(), &packet, factor, least)?;
        assert_eq!(rt; str::from_utf8(kept.as_slice())?, wanted, "{factor}");
    }
    Ok(())
}

/// The second column, the first one times a factor, and the second one again.
fn projected(alloc: Global, packet: &Packet, factor: i64) -> Result<Vec<u8>, Fail> {
    let product = product(alloc, factor)?;
    let items = [BoundExpr::Column(1), product, BoundExpr::Column(1)];
    outcome(alloc, project(alloc, &packet.view(), &items))
}

#[test]
fn projects_each_row(rt: HostRuntime) -> Result<(), Fail> {
    let packet = packet(rt.alloc(), "3 1 / NULL 2")?;
    for (factor, wanted) in [(5, "(1,15,1)(2,NULL,2)"), (i64::MAX, "arithmetic")] {
        let made = projected(rt.alloc(), &packet, factor)?;
        assert_eq!(rt; str::from_utf8(made.as_slice())?, wanted, "{factor}");
    }
    Ok(())
}

const FALLING: Key = Key {
    column: 0,
    descending: true,
};

#[test]
fn puts_rows_in_order_up_to_a_limit(rt: HostRuntime) -> Result<(), Fail> {
    let alloc = rt.alloc();
    let packet = packet(alloc, "1 9 / NULL 2 / 5 1 / 1 3")?;
    for (keys, limit, wanted) in [
        ([FALLING].as_slice(), None, "(5,1)(1,3)(1,9)(NULL,2)"),
        (&[FALLING], Some(2), "(5,1)(1,3)"),
        (&[], Some(9), "(NULL,2)(1,3)(1,9)(5,1)"),
    ] {
        let first = top(alloc, &packet.view(), keys, limit)?;
        let first = outcome(alloc, Ok(first))?;
        assert_eq!(rt; str::from_utf8(first.as_slice())?, wanted);
    }
    Ok(())
}
