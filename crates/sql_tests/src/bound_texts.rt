//! Bound forms as texts: expressions in postfix order, columns as `#place`, and a quote in front of a text alone.

use lake_values::{Text, Value};
use sql_model::{ArithOp, Bound, BoundAgg, BoundExpr, BoundExprs, CmpOp, Numbers, Query};
use std::test::Fail;

fn arithmetic_text(operator: ArithOp) -> &'static str {
    match operator {
        ArithOp::Add => " +",
        ArithOp::Sub => " -",
        ArithOp::Mul => " *",
    }
}

fn comparison_text(comparison: CmpOp) -> &'static str {
    match comparison {
        CmpOp::Eq => " =",
        CmpOp::Ne => " <>",
        CmpOp::Lt => " <",
        CmpOp::Le => " <=",
        CmpOp::Gt => " >",
        CmpOp::Ge => " >=",
    }
}

/// What stands behind the operands.
fn operator_text(expression: &BoundExpr) -> &'static str {
    match expression {
        BoundExpr::Column(_) | BoundExpr::Literal(_) => "",
        BoundExpr::Arith(operator, _, _) => arithmetic_text(*operator),
        BoundExpr::Compare(comparison, _, _) => comparison_text(*comparison),
        BoundExpr::IsNull(_) => " ISNULL",
        BoundExpr::Not(_) => " NOT",
        BoundExpr::And(_, _) => " AND",
        BoundExpr::Or(_, _) => " OR",
    }
}

fn put_value(out: &mut String, value: &Value) -> Result<(), Fail> {
    match value {
        Value::Null => write!(out, "NULL")?,
        Value::Int(number) => write!(out, "{number}")?,
        Value::Text(text) => write!(out, "'{}", text.as_str())?,
    }
    Ok(())
}

fn put_expr(out: &mut String, expression: &BoundExpr) -> Result<(), Fail> {
    match expression {
        BoundExpr::Column(place) => write!(out, "#{place}")?,
        BoundExpr::Literal(value) => put_value(out, value)?,
        BoundExpr::IsNull(operand) | BoundExpr::Not(operand) => put_expr(out, operand.get())?,
        BoundExpr::Arith(_, left, right)
        | BoundExpr::Compare(_, left, right)
        | BoundExpr::And(left, right)
        | BoundExpr::Or(left, right) => {
            put_expr(out, left.get())?;
            out.push(' ')?;
            put_expr(out, right.get())?;
        }
    }
    out.push_str(operator_text(expression))?;
    Ok(())
}

fn put_exprs(out: &mut String, expressions: &BoundExprs) -> Result<(), Fail> {
    out.push('[')?;
    for expression in expressions.as_slice() {
        put_expr(out, expression)?;
        out.push(';')?;
    }
    out.push(']')?;
    Ok(())
}

fn put_agg(out: &mut String, aggregate: &BoundAgg) -> Result<(), Fail> {
    let (name, argument) = match aggregate {
        BoundAgg::CountAll => ("COUNT *", None),
        BoundAgg::Count(argument) => ("COUNT ", Some(argument)),
        BoundAgg::Sum(argument) => ("SUM ", Some(argument)),
        BoundAgg::Min(argument) => ("MIN ", Some(argument)),
        BoundAgg::Max(argument) => ("MAX ", Some(argument)),
    };
    out.push_str(name)?;
    if let Some(argument) = argument {
        put_expr(out, argument)?;
    }
    out.push(';')?;
    Ok(())
}

fn put_numbers(out: &mut String, numbers: &Numbers) -> Result<(), Fail> {
    for number in numbers.as_slice() {
        write!(out, " {number}")?;
    }
    Ok(())
}

fn put_sources(out: &mut String, query: &Query) -> Result<(), Fail> {
    for table in query.tables.as_slice() {
        write!(out, "{} ", table.as_str())?;
    }
    write!(out, "widths")?;
    put_numbers(out, &query.widths)?;
    for pairs in query.pairs.as_slice() {
        write!(out, " join")?;
        for (left, right) in pairs.as_slice() {
            write!(out, " {left}={right}")?;
        }
    }
    Ok(())
}

fn put_query(out: &mut String, query: &Query) -> Result<(), Fail> {
    put_sources(out, query)?;
    write!(out, " guards ")?;
    for guards in query.guards.as_slice() {
        put_exprs(out, guards)?;
    }
    write!(out, " computed ")?;
    put_exprs(out, &query.computed)?;
    write!(out, " items ")?;
    put_exprs(out, &query.items)?;
    write!(out, " keys")?;
    put_numbers(out, &query.keys)?;
    write!(out, " aggs [")?;
    for aggregate in query.aggs.as_slice() {
        put_agg(out, aggregate)?;
    }
    write!(out, "] outputs")?;
    put_numbers(out, &query.outputs)?;
    write!(out, " order")?;
    for key in query.order.as_slice() {
        let sign = if key.descending { '-' } else { '+' };
        write!(out, " {sign}{}", key.column)?;
    }
    Ok(())
}

fn put_change(
    out: &mut String,
    verb: &str,
    table: &Text,
    guards: &BoundExprs,
    computed: &BoundExprs,
) -> Result<(), Fail> {
    write!(out, "{verb} {} guards ", table.as_str())?;
    put_exprs(out, guards)?;
    write!(out, " computed ")?;
    put_exprs(out, computed)
}

pub fn put_bound(out: &mut String, bound: &Bound) -> Result<(), Fail> {
    match bound {
        Bound::Select(query) => put_query(out, query)?,
        Bound::Insert {
            table,
            rows,
            column,
        } => {
            let count = rows.rows().len();
            write!(out, "insert {} rows {count} by {column}", table.as_str())?;
        }
        Bound::Update {
            table,
            guards,
            computed,
            items,
            column,
        } => {
            put_change(out, "update", table, guards, computed)?;
            write!(out, " items ")?;
            put_exprs(out, items)?;
            write!(out, " by {column}")?;
        }
        Bound::Delete {
            table,
            guards,
            computed,
        } => put_change(out, "delete", table, guards, computed)?,
        Bound::Named { table } => write!(out, "named {}", table.as_str())?,
    }
    Ok(())
}
