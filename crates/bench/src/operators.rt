//! Packets joined, grouped and put in order.

ghost use Rattle.std.specs.Prelude.{◌≡◌, IfOk};

use crate::stops::Stop;
use lake_values::{Row, Value};
use op_aggregate::{finish, partial};
use op_join::join;
use op_rows::top;
use row_packet::Packet;
use sql_model::{BoundAgg, BoundExpr, Key};
use std::alloc::Global;
use std::rt::Clock;
use std::time::Instant;

pub fn measure(
    rt: &(impl Print + Eprint + Clock + AllocGlobal),
    joined: u32,
    others: u32,
) -> Result<(), Stop> {
    measure_join(rt, joined)?;
    measure_groups(rt, others, 10)?;
    measure_groups(rt, others, others / 10)?;
    measure_top(rt, others)
}

// A join of as many keys as rows.
fn measure_join(rt: &(impl Print + Eprint + Clock + AllocGlobal), count: u32) -> Result<(), Stop> {
    let alloc = rt.alloc();
    let left = scrambled(alloc, count, count, 7)?;
    let right = scrambled(alloc, count, count, 1)?;
    let start = Instant::now(rt)?;
    let budget = u64::from(count) * 7;
    let made = join(alloc, &left.view(), &right.view(), &[(0, 0)], &[], budget)?;
    let time = start.elapsed(rt)?.as_millis();
    let rows = made.view().rows();
    println!(rt; "join of {count} with {count} rows: {rows} rows")?;
    eprintln!(rt; "join: {time} ms")?;
    Ok(())
}

// Rows of so many keys, counted and summed, as one part.
fn measure_groups(
    rt: &(impl Print + Eprint + Clock + AllocGlobal),
    count: u32,
    keys: u32,
) -> Result<(), Stop> {
    let alloc = rt.alloc();
    let packet = scrambled(alloc, count, keys, 7)?;
    let aggs = [BoundAgg::CountAll, BoundAgg::Sum(BoundExpr::Column(1))];
    let start = Instant::now(rt)?;
    let parts = [partial(alloc, &packet.view(), &[0], &aggs)?];
    let made = finish(alloc, &parts, 1, &aggs)?;
    let time = start.elapsed(rt)?.as_millis();
    let groups = made.view().rows();
    println!(rt; "group of {count} rows: {groups} groups")?;
    eprintln!(rt; "group into {groups}: {time} ms")?;
    Ok(())
}

// All rows in order, and the first hundred of them.
fn measure_top(rt: &(impl Print + Eprint + Clock + AllocGlobal), count: u32) -> Result<(), Stop> {
    let alloc = rt.alloc();
    let packet = scrambled(alloc, count, count, 7)?;
    let keys = [Key {
        column: 0,
        descending: true,
    }];
    let start = Instant::now(rt)?;
    let all = top(alloc, &packet.view(), &keys, None)?;
    let whole = start.elapsed(rt)?.as_millis();
    let start = Instant::now(rt)?;
    let first = top(alloc, &packet.view(), &keys, Some(100))?;
    let part = start.elapsed(rt)?.as_millis();
    let (all, first) = (all.view().rows(), first.view().rows());
    println!(rt; "top of {count} rows: {all} rows, of which {first} within a limit of 100")?;
    eprintln!(rt; "top: {whole} ms")?;
    eprintln!(rt; "top within a limit: {part} ms")?;
    Ok(())
}

// Rows of one of so many keys, far from those beside it, and a number.
fn scrambled(alloc: Global, count: u32, keys: u32, step: u32) -> Result<Packet, Stop>
    ensures { IfOk result (λ packet. packet.width ≡ 2) }
{
    let mut packet = Packet::empty(alloc, 2);
    for number in 0..count {
        let key = u64::from(number)
            .wrapping_mul(u64::from(step))
            .wrapping_mul(7919)
            % u64::from(keys.max(1));
        let values = vec![in alloc;
            Value::Int(key.cast_signed()),
            Value::Int(i64::from(number)),
        ]?;
        packet.push(Row::from_values(values))?;
    }
    Ok(packet)
}
