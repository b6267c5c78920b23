//! A pool of servers, by one thread and by eight at once.
ghost use Rattle.std.specs.Prelude.{◌≡◌, ◌+◌, [], All, IfOk};
ghost use Rattle.server_pool.specs.Passes.{IsPassOf, held, parts};
ghost use Rattle.sharing_tests.specs.Borrowers.{HoldsNone};

use lake_outside::DeadPort;
use lake_values::NoMemory;
use server_pool::{Pool, PoolPass};
use std::alloc::Global;
use std::sync::Wait;
use std::test::Fail;
use std::thread;
use std::thread::Threads;

const PORTS: usize = 5;

const BORROWERS: usize = 8;

const TURNS: u32 = 10_000;

#[test]
fn a_pool_of_no_port_lends_nothing(rt: HostRuntime) -> Result<(), Fail> {
    let ports: Vec<DeadPort> = Vec::new(rt.alloc());
    let Ok((pool, mut pass)) = Pool::new(&rt, rt.alloc(), ports) else {
        return Err(NoMemory)?;
    };
    let found = pool.check_out(&rt, &mut pass);
    assert_eq!(rt; found.is_none(), true);
    Ok(())
}

#[test]
fn a_server_is_lent_to_one(rt: HostRuntime) -> Result<(), Fail> {
    let ports = vec![in rt.alloc(); DeadPort::new()]?;
    let Ok((pool, mut pass)) = Pool::new(&rt, rt.alloc(), ports) else {
        return Err(NoMemory)?;
    };
    let found = pool.check_out(&rt, &mut pass);
    assert_eq!(rt; found.is_some(), true);
    let other = pool.check_out(&rt, &mut pass);
    assert_eq!(rt; other.is_none(), true);
    if let Some(server) = found {
        pool.give_back(&rt, &mut pass, server);
    }
    let again = pool.check_out(&rt, &mut pass);
    assert_eq!(rt; again.map(|server| server.number), Some(1));
    Ok(())
}

/// Borrows a server so many times.
fn borrow(rt: &impl Wait, pool: &Pool<DeadPort>, pass: &mut PoolPass<DeadPort>)
    requires { HoldsNone pool.now 1 pass.old }
    ensures { HoldsNone pool.now 1 pass.new }
{
    for _ in 0..TURNS {
        borrow_once(rt, pool, pass);
    }
}

fn borrow_once(rt: &impl Wait, pool: &Pool<DeadPort>, pass: &mut PoolPass<DeadPort>)
    requires { HoldsNone pool.now 1 pass.old }
    ensures { HoldsNone pool.now 1 pass.new }
{
    if let Some(server) = pool.check_out(rt, pass) {
        pool.give_back(rt, pass, server);
    }
}

fn borrow_all<R: Threads + Wait + Sync>(
    rt: &R,
    pool: &Pool<DeadPort>,
    passes: &mut [PoolPass<DeadPort>],
)
    requires { All (HoldsNone pool.now 1) passes.old }
    ensures { All (HoldsNone pool.now 1) passes.new }
{
    thread::for_each_mut(rt, passes, BORROWERS, &|_, pass| borrow(rt, pool, pass));
}

/// Hands a part of the pool to each borrower, and takes the parts back when all have borrowed.
fn lend_to_all<R: Threads + Wait + Sync>(
    rt: &R,
    alloc: Global,
    pool: &Pool<DeadPort>,
    pass: &mut PoolPass<DeadPort>,
) -> Result<(), NoMemory>
    requires { HoldsNone pool.now 17 pass.old }
    ensures { IfOk result (λ _. HoldsNone pool.now 17 pass.new) }
{
    let mut passes = Vec::new(alloc);
    for _ in 0..BORROWERS {
        passes.push(pool.split(pass)?)?;
    }
    borrow_all(rt, pool, passes.as_mut_slice());
    for other in passes {
        take_back(pool, pass, other);
    }
    Ok(())
}

fn take_back(pool: &Pool<DeadPort>, pass: &mut PoolPass<DeadPort>, other: PoolPass<DeadPort>)
    requires pass { IsPassOf pool.now pass.old × (held pass.old ≡ []) }
    requires other { HoldsNone pool.now 1 other }
    ensures pass { IsPassOf pool.now pass.new × (held pass.new ≡ []) }
    ensures parts { parts pass.new ≡ parts pass.old + 1 }
{
    pool.join(pass, other);
}

#[test]
fn eight_threads_borrow_from_five(rt: HostRuntime) -> Result<(), Fail> {
    let mut ports = Vec::new(rt.alloc());
    for _ in 0..PORTS {
        ports.push(DeadPort::new())?;
    }
    let Ok((pool, mut pass)) = Pool::new(&rt, rt.alloc(), ports) else {
        return Err(NoMemory)?;
    };
    lend_to_all(&rt, rt.alloc(), &pool, &mut pass)?;
    let closed = pool.close(&rt, pass);
    assert_eq!(rt; closed.len(), PORTS);
    Ok(())
}
