//! Threads that take turns at a value in a turnstile.
ghost use Rattle.std.specs.Prelude.{◌≡◌, ◌+◌, ◌*◌, ◌<◌, ◌≤◌, All, IfOk, vec_len};
ghost use Rattle.bench.specs.Takers.{HasSessionsFrom, IsTaker};
ghost use Rattle.turnstile.specs.Passes.{turns_left};

use crate::stops::Stop;
use std::alloc::Global;
use std::rt::Clock;
use std::sync::Wait;
use std::thread;
use std::thread::Threads;
use std::time::{Duration, Instant};
use turnstile::{Chronicled, Pass, Turnstile};

/// How many threads there are at most.
const MOST: usize = 16;

/// A value without entries.
#[derive(Drop)]
pub struct Bare;

impl Chronicled for Bare {
    type Entry = ();

    ghost use Rattle.std.specs.Prelude.{[]};
    ghost use Rattle.bench.specs.Takers.{no_room};

    ghost entries = { λ b. [] };

    ghost session = { λ e. 0 };

    ghost has_room = { no_room };

    fn length(&self) -> u64 {
        0
    }
}

/// A thread with turns.
#[derive(Drop)]
pub struct Taker {
    pub pass: Pass<Bare>,
    pub turns: u32,
}

pub fn measure<R>(rt: &R, turns: u32) -> Result<(), Stop>
where
    R: Print + Eprint + Clock + AllocGlobal + Threads + Wait + Sync,
{
    for threads in [1u32, 4, 16] {
        let time = time_of(rt, threads.min(16), turns)?;
        let all = threads as u128 * turns as u128;
        let rate = all * 1_000_000 / time.as_micros().max(1);
        println!(rt; "{threads} threads of {turns} turns: {all} turns")?;
        eprintln!(rt; "{threads} threads: {rate} turns/s")?;
    }
    Ok(())
}

fn time_of<R>(rt: &R, threads: u32, turns: u32) -> Result<Duration, Stop>
where
    R: Clock + AllocGlobal + Threads + Wait + Sync,
    requires { threads ≤ 16 }
{
    let all = threads as u64 * turns as u64;
    let Ok((turnstile, mut pass)) = Turnstile::new(rt.alloc(), Bare, all) else {
        return Err(Stop::NoMemory);
    };
    let mut takers = takers(rt.alloc(), &turnstile, &mut pass, threads, turns)?;
    let start = Instant::now(rt)?;
    take_all(rt, &turnstile, takers.as_mut_slice());
    Ok(start.elapsed(rt)?)
}

/// So many threads with so many turns each, each for a session.
fn takers(
    alloc: Global,
    turnstile: &Turnstile<Bare>,
    pass: &mut Pass<Bare>,
    threads: u32,
    turns: u32,
) -> Result<Vec<Taker>, Stop>
    requires threads { threads ≤ 16 }
    requires pass { IsTaker turnstile.now pass.old (threads * turns) }
    requires sessions { HasSessionsFrom 1 pass.old }
    ensures { IfOk result (λ v. All (λ t. IsTaker turnstile.now t.pass t.turns) v.items) }
{
    let mut takers = Vec::new(alloc);
    for session in 1..threads + 1 {
        takers.push(new_taker(turnstile, pass, session, turns))?;
    }
    Ok(takers)
}

fn new_taker(turnstile: &Turnstile<Bare>, pass: &mut Pass<Bare>, session: u32, turns: u32) -> Taker
    requires pass { IsTaker turnstile.now pass.old (turns_left pass.old) }
    requires left { turns ≤ turns_left pass.old }
    requires session { HasSessionsFrom session pass.old }
    requires number { session ≤ 16 }
    ensures pass { IsTaker turnstile.now pass.new (turns_left pass.new) }
    ensures left { turns_left pass.new + turns ≡ turns_left pass.old }
    ensures sessions { HasSessionsFrom (session + 1) pass.new }
    ensures taker { IsTaker turnstile.now result.pass result.turns }
{
    let pass = turnstile.split(pass, turns as u64, session);
    Taker { pass, turns }
}

fn take_all<R: Threads + Wait + Sync>(rt: &R, turnstile: &Turnstile<Bare>, takers: &mut [Taker])
    requires { All (λ t. IsTaker turnstile.now t.pass t.turns) takers.old }
{
    thread::for_each_mut(
        rt,
        takers,
        MOST,
        &|_, taker: &mut Taker| { take_turns(rt, turnstile, &mut taker.pass, taker.turns) },
    );
}

fn take_turns(rt: &impl Wait, turnstile: &Turnstile<Bare>, pass: &mut Pass<Bare>, turns: u32)
    requires { IsTaker turnstile.now pass.old turns }
{
    for _turn in 0..turns {
        take_turn(rt, turnstile, pass);
    }
}

fn take_turn(rt: &impl Wait, turnstile: &Turnstile<Bare>, pass: &mut Pass<Bare>)
    requires pass { IsTaker turnstile.now pass.old (turns_left pass.old) }
    requires left { 0 < turns_left pass.old }
    ensures pass { IsTaker turnstile.now pass.new (turns_left pass.new) }
    ensures left { turns_left pass.new + 1 ≡ turns_left pass.old }
{
    let value = turnstile.enter(rt, pass);
    turnstile.leave(pass, value);
}
