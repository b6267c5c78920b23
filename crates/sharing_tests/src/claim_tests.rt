//! Claims by two seats, and by 16 threads at once.
ghost use Rattle.std.specs.Prelude.{◌≡◌, ◌<◌, ◌≤◌, All, IfOk, vec_len};
ghost use Rattle.race_claim.specs.Seats.{IsSeatOf, task_count};
ghost use Rattle.sharing_tests.specs.Racers.{IsReady};

use lake_values::NoMemory;
use race_claim::{ClaimSeat, Claimed, Claims};
use std::alloc::Global;
use std::test::Fail;
use std::thread;
use std::thread::Threads;

const TASKS: u32 = 1_000;

const RACERS: u32 = 16;

/// A thread that claims every task for the attempt of its number.
#[derive(Drop)]
pub struct Racer {
    pub seat: ClaimSeat,
    pub attempt: u32,
    /// Which tasks it won, from task 1.
    pub won: Vec<bool>,
}

#[test]
fn the_first_claim_wins(rt: HostRuntime) -> Result<(), Fail> {
    let (claims, mut seat) = Claims::new(rt.alloc(), 2)?;
    let mut other = claims.split(&mut seat);
    assert_eq!(rt; claims.claim(&mut seat, 1, 1), Claimed::Won);
    assert_eq!(rt; claims.claim(&mut other, 1, 2), Claimed::Lost { to: 1 });
    assert_eq!(rt; claims.claim(&mut seat, 1, 1), Claimed::Lost { to: 1 });
    assert_eq!(rt; claims.holder(&mut other, 1), Some(1));
    assert_eq!(rt; claims.holder(&mut other, 2), None);
    claims.join(&mut seat, other);
    Ok(())
}

fn racers(alloc: Global, claims: &Claims, seat: &mut ClaimSeat) -> Result<Vec<Racer>, NoMemory>
    requires seat { IsSeatOf claims.now seat.old }
    requires tasks { task_count claims.now ≡ 1000 }
    ensures seat { IsSeatOf claims.now seat.new }
    ensures ready { IfOk result
        (λ racers. All (λ r. IsReady claims.now r.seat r.attempt) racers.items) }
{
    let mut racers = Vec::new(alloc);
    for attempt in 1..RACERS + 1 {
        let seat = claims.split(seat);
        let won = Vec::new(alloc);
        racers.push(Racer { seat, attempt, won })?;
    }
    Ok(racers)
}

/// Claims every task. It ends early where memory runs out.
fn race(claims: &Claims, racer: &mut Racer)
    requires { IsReady claims.now racer.old.seat racer.old.attempt }
{
    for task in 1..TASKS + 1 {
        let claimed = claims.claim(&mut racer.seat, task, racer.attempt);
        if racer.won.push(claimed == Claimed::Won).is_err() {
            return;
        }
    }
}

fn race_all(rt: &(impl Threads + Sync), claims: &Claims, racers: &mut [Racer])
    requires { All (λ r. IsReady claims.now r.seat r.attempt) racers.old }
{
    thread::for_each_mut(
        rt,
        racers,
        RACERS as usize,
        &|_, racer: &mut Racer| race(claims, racer),
    );
}

fn winners(racers: &[Racer], task: usize) -> usize {
    racers
        .iter()
        .filter(|racer| racer.won.get(task) == Some(&true))
        .count()
}

#[test]
fn each_word_has_one_winner(rt: HostRuntime) -> Result<(), Fail> {
    let (claims, mut seat) = Claims::new(rt.alloc(), TASKS)?;
    let mut racers = racers(rt.alloc(), &claims, &mut seat)?;
    race_all(&rt, &claims, racers.as_mut_slice());
    for task in 0..TASKS as usize {
        assert_eq!(rt; winners(racers.as_slice(), task), 1);
    }
    Ok(())
}
