//! A pool of servers, which are ports with numbers, for any number of threads. Each server is in
//! the pool's queue or checked out by a thread, once. A thread has a pass, which knows the servers
//! that it holds and by how much the counts of faults rose of those that it gave back. The passes
//! of a pool have 17 parts together, so a pass with all of them speaks for all threads: when the
//! pool is closed, the counts of its ports are those at the start and the pass's rise.
#![tactic(auto)]

ghost use Rattle.std.specs.Prelude.{◌≡◌, ◌+◌, ◌<◌, [], IfOk, IfErr, IfSome, IfNone, map, vec_len};
ghost use Rattle.server_pool.specs.Pooled.{HoldsAll, IsFixed, IsHeldAt, at_last, first_sum, gave};
ghost use Rattle.server_pool.specs.Pooled.{joined};
ghost use Rattle.server_pool.specs.Pooled.{less_a_part, one_part, start_of, times, took, weigh};
ghost use Rattle.server_pool.specs.Pooled.{whole};
ghost use Rattle.server_pool.specs.Passes.{IsFirstPassOf, IsMarked, IsPassOf, held, knows, parts};
ghost use Rattle.server_pool.specs.Passes.{rise};
ghost use Rattle.server_pool.specs.Passes.{server_count, starts};

mod closing;
mod pool;
mod room;
mod rule;

use closing::{listed, place_all, room_of};
use crossbeam_queue::RuledArrayQueue;
use lake_outside::Port;
use lake_values::NoMemory;
pub use pool::{Pool, PoolPass};
use room::{Room, kept};
pub use rule::Server;
use rule::{Adds, Gives, Parts, Takes};
use std::alloc::Global;
use std::sync::Wait;

impl<P: Port> Pool<P> {
    /// A pool of these ports, which are numbered from 1 in their order, and the pass that has all
    /// parts. It makes the room that `close` needs. More ports than numbers of 32 bits are refused
    /// like want of memory; then the ports come back.
    pub fn new<R: Wait>(
        rt: &R,
        alloc: Global,
        ports: Vec<P>,
    ) -> Result<(Pool<P>, PoolPass<P>), (Vec<P>, NoMemory)>
        ensures count { IfOk result (λ r. server_count r.0 ≡ vec_len ports) }
        ensures pass { IfOk result (λ r. IsPassOf r.0 r.1) }
        ensures knows { IfOk result
            (λ r. knows r.1 ≡ whole (map (start_of P.faults P.deletions) ports.items)) }
        ensures back { IfErr result (λ r. r.0.items ≡ ports.items) }
    {
        let Ok((pool, mut pass)) = Pool::empty(alloc, ports.len()) else {
            return Err((ports, NoMemory));
        };
        pool.fill(rt, &mut pass, ports);
        Ok((pool, pass))
    }

    // A pool that so many servers are to join.
    fn empty(alloc: Global, servers: usize) -> Result<(Pool<P>, PoolPass<P>), NoMemory>
        ensures count { IfOk result (λ r. server_count r.0 ≡ servers) }
        ensures pass { IfOk result (λ r. IsFirstPassOf r.0 r.1 × (knows r.1 ≡ whole [])) }
    {
        let Ok(count) = u32::try_from(servers) else {
            return Err(NoMemory);
        };
        let room = kept(alloc, servers)?;
        let (queue, pass) = RuledArrayQueue::ruled(alloc, servers.max(1))?;
        let pool = Pool {
            queue,
            servers: count,
            room,
        };
        Ok((pool, PoolPass { pass }))
    }

    fn fill<R: Wait>(&self, rt: &R, pass: &mut PoolPass<P>, ports: Vec<P>)
        requires pass { IsFirstPassOf self.now pass.old × (knows pass.old ≡ whole []) }
        requires count { vec_len ports ≡ server_count self.now }
        ensures pass { IsPassOf self.now pass.new }
        ensures knows { knows pass.new ≡ whole (map (start_of P.faults P.deletions) ports.items) }
    {
        let mut number = 0u32;
        for port in ports {
            number += 1;
            let server = Server { number, port };
            let Ok(()) = self.queue.push_as::<Adds, R>(rt, &mut pass.pass, server) else {
                unreachable!()
            };
        }
    }

    /// Takes a server out of the pool's queue; none only where the queue was empty at one moment of
    /// the call.
    pub fn check_out<R: Wait>(&self, rt: &R, pass: &mut PoolPass<P>) -> Option<Server<P>>
        requires pass { IsPassOf self.now pass.old }
        ensures pass { IsPassOf self.now pass.new }
        ensures taken { IfSome result (λ s. knows pass.new ≡ took P.faults (knows pass.old) s) }
        ensures fixed { IfSome result (λ s. IsFixed P.deletions (starts pass.old) s) }
        ensures not_held { IfSome result (λ s. times s.number (held pass.old) ≡ 0) }
        ensures kept { IfNone result (knows pass.new ≡ knows pass.old) }
        ensures all_held { IfNone result (parts pass.old ≡ 17 → HoldsAll (knows pass.old)) }
    {
        self.queue.pop_as::<Takes, R>(rt, &mut pass.pass)
    }

    /// Puts a server back, which the pass holds. There is always room for it.
    pub fn give_back<R: Wait>(&self, rt: &R, pass: &mut PoolPass<P>, server: Server<P>)
        requires pass { IsPassOf self.now pass.old }
        requires held { IsHeldAt server.number (P.faults server.port) (knows pass.old) }
        requires fixed { IsFixed P.deletions (starts pass.old) server }
        ensures pass { IsPassOf self.now pass.new }
        ensures given { knows pass.new ≡ gave P.faults (knows pass.old) server }
    {
        let Ok(()) = self.queue.push_as::<Gives, R>(rt, &mut pass.pass, server) else {
            unreachable!()
        };
    }

    /// A pass with one of this pass's parts, which holds nothing.
    pub fn split(&self, pass: &mut PoolPass<P>) -> Result<PoolPass<P>, NoMemory>
        requires pass { IsPassOf self.now pass.old }
        requires parts { 1 < parts pass.old }
        ensures passes { IsPassOf self.now pass.new × IfOk result (λ part. IsPassOf self.now part) }
        ensures kept { IfErr result (λ _. knows pass.new ≡ knows pass.old) }
        ensures left { IfOk result (λ _. knows pass.new ≡ less_a_part (knows pass.old)) }
        ensures part { IfOk result (λ part. knows part ≡ one_part (knows pass.old)) }
    {
        let part = self.queue.another::<Parts>(&mut pass.pass);
        Ok(PoolPass { pass: part })
    }

    /// Takes in another pass, with its parts and all that it holds.
    pub fn join(&self, pass: &mut PoolPass<P>, other: PoolPass<P>)
        requires passes { IsPassOf self.now pass.old × IsPassOf self.now other }
        ensures pass { IsPassOf self.now pass.new }
        ensures both { knows pass.new ≡ joined (knows pass.old) (knows other) }
    {
        self.queue.absorb::<Parts>(&mut pass.pass, other.pass);
    }

    /// The ports, in the order of their numbers.
    pub fn close<R: Wait>(self, rt: &R, mut pass: PoolPass<P>) -> Vec<P>
        requires pass { IsPassOf self pass }
        requires all { (parts pass ≡ 17) × (held pass ≡ []) }
        ensures count { vec_len result ≡ server_count self }
        ensures sum { weigh P.faults result.items ≡ first_sum (starts pass) + rise pass }
        ensures last { IsMarked pass → 0 < weigh (λ port. at_last (P.faults port)) result.items }
        ensures deletions { map P.deletions result.items ≡ map (λ s. s.deletions) (starts pass) }
    {
        let Pool {
            queue,
            servers: _,
            room,
        } = self;
        let Room { mut places, ports } = room_of(room);
        place_all(rt, &queue, &mut pass, &mut places);
        listed(places, ports)
    }
}
