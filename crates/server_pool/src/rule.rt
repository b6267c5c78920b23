//! The rule of a pool: what each pass knows, and what each step tells.
ghost use Rattle.std.specs.Prelude.{ℕ, ◌≡◌};

use crossbeam_queue::protocol::{Join, Lesson, Outcome, Protocol, Split};
use lake_outside::Port;
use lake_values::Name;
use std::collections::LinkedList;

/// A way to the store, with its number in the pool, from 1.
#[derive(Drop)]
pub struct Server<P> {
    pub number: u32,
    pub port: P,
}

/// What a port told when the pool was made. No value of it is made.
pub struct Start {
    pub faults: u64,
    pub deletions: LinkedList<Name>,
}

/// What a pass knows. No value of it is made.
pub struct Hand {
    /// Its parts of the pool, of 17.
    pub parts: u64,
    /// The servers that it holds, each with its count of faults at the check-out.
    pub held: LinkedList<(u64, u64)>,
    /// By how much the counts of the servers that it gave back rose while it held them.
    pub rise: u64,
    /// How often it gave back a server whose count stood at its last value.
    pub lasts: u64,
    /// The pool's ports as they were at the start, in order of number.
    pub starts: LinkedList<Start>,
}

/// Each server is in the queue or held, once.
pub struct EachOnce;

impl<P: Port> Protocol<Server<P>, Hand> for EachOnce {
    ghost use Rattle.server_pool.specs.Pooled.{Pooled, whole};
    ghost use Rattle.std.specs.Prelude.{[]};

    ghost holds = { Pooled P.faults P.deletions };

    ghost first = { whole [] };
}

/// A server joins the queue while the pool is made.
pub(crate) struct Adds;

impl<P: Port> Outcome<Server<P>, Hand> for Adds {
    ghost use Rattle.server_pool.specs.Pooled.{added};

    ghost then = { λ v x w. w ≡ added P.faults P.deletions v x };
}

impl<P: Port> Lesson<Server<P>, Hand> for Adds {
    ghost use Rattle.server_pool.specs.Pooled.{IsRoomToAdd};

    ghost fact = { IsRoomToAdd };
}

/// A check-out. Where the queue is empty the view stays.
pub(crate) struct Takes;

impl<P: Port> Outcome<Server<P>, Hand> for Takes {
    ghost use Rattle.server_pool.specs.Pooled.{took, IsFixed, IsFresh};

    ghost then = { λ v x w. (w ≡ took P.faults v x) × IsFixed P.deletions v.starts x
        × IsFresh v x };
}

impl<P: Port> Lesson<Server<P>, Hand> for Takes {
    ghost use Rattle.server_pool.specs.Pooled.{HoldsRest};

    ghost fact = { HoldsRest };
}

/// A give-back.
pub(crate) struct Gives;

impl<P: Port> Outcome<Server<P>, Hand> for Gives {
    ghost use Rattle.server_pool.specs.Pooled.{gave};

    ghost then = { λ v x w. w ≡ gave P.faults v x };
}

impl<P: Port> Lesson<Server<P>, Hand> for Gives {
    ghost use Rattle.server_pool.specs.Pooled.{HasRoom};

    ghost fact = { HasRoom };
}

/// A split moves one part, and a join adds all.
pub(crate) struct Parts;

impl Split<Hand> for Parts {
    ghost use Rattle.server_pool.specs.Pooled.{less_a_part, one_part};

    ghost left = { less_a_part };

    ghost right = { one_part };
}

impl Join<Hand> for Parts {
    ghost use Rattle.server_pool.specs.Pooled.{hand, joined};
    ghost use Rattle.std.specs.Prelude.{[]};

    ghost both = { joined };

    ghost spent = { hand 0 [] 0 0 [] };
}
