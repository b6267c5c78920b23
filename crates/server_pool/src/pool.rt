ghost use Rattle.std.specs.Prelude.{◌≡◌, ◌≤◌, ◌<◌};

use crate::room::KeptRoom;
use crate::rule::{EachOnce, Hand, Server};
use crossbeam_queue::{Pass, RuledArrayQueue};
use lake_outside::Port;
use std::alloc::Global;

/// Servers that any number of threads check out and give back.
#[derive(Drop)]
pub struct Pool<P: Port> {
    pub(crate) queue: RuledArrayQueue<Server<P>, Hand, EachOnce, Global>,
    pub(crate) servers: u32,
    pub(crate) room: KeptRoom<P>,
    ghost fits: { servers ≤ queue.cap },
    ghost kept: { (room.shared.key ≡ servers) × (room.shared.table_id.slots ≡ 1) },
}

/// A thread's right to servers of a pool, and what it knows of them. It has no bytes.
#[derive(Drop)]
pub struct PoolPass<P> {
    pub(crate) pass: Pass<Server<P>, Hand>,
    ghost some_parts: { 0 < pass.me.0.client.parts },
}
