ghost use Rattle.std.specs.Prelude.{◌≡◌, ℕ, ◌≤◌, [], length, map, Some, vec_len, vec_capacity};
ghost use Rattle.crossbeam_queue.specs.Passes.{IsPassOf};
ghost use Rattle.server_pool.specs.Pooled.{HoldsAll};
ghost use Rattle.server_pool.specs.Passes.{knows};
ghost use Rattle.server_pool.specs.Placed.{AreFull, Placed};
ghost use Rattle.server_pool.specs.Rooms.{IsRoomFor};

use crate::pool::PoolPass;
use crate::room::{KeptRoom, Room};
use crate::rule::{EachOnce, Hand, Server, Takes};
use crossbeam_queue::RuledArrayQueue;
use lake_outside::Port;
use std::alloc::Global;
use std::sync::Wait;

/// The room that was made with the pool.
pub(crate) fn room_of<P: Drop>(kept: KeptRoom<P>) -> Room<P>
    requires { kept.shared.table_id.slots ≡ 1 }
    ensures { IsRoomFor kept.shared.key result }
{
    let mut closed = kept.close();
    let room = closed.take(0);
    closed.free();
    room
}

/// Takes every server out of the queue, and puts its port in the place of its number.
pub(crate) fn place_all<P: Port, R: Wait>(
    rt: &R,
    queue: &RuledArrayQueue<Server<P>, Hand, EachOnce, Global>,
    pass: &mut PoolPass<P>,
    places: &mut Vec<Option<P>>,
)
    requires pass { IsPassOf queue.now pass.old.pass × ((knows pass.old).parts ≡ 17) }
    requires placed { Placed P.faults P.deletions (knows pass.old) places.old.items }
    ensures all { HoldsAll (knows pass.new) }
    ensures placed { Placed P.faults P.deletions (knows pass.new) places.new.items }
    ensures rise { ((knows pass.new).rise ≡ (knows pass.old).rise)
        × ((knows pass.new).lasts ≡ (knows pass.old).lasts) }
    ensures starts { (knows pass.new).starts ≡ (knows pass.old).starts }
{
    while let Some(server) = queue.pop_as::<Takes, R>(rt, &mut pass.pass) {
        let place = (server.number - 1) as usize;
        places[place] = Some(server.port);
    }
}

/// The ports, in the order of their places.
pub(crate) fn listed<P: Drop>(places: Vec<Option<P>>, mut ports: Vec<P>) -> Vec<P>
    requires full { AreFull places.items }
    requires room { (ports.items ≡ []) × (vec_len places ≤ vec_capacity ports) }
    ensures { map Some result.items ≡ places.items }
{
    for place in places {
        let Some(port) = place else { unreachable!() };
        ports.push_reserved(port);
    }
    ports
}
