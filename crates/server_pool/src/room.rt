ghost use Rattle.std.specs.Prelude.{◌≡◌, ◌≤◌, IfOk};
ghost use Rattle.server_pool.specs.Rooms.{IsRoomFor};

use atomic_table::{Table, TableRule};
use lake_values::NoMemory;
use std::alloc::Global;

/// Room for the ports of a closed pool: a place for each number, and their list.
#[derive(Drop)]
pub struct Room<P> {
    pub(crate) places: Vec<Option<P>>,
    pub(crate) ports: Vec<P>,
}

/// The room stays as it was made.
pub struct Untouched;

impl<P> TableRule<Room<P>, (), usize> for Untouched {
    ghost use Rattle.server_pool.specs.Rooms.{IsKept};

    ghost holds = { λ n s. IsKept n s };

    ghost first = { λ _. tt };
}

/// Room that no thread looks at before the pool is closed, so that a port needs to be of one thread
/// at a time alone.
pub type KeptRoom<P> = Table<Room<P>, (), usize, Untouched, Global>;

pub(crate) fn room_for<P: Drop>(alloc: Global, servers: usize) -> Result<Room<P>, NoMemory>
    ensures { IfOk result (λ room. IsRoomFor servers room) }
{
    let ports = Vec::with_capacity(alloc, servers)?;
    let mut places = Vec::with_capacity(alloc, servers)?;
    for _ in 0..servers {
        places.push_reserved(None);
    }
    Ok(Room { places, ports })
}

pub(crate) fn kept<P: Drop>(alloc: Global, servers: usize) -> Result<KeptRoom<P>, NoMemory>
    ensures { IfOk result (λ kept. (kept.shared.key ≡ servers) × (kept.shared.table_id.slots ≡ 1)) }
{
    let mut slots = Vec::with_capacity(alloc, 1)?;
    slots.push_reserved(room_for(alloc, servers)?);
    match Table::new(alloc, &[], slots, &servers) {
        Ok((kept, _)) => Ok(kept),
        Err(_) => Err(NoMemory),
    }
}
