ghost use Rattle.std.specs.Prelude.{◌≡◌, ◌<◌, ◌^◌, true, false, map, length, IfOk, IsErrOf};
ghost use Rattle.std.specs.List.{list_all};
ghost use Rattle.sql_model.specs.Evaluation.{all_fit, evaluated};
ghost use Rattle.row_evaluation.specs.declared.faults.OpFault.TheVariants as fault;

use row_evaluation::{OpFault, PacketRow, evaluated};
use row_packet::{Packet, PacketView};
use sql_model::BoundExpr;
use std::alloc::Global;

/// For each row, in their order, the row of what the items are on it.
pub fn project(
    alloc: Global,
    packet: &PacketView<'_>,
    items: &[BoundExpr],
) -> Result<Packet, OpFault>
    requires { length items.now < 2 ^ 32 }
    ensures width { IfOk result (λ made. made.width ≡ length items.now) }
    ensures rows { IfOk result (λ made. made.rows ≡ map (evaluated items.now) packet.now.rows) }
    ensures fits { IfOk result (λ _. list_all (all_fit items.now) packet.now.rows ≡ true) }
    ensures arithmetic { IsErrOf result fault.Arith → list_all (all_fit items.now) packet.now.rows ≡ false }
    ensures few { IsErrOf result fault.TooManyRows → ⊥ }
{
    let mut made = Packet::empty(alloc, items.len() as u32);
    for place in 0..packet.rows() {
        made.push(evaluated(alloc, items, &PacketRow::at(packet, place))?)?;
    }
    Ok(made)
}
