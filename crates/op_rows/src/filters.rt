ghost use Rattle.std.specs.Prelude.{◌≡◌, true, false, filter, IfOk, IsErrOf};
ghost use Rattle.std.specs.List.{list_all};
ghost use Rattle.sql_model.specs.Writing.{is_matched, condition_fits};
ghost use Rattle.row_evaluation.specs.Conditions.{AreGuards};
ghost use Rattle.row_evaluation.specs.declared.faults.OpFault.TheVariants as fault;

use row_evaluation::{OpFault, PacketRow, is_matched};
use row_packet::{Packet, PacketView};
use sql_model::BoundExpr;
use std::alloc::Global;

/// The rows on which all guards and then all computed conditions are true, in their order. The computed ones are
/// evaluated where the guards are true.
pub fn filter(
    alloc: Global,
    packet: &PacketView<'_>,
    guards: &[BoundExpr],
    computed: &[BoundExpr],
) -> Result<Packet, OpFault>
    requires { AreGuards guards.now }
    ensures width { IfOk result (λ kept. kept.width ≡ packet.now.width) }
    ensures rows { IfOk result (λ kept. kept.rows ≡ filter (is_matched guards.now computed.now) packet.now.rows) }
    ensures fits { IfOk result (λ _. list_all (condition_fits guards.now computed.now) packet.now.rows ≡ true) }
    ensures arithmetic { IsErrOf result fault.Arith → list_all (condition_fits guards.now computed.now) packet.now.rows ≡ false }
    ensures few { IsErrOf result fault.TooManyRows → ⊥ }
{
    let mut kept = Packet::empty(alloc, packet.width());
    for place in 0..packet.rows() {
        let row = PacketRow::at(packet, place);
        if is_matched(guards, computed, &row)? {
            kept.push(row.to_row(alloc)?)?;
        }
    }
    Ok(kept)
}
