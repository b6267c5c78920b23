ghost use Rattle.std.specs.Prelude.{◌≡◌, ◌<◌, true, false, length, IfOk, OnErr, IsErrOf};
ghost use Rattle.sql_model.specs.Evaluation as spec;
ghost use Rattle.row_packet.specs.Packets.{row_at};
ghost use Rattle.row_evaluation.specs.declared.faults.OpFault.TheVariants as fault;

use lake_values::Value;
use row_evaluation as evaluation;
use row_evaluation::{OpFault, PacketRow};
use row_packet::PacketView;
use sql_model::BoundExpr;
use std::alloc::Global;

/// The value of an expression on a row of a packet; rows are counted from 0. A condition has a truth and no value: for
/// one, NULL is answered.
pub fn eval(
    alloc: Global,
    expression: &BoundExpr,
    packet: &PacketView<'_>,
    row: u64,
) -> Result<Value, OpFault>
    requires { row < length packet.now.rows }
    ensures value { IfOk result (λ value. value ≡ spec.eval expression.now (row_at packet.now.rows row)) }
    ensures fits { IfOk result (λ _. spec.fits expression.now (row_at packet.now.rows row) ≡ true) }
    ensures arithmetic { IsErrOf result fault.Arith → spec.fits expression.now (row_at packet.now.rows row) ≡ false }
    ensures few { IsErrOf result fault.TooManyRows → ⊥ }
{
    let row = PacketRow::at(packet, row);
    let seen = evaluation::look(expression, &row)?;
    Ok(seen.value.to_value(alloc)?)
}

/// Whether a condition is true on a row of a packet; rows are counted from 0.
pub fn holds(condition: &BoundExpr, packet: &PacketView<'_>, row: u64) -> Result<bool, OpFault>
    requires { row < length packet.now.rows }
    ensures value { IfOk result (λ holds. holds ≡ spec.holds condition.now (row_at packet.now.rows row)) }
    ensures fits { IfOk result (λ _. spec.fits condition.now (row_at packet.now.rows row) ≡ true) }
    ensures arithmetic { OnErr result (spec.fits condition.now (row_at packet.now.rows row) ≡ false) }
    ensures only_arithmetic { OnErr result (IsErrOf result fault.Arith) }
{
    Ok(evaluation::holds(condition, &PacketRow::at(packet, row))?)
}
