//! Vectors of the positions that are gone from a file.

ghost use Rattle.std.specs.Prelude.{◌≡◌, ◌<◌, ◌≤◌, ◌∷◌, [], length, IfOk, IsErrOf, IsTrue, All};
ghost use Rattle.std.specs.Prelude.{None};
ghost use Rattle.lake_values.specs.declared.names.Kind.TheVariants.{File as FileKind};
ghost use Rattle.lake_outside.specs.Counts.{Rises};
ghost use Rattle.op_write.specs.Staging.{names_staged, staged};
ghost use Rattle.op_write.specs.Writes.{gone_with, removal_of, vector_of, vector_output};
ghost use Rattle.op_write.specs.Writes.{were_gone as all_were_gone};

use crate::blocks::{Encoded, stage_items};
use crate::outputs::{remove_item, stage};
use crate::{Staging, WriteFault, WriteKey};
use deletion_vector::Vector;
use lake_outside::{Blocks, Port};
use lake_values::{Kind, Name, NoMemory};
use manifest_block::{Item, ItemBlock};
use std::alloc::Global;

/// Stages a vector of all positions of a file's rows that are gone, those before and the new ones,
/// and the block with the item that gives it to the file. Where no row is left, it stages the item
/// that removes the file, and where no row goes, nothing.
pub fn stage_vector<P: Port>(
    alloc: Global,
    port: &mut P,
    key: &WriteKey,
    file: &Name,
    rows: u64,
    before: &Vector,
    gone: &Vector,
) -> Result<Staging<P>, WriteFault>
    requires file { file.now.kind ≡ FileKind }
    requires before { All (λ position. position < rows) before.now }
    requires gone { All (λ position. position < rows) gone.now }

    ensures told { IsTrue P.tells → IfOk result
        (λ s. s ≡ staged key.now (vector_output key.now file.now rows before.now gone.now)) }
    ensures named { IfOk result (λ s. names_staged s
        ≡ names_staged (staged key.now (vector_output key.now file.now rows before.now gone.now))) }

    ensures never_falls { P.faults port.old ≤ P.faults port.new }
    ensures failed { IsErrOf result WriteFault.StoreFault
        → Rises (P.faults port.old) (P.faults port.new) }
    ensures listings { P.listings port.new ≡ P.listings port.old }
    ensures deletions { P.deletions port.new ≡ P.deletions port.old }
{
    if were_gone(before, gone) {
        return Ok(Staging::nothing(alloc));
    }
    let positions = merge(rows, before, gone)?;
    if positions.len() == rows {
        stage_removal(alloc, port, key, file)
    } else {
        stage_positions(alloc, port, key, file, &positions)
    }
}

/// Whether each of the positions was gone before.
fn were_gone(before: &Vector, gone: &Vector) -> bool
    ensures { result ≡ all_were_gone before.now gone.now }
{
    gone.positions()
        .iter()
        .all(|position| before.contains(*position))
}

/// The positions of so many rows that are gone.
fn merge(rows: u64, before: &Vector, gone: &Vector) -> Result<Vector, NoMemory>
    requires before { All (λ position. position < rows) before.now }
    requires gone { All (λ position. position < rows) gone.now }
    ensures { IfOk result (λ positions. positions ≡ gone_with rows before.now gone.now) }
{
    let positions = before.merge(gone)?;
    // Its clause says that they ascend.
    let _positions = positions.positions();
    Ok(positions)
}

/// Stages the block with the item that removes a file.
fn stage_removal<P: Port>(
    alloc: Global,
    port: &mut P,
    key: &WriteKey,
    file: &Name,
) -> Result<Staging<P>, WriteFault>
    requires { file.now.kind ≡ FileKind }

    ensures told { IsTrue P.tells → IfOk result
        (λ s. s ≡ staged key.now (removal_of key.now file.now)) }
    ensures named { IfOk result (λ s. names_staged s
        ≡ names_staged (staged key.now (removal_of key.now file.now))) }

    ensures never_falls { P.faults port.old ≤ P.faults port.new }
    ensures failed { IsErrOf result WriteFault.StoreFault
        → Rises (P.faults port.old) (P.faults port.new) }
    ensures listings { P.listings port.new ≡ P.listings port.old }
    ensures deletions { P.deletions port.new ≡ P.deletions port.old }
{
    let items = vec![in alloc; remove_item(&key.table, file)?]?;
    let block = stage_items(alloc, port, key, &items)?;
    Ok(Staging {
        name: None,
        blocks: Blocks::<P>::empty(alloc),
        block: Some(block),
        items: ItemBlock::from_list(items),
    })
}

/// Stages a vector of the positions, and the block with the item that gives it to the file.
fn stage_positions<P: Port>(
    alloc: Global,
    port: &mut P,
    key: &WriteKey,
    file: &Name,
    positions: &Vector,
) -> Result<Staging<P>, WriteFault>
    requires { file.now.kind ≡ FileKind }

    ensures told { IsTrue P.tells → IfOk result
        (λ s. s ≡ staged key.now (vector_of key.now file.now positions.now)) }
    ensures named { IfOk result (λ s. names_staged s
        ≡ names_staged (staged key.now (vector_of key.now file.now positions.now))) }

    ensures never_falls { P.faults port.old ≤ P.faults port.new }
    ensures failed { IsErrOf result WriteFault.StoreFault
        → Rises (P.faults port.old) (P.faults port.new) }
    ensures listings { P.listings port.new ≡ P.listings port.old }
    ensures deletions { P.deletions port.new ≡ P.deletions port.old }
{
    let blob = Encoded {
        name: key.name(Kind::Vector),
        bytes: positions.encode()?,
    };
    let item = Item::SetVector {
        table: key.table.copy()?,
        file: *file,
        vector: key.name(Kind::Vector),
        removed: positions.len(),
    };
    stage(alloc, port, key, blob, vec![in alloc; item]?)
}
