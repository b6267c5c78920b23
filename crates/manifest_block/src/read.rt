ghost use Rattle.std.specs.Prelude.{◌≡◌, ◌<◌, ◌≤◌, List, length, drop, IfOk, Ok};
ghost use Rattle.lake_values.specs.Reading.{Gives};
ghost use Rattle.manifest_block.specs.declared.items.Item.{Item as AnyItem};
ghost use Rattle.manifest_block.specs.Spelling.{manifest_spelling, IsManifest};
ghost use Rattle.manifest_block.specs.Reading.{add_at, remove_at, set_vector_at, item_at, items_at, block_at, manifest_of};

use crate::{Item, ItemBlock};
use lake_values::{
    Bad, BadKind, DecodeFault, Kind, read_byte, read_magic, read_name, read_text, read_u32,
    read_u64,
};
use std::alloc::Global;

// The fewest bytes that an item takes.
const LEAST: usize = 26;

/// The blocks that the bytes spell, one or more of them and all of the bytes; else the first bad field. An empty
/// input is Short at 0.
pub fn decode_manifest(alloc: Global, bytes: &[u8]) -> Result<Vec<ItemBlock>, DecodeFault>
    ensures exact { Gives (λ blocks. blocks.items) result (manifest_of bytes.now) }
    ensures found { IfOk result (λ blocks. bytes.now ≡ manifest_spelling blocks.items) }
    ensures fits { IfOk result (λ blocks. IsManifest blocks.items) }
    ensures only { (blocks : List (List AnyItem)) → IsManifest blocks → bytes.now ≡ manifest_spelling blocks → Gives (λ found. found.items) result (Ok blocks) }
{
    read_blocks(alloc, bytes)
}

fn read_blocks(alloc: Global, bytes: &[u8]) -> Result<Vec<ItemBlock>, DecodeFault>
    ensures { Gives (λ blocks. blocks.items) result (manifest_of bytes.now) }
{
    let mut blocks = Vec::new(alloc);
    let mut at = 0;
    loop {
        let (block, next) = read_block(alloc, bytes, at)?;
        blocks.push(block)?;
        at = next;
        if at == bytes.len() {
            return Ok(blocks);
        }
    }
}

#[tactic(auto, unfolding(crate::specs::Reading::block_at))]
fn read_block(alloc: Global, bytes: &[u8], at: usize) -> Result<(ItemBlock, usize), DecodeFault>
    requires { at ≤ length bytes.now }
    ensures exact { Gives (λ x. (x.0, x.1, drop x.1 bytes.now)) result (block_at at (drop at bytes.now)) }
    ensures within { IfOk result (λ x. x.1 ≤ length bytes.now) }
    ensures moves { IfOk result (λ x. at < x.1) }
{
    let start = read_magic(bytes, at, b"LMB1")?;
    let (count, next) = read_u32(bytes, start)?;
    if count == 0 {
        return Err(DecodeFault::Bad(Bad::at(start, BadKind::NotCanonical)));
    }
    let (items, next) = read_items(alloc, count, bytes, next)?;
    Ok((ItemBlock::from_list(items), next))
}

fn read_items(
    alloc: Global,
    count: u32,
    bytes: &[u8],
    at: usize,
) -> Result<(Vec<Item>, usize), DecodeFault>
    requires { at ≤ length bytes.now }
    ensures exact { Gives (λ x. (x.0.items, x.1, drop x.1 bytes.now)) result (items_at count at (drop at bytes.now)) }
    ensures within { IfOk result (λ x. x.1 ≤ length bytes.now) }
    ensures moves { IfOk result (λ x. at ≤ x.1) }
{
    let most = (bytes.len() - at) / LEAST;
    let mut items = Vec::with_capacity(alloc, most.min(count as usize))?;
    let mut next = at;
    for _ in 0..count {
        let (item, behind) = read_item(alloc, bytes, next)?;
        items.push(item)?;
        next = behind;
    }
    Ok((items, next))
}

#[tactic(auto, unfolding(crate::specs::Reading::item_at))]
fn read_item(alloc: Global, bytes: &[u8], at: usize) -> Result<(Item, usize), DecodeFault>
    requires { at ≤ length bytes.now }
    ensures exact { Gives (λ x. (x.0, x.1, drop x.1 bytes.now)) result (item_at at (drop at bytes.now)) }
    ensures within { IfOk result (λ x. x.1 ≤ length bytes.now) }
    ensures moves { IfOk result (λ x. at ≤ x.1) }
{
    let (byte, next) = read_byte(bytes, at)?;
    match byte {
        1 => read_add(alloc, bytes, next),
        2 => read_remove(alloc, bytes, next),
        3 => read_set_vector(alloc, bytes, next),
        _ => Err(DecodeFault::Bad(Bad::at(at, BadKind::BadTag))),
    }
}

#[tactic(auto, unfolding(crate::specs::Reading::add_at))]
fn read_add(alloc: Global, bytes: &[u8], at: usize) -> Result<(Item, usize), DecodeFault>
    requires { at ≤ length bytes.now }
    ensures exact { Gives (λ x. (x.0, x.1, drop x.1 bytes.now)) result (add_at at (drop at bytes.now)) }
    ensures within { IfOk result (λ x. x.1 ≤ length bytes.now) }
    ensures moves { IfOk result (λ x. at ≤ x.1) }
{
    let (table, start) = read_text(alloc, bytes, at)?;
    let (cell, next) = read_u32(bytes, start)?;
    if cell > 15 {
        return Err(DecodeFault::Bad(Bad::at(start, BadKind::NotCanonical)));
    }
    let (part, next) = read_u32(bytes, next)?;
    let (file, next) = read_name(bytes, next, Kind::File)?;
    let (rows, next) = read_u64(bytes, next)?;
    let item = Item::Add {
        table,
        cell,
        part,
        file,
        rows,
    };
    Ok((item, next))
}

#[tactic(auto, unfolding(crate::specs::Reading::remove_at))]
fn read_remove(alloc: Global, bytes: &[u8], at: usize) -> Result<(Item, usize), DecodeFault>
    requires { at ≤ length bytes.now }
    ensures exact { Gives (λ x. (x.0, x.1, drop x.1 bytes.now)) result (remove_at at (drop at bytes.now)) }
    ensures within { IfOk result (λ x. x.1 ≤ length bytes.now) }
    ensures moves { IfOk result (λ x. at ≤ x.1) }
{
    let (table, next) = read_text(alloc, bytes, at)?;
    let (file, next) = read_name(bytes, next, Kind::File)?;
    Ok((Item::Remove { table, file }, next))
}

#[tactic(auto, unfolding(crate::specs::Reading::set_vector_at))]
fn read_set_vector(alloc: Global, bytes: &[u8], at: usize) -> Result<(Item, usize), DecodeFault>
    requires { at ≤ length bytes.now }
    ensures exact { Gives (λ x. (x.0, x.1, drop x.1 bytes.now)) result (set_vector_at at (drop at bytes.now)) }
    ensures within { IfOk result (λ x. x.1 ≤ length bytes.now) }
    ensures moves { IfOk result (λ x. at ≤ x.1) }
{
    let (table, next) = read_text(alloc, bytes, at)?;
    let (file, next) = read_name(bytes, next, Kind::File)?;
    let (vector, next) = read_name(bytes, next, Kind::Vector)?;
    let (removed, next) = read_u64(bytes, next)?;
    let item = Item::SetVector {
        table,
        file,
        vector,
        removed,
    };
    Ok((item, next))
}
