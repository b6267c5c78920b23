//! Data files of a table added, and removed again.

use crate::stops::Stop;
use lake_values::{Kind, Name, Text};
use manifest_block::{Item, ItemBlock, ItemBlocks};
use std::alloc::Global;
use std::rt::Clock;
use std::time::Instant;
use table_snapshot::{Dated, Files, replay};

pub fn measure(rt: &(impl Print + Eprint + Clock + AllocGlobal), count: u32) -> Result<(), Stop> {
    let alloc = rt.alloc();
    let table = Text::new(alloc, "t")?;
    let additions = manifests(alloc, count, addition)?;
    let removals = manifests(alloc, count, removal)?;
    let start = Instant::now(rt)?;
    let files = replay(Files::empty(alloc), &table, &additions)?;
    let added = start.elapsed(rt)?.as_millis();
    let most = files.len();
    let start = Instant::now(rt)?;
    let files = replay(files, &table, &removals)?;
    let removed = start.elapsed(rt)?.as_millis();
    let left = files.len();
    println!(rt; "replay of {count} additions and removals: {most} files, and then {left}")?;
    eprintln!(rt; "additions: {added} ms, removals: {removed} ms")?;
    Ok(())
}

// One manifest of an item for each number.
fn manifests<F>(alloc: Global, count: u32, item: F) -> Result<Vec<Dated>, Stop>
where
    F: Fn(Global, Name) -> Result<Item, Stop>,
    requires { F.IsAlwaysCallable item }
{
    let mut items = Vec::with_capacity(alloc, count as usize)?;
    for number in 0..count {
        items.push(item(alloc, scrambled(number, count))?)?;
    }
    let blocks = vec![in alloc; ItemBlock::from_list(items)]?;
    let manifest = Dated {
        seq: 1,
        blocks: ItemBlocks::from_list(blocks),
    };
    Ok(vec![in alloc; manifest]?)
}

// Names that don't ascend; they differ where the count is no multiple of 7,919.
fn scrambled(number: u32, count: u32) -> Name {
    Name {
        kind: Kind::File,
        txn: u64::from(number) * 7919 % u64::from(count).max(1),
        part: 1,
        task: 1,
        attempt: 1,
    }
}

fn addition(alloc: Global, file: Name) -> Result<Item, Stop> {
    Ok(Item::Add {
        table: Text::new(alloc, "t")?,
        cell: 1,
        part: 1,
        file,
        rows: 1,
    })
}

fn removal(alloc: Global, file: Name) -> Result<Item, Stop> {
    Ok(Item::Remove {
        table: Text::new(alloc, "t")?,
        file,
    })
}
