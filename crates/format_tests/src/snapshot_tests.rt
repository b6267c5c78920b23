//! Checkpoints, and what the items of manifests make of a table's files.

ghost use Rattle.std.specs.Prelude.{◌≡◌, true, All, IfOk};
ghost use Rattle.table_snapshot.specs.Files.{in_order};
ghost use Rattle.table_snapshot.specs.Spelling.{IsInForm};

use crate::bytes::{FORM, SHORT, TAG, Verdict, bad, each_prefix};
use lake_values::{BadKind, Kind, Name, Text};
use manifest_block::{Item, ItemBlock, ItemBlocks};
use std::alloc::Global;
use std::test::Fail;
use table_snapshot::{Dated, FileRow, Files, checkpoint_bytes, decode_checkpoint, replay};

// Version 258 of table t: the file f-1-1-5-1 of commit 1, part 1 and cell 2 with 1 row, and
// f-1-2-5-1 of commit 2, part 2 and cell 15 with 3 rows, of which the vector v-3-1-6-1 takes 1 out.
const BYTES: [u8; 146] = [
    0x4c, 0x43, 0x50, 0x31, 0, 0, 0, 1, 0x74, 0, 0, 0, 0, 0, 0, 1, 2, 0, 0, 0, 0, 0, 0, 0, 2, 1, 0,
    0, 0, 0, 0, 0, 0, 1, 0, 0, 0, 1, 0, 0, 0, 5, 0, 0, 0, 1, 0, 0, 0, 0, 0, 0, 0, 1, 0, 0, 0, 1, 0,
    0, 0, 2, 0, 0, 0, 0, 0, 0, 0, 1, 0, 1, 0, 0, 0, 0, 0, 0, 0, 1, 0, 0, 0, 2, 0, 0, 0, 5, 0, 0, 0,
    1, 0, 0, 0, 0, 0, 0, 0, 2, 0, 0, 0, 2, 0, 0, 0, 15, 0, 0, 0, 0, 0, 0, 0, 3, 1, 2, 0, 0, 0, 0,
    0, 0, 0, 3, 0, 0, 0, 1, 0, 0, 0, 6, 0, 0, 0, 1, 0, 0, 0, 0, 0, 0, 0, 1,
];

const FIRST: Name = Name {
    kind: Kind::File,
    txn: 1,
    part: 1,
    task: 5,
    attempt: 1,
};

const SECOND: Name = Name {
    kind: Kind::File,
    txn: 1,
    part: 2,
    task: 5,
    attempt: 1,
};

const VECTOR: Name = Name {
    kind: Kind::Vector,
    txn: 3,
    part: 1,
    task: 6,
    attempt: 1,
};

const FILES: [FileRow; 2] = [
    FileRow {
        file: FIRST,
        seq: 1,
        part: 1,
        cell: 2,
        rows: 1,
        vector: None,
    },
    FileRow {
        file: SECOND,
        seq: 2,
        part: 2,
        cell: 15,
        rows: 3,
        vector: Some((VECTOR, 1)),
    },
];

fn both_files(alloc: Global) -> Result<Files, Fail>
    ensures order { IfOk result (λ files. in_order files ≡ true) }
    ensures form { IfOk result (λ files. All IsInForm files) }
{
    Ok(Files::from_list(FILES.to_vec(alloc)?))
}

#[test]
fn checkpoints_are_written_and_read(rt: HostRuntime) -> Result<(), Fail> {
    let alloc = rt.alloc();
    let table = Text::new(alloc, "t")?;
    let files = both_files(alloc)?;
    let bytes = checkpoint_bytes(alloc, &table, 258, &files)?;
    assert_eq!(rt; bytes.as_slice(), BYTES.as_slice());
    let read = decode_checkpoint(alloc, &BYTES)?;
    assert_eq!(rt; read.table.as_str(), "t");
    assert_eq!(rt; read.at, 258);
    assert_eq!(rt; read.files.as_slice(), FILES.as_slice());
    Ok(())
}

fn verdict(alloc: Global, bytes: &[u8]) -> Verdict {
    decode_checkpoint(alloc, bytes).map(|_| ())
}

fn changed(alloc: Global, changes: &[(usize, u8)]) -> Result<Vec<u8>, Fail> {
    let mut bytes = BYTES.to_vec(alloc)?;
    for (at, byte) in changes {
        if let Some(old) = bytes.get_mut(*at) {
            *old = *byte;
        }
    }
    Ok(bytes)
}

// Other bytes at places, and the place and kind of the first bad field.
const CHANGES: [(&[(usize, u8)], u64, BadKind); 11] = [
    (&[(71, 2)], 71, TAG),
    (&[(79, 0)], 72, FORM),
    (&[(83, 0)], 80, FORM),
    (&[(83, 1), (87, 4)], 84, FORM),
    (&[(83, 1), (91, 0)], 88, FORM),
    (&[(83, 1)], 88, FORM),
    (&[(61, 16)], 58, FORM),
    (&[(70, 2)], 70, TAG),
    (&[(117, 1)], 117, TAG),
    (&[(17, 1), (18, 1)], 146, SHORT),
    (&[(24, 1)], 71, BadKind::Trailing),
];

#[test]
fn damaged_checkpoints_are_refused(rt: HostRuntime) -> Result<(), Fail> {
    for (changes, place, kind) in CHANGES {
        let bytes = changed(rt.alloc(), changes)?;
        assert_eq!(rt; verdict(rt.alloc(), &bytes), bad(place, kind));
    }
    let fields = [
        0, 4, 8, 9, 17, 25, 26, 34, 38, 42, 46, 54, 58, 62, 70, 71, 72, 80, 84, 88, 92, 100, 104,
        108, 116, 117, 118, 126, 130, 134, 138,
    ];
    each_prefix(&rt, &BYTES, &fields, verdict);
    Ok(())
}

fn dated(alloc: Global, seq: u64, items: Vec<Item>) -> Result<Dated, Fail> {
    let blocks = vec![in alloc; ItemBlock::from_list(items)]?;
    Ok(Dated {
        seq,
        blocks: ItemBlocks::from_list(blocks),
    })
}

fn addition(alloc: Global, table: &str, file: Name, cell: u32) -> Result<Item, Fail> {
    Ok(Item::Add {
        table: Text::new(alloc, table)?,
        cell,
        part: 1,
        file,
        rows: 1,
    })
}

// Both files are added in the other order; then the second is given a vector, and is added once
// more without it, and the first is removed.
#[test]
fn items_are_replayed_in_order(rt: HostRuntime) -> Result<(), Fail> {
    let alloc = rt.alloc();
    let table = Text::new(alloc, "t")?;
    let set = Item::SetVector {
        table: Text::new(alloc, "t")?,
        file: SECOND,
        vector: VECTOR,
        removed: 1,
    };
    let added = vec![in alloc;
        addition(alloc, "t", SECOND, 3)?,
        addition(alloc, "t", FIRST, 2)?,
        addition(alloc, "u", VECTOR, 2)?,
    ]?;
    let first = vec![in alloc; dated(alloc, 4, added)?]?;
    let files = replay(Files::empty(alloc), &table, &first)?;
    let names = files.list().iter().map(|file| file.file);
    assert_eq!(rt;
        Vec::from_iter(alloc, names)?.as_slice(),
        [FIRST, SECOND].as_slice()
    );
    let given = vec![in alloc; dated(alloc, 5, vec![in alloc; set]?)?]?;
    let files = replay(files, &table, &given)?;
    let last = files.list().last().copied();
    assert_eq!(rt; last.and_then(|file| file.vector), Some((VECTOR, 1)));
    let removal = Item::Remove {
        table: Text::new(alloc, "t")?,
        file: FIRST,
    };
    let others = vec![in alloc; addition(alloc, "t", SECOND, 7)?, removal]?;
    let later = vec![in alloc; dated(alloc, 6, others)?]?;
    let files = replay(files, &table, &later)?;
    let left = FileRow {
        file: SECOND,
        seq: 6,
        part: 1,
        cell: 7,
        rows: 1,
        vector: None,
    };
    assert_eq!(rt; files.as_slice(), [left].as_slice());
    Ok(())
}
