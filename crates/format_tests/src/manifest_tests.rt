//! Blocks of manifests.

ghost use Rattle.std.specs.Prelude.{◌≡◌};
ghost use Rattle.manifest_block.specs.Spelling.{IsInForm};

use crate::bytes::{FORM, SHORT, TAG, Verdict, bad, each_change, each_prefix};
use lake_values::{BadKind, Kind, Name, Text};
use manifest_block::{Item, decode_manifest, encode_block};
use std::alloc::Global;
use std::test::Fail;

// The block with one Add of table t: cell 2, part 1, file f-1-1-5-1, 1 row.
const BYTES: [u8; 51] = [
    0x4c, 0x4d, 0x42, 0x31, 0, 0, 0, 1, 1, 0, 0, 0, 1, 0x74, 0, 0, 0, 2, 0, 0, 0, 1, 1, 0, 0, 0, 0,
    0, 0, 0, 1, 0, 0, 0, 1, 0, 0, 0, 5, 0, 0, 0, 1, 0, 0, 0, 0, 0, 0, 0, 1,
];

// The block that removes this file, and the one that gives it the vector v-1-1-5-1 with 7
// positions.
const REMOVAL: [u8; 35] = [
    0x4c, 0x4d, 0x42, 0x31, 0, 0, 0, 1, 2, 0, 0, 0, 1, 0x74, 1, 0, 0, 0, 0, 0, 0, 0, 1, 0, 0, 0, 1,
    0, 0, 0, 5, 0, 0, 0, 1,
];

const VECTOR: [u8; 64] = [
    0x4c, 0x4d, 0x42, 0x31, 0, 0, 0, 1, 3, 0, 0, 0, 1, 0x74, 1, 0, 0, 0, 0, 0, 0, 0, 1, 0, 0, 0, 1,
    0, 0, 0, 5, 0, 0, 0, 1, 2, 0, 0, 0, 0, 0, 0, 0, 1, 0, 0, 0, 1, 0, 0, 0, 5, 0, 0, 0, 1, 0, 0, 0,
    0, 0, 0, 0, 7,
];

// The first bad field where the text of the table is said to have 2 to 38 bytes.
const LONGER: [(u64, BadKind); 37] = [
    (15, FORM),
    (16, FORM),
    (17, FORM),
    (26, TAG),
    (19, FORM),
    (20, FORM),
    (21, FORM),
    (22, FORM),
    (31, TAG),
    (32, TAG),
    (33, TAG),
    (51, SHORT),
    (35, TAG),
    (28, FORM),
    (29, FORM),
    (30, FORM),
    (39, TAG),
    (32, FORM),
    (33, FORM),
    (34, FORM),
    (43, TAG),
    (36, FORM),
    (37, FORM),
    (38, FORM),
    (47, TAG),
    (40, FORM),
    (41, FORM),
    (42, FORM),
    (51, SHORT),
    (48, SHORT),
    (49, SHORT),
    (50, SHORT),
    (51, SHORT),
    (48, SHORT),
    (49, SHORT),
    (50, SHORT),
    (51, SHORT),
];

fn name(kind: Kind) -> Name
    ensures { result.kind ≡ kind }
{
    Name {
        kind,
        txn: 1,
        part: 1,
        task: 5,
        attempt: 1,
    }
}

fn block_of(alloc: Global, item: Item) -> Result<Vec<u8>, Fail>
    requires { IsInForm item }
{
    let items = vec![in alloc; item]?;
    Ok(encode_block(alloc, &items)?)
}

#[test]
fn each_kind_of_item_is_written(rt: HostRuntime) -> Result<(), Fail> {
    let alloc = rt.alloc();
    let addition = Item::Add {
        table: Text::new(alloc, "t")?,
        cell: 2,
        part: 1,
        file: name(Kind::File),
        rows: 1,
    };
    assert_eq!(rt; block_of(alloc, addition)?.as_slice(), BYTES.as_slice());
    let removal = Item::Remove {
        table: Text::new(alloc, "t")?,
        file: name(Kind::File),
    };
    assert_eq!(rt; block_of(alloc, removal)?.as_slice(), REMOVAL.as_slice());
    let vector = Item::SetVector {
        table: Text::new(alloc, "t")?,
        file: name(Kind::File),
        vector: name(Kind::Vector),
        removed: 7,
    };
    assert_eq!(rt; block_of(alloc, vector)?.as_slice(), VECTOR.as_slice());
    Ok(())
}

#[test]
fn blocks_are_read_one_behind_the_other(rt: HostRuntime) -> Result<(), Fail> {
    let mut bytes = BYTES.to_vec(rt.alloc())?;
    bytes.extend_from_slice(&REMOVAL)?;
    bytes.extend_from_slice(&VECTOR)?;
    let blocks = decode_manifest(rt.alloc(), &bytes)?;
    assert_eq!(rt; blocks.len(), 3);
    let mut seen = [false; 3];
    for item in blocks.iter().flat_map(|block| block.list()) {
        match item {
            Item::Add {
                cell: 2,
                part: 1,
                rows: 1,
                ..
            } => seen[0] = true,
            Item::Remove { file, .. } => seen[1] = *file == name(Kind::File),
            Item::SetVector {
                vector,
                removed: 7,
                ..
            } => seen[2] = *vector == name(Kind::Vector),
            _ => {}
        }
    }
    assert_eq!(rt; seen, [true; 3]);
    Ok(())
}

fn verdict(alloc: Global, bytes: &[u8]) -> Verdict {
    decode_manifest(alloc, bytes).map(|_| ())
}

// What the block is read as with one byte changed.
fn expected(place: usize, byte: u8) -> Verdict {
    match place {
        0..4 => bad(0, TAG),
        7 if byte == 0 => bad(4, FORM),
        4..8 => bad(51, SHORT),
        8 if byte == 2 || byte == 3 => bad(14, TAG),
        8 => bad(8, TAG),
        11 if byte < 16 => bad(13, SHORT),
        9..12 => bad(9, FORM),
        12 => match byte {
            0 => bad(13, FORM),
            2..39 => {
                let (place, kind) = LONGER[byte as usize - 2];
                bad(place, kind)
            }
            _ => bad(13, SHORT),
        },
        13 if byte >= 128 => bad(13, BadKind::BadUtf8),
        14..17 => bad(14, FORM),
        17 if byte > 15 => bad(14, FORM),
        22 => bad(22, TAG),
        _ => Ok(()),
    }
}

#[test]
fn damaged_blocks_are_refused(rt: HostRuntime) -> Result<(), Fail> {
    let fields = [0, 4, 8, 9, 13, 14, 18, 22, 23, 31, 35, 39, 43];
    each_change(&rt, &BYTES, verdict, expected)?;
    each_prefix(&rt, &BYTES, &fields, verdict);
    Ok(())
}
