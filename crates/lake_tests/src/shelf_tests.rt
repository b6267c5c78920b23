//! Ports of a shelf: blobs that are found again, calls that fail alone, and two threads.

use lake_outside::{Blobs, Blocks, Port, PortError, Staged, Stored};
use lake_shelf::{Shelf, SurePort};
use lake_values::{Kind, Listed, Name};
use std::alloc::Global;
use std::process::Abort;
use std::sync::Wait;
use std::test::Fail;
use std::thread;

/// The name of a file that a task of transaction 1 wrote.
fn file(task: u32) -> Name {
    Name {
        kind: Kind::File,
        txn: 1,
        part: 1,
        task,
        attempt: 1,
    }
}

/// Commits a file of two blocks.
fn store<P: Port>(
    alloc: Global,
    port: &mut P,
    task: u32,
    front: &[u8],
    back: &[u8],
) -> Result<P::Blob, PortError> {
    let name = file(task);
    let mut blocks: Blocks<P> = Listed::empty(alloc);
    blocks.push(port.stage(&name, 1, front)?)?;
    blocks.push(port.stage(&name, 2, back)?)?;
    port.commit(&name, blocks.list())
}

/// Whether the shelf lists the files of exactly these tasks, in this order.
fn lists<R: Wait>(shelf: &Shelf<R>, tasks: &[u32]) -> bool {
    let Ok(names) = shelf.names() else {
        return false;
    };
    names.len() == tasks.len()
        && names
            .iter()
            .zip(tasks)
            .all(|(name, task)| *name == file(*task))
}

/// Whether the port reads these bytes.
fn reads<P: Port>(port: &mut P, blob: &P::Blob, want: &[u8]) -> bool {
    port.read(blob).is_ok_and(|bytes| bytes.as_slice() == want)
}

/// Whether the call failed.
fn failed<T: Drop>(answer: Result<T, PortError>) -> bool {
    matches!(answer, Err(PortError::Failed))
}

/// What each port does: a blob is found again, with its bytes in the order of its blocks, by a copy
/// too.
fn keeps_blobs<P: Port>(rt: &impl Abort, alloc: Global, port: &mut P) -> Result<(), Fail> {
    let name = file(3);
    let block = port.stage(&name, 7, b"abc")?;
    let copy = block.copy()?;
    drop(block);
    assert!(rt; copy.name() == name && copy.number() == 7);

    let mut blobs: Blobs<P> = Listed::empty(alloc);
    blobs.push(store(alloc, port, 3, b"ab", b"cd")?)?;
    blobs.push(store(alloc, port, 1, b"", b"xyz")?)?;
    for blob in blobs.as_slice() {
        let copy = blob.copy()?;
        assert!(rt; copy.name() == blob.name());
        let is_third = blob.name() == name;
        let want = if is_third { "abcd" } else { "xyz" };
        assert!(rt; reads(port, &copy, want.as_bytes()));
    }
    assert_eq!(rt; port.list()?.as_slice(), [file(1), file(3)].as_slice());
    port.delete(&name)?;
    assert_eq!(rt; port.list()?.as_slice(), [file(1)].as_slice());
    Ok(())
}

#[test]
fn ports_keep_blobs(rt: HostRuntime) -> Result<(), Fail> {
    let alloc = rt.alloc();
    let shelf = Shelf::new(alloc, rt)?;
    keeps_blobs(&rt, alloc, &mut shelf.port(Vec::new(alloc)))?;
    assert_eq!(rt; shelf.total(), 3);

    let other = Shelf::new(alloc, rt)?;
    keeps_blobs(&rt, alloc, &mut other.sure_port())?;
    assert_eq!(rt; other.total(), 3);
    Ok(())
}

#[test]
fn a_call_fails_alone_and_changes_nothing(rt: HostRuntime) -> Result<(), Fail> {
    let alloc = rt.alloc();
    let shelf = Shelf::new(alloc, rt)?;
    let name = file(2);
    let mut sure = shelf.sure_port();
    let blob = store(alloc, &mut sure, 2, b"ab", b"c")?;
    let mut blocks: Blocks<SurePort<'_, HostRuntime>> = Listed::empty(alloc);
    blocks.push(sure.stage(&file(4), 1, b"d")?)?;

    let mut port = shelf.port(vec![in alloc; 1, 3, 5, 7, 9]?);
    assert!(rt; failed(port.stage(&name, 1, b"d")));
    assert!(rt; port.stage(&name, 1, b"d").is_ok());
    assert!(rt; failed(port.commit(&file(4), blocks.list())));
    assert!(rt; lists(&shelf, &[2]) && shelf.total() == 3);
    assert!(rt; port.commit(&file(4), blocks.list()).is_ok());
    assert!(rt; failed(port.read(&blob)));
    assert!(rt; reads(&mut port, &blob, b"abc"));
    assert!(rt; failed(port.list()));
    assert!(rt; port.list().is_ok());
    assert!(rt; failed(port.delete(&name)));
    assert!(rt; lists(&shelf, &[2, 4]) && shelf.total() == 4);
    assert!(rt; port.delete(&name).is_ok());
    assert!(rt; lists(&shelf, &[4]) && shelf.total() == 1);
    Ok(())
}

#[test]
fn names_listed_twice_or_missing_are_faults(rt: HostRuntime) -> Result<(), Fail> {
    let alloc = rt.alloc();
    let shelf = Shelf::new(alloc, rt)?;
    let mut port = shelf.port(Vec::new(alloc));
    let blob = store(alloc, &mut port, 1, b"old", b"")?;
    assert!(rt; failed(store(alloc, &mut port, 1, b"newer", b"")));
    assert!(rt; reads(&mut port, &blob, b"old"));

    let mut sure = shelf.sure_port();
    let newer = store(alloc, &mut sure, 1, b"newer", b"")?;
    assert!(rt; lists(&shelf, &[1]) && shelf.total() == 5);
    sure.delete(&file(1))?;
    sure.delete(&file(1))?;
    assert!(rt; lists(&shelf, &[]) && shelf.total() == 0);
    assert!(rt; failed(port.delete(&file(1))));
    assert!(rt; failed(port.read(&blob)));
    assert!(rt; reads(&mut sure, &blob, b"old") && reads(&mut sure, &newer, b"newer"));
    Ok(())
}

#[test]
fn a_blob_of_three_mebibytes_is_kept(rt: HostRuntime) -> Result<(), Fail> {
    let alloc = rt.alloc();
    let shelf = Shelf::new(alloc, rt)?;
    let mut port = shelf.port(Vec::new(alloc));
    let half = vec![in alloc; 7u8; 1_572_864]?;
    let blob = store(alloc, &mut port, 1, half.as_slice(), half.as_slice())?;
    assert_eq!(rt; shelf.total(), 3_145_728);
    let bytes = port.read(&blob)?;
    assert!(rt; bytes.len() == 3_145_728 && bytes.iter().all(|byte| *byte == 7));
    Ok(())
}

#[test]
fn two_threads_share_a_shelf(rt: HostRuntime) -> Result<(), Fail> {
    let alloc = rt.alloc();
    let shelf = Shelf::new(alloc, rt)?;
    let mut counted = shelf.port(Vec::new(alloc));
    let mut sure = shelf.sure_port();
    let (first, second) = thread::join(
        &rt,
        move || store(alloc, &mut counted, 2, b"ab", b"c").is_ok(),
        move || store(alloc, &mut sure, 1, b"d", b"").is_ok(),
    );
    assert!(rt; first && second);
    assert!(rt; lists(&shelf, &[1, 2]) && shelf.total() == 4);
    Ok(())
}
