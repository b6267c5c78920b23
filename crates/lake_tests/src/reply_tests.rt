//! The texts of those replies that no script has so far.

use lake_model::reply_text;
use lake_values::{Kind, Name, Text};
use sql_model::{Failure, Reply};
use std::alloc::Global;
use std::test::Fail;

fn damaged(kind: Kind) -> Reply {
    let name = Name {
        kind,
        txn: 1,
        part: 2,
        task: 3,
        attempt: 4,
    };
    Reply::Failed(Failure::Damaged { name, place: 94 })
}

fn compacted(cells: u64, seq: Option<u64>) -> Reply {
    Reply::Compacted { cells, seq }
}

/// Replies, and what is printed for each as the third one.
fn replies(alloc: Global) -> Result<[(Reply, &'static str); 9], Fail> {
    let (table, at) = (Text::new(alloc, "t")?, 2);
    Ok([
        (compacted(2, Some(5)), "3: compacted 2 cells as 5\n"),
        (compacted(0, None), "3: compacted 0 cells\n"),
        (
            Reply::Checkpointed { table, at },
            "3: checkpointed t at 2\n",
        ),
        (
            Reply::Collected { floor: u64::MAX },
            "3: collected to 18446744073709551615\n",
        ),
        (
            Reply::Failed(Failure::StoreFault { task: 2 }),
            "3: failed: store fault\n",
        ),
        (damaged(Kind::File), "3: failed: damaged f-1-2-3-4 at 94\n"),
        (
            damaged(Kind::Vector),
            "3: failed: damaged v-1-2-3-4 at 94\n",
        ),
        (
            damaged(Kind::Manifest),
            "3: failed: damaged m-1-2-3-4 at 94\n",
        ),
        (
            damaged(Kind::Checkpoint),
            "3: failed: damaged c-1-2-3-4 at 94\n",
        ),
    ])
}

#[test]
fn replies_are_printed(rt: HostRuntime) -> Result<(), Fail> {
    for (reply, text) in &replies(rt.alloc())? {
        let mut out = Vec::new(rt.alloc());
        reply_text(3, reply, &mut out)?;
        assert_eq!(rt; str::from_utf8(out.as_slice())?, *text);
    }
    Ok(())
}
