//! Runs of scripts over a new lake, and what they write.

ghost use Rattle.std.specs.Prelude.{◌≡◌, IfOk, vec_len};

use lake_outside::{DeadPort, OpenGate, Sink, Source, SureSink, SureSource};
use lake_script::{Status, lake_run};
use std::alloc::{AllocError, Global};
use std::process::Abort;
use std::test::Fail;

fn ports(alloc: Global) -> Result<Vec<DeadPort>, AllocError>
    ensures { IfOk result (λ ports. vec_len ports ≡ 33) }
{
    let mut ports = Vec::new(alloc);
    for _ in 0..33_usize {
        ports.push(DeadPort::new())?;
    }
    Ok(ports)
}

/// How a run with these words ended, and how many entries its chronicle has.
pub fn run<S: Source, K: Sink>(
    alloc: Global,
    words: &[&str],
    src: &mut S,
    out: &mut K,
) -> Result<(Status, Option<usize>), AllocError> {
    let mut owned = Vec::new(alloc);
    for word in words {
        owned.push(String::from_str(alloc, word)?)?;
    }
    let ended = lake_run(alloc, &owned, src, out, &mut ports(alloc)?, &OpenGate);
    let entries = match &ended.lake {
        Some(lake) => Some(lake.chronicle().entries().len()),
        None => None,
    };
    Ok((ended.status, entries))
}

/// How the run of a script ended, and what it wrote.
pub fn run_script(alloc: Global, script: &[u8]) -> Result<(Status, Vec<u8>), AllocError> {
    let mut src = SureSource::new(script.to_vec(alloc)?);
    let mut out = SureSink::new(alloc);
    let (status, _) = run(alloc, &["run"], &mut src, &mut out)?;
    Ok((status, out.written().to_vec(alloc)?))
}

/// Runs a script of statements, each with its reply, and compares what it writes with the numbered
/// replies.
pub fn answer(rt: &(impl Abort + AllocGlobal), lines: &[(&str, &str)]) -> Result<(), Fail> {
    let alloc = rt.alloc();
    let mut script = String::new(alloc);
    let mut text = String::new(alloc);
    for (index, (statement, reply)) in lines.iter().enumerate() {
        write!(script, "{statement} ")?;
        write!(text, "{}: {reply}\n", index.wrapping_add(1))?;
    }
    let (status, written) = run_script(alloc, script.as_bytes())?;
    assert_eq!(rt; status, Status::Done, "{script}");
    assert_eq!(rt; str::from_utf8(written.as_slice())?, text.as_str());
    Ok(())
}

pub fn answer_all(
    rt: &(impl Abort + AllocGlobal),
    scripts: &[&[(&str, &str)]],
) -> Result<(), Fail> {
    for script in scripts {
        answer(rt, script)?;
    }
    Ok(())
}
