//! How fast column files are written and read, scripts are read, operators work on packets, files
//! are staged, the items of manifests are replayed, and threads take turns. The first word says
//! which, and the numbers behind it how many rows, members, items or turns of a thread:
//! `formats N`, `scripts N`, `operators J N`, `writes N`, `files N`, `turns N`, or `all` for each
//! with a thousand. Standard output says what was done, standard error how fast.
#![tactic(auto)]

mod files;
mod formats;
mod operators;
mod rates;
mod scripts;
mod stops;
mod turns;
mod writes;

use crate::stops::Stop;
use std::alloc::Global;
use std::env;
use std::process::ExitCode;
use std::rt::{Clock, Env};
use std::sync::Wait;
use std::thread::Threads;

/// How many of each `all` takes.
const FEW: u32 = 1000;

fn main(rt: HostRuntime) -> ExitCode {
    match run(&rt) {
        Ok(()) => ExitCode::SUCCESS,
        Err(stop) => {
            // A failure to say why changes nothing: the exit status says it too.
            let _ = eprintln!(rt; "bench: {stop}");
            ExitCode::FAILURE
        }
    }
}

fn run<R>(rt: &R) -> Result<(), Stop>
where
    R: Print + Eprint + Clock + Env + AllocGlobal + Threads + Wait + Sync + Copy,
{
    let mut words = env::args(rt)?.skip(1);
    let command = words.next().ok_or(Stop::Usage)?;
    let mut numbers = Vec::new(rt.alloc());
    for word in words {
        numbers.push(word.as_str().parse::<u32>()?)?;
    }
    match (command.as_str(), numbers.as_slice()) {
        ("formats", [rows]) => formats::measure(rt, *rows),
        ("scripts", [members]) => scripts::measure(rt, *members),
        ("files", [items]) => files::measure(rt, *items),
        ("operators", [joined, others]) => operators::measure(rt, *joined, *others),
        ("writes", [rows]) => writes::measure(rt, *rows),
        ("turns", [turns]) => turns::measure(rt, *turns),
        ("all", []) => {
            formats::measure(rt, FEW)?;
            scripts::measure(rt, FEW)?;
            operators::measure(rt, FEW, FEW)?;
            writes::measure(rt, FEW)?;
            files::measure(rt, FEW)?;
            turns::measure(rt, FEW)
        }
        _ => Err(Stop::Usage),
    }
}
