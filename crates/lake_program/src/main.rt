//! The program `lake`: it runs the SQL script that standard input gives and prints the replies, or checks it and
//! prints how many statements it has.
#![tactic(auto)]

ghost use Rattle.std.specs.Prelude.{◌≡◌, IfOk, vec_len};
ghost use Rattle.lake_script.specs.Statuses.{exit_number};

use lake_outside::{DeadPort, InputSource, OpenGate, OutputSink, Sink, Source};
use lake_script::{Status, lake_check, lake_run, status_text};
use std::alloc::{AllocError, Global};
use std::io::{ErrorKind, Write};
use std::process::ExitCode;
use std::rt::Env;
use std::{env, io};

/// The front's port, and one for each session and each server.
const PORTS: usize = 33;

fn main(rt: HostRuntime) -> ExitCode {
    let alloc = rt.alloc();
    let status = match words_of(&rt) {
        Err(status) => status,
        Ok(words) => {
            let mut src = InputSource::new(rt.stdin());
            let mut out = OutputSink::new(rt.stdout());
            answer(alloc, &words, &mut src, &mut out)
        }
    };
    // A failure to say why changes nothing: the exit status says it too.
    let _ = say(alloc, &mut rt.stderr(), &status);
    ExitCode::from(number_of(&status))
}

/// Checks a script where the first word is `check`, and else runs it.
fn answer<S: Source, K: Sink>(
    alloc: Global,
    words: &Vec<String>,
    src: &mut S,
    out: &mut K,
) -> Status {
    if is_check(words) {
        return lake_check(alloc, words, src, out);
    }
    match dead_ports(alloc) {
        Err(AllocError) => Status::NoMemory,
        Ok(mut ports) => lake_run(alloc, words, src, out, &mut ports, &OpenGate).status,
    }
}

fn is_check(words: &Vec<String>) -> bool {
    match words.as_slice().first() {
        Some(word) => word.as_str() == "check",
        None => false,
    }
}

/// The words behind the program's name. Words that aren't UTF-8 are no command.
fn words_of<R: Env + AllocGlobal>(rt: &R) -> Result<Vec<String>, Status> {
    let mut words = Vec::new(rt.alloc());
    let args = env::args(rt).map_err(status_of)?;
    for word in args.skip(1) {
        words.push(word).map_err(|_refused| Status::NoMemory)?;
    }
    Ok(words)
}

fn status_of(error: io::Error) -> Status {
    match error.kind() {
        ErrorKind::OutOfMemory => Status::NoMemory,
        _ => Status::Usage,
    }
}

fn dead_ports(alloc: Global) -> Result<Vec<DeadPort>, AllocError>
    ensures { IfOk result (λ ports. vec_len ports ≡ 33) }
{
    let mut ports = Vec::new(alloc);
    for _ in 0..PORTS {
        ports.push(DeadPort::new())?;
    }
    Ok(ports)
}

fn say(alloc: Global, out: &mut impl Write, status: &Status) -> io::Result<()> {
    match status_text(alloc, status) {
        Ok(text) => out.write_all(text.as_slice()),
        Err(_refused) => out.write_all(b"out of memory\n"),
    }
}

/// The exit status of the process.
fn number_of(status: &Status) -> u8
    ensures { result ≡ exit_number status.now }
{
    match status {
        Status::Done => 0,
        Status::Usage => 1,
        Status::ScriptRefused(_) => 2,
        Status::TooLong => 3,
        Status::ReadFault => 4,
        Status::WriteFault => 5,
        Status::NoMemory => 6,
    }
}
