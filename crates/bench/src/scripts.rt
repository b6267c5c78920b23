//! An INSERT of many numbers, one of many numbers and texts, and many queries, read as scripts.

use crate::rates::rate;
use crate::stops::Stop;
use sql_parser::parse_script;
use std::alloc::Global;
use std::rt::Clock;
use std::time::Instant;

/// The name of a script, what it begins with, the piece that it repeats, and what it ends with.
const SCRIPTS: [(&str, &str, &str, &str); 3] = [
    ("INSERT of numbers", "INSERT INTO t VALUES (1)", ",(2)", ";"),
    (
        "INSERT of numbers and texts",
        "INSERT INTO t VALUES (1, 'a')",
        ",\n(-1234567, 'sixteen letters.')",
        ";",
    ),
    (
        "SELECT",
        "",
        "SELECT a, b + 1 AS c FROM t JOIN u ON t.a = u.a \
         WHERE NOT b * 2 = 3 OR c IS NULL LIMIT 5;\n",
        "",
    ),
];

pub fn measure(rt: &(impl Print + Eprint + Clock + AllocGlobal), pieces: u32) -> Result<(), Stop> {
    for (name, front, piece, back) in SCRIPTS {
        let text = repeated(rt.alloc(), (front, piece, back), pieces)?;
        let start = Instant::now(rt)?;
        let script = parse_script(rt.alloc(), text.as_bytes())?;
        let read = start.elapsed(rt)?;
        let (size, statements) = (text.len(), script.len());
        println!(rt; "{name}: {size} bytes, {statements} statements")?;
        let speed = rate(size, read);
        eprintln!(rt; "{name}: {speed} MB/s")?;
    }
    Ok(())
}

fn repeated(
    alloc: Global,
    (front, piece, back): (&str, &str, &str),
    count: u32,
) -> Result<String, Stop> {
    let mut text = String::from_str(alloc, front)?;
    for _ in 0..count {
        text.push_str(piece)?;
    }
    text.push_str(back)?;
    Ok(text)
}
