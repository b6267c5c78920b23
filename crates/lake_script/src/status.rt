ghost use Rattle.std.specs.Prelude.{◌≡◌, IfOk};
ghost use Rattle.lake_script.specs.Statuses.{text_of_status, kind_text, line_of_refusal};
ghost use Rattle.std.specs.String.{string_bytes};

use lake_values::NoMemory;
use sql_parser::{ParseKind, ScriptBad};
use std::alloc::{AllocError, Global};

/// How a run ended.
#[derive(Clone, Copy, Debug, PartialEq, Eq)]
pub enum Status {
    /// The source was read to its end and every statement has its reply.
    Done,
    /// The words aren't a command.
    Usage,
    ScriptRefused(ScriptBad),
    /// The source gave more bytes than a script may have.
    TooLong,
    ReadFault,
    WriteFault,
    NoMemory,
}

/// The line that the program prints on standard error for a status; nothing for `Done`.
pub fn status_text(alloc: Global, status: &Status) -> Result<Vec<u8>, NoMemory>
    ensures { IfOk result (λ text. text.items ≡ text_of_status status.now) }
{
    match status {
        Status::Done => Ok(Vec::new(alloc)),
        Status::Usage => Ok(Vec::from_slice(alloc, USAGE.as_bytes())?),
        Status::ScriptRefused(bad) => refusal_text(alloc, bad),
        Status::TooLong => Ok(Vec::from_slice(alloc, b"script too long\n")?),
        Status::ReadFault => Ok(Vec::from_slice(alloc, b"read fault\n")?),
        Status::WriteFault => Ok(Vec::from_slice(alloc, b"write fault\n")?),
        Status::NoMemory => Ok(Vec::from_slice(alloc, b"out of memory\n")?),
    }
}

const USAGE: &str =
    "usage: lake run|bulk N|check [--servers N] [--attempts 1|2] [--lose LIST] [--join LIST]\n";

fn refusal_text(alloc: Global, bad: &ScriptBad) -> Result<Vec<u8>, NoMemory>
    ensures { IfOk result (λ text. text.items ≡ text_of_status (Status.ScriptRefused bad.now)) }
{
    let line = refusal_line(alloc, bad.line, bad.column, kind_of(bad.kind))?;
    Ok(Vec::from_slice(alloc, line.as_bytes())?)
}

fn refusal_line(alloc: Global, line: u32, column: u32, kind: &str) -> Result<String, AllocError>
    ensures { IfOk result (λ text. string_bytes text ≡ line_of_refusal line column kind.now) }
{
    Ok(format!(in alloc; "script refused at {line}:{column}: {kind}\n")?)
}

fn kind_of(kind: ParseKind) -> &'static str
    ensures { result.now ≡ kind_text kind }
{
    match kind {
        ParseKind::BadChar => "bad character",
        ParseKind::OpenText => "open text",
        ParseKind::NotUtf8 => "not utf-8",
        ParseKind::LongText => "long text",
        ParseKind::LongName => "long name",
        ParseKind::BigNumber => "big number",
        ParseKind::Limit => "limit",
        ParseKind::Syntax => "syntax",
    }
}
