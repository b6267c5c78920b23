ghost use Rattle.std.specs.Prelude.{◌≡◌, ◌++◌, length, take, codes, IfOk, OnOk, OnErr};
ghost use Rattle.std.specs.Fmt.{decimal};
ghost use Rattle.std.specs.String.{string_bytes};
ghost use Rattle.std.specs.List.{flat_map};
ghost use Rattle.lake_model.specs.Replies.{text_of_reply, line_text, refusal_text, failure_text, verb_text, seq_text, kind_text, name_text, row_line};

use lake_values::{Kind, Name, NoMemory, Row, row_text};
use sql_model::{Failure, Refusal, Reply, Verb};
use std::alloc::{AllocError, Global};

/// Appends what is printed for the reply of the statement at a place: one line that begins with the place,
/// and behind it a line for each row of an answer.
pub fn reply_text(place: u32, reply: &Reply, out: &mut Vec<u8>) -> Result<(), NoMemory>
    ensures ok { OnOk result (out.new.items ≡ out.old.items ++ text_of_reply place reply.now) }
    ensures err { OnErr result (out.new.items ≡ out.old.items) }
{
    let start = out.len();
    let printed = put_reply(place, reply, out);
    if printed.is_err() {
        out.truncate(start);
    }
    printed
}

#[tactic(auto, using(lake_values::proofs::Kept::kept_append, lake_values::proofs::Kept::kept_through))]
fn put_reply(place: u32, reply: &Reply, out: &mut Vec<u8>) -> Result<(), NoMemory>
    ensures ok { OnOk result (out.new.items ≡ out.old.items ++ text_of_reply place reply.now) }
    ensures err { OnErr result (take (length out.old.items) out.new.items ≡ out.old.items) }
{
    put_line(place, reply, out)?;
    if let Reply::Rows(rows) = reply {
        put_rows(rows.rows(), out)?;
    }
    Ok(())
}

fn put_line(place: u32, reply: &Reply, out: &mut Vec<u8>) -> Result<(), NoMemory>
    ensures ok { OnOk result (out.new.items ≡ out.old.items ++ (decimal place ++ codes ": " ++ line_text reply.now ++ codes "\n")) }
    ensures err { OnErr result (out.new.items ≡ out.old.items) }
{
    let alloc = *out.allocator();
    let line = line_of(alloc, reply)?;
    let text = format!(in alloc; "{place}: {line}\n")?;
    out.extend_from_slice(text.as_bytes())?;
    Ok(())
}

#[tactic(auto, using(lake_values::proofs::Kept::kept_append, lake_values::proofs::Kept::kept_through))]
fn put_rows(rows: &[Row], out: &mut Vec<u8>) -> Result<(), NoMemory>
    ensures ok { OnOk result (out.new.items ≡ out.old.items ++ flat_map row_line rows.now) }
    ensures err { OnErr result (take (length out.old.items) out.new.items ≡ out.old.items) }
{
    for row in rows {
        put_row(row, out)?;
    }
    Ok(())
}

#[tactic(auto, using(lake_values::proofs::Kept::kept_append, lake_values::proofs::Kept::kept_through))]
fn put_row(row: &Row, out: &mut Vec<u8>) -> Result<(), NoMemory>
    ensures ok { OnOk result (out.new.items ≡ out.old.items ++ row_line row.now) }
    ensures err { OnErr result (take (length out.old.items) out.new.items ≡ out.old.items) }
{
    row_text(row, out)?;
    out.push(b'\n')?;
    Ok(())
}

fn line_of(alloc: Global, reply: &Reply) -> Result<String, AllocError>
    ensures { IfOk result (λ line. string_bytes line ≡ line_text reply.now) }
{
    match reply {
        Reply::Created { table, seq } => {
            numbered(alloc, "created ", table.as_str(), " as ", *seq)
        }
        Reply::Begun { snapshot } => format!(in alloc; "begun at {snapshot}"),
        Reply::Wrote { verb, count, seq } => {
            let verb = verb_of(*verb);
            let seq = seq_of(alloc, *seq)?;
            format!(in alloc; "{verb}{count}{seq}")
        }
        Reply::Rows(rows) => {
            let count = rows.rows().len();
            format!(in alloc; "{count} rows")
        }
        Reply::Committed { seq } => format!(in alloc; "committed as {seq}"),
        Reply::Ended => String::from_str(alloc, "ended"),
        Reply::RolledBack => String::from_str(alloc, "rolled back"),
        Reply::Conflict { seq } => format!(in alloc; "conflict with {seq}"),
        Reply::Compacted { cells, seq } => {
            let seq = seq_of(alloc, *seq)?;
            numbered_first(alloc, "compacted ", *cells, " cells", seq.as_str())
        }
        Reply::Checkpointed { table, at } => {
            numbered(alloc, "checkpointed ", table.as_str(), " at ", *at)
        }
        Reply::Collected { floor } => format!(in alloc; "collected to {floor}"),
        Reply::Refused(cause) => {
            let cause = refusal_of(alloc, cause)?;
            format!(in alloc; "refused: {cause}")
        }
        Reply::Failed(cause) => {
            let cause = failure_of(alloc, cause)?;
            format!(in alloc; "failed: {cause}")
        }
    }
}

fn numbered(
    alloc: Global,
    front: &str,
    name: &str,
    word: &str,
    number: u64,
) -> Result<String, AllocError>
    ensures { IfOk result (λ text. string_bytes text ≡ front.now ++ name.now ++ word.now ++ decimal number) }
{
    Ok(format!(in alloc; "{front}{name}{word}{number}")?)
}

fn numbered_first(
    alloc: Global,
    front: &str,
    number: u64,
    word: &str,
    rest: &str,
) -> Result<String, AllocError>
    ensures { IfOk result (λ text. string_bytes text ≡ front.now ++ decimal number ++ word.now ++ rest.now) }
{
    Ok(format!(in alloc; "{front}{number}{word}{rest}")?)
}

fn verb_of(verb: Verb) -> &'static str
    ensures { result.now ≡ verb_text verb }
{
    match verb {
        Verb::Inserted => "inserted ",
        Verb::Updated => "updated ",
        Verb::Deleted => "deleted ",
    }
}

fn seq_of(alloc: Global, seq: Option<u64>) -> Result<String, AllocError>
    ensures { IfOk result (λ text. string_bytes text ≡ seq_text seq) }
{
    match seq {
        None => Ok(String::new(alloc)),
        Some(seq) => format!(in alloc; " as {seq}"),
    }
}

fn refusal_of(alloc: Global, cause: &Refusal) -> Result<String, AllocError>
    ensures { IfOk result (λ text. string_bytes text ≡ refusal_text cause.now) }
{
    let (text, name) = match cause {
        Refusal::UnknownTable(name) => ("unknown table ", name.as_str()),
        Refusal::UnknownColumn(name) => ("unknown column ", name.as_str()),
        Refusal::Ambiguous(name) => ("ambiguous ", name.as_str()),
        Refusal::TableExists(name) => ("table exists ", name.as_str()),
        Refusal::TypeMismatch => ("type mismatch", ""),
        Refusal::ColumnCount => ("column count", ""),
        Refusal::NotGrouped => ("not grouped", ""),
        Refusal::NoTransaction => ("no transaction", ""),
        Refusal::InTransaction => ("in transaction", ""),
        Refusal::TooManyRows => ("too many rows", ""),
        Refusal::Arith => ("arithmetic", ""),
    };
    format!(in alloc; "{text}{name}")
}

fn failure_of(alloc: Global, cause: &Failure) -> Result<String, AllocError>
    ensures { IfOk result (λ text. string_bytes text ≡ failure_text cause.now) }
{
    match cause {
        Failure::StoreFault { .. } => String::from_str(alloc, "store fault"),
        Failure::Damaged { name, place } => {
            let name = name_of(alloc, name)?;
            numbered(alloc, "damaged ", name.as_str(), " at ", *place)
        }
    }
}

fn name_of(alloc: Global, name: &Name) -> Result<String, AllocError>
    ensures { IfOk result (λ text. string_bytes text ≡ name_text name.now) }
{
    let kind = letter_of(name.kind);
    let Name {
        txn,
        part,
        task,
        attempt,
        ..
    } = name;
    Ok(format!(in alloc; "{kind}-{txn}-{part}-{task}-{attempt}")?)
}

fn letter_of(kind: Kind) -> &'static str
    ensures { result.now ≡ kind_text kind }
{
    match kind {
        Kind::File => "f",
        Kind::Vector => "v",
        Kind::Manifest => "m",
        Kind::Checkpoint => "c",
    }
}
