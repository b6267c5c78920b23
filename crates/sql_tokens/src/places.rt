ghost use Rattle.std.specs.Prelude.{◌≡◌, ◌≤◌, ◌<◌, ◌+◌, length};
ghost use Rattle.std.specs.List.{count_by, suffix_len};
ghost use Rattle.sql_tokens.specs.Tokens.{is_in_line};
ghost use Rattle.sql_tokens.specs.Places.{bad_of, in_32_bits, is_line_feed};

use crate::{BadToken, ScriptBad};

/// The line and the column of the place where bytes are refused. The place may be that behind the last byte.
pub fn script_bad(bytes: &[u8], bad: BadToken) -> ScriptBad
    requires { bad.place ≤ length bytes.now }
    ensures { result ≡ bad_of bytes.now bad }
{
    let (before, _) = bytes.split_at(bad.place as usize);
    ScriptBad {
        line: counted_from_one(count_line_feeds(before)),
        column: counted_from_one(count_last_line(before)),
        kind: bad.kind,
    }
}

fn count_line_feeds(bytes: &[u8]) -> usize
    ensures { result ≡ count_by is_line_feed bytes.now }
{
    bytes.iter().filter(|byte| **byte == b'\n').count()
}

/// How many bytes stand behind the last line feed.
fn count_last_line(bytes: &[u8]) -> usize
    ensures { result ≡ suffix_len is_in_line bytes.now }
{
    bytes
        .iter()
        .rev()
        .take_while(|byte| **byte != b'\n')
        .count()
}

/// One more than the count, or the last number of 32 bits.
fn counted_from_one(count: usize) -> u32
    ensures { result ≡ in_32_bits (1 + count) }
{
    u32::try_from(count).map_or(u32::MAX, |count| count.saturating_add(1))
}
