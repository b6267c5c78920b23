ghost use Rattle.std.specs.Prelude.{◌≡◌, ◌≤◌, ◌<◌, length, drop, None, IfOk, IfSome};
ghost use Rattle.sql_tokens.specs.Tokens.{gap};
ghost use Rattle.sql_tokens.specs.Scans.{scan_at, begun, IsBehind, RefusesByTokenFault};

use crate::bytes::{count_line, is_blank};
use crate::fronts::{Front, read_front};
use crate::{BadToken, Lexed, Next};
use lake_values::NoMemory;
use std::alloc::Global;

/// What stands next in the bytes, from a place on.
pub fn next_lexeme(alloc: Global, bytes: &[u8], from: usize) -> Result<Next, NoMemory>
    requires { from ≤ length bytes.now }
    ensures next { IfOk result (λ next. scan_at from bytes.now ≡ begun next bytes.now) }
    ensures kind { IfOk result RefusesByTokenFault }
    ensures behind { IfOk result (λ next. IsBehind from (length bytes.now) next) }
{
    let start = behind_gaps(bytes, from);
    if start == bytes.len() {
        return Ok(Next::End);
    }
    match read_front(alloc, bytes.split_at(start).1)? {
        Front::Token(lexeme, size) => Ok(Next::Token(Lexed {
            start: start as u64,
            end: (start + size) as u64,
            lexeme,
        })),
        Front::Bad(kind) => Ok(Next::Refused(BadToken {
            place: start as u64,
            kind,
        })),
    }
}

/// The first place from this one on where no gap begins.
fn behind_gaps(bytes: &[u8], from: usize) -> usize
    requires { from ≤ length bytes.now }
    ensures same { scan_at from bytes.now ≡ scan_at result bytes.now }
    ensures no_gap { gap (drop result bytes.now) ≡ None }
    ensures behind { from ≤ result }
    ensures within { result ≤ length bytes.now }
{
    let mut place = from;
    while let Some(size) = gap(bytes.split_at(place).1) {
        place += size;
    }
    place
}

/// The number of bytes of a gap at the front.
#[tactic(auto, unfolding(crate::specs::Tokens::gap))]
fn gap(bytes: &[u8]) -> Option<usize>
    ensures value { result ≡ gap bytes.now }
    ensures within { IfSome result (λ size. (0 < size) × (size ≤ length bytes.now)) }
{
    match bytes {
        [first, ..] if is_blank(*first) => Some(1),
        [b'-', b'-', line @ ..] => Some(2 + count_line(line)),
        _ => None,
    }
}
