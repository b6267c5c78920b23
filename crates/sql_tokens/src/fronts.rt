ghost use Rattle.std.specs.Prelude.{◌≡◌, ◌<◌, ◌+◌, length, IfOk};
ghost use Rattle.sql_tokens.specs.Tokens.{front, session, IsWithin};

use crate::bytes::{is_digit, is_letter, is_word};
use crate::numbers::read_number;
use crate::signs::read_sign;
use crate::texts::read_text;
use crate::words::read_word;
use crate::{Lexeme, ParseKind};
use lake_values::NoMemory;
use std::alloc::Global;

/// What stands at the front of bytes that begin with no gap.
#[derive(Debug, Drop)]
pub enum Front {
    /// A token and the number of its bytes.
    Token(Lexeme, usize),
    Bad(ParseKind),
}

/// The token at the front of bytes that begin with no gap.
#[tactic(auto, unfolding(crate::specs::Tokens::front))]
pub fn read_front(alloc: Global, bytes: &[u8]) -> Result<Front, NoMemory>
    requires { 0 < length bytes.now }
    ensures value { IfOk result (λ read. read ≡ front bytes.now) }
    ensures within { IfOk result (IsWithin (length bytes.now)) }
{
    let (_, behind) = bytes.split_at(1);
    match bytes[0] {
        first if is_letter(first) => read_word(alloc, bytes),
        first if is_digit(first) => Ok(read_number(bytes)),
        b'\'' => read_text(alloc, behind),
        b'@' => Ok(read_session(behind)),
        _ => Ok(read_sign(bytes)),
    }
}

/// The session mark whose `@` stands right before these bytes.
#[tactic(auto, unfolding(crate::specs::Tokens::session))]
fn read_session(bytes: &[u8]) -> Front
    ensures value { result ≡ session bytes.now }
    ensures within { IsWithin (length bytes.now + 1) result }
{
    let Some((letter, behind)) = bytes.split_first() else {
        return Front::Bad(ParseKind::BadChar);
    };
    let goes_on = behind.first().is_some_and(|byte| is_word(*byte));
    if !matches!(*letter, b'a'..=b'p') || goes_on {
        return Front::Bad(ParseKind::BadChar);
    }
    let number = u32::from(*letter - b'a') + 1;
    Front::Token(Lexeme::Session(number), 2)
}
