ghost use Rattle.std.specs.Prelude.{◌≡◌, false, true, length, IfOk, IfNone, IfSome, ◌<◌, ◌+◌};
ghost use Rattle.std.specs.Str.{is_utf8};
ghost use Rattle.sql_tokens.specs.Tokens.{closing, closed_text, undoubled, text, IsWithin};

use crate::fronts::Front;
use crate::{Lexeme, ParseKind};
use lake_values::{NoMemory, Text, TextFault};
use std::alloc::Global;

/// The text whose opening quote stands right before these bytes.
#[tactic(auto, unfolding(crate::specs::Tokens::text))]
pub fn read_text(alloc: Global, bytes: &[u8]) -> Result<Front, NoMemory>
    ensures value { IfOk result (λ read. read ≡ text bytes.now) }
    ensures within { IfOk result (IsWithin (length bytes.now + 1)) }
{
    let Some(quote) = closing(bytes) else {
        return Ok(Front::Bad(ParseKind::OpenText));
    };
    let inside = bytes.split_at(quote).0;
    if inside.contains(&b'\'') {
        let value = undoubled(alloc, inside)?;
        return closed_text(alloc, value.as_slice(), quote + 2);
    }
    closed_text(alloc, inside, quote + 2)
}

/// The place of the quote that closes a text.
fn closing(bytes: &[u8]) -> Option<usize>
    ensures value { result ≡ closing 0 false bytes.now }
    ensures within { IfSome result (λ quote. quote < length bytes.now) }
{
    let mut behind_quote = false;
    for (place, byte) in bytes.iter().enumerate() {
        if *byte == b'\'' {
            behind_quote = !behind_quote;
        } else if behind_quote {
            return Some(place - 1);
        }
    }
    if behind_quote {
        Some(bytes.len() - 1)
    } else {
        None
    }
}

/// The bytes with each pair of quotes once.
fn undoubled(alloc: Global, bytes: &[u8]) -> Result<Vec<u8>, NoMemory>
    ensures { IfOk result (λ value. value.items ≡ undoubled false bytes.now) }
{
    let mut value = Vec::with_capacity(alloc, bytes.len())?;
    let mut behind_quote = false;
    for byte in bytes {
        if behind_quote && *byte == b'\'' {
            behind_quote = false;
        } else {
            value.push(*byte)?;
            behind_quote = *byte == b'\'';
        }
    }
    Ok(value)
}

/// The token of a text whose bytes these are.
#[tactic(auto, unfolding(crate::specs::Tokens::closed_text))]
fn closed_text(alloc: Global, value: &[u8], size: usize) -> Result<Front, NoMemory>
    requires { 0 < size }
    ensures value { IfOk result (λ read. read ≡ closed_text value.now size) }
    ensures within { IfOk result (IsWithin size) }
{
    let Some(value) = as_utf8(value) else {
        return Ok(Front::Bad(ParseKind::NotUtf8));
    };
    match Text::new(alloc, value) {
        Ok(text) => Ok(Front::Token(Lexeme::Text(text), size)),
        Err(TextFault::TooLong) => Ok(Front::Bad(ParseKind::LongText)),
        Err(TextFault::NoMemory) => Err(NoMemory),
    }
}

fn as_utf8(bytes: &[u8]) -> Option<&str>
    ensures some { IfSome result (λ text. (text.now ≡ bytes.now) × (is_utf8 bytes.now ≡ true)) }
    ensures none { IfNone result (is_utf8 bytes.now ≡ false) }
{
    match str::from_utf8(bytes) {
        Ok(text) => Some(text),
        Err(_) => None,
    }
}
