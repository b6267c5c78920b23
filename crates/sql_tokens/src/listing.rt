ghost use Rattle.std.specs.Prelude.{◌≡◌, None, length, map, IfOk, IfErr, OnOk};
ghost use Rattle.sql_tokens.specs.Listing.{AreInOrder, TellsOf, TellsTokenFault, kind_of, refusal_of, token_of};
ghost use Rattle.sql_tokens.specs.Scans.{scan};

use crate::{Lexed, Lexeme, Next, ParseFault, next_lexeme, script_bad};
use lake_values::{NoMemory, Text, short_text};
use std::alloc::Global;

/// What a token of a list says.
#[derive(Debug, PartialEq, Eq, Drop)]
pub enum TokenKind {
    /// In lower case.
    Name(Text),
    /// In lower case.
    Keyword(Text),
    /// One above 9,223,372,036,854,775,808 counts as one more than that.
    Number(u64),
    /// Without its quotes, and with each doubled quote once.
    Text(Text),
    /// From 1 to 16.
    Session(u32),
    /// `!=` is `<>`.
    Sign(Text),
}

/// A token of a list, with the offset of its first byte and that behind its last.
#[derive(Debug, PartialEq, Eq, Drop)]
pub struct Token {
    pub start: u64,
    pub end: u64,
    pub kind: TokenKind,
}

/// The tokens of a script in order, or the first place at which its bytes are no token.
pub fn tokens(alloc: Global, bytes: &[u8]) -> Result<Vec<Token>, ParseFault>
    ensures tokens { IfOk result (λ list. list.items ≡ map token_of (scan 0 bytes.now).tokens) }
    ensures none_refused { OnOk result (refusal_of bytes.now ≡ None) }
    ensures refused { IfErr result (TellsOf (refusal_of bytes.now)) }
    ensures kind { IfErr result TellsTokenFault }
    ensures in_order { IfOk result (λ list. AreInOrder 0 (length bytes.now) list.items) }
{
    let mut list = Vec::new(alloc);
    let mut from = 0;
    'tokens: loop {
        match next_lexeme(alloc, bytes, from)? {
            Next::Token(lexed) => {
                from = lexed.end as usize;
                list.push(token_of(alloc, lexed)?)?;
            }
            Next::End => return Ok(list),
            Next::Refused(bad) => return Err(ParseFault::Refused(script_bad(bytes, bad))),
        }
    }
}

fn token_of(alloc: Global, lexed: Lexed) -> Result<Token, NoMemory>
    ensures { IfOk result (λ token. token ≡ token_of lexed) }
{
    let kind = kind_of(alloc, lexed.lexeme)?;
    Ok(Token {
        start: lexed.start,
        end: lexed.end,
        kind,
    })
}

fn kind_of(alloc: Global, lexeme: Lexeme) -> Result<TokenKind, NoMemory>
    ensures { IfOk result (λ kind. kind ≡ kind_of lexeme) }
{
    Ok(match lexeme {
        Lexeme::Name(name) => TokenKind::Name(name),
        Lexeme::Keyword(keyword) => TokenKind::Keyword(short_text(alloc, keyword.text())?),
        Lexeme::Number(number) => TokenKind::Number(number),
        Lexeme::Text(text) => TokenKind::Text(text),
        Lexeme::Session(session) => TokenKind::Session(session),
        Lexeme::Sign(sign) => TokenKind::Sign(short_text(alloc, sign.text())?),
    })
}
