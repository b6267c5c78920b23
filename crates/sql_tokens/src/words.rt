ghost use Rattle.std.specs.Prelude.{◌≡◌, ◌<◌, ◌≤◌, All, IfOk, IsTrue, length, map, take};
ghost use Rattle.sql_tokens.specs.Tokens.{folded, keyword_of, name_or, word, begins_with, is_letter, IsWithin};

use crate::bytes::{count_word, fold};
use crate::fronts::Front;
use crate::keywords::keyword_of;
use crate::{Lexeme, ParseKind};
use lake_values::{NoMemory, Text, short_text};
use std::alloc::Global;

/// The most bytes of a name or a keyword.
const MOST: usize = 64;

/// The name or the keyword at the front.
#[tactic(auto, unfolding(crate::specs::Tokens::word))]
pub fn read_word(alloc: Global, bytes: &[u8]) -> Result<Front, NoMemory>
    requires { IsTrue (begins_with is_letter bytes.now) }
    ensures value { IfOk result (λ read. read ≡ word bytes.now) }
    ensures within { IfOk result (IsWithin (length bytes.now)) }
{
    let size = count_word(bytes);
    if size > MOST {
        return Ok(Front::Bad(ParseKind::LongName));
    }
    let mut name = [0; MOST];
    fold_into(&mut name, bytes.split_at(size).0);
    let lexeme = name_or_keyword(alloc, name.split_at(size).0)?;
    Ok(Front::Token(lexeme, size))
}

/// Writes the word in lower case at the front of the name.
fn fold_into(name: &mut [u8; MOST], word: &[u8])
    requires { length word.now ≤ 64 }
    ensures { take (length word.now) name.new ≡ map folded word.now }
{
    for (place, byte) in word.iter().enumerate() {
        name[place] = fold(*byte);
    }
}

/// A name in lower case, or the keyword that it is.
fn name_or_keyword(alloc: Global, name: &[u8]) -> Result<Lexeme, NoMemory>
    requires few { length name.now ≤ 64 }
    requires ascii { All (λ b. b < 128) name.now }
    ensures { IfOk result (λ lexeme. lexeme ≡ name_or name.now (keyword_of name.now)) }
{
    match keyword_of(name) {
        Some(keyword) => Ok(Lexeme::Keyword(keyword)),
        None => Ok(Lexeme::Name(ascii_text(alloc, name)?)),
    }
}

fn ascii_text(alloc: Global, name: &[u8]) -> Result<Text, NoMemory>
    requires few { length name.now ≤ 64 }
    requires ascii { All (λ b. b < 128) name.now }
    ensures { IfOk result (λ text. text ≡ name.now) }
{
    let name = str::from_utf8(name).unwrap();
    short_text(alloc, name)
}
