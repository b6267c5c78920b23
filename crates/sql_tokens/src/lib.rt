//! The tokens of a script: names, keywords, numbers, texts, session marks and signs, with their places, and
//! the places at which bytes are no token.
//!
//! `specs/Tokens` says what stands at the front of bytes, and `specs/Scans` what all tokens of a script are.
//!
//! What the clauses say: `tokens` answers exactly the tokens of the bytes (`tokens`,
//! `none_refused`), in order and without overlap (`in_order`), or exactly the first bytes that are
//! none, and why (`refused`, `kind`); `next_lexeme` the same of the token that stands next.
//! `script_bad` is exactly the line and the column of a place. Laws: each keyword and each sign
//! reads back from its text, and each text with its quotes doubled is read as it was.
#![tactic(auto)]

mod bytes;
mod faults;
mod fronts;
mod keywords;
mod laws;
mod lexemes;
mod listing;
mod next;
mod numbers;
mod places;
mod signs;
mod texts;
mod words;

pub use faults::{BadToken, ParseFault, ParseKind, ScriptBad};
pub use keywords::Keyword;
pub use laws::{one_keyword_text, one_quoted_text, one_sign_text};
pub use lexemes::{Lexed, Lexeme, Next};
pub use listing::{Token, TokenKind, tokens};
pub use next::next_lexeme;
pub use places::script_bad;
pub use signs::Sign;
