//! Scripts from their bytes: the grammar of the language, and where bytes that are no script are refused.
//!
//! `specs/Grammar` has each production with the part of a statement that it stands for, over the tokens of
//! `sql_tokens`; `specs/Language` shows that one token always tells how to go on. `specs/Scripts` says what a
//! script is and what the first refused place is, and `specs/Refusals` why a place is refused.
//!
//! Each function reads one production, and its contract says that it does what `reading` of that production
//! does. A parser that was stopped stands at the refused token.
//!
//! What the clauses say: `parse_script` answers the script that the bytes are, or where they are
//! refused, exactly as `script_of` says (`script`, `refused`). Laws say what `script_of` is: a
//! script is answered exactly where the bytes are all tokens and these a sentence of the grammar
//! (`reads_exactly_scripts`), a refusal is exactly the first place (`refuses_first_place`), no
//! bytes have two answers (`one_answer`), and places are numbered from 1 (`numbers_scripts`).
#![tactic(auto)]

mod changes;
mod expressions;
mod inserts;
mod items;
mod laws;
mod lists;
mod parser;
mod queries;
mod scripts;
mod selects;
mod stops;
mod tables;
mod transactions;
mod values;

pub use laws::{numbers_scripts, one_answer, reads_exactly_scripts, refuses_first_place};
pub use scripts::parse_script;
pub use sql_tokens::{ParseFault, ParseKind, ScriptBad, Token, TokenKind, tokens};
