use crate::{BadToken, Keyword, Sign};
use lake_values::Text;

/// What a token says.
#[derive(Debug, Drop)]
pub enum Lexeme {
    /// A table, a column or another name, in lower case.
    Name(Text),
    Keyword(Keyword),
    /// A number. One above 9,223,372,036,854,775,808 counts as one more than that.
    Number(u64),
    /// A text without its quotes, and with each doubled quote once.
    Text(Text),
    /// The mark of a session, from 1 to 16.
    Session(u32),
    Sign(Sign),
}

/// A token and where it stands: the offset of its first byte, and that behind its last.
#[derive(Debug, Drop)]
pub struct Lexed {
    pub start: u64,
    pub end: u64,
    pub lexeme: Lexeme,
}

/// What stands next in a script, behind blanks and comments.
#[derive(Debug, Drop)]
pub enum Next {
    Token(Lexed),
    /// The end of the bytes.
    End,
    /// No token begins here, or what begins isn't one.
    Refused(BadToken),
}
