ghost use Rattle.std.specs.Prelude.{◌≡◌, ◌<◌, ◌≤◌, length, IfSome};
ghost use Rattle.sql_tokens.specs.Tokens.{single_sign, double_sign, sized_sign_or_bad, sign_front, sign_text, IsWithin};

use crate::fronts::Front;
use crate::{Lexeme, ParseKind};

/// The signs of the language. `<>` and `!=` are one sign.
#[derive(Clone, Copy, Debug, PartialEq, Eq)]
pub enum Sign {
    OpenParenthesis,
    CloseParenthesis,
    OpenBrace,
    CloseBrace,
    Comma,
    Semicolon,
    Dot,
    Star,
    Plus,
    Minus,
    Equal,
    NotEqual,
    LessOrEqual,
    GreaterOrEqual,
    Less,
    Greater,
}

impl Sign {
    /// The sign as it is written.
    pub fn text(self) -> &'static str
        ensures { result.now ≡ sign_text self }
    {
        match self {
            Sign::OpenParenthesis => "(",
            Sign::CloseParenthesis => ")",
            Sign::OpenBrace => "{",
            Sign::CloseBrace => "}",
            Sign::Comma => ",",
            Sign::Semicolon => ";",
            Sign::Dot => ".",
            Sign::Star => "*",
            Sign::Plus => "+",
            Sign::Minus => "-",
            Sign::Equal => "=",
            Sign::NotEqual => "<>",
            Sign::LessOrEqual => "<=",
            Sign::GreaterOrEqual => ">=",
            Sign::Less => "<",
            Sign::Greater => ">",
        }
    }
}

/// The longest sign at the front.
#[tactic(auto, unfolding(crate::specs::Tokens::sign_front))]
pub fn read_sign(bytes: &[u8]) -> Front
    ensures value { result ≡ sign_front bytes.now }
    ensures within { IsWithin (length bytes.now) result }
{
    match sign_at_front(bytes) {
        Some((sign, size)) => Front::Token(Lexeme::Sign(sign), size),
        None => Front::Bad(ParseKind::BadChar),
    }
}

/// The longest sign at the front, with the number of its bytes.
#[tactic(auto, unfolding(crate::specs::Tokens::sign_front))]
fn sign_at_front(bytes: &[u8]) -> Option<(Sign, usize)>
    ensures value { sign_front bytes.now ≡ sized_sign_or_bad result }
    ensures within { IfSome result (λ found. (0 < found.1) × (found.1 ≤ length bytes.now)) }
{
    let (first, behind) = bytes.split_first()?;
    if let Some(second) = behind.first()
        && let Some(sign) = double_sign(*first, *second)
    {
        return Some((sign, 2));
    }
    single_sign(*first).map(|sign| (sign, 1))
}

#[tactic(auto, unfolding(crate::specs::Tokens::double_sign))]
fn double_sign(first: u8, second: u8) -> Option<Sign>
    ensures { result ≡ double_sign first second }
{
    match (first, second) {
        (b'<', b'>') => Some(Sign::NotEqual),
        (b'!', b'=') => Some(Sign::NotEqual),
        (b'<', b'=') => Some(Sign::LessOrEqual),
        (b'>', b'=') => Some(Sign::GreaterOrEqual),
        _ => None,
    }
}

#[tactic(auto, unfolding(crate::specs::Tokens::single_sign))]
fn single_sign(byte: u8) -> Option<Sign>
    ensures { result ≡ single_sign byte }
{
    match byte {
        b'(' => Some(Sign::OpenParenthesis),
        b')' => Some(Sign::CloseParenthesis),
        b'{' => Some(Sign::OpenBrace),
        b'}' => Some(Sign::CloseBrace),
        b',' => Some(Sign::Comma),
        b';' => Some(Sign::Semicolon),
        b'.' => Some(Sign::Dot),
        b'*' => Some(Sign::Star),
        b'+' => Some(Sign::Plus),
        b'-' => Some(Sign::Minus),
        b'=' => Some(Sign::Equal),
        b'<' => Some(Sign::Less),
        b'>' => Some(Sign::Greater),
        _ => None,
    }
}
