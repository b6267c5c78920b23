ghost use Rattle.std.specs.Prelude.{◌≡◌, ◌≤◌, ◌∷◌, [], ℕ, List, None, Some, IfOk, OnOk, OnErr, IsSome, length};
ghost use Rattle.std.specs.Option.{option_copied};
ghost use Rattle.grammar_laws.specs.Prediction.{begins};
ghost use Rattle.sql_tokens.specs.Scans.{IsBehind, begun, scan_at};
ghost use Rattle.sql_parser.specs.Classes.{comparison_of, a_name, a_text, a_number, a_session, a_comparison, the_keyword, the_sign, words};
ghost use Rattle.sql_parser.specs.Ahead.{Gives, reading, is_at, refusal_of, next_lexeme_in, behind_first};
ghost use Rattle.sql_parser.specs.Refusals.{kind_at, refused_next, is_all_read};
ghost use Rattle.sql_parser.specs.Grammar.{key, the, operator, key_operator, name, text, number_up_to, session, comparison};

use crate::stops::{Limits, Stop};
use crate::values::MOST_NUMBER;
use lake_values::{NoMemory, Text};
use sql_model::CmpOp;
use sql_tokens::{BadToken, Keyword, Lexeme, Next, ParseKind, Sign, next_lexeme};
use std::alloc::Global;
use std::marker::Model;
use std::mem;

/// A parser in the bytes of a script: it has read the tokens before the next one.
#[derive(Drop)]
pub struct Parser<'a> {
    alloc: Global,
    bytes: &'a [u8],
    next: Next,
    /// How many operators the expression may still have.
    operators: u32,
    /// How many values the last row had.
    row_width: usize,
}

impl<'a> Model for Parser<'a> {
    ghost use Rattle.std.specs.Prelude.{length};
    ghost use Rattle.sql_tokens.specs.Scans.{IsBehind};
    ghost use Rattle.sql_parser.specs.Ahead.{Ahead, ahead_of};

    ghost Value = { Ahead };

    ghost view = { λ p. ahead_of p.next p.bytes.now p.operators };

    ghost invariant = { λ p. IsBehind 0 (length p.bytes.now) p.next };
}

impl<'a> Parser<'a> {
    /// A parser at the first token.
    pub fn new(alloc: Global, bytes: &'a [u8]) -> Result<Parser<'a>, NoMemory>
        ensures tokens { IfOk result (λ p. p.tokens ≡ (scan_at 0 bytes.now).tokens) }
        ensures refused { IfOk result (λ p. p.ending.refused ≡ (scan_at 0 bytes.now).refused) }
        ensures bytes { IfOk result (λ p. p.ending.bytes ≡ length bytes.now) }
        ensures operators { IfOk result (λ p. p.operators ≡ 0) }
    {
        let mut next = Next::End;
        read_next(alloc, bytes, 0, &mut next)?;
        Ok(Parser {
            alloc,
            bytes,
            next,
            operators: 0,
            row_width: 0,
        })
    }

    /// What values are put together with.
    pub fn allocator(&self) -> Global {
        self.alloc
    }

    /// How many values the last row had. The next one mostly has as many.
    pub fn row_width(&self) -> usize {
        self.row_width
    }

    pub fn set_row_width(&mut self, width: usize)
        ensures { self.new ≡ self.old }
    {
        self.row_width = width;
    }

    /// Sets how many operators the expression may still have, and answers how many it might have had.
    pub fn replace_operators(&mut self, operators: u32) -> u32
        ensures before { result ≡ self.old.operators }
        ensures after { self.new ≡ record self.old { operators = operators } }
    {
        mem::replace(&mut self.operators, operators)
    }

    /// Whether all bytes were read as tokens.
    pub fn is_at_end(&self) -> bool
        ensures { result ≡ is_all_read self.now }
    {
        matches!(self.next, Next::End)
    }

    /// The refusal of what is next.
    pub fn refusal(&self, kind: Limits) -> BadToken
        ensures place { result ≡ refused_next (refusal_of kind) self.now }
        ensures within { result.place ≤ self.now.ending.bytes }
    {
        match &self.next {
            Next::Token(token) => BadToken {
                place: token.start,
                kind: kind_at(&token.lexeme, kind),
            },
            Next::Refused(bad) => *bad,
            Next::End => BadToken {
                place: self.bytes.len() as u64,
                kind: ParseKind::Syntax,
            },
        }
    }

    fn peek(&self) -> Option<&Lexeme>
        ensures { option_copied result ≡ next_lexeme_in self.now.tokens }
    {
        match &self.next {
            Next::Token(token) => Some(&token.lexeme),
            _ => None,
        }
    }

    pub fn is_at_keyword(&self, keyword: Keyword) -> bool
        ensures { result ≡ is_at (the_keyword keyword ∷ []) self.now }
    {
        match self.peek() {
            Some(Lexeme::Keyword(found)) => *found == keyword,
            _ => false,
        }
    }

    pub fn is_at_sign(&self, sign: Sign) -> bool
        ensures { result ≡ is_at (the_sign sign ∷ []) self.now }
    {
        match self.peek() {
            Some(Lexeme::Sign(found)) => *found == sign,
            _ => false,
        }
    }

    /// Takes the next token.
    fn advance(&mut self) -> Result<Lexeme, NoMemory>
        requires { IsSome (next_lexeme_in self.old.tokens) }
        ensures lexeme { IfOk result (λ lexeme. next_lexeme_in self.old.tokens ≡ Some lexeme) }
        ensures rest { OnOk result (self.new.tokens ≡ behind_first self.old.tokens) }
        ensures ending { self.new.ending ≡ self.old.ending }
        ensures operators { self.new.operators ≡ self.old.operators }
    {
        let Next::Token(token) = &self.next else {
            unreachable!()
        };
        let mut next = Next::End;
        read_next(self.alloc, self.bytes, token.end as usize, &mut next)?;
        match mem::replace(&mut self.next, next) {
            Next::Token(token) => Ok(token.lexeme),
            _ => unreachable!(),
        }
    }

    /// Passes the next token.
    fn skip(&mut self) -> Result<(), NoMemory>
        requires { IsSome (next_lexeme_in self.old.tokens) }
        ensures rest { OnOk result (self.new.tokens ≡ behind_first self.old.tokens) }
        ensures ending { self.new.ending ≡ self.old.ending }
        ensures operators { self.new.operators ≡ self.old.operators }
    {
        let Next::Token(token) = &self.next else {
            unreachable!()
        };
        let end = token.end as usize;
        read_next(self.alloc, self.bytes, end, &mut self.next)
    }

    /// This keyword.
    pub fn keyword(&mut self, keyword: Keyword) -> Result<(), Stop>
        ensures reads { Gives (λ _. tt) result self.new (reading 0 (key keyword) self.old) }
        ensures ending { self.new.ending ≡ self.old.ending }
    {
        if !self.is_at_keyword(keyword) {
            return Err(Stop::Refused(Limits::Syntax));
        }
        self.skip()?;
        Ok(())
    }

    /// This sign.
    pub fn sign(&mut self, sign: Sign) -> Result<(), Stop>
        ensures reads { Gives (λ _. tt) result self.new (reading 0 (the sign) self.old) }
        ensures ending { self.new.ending ≡ self.old.ending }
    {
        if !self.is_at_sign(sign) {
            return Err(Stop::Refused(Limits::Syntax));
        }
        self.skip()?;
        Ok(())
    }

    /// This sign, where it is an operator of an expression.
    pub fn operator(&mut self, sign: Sign) -> Result<(), Stop>
        ensures reads { Gives (λ _. tt) result self.new (reading 0 (operator sign) self.old) }
        ensures ending { self.new.ending ≡ self.old.ending }
    {
        if !self.is_at_sign(sign) {
            return Err(Stop::Refused(Limits::Syntax));
        }
        if self.operators == 0 {
            return Err(Stop::Refused(Limits::Limit));
        }
        self.skip()?;
        self.operators -= 1;
        Ok(())
    }

    /// A name.
    pub fn name(&mut self) -> Result<Text, Stop>
        ensures reads { Gives (λ x. x) result self.new (reading 0 name self.old) }
        ensures ending { self.new.ending ≡ self.old.ending }
    {
        if !self.is_at_name() {
            return Err(Stop::Refused(Limits::Syntax));
        }
        match self.advance()? {
            Lexeme::Name(name) => Ok(name),
            _ => unreachable!(),
        }
    }

    pub fn is_at_name(&self) -> bool
        ensures { result ≡ is_at (a_name ∷ []) self.now }
    {
        matches!(self.peek(), Some(Lexeme::Name(_)))
    }

    pub fn is_at_text(&self) -> bool
        ensures { result ≡ is_at (a_text ∷ []) self.now }
    {
        matches!(self.peek(), Some(Lexeme::Text(_)))
    }

    /// A text.
    pub fn text(&mut self) -> Result<Text, Stop>
        ensures reads { Gives (λ x. x) result self.new (reading 0 text self.old) }
        ensures ending { self.new.ending ≡ self.old.ending }
    {
        if !self.is_at_text() {
            return Err(Stop::Refused(Limits::Syntax));
        }
        match self.advance()? {
            Lexeme::Text(text) => Ok(text),
            _ => unreachable!(),
        }
    }

    /// Whether a number of at most this much is next.
    pub fn is_at_number(&self, most: u64) -> bool
        ensures { result ≡ is_at (a_number most ∷ []) self.now }
    {
        match self.peek() {
            Some(Lexeme::Number(number)) => *number <= most,
            _ => false,
        }
    }

    /// A number of at most this much.
    pub fn number(&mut self, most: u64) -> Result<u64, Stop>
        ensures reads { Gives (λ x. x) result self.new (reading 0 (number_up_to most) self.old) }
        ensures ending { self.new.ending ≡ self.old.ending }
        ensures bound { IfOk result (λ number. number ≤ most) }
    {
        match self.peek() {
            Some(Lexeme::Number(number)) if *number <= most => {
                let number = *number;
                self.skip()?;
                Ok(number)
            }
            _ => Err(Stop::Refused(Limits::Syntax)),
        }
    }

    pub fn is_at_session(&self) -> bool
        ensures { result ≡ is_at (a_session ∷ []) self.now }
    {
        matches!(self.peek(), Some(Lexeme::Session(_)))
    }

    /// The mark of a session.
    pub fn session(&mut self) -> Result<u32, Stop>
        ensures reads { Gives (λ x. x) result self.new (reading 0 session self.old) }
        ensures ending { self.new.ending ≡ self.old.ending }
    {
        match self.peek() {
            Some(Lexeme::Session(session)) => {
                let session = *session;
                self.skip()?;
                Ok(session)
            }
            _ => Err(Stop::Refused(Limits::Syntax)),
        }
    }

    pub fn is_at_comparison(&self) -> bool
        ensures { result ≡ is_at (a_comparison ∷ []) self.now }
    {
        match self.peek() {
            Some(Lexeme::Sign(sign)) => comparison_of(*sign).is_some(),
            _ => false,
        }
    }

    /// The sign of a comparison.
    pub fn comparison(&mut self) -> Result<CmpOp, Stop>
        ensures reads { Gives (λ x. x) result self.new (reading 0 comparison self.old) }
        ensures ending { self.new.ending ≡ self.old.ending }
    {
        if !self.is_at_comparison() {
            return Err(Stop::Refused(Limits::Syntax));
        }
        if self.operators == 0 {
            return Err(Stop::Refused(Limits::Limit));
        }
        self.operators -= 1;
        match self.advance()? {
            Lexeme::Sign(sign) => Ok(comparison_of(sign).unwrap_or(CmpOp::Eq)),
            _ => unreachable!(),
        }
    }

    /// This keyword, where it is an operator of an expression.
    pub fn key_operator(&mut self, keyword: Keyword) -> Result<(), Stop>
        ensures reads { Gives (λ _. tt) result self.new (reading 0 (key_operator keyword) self.old) }
        ensures ending { self.new.ending ≡ self.old.ending }
    {
        if !self.is_at_keyword(keyword) {
            return Err(Stop::Refused(Limits::Syntax));
        }
        if self.operators == 0 {
            return Err(Stop::Refused(Limits::Limit));
        }
        self.skip()?;
        self.operators -= 1;
        Ok(())
    }
}

/// Reads what stands next in the bytes, from a place on.
// Not inlined, so that the tokeniser stands once in a program and writes each token right where it is kept.
#[inline(never)]
fn read_next(alloc: Global, bytes: &[u8], from: usize, next: &mut Next) -> Result<(), NoMemory>
    requires { from ≤ length bytes.now }
    ensures next { OnOk result (scan_at from bytes.now ≡ begun next.new bytes.now) }
    ensures behind { OnOk result (IsBehind from (length bytes.now) next.new) }
    ensures err { OnErr result (next.new ≡ next.old) }
{
    *next = next_lexeme(alloc, bytes, from)?;
    Ok(())
}

/// Why a token is refused: a big number as such, whatever may stand there.
fn kind_at(lexeme: &Lexeme, kind: Limits) -> ParseKind
    ensures { result ≡ kind_at (refusal_of kind) lexeme.now }
{
    match lexeme {
        Lexeme::Number(number) if *number > MOST_NUMBER => ParseKind::BigNumber,
        _ => match kind {
            Limits::Syntax => ParseKind::Syntax,
            Limits::Limit => ParseKind::Limit,
        },
    }
}

/// The comparison that a sign stands for.
fn comparison_of(sign: Sign) -> Option<CmpOp>
    ensures { result ≡ comparison_of sign }
{
    match sign {
        Sign::Equal => Some(CmpOp::Eq),
        Sign::NotEqual => Some(CmpOp::Ne),
        Sign::Less => Some(CmpOp::Lt),
        Sign::LessOrEqual => Some(CmpOp::Le),
        Sign::Greater => Some(CmpOp::Gt),
        Sign::GreaterOrEqual => Some(CmpOp::Ge),
        _ => None,
    }
}
