ghost use Rattle.std.specs.Prelude.{◌≡◌, ◌∷◌, [], Some, None};
ghost use Rattle.grammar_laws.specs.Grammars.{listed, many, mark};
ghost use Rattle.grammar_laws.specs.Phrases.{has_room, less_one};
ghost use Rattle.grammar_laws.specs.Prediction.{begins, first_of};
ghost use Rattle.grammar_laws.specs.Reading.{read, read_member};
ghost use Rattle.sql_parser.specs.Ahead.{Gives, reading, most_levels, is_at};
ghost use Rattle.sql_parser.specs.Classes.{words};
ghost use Rattle.sql_parser.specs.Grammar.{rules};
ghost use Rattle.sql_parser.specs.Separators.{separator_class};

use crate::parser::Parser;
use crate::stops::{Limits, Stop};
use lake_values::Listed;
use sql_tokens::{Keyword, Sign};

/// How many columns, items, keys, references, assignments or values a list may have.
pub const MOST_MEMBERS: u32 = 64;

/// A part of a statement that stands in lists.
pub trait Member {
    ghost use Rattle.std.specs.Prelude.{◌≡◌, true, None};
    ghost use Rattle.grammar_laws.specs.Prediction.{decides, empty_of, first_of};
    ghost use Rattle.sql_parser.specs.Ahead.{Gives, reading, most_levels, is_at};
    ghost use Rattle.sql_parser.specs.ClassLaws.{classes};
    ghost use Rattle.sql_parser.specs.Grammar.{Form};
    ghost use Rattle.sql_parser.specs.Language.{ends};

    type Value: Drop;

    ghost form: { Form Self.Value };

    // One token tells how to go on, and each member has a token.
    ghost decided: { decides classes ends form ≡ true };

    ghost has_token: { empty_of form ≡ None };

    /// Whether a member is next.
    fn is_next(parser: &Parser<'_>) -> bool
        ensures { result ≡ is_at (first_of form) parser.now };

    fn read(parser: &mut Parser<'_>) -> Result<Self::Value, Stop>
        ensures reads { Gives (λ x. x) result parser.new (reading most_levels form parser.old) }
        ensures ending { parser.new.ending ≡ parser.old.ending };
}

/// What stands between the members of a list.
#[derive(Clone, Copy, Debug, PartialEq, Eq)]
pub enum Separator {
    Comma,
    And,
}

fn is_at_separator(parser: &Parser<'_>, separator: Separator) -> bool
    ensures { result ≡ is_at (separator_class separator ∷ []) parser.now }
{
    match separator {
        Separator::Comma => parser.is_at_sign(Sign::Comma),
        Separator::And => parser.is_at_keyword(Keyword::And),
    }
}

fn pass_separator(parser: &mut Parser<'_>, separator: Separator) -> Result<(), Stop>
    ensures reads { Gives (λ _. tt) result parser.new (reading 0 (mark (separator_class separator)) parser.old) }
    ensures ending { parser.new.ending ≡ parser.old.ending }
{
    match separator {
        Separator::Comma => parser.sign(Sign::Comma),
        Separator::And => parser.keyword(Keyword::And),
    }
}

/// Whether another member may come.
fn has_room(room: Option<u32>) -> bool
    ensures { result ≡ has_room room }
{
    match room {
        None => true,
        Some(room) => room > 0,
    }
}

/// The room behind a member.
fn less_one(room: Option<u32>) -> Option<u32>
    ensures { result ≡ less_one room }
{
    match room {
        None => None,
        Some(room) => Some(room.saturating_sub(1)),
    }
}

/// A member, where there is room for it. What can't begin one is refused as such also where there is none.
fn next_member<M: Member>(parser: &mut Parser<'_>, room: Option<u32>) -> Result<M::Value, Stop>
    ensures reads { Gives (λ x. x) result parser.new (read_member (has_room room) (begins words (first_of M.form)) (read rules most_levels M.form) parser.old.operators parser.old.tokens) }
    ensures ending { parser.new.ending ≡ parser.old.ending }
{
    if has_room(room) {
        return M::read(parser);
    }
    if M::is_next(parser) {
        Err(Stop::Refused(Limits::Limit))
    } else {
        Err(Stop::Refused(Limits::Syntax))
    }
}

/// One or more members with a separator between them, at most so many where there is a bound.
pub fn list<M: Member>(
    parser: &mut Parser<'_>,
    most: Option<u32>,
    separator: Separator,
) -> Result<Listed<M::Value>, Stop>
    ensures reads { Gives (λ x. x) result parser.new (reading most_levels (listed most (separator_class separator) M.form) parser.old) }
    ensures ending { parser.new.ending ≡ parser.old.ending }
{
    list_with_capacity::<M>(parser, most, separator, 0)
}

/// A list for which memory is first taken for so many members.
pub fn list_with_capacity<M: Member>(
    parser: &mut Parser<'_>,
    most: Option<u32>,
    separator: Separator,
    capacity: usize,
) -> Result<Listed<M::Value>, Stop>
    ensures reads { Gives (λ x. x) result parser.new (reading most_levels (listed most (separator_class separator) M.form) parser.old) }
    ensures ending { parser.new.ending ≡ parser.old.ending }
{
    let mut members = Vec::with_capacity(parser.allocator(), capacity)?;
    let first = M::read(parser)?;
    members.push(first)?;
    let mut room = less_one(most);
    while is_at_separator(parser, separator) {
        pass_separator(parser, separator)?;
        let member = next_member::<M>(parser, room)?;
        members.push(member)?;
        room = less_one(room);
    }
    Ok(Listed::from_list(members))
}

/// None or more members, one behind another, at most this many.
pub fn run<M: Member>(parser: &mut Parser<'_>, most: u32) -> Result<Listed<M::Value>, Stop>
    ensures reads { Gives (λ x. x) result parser.new (reading most_levels (many (Some most) None M.form) parser.old) }
    ensures ending { parser.new.ending ≡ parser.old.ending }
{
    let mut members = Vec::new(parser.allocator());
    let mut room = Some(most);
    while M::is_next(parser) {
        let member = next_member::<M>(parser, room)?;
        members.push(member)?;
        room = less_one(room);
    }
    Ok(Listed::from_list(members))
}
