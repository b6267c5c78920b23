ghost use Rattle.std.specs.Prelude.{◌≡◌};
ghost use Rattle.sql_parser.specs.Ahead.{Gives, reading, most_levels, is_at};
ghost use Rattle.sql_parser.specs.Grammar as grammar;

use crate::expressions::{expression, where_clause};
use crate::lists::{MOST_MEMBERS, Member, Separator, list};
use crate::parser::Parser;
use crate::stops::Stop;
use sql_model::{Set, Statement};
use sql_tokens::{Keyword, Sign};

/// An assignment of an UPDATE.
struct Assignment;

impl Member for Assignment {
    ghost use Rattle.sql_parser.specs.Grammar as grammar;
    ghost use Rattle.sql_parser.specs.Members.{set_decided, set_has_token};

    type Value = Set;

    ghost form = { grammar.set };

    ghost decided = { set_decided };

    ghost has_token = { set_has_token };

    #[tactic(auto, unfolding(crate::specs::Grammar::set))]
    fn is_next(parser: &Parser<'_>) -> bool {
        parser.is_at_name()
    }

    #[tactic(auto, unfolding(crate::specs::Grammar::set))]
    fn read(parser: &mut Parser<'_>) -> Result<Set, Stop> {
        let column = parser.name()?;
        parser.sign(Sign::Equal)?;
        let value = expression(parser)?;
        Ok(Set { column, value })
    }
}

#[tactic(auto, unfolding(crate::specs::Grammar::update))]
pub fn update(parser: &mut Parser<'_>) -> Result<Statement, Stop>
    ensures reads { Gives (λ x. x) result parser.new (reading most_levels grammar.update parser.old) }
    ensures ending { parser.new.ending ≡ parser.old.ending }
{
    parser.keyword(Keyword::Update)?;
    let table = parser.name()?;
    parser.keyword(Keyword::Set)?;
    let sets = list::<Assignment>(parser, Some(MOST_MEMBERS), Separator::Comma)?;
    let filter = where_clause(parser)?;
    Ok(Statement::Update {
        table,
        sets,
        filter,
    })
}

#[tactic(auto, unfolding(crate::specs::Grammar::delete))]
pub fn delete(parser: &mut Parser<'_>) -> Result<Statement, Stop>
    ensures reads { Gives (λ x. x) result parser.new (reading most_levels grammar.delete parser.old) }
    ensures ending { parser.new.ending ≡ parser.old.ending }
{
    parser.keyword(Keyword::Delete)?;
    parser.keyword(Keyword::From)?;
    let table = parser.name()?;
    let filter = where_clause(parser)?;
    Ok(Statement::Delete { table, filter })
}
