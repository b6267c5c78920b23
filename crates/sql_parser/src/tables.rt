ghost use Rattle.std.specs.Prelude.{◌≡◌};
ghost use Rattle.sql_parser.specs.Ahead.{Gives, reading, most_levels, is_at};
ghost use Rattle.sql_parser.specs.Grammar as grammar;

use crate::lists::{MOST_MEMBERS, Member, Separator, list};
use crate::parser::Parser;
use crate::stops::Stop;
use lake_values::{ColType, Column, Columns, Text};
use sql_model::Statement;
use sql_tokens::{Keyword, Sign};

#[tactic(auto, unfolding(crate::specs::Grammar::column_type))]
fn column_type(parser: &mut Parser<'_>) -> Result<ColType, Stop>
    ensures reads { Gives (λ x. x) result parser.new (reading most_levels grammar.column_type parser.old) }
    ensures ending { parser.new.ending ≡ parser.old.ending }
{
    if parser.is_at_keyword(Keyword::Int) {
        parser.keyword(Keyword::Int)?;
        return Ok(ColType::Int);
    }
    parser.keyword(Keyword::Text)?;
    Ok(ColType::Text)
}

/// A column of a CREATE.
struct NewColumn;

impl Member for NewColumn {
    ghost use Rattle.std.specs.Prelude.{refl};
    ghost use Rattle.sql_parser.specs.Grammar as grammar;
    ghost use Rattle.sql_parser.specs.Members.{column_decided, column_has_token};

    type Value = Column;

    ghost form = { grammar.column };

    ghost decided = { column_decided };

    ghost has_token = { column_has_token };

    #[tactic(auto, unfolding(crate::specs::Grammar::column))]
    fn is_next(parser: &Parser<'_>) -> bool {
        parser.is_at_name()
    }

    #[tactic(auto, unfolding(crate::specs::Grammar::column))]
    fn read(parser: &mut Parser<'_>) -> Result<Column, Stop> {
        let name = parser.name()?;
        let kind = column_type(parser)?;
        Ok(Column { name, kind })
    }
}

/// The columns of a CREATE, in parentheses.
#[tactic(auto, unfolding(crate::specs::Grammar::columns))]
fn columns(parser: &mut Parser<'_>) -> Result<Columns, Stop>
    ensures reads { Gives (λ x. x) result parser.new (reading most_levels grammar.columns parser.old) }
    ensures ending { parser.new.ending ≡ parser.old.ending }
{
    parser.sign(Sign::OpenParenthesis)?;
    let columns = list::<NewColumn>(parser, Some(MOST_MEMBERS), Separator::Comma)?;
    parser.sign(Sign::CloseParenthesis)?;
    Ok(columns)
}

/// The column of a DISTRIBUTE BY, where one stands.
#[tactic(auto, unfolding(crate::specs::Grammar::distribution))]
fn distribution(parser: &mut Parser<'_>) -> Result<Option<Text>, Stop>
    ensures reads { Gives (λ x. x) result parser.new (reading most_levels grammar.distribution parser.old) }
    ensures ending { parser.new.ending ≡ parser.old.ending }
{
    if !parser.is_at_keyword(Keyword::Distribute) {
        return Ok(None);
    }
    parser.keyword(Keyword::Distribute)?;
    parser.keyword(Keyword::By)?;
    let column = parser.name()?;
    Ok(Some(column))
}

#[tactic(auto, unfolding(crate::specs::Grammar::create))]
pub fn create(parser: &mut Parser<'_>) -> Result<Statement, Stop>
    ensures reads { Gives (λ x. x) result parser.new (reading most_levels grammar.create parser.old) }
    ensures ending { parser.new.ending ≡ parser.old.ending }
{
    parser.keyword(Keyword::Create)?;
    parser.keyword(Keyword::Table)?;
    let table = parser.name()?;
    let columns = columns(parser)?;
    let distribution = distribution(parser)?;
    Ok(Statement::Create {
        table,
        columns,
        distribution,
    })
}
