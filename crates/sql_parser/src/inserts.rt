ghost use Rattle.std.specs.Prelude.{◌≡◌};
ghost use Rattle.sql_parser.specs.Ahead.{Gives, reading, most_levels, is_at};
ghost use Rattle.sql_parser.specs.Grammar as grammar;

use crate::lists::{MOST_MEMBERS, Member, Separator, list, list_with_capacity};
use crate::parser::Parser;
use crate::stops::Stop;
use crate::values::{is_at_literal, literal};
use lake_values::{Row, Rows, Value};
use sql_model::Statement;
use sql_tokens::{Keyword, Sign};

/// A value of a tuple.
struct Literal;

impl Member for Literal {
    ghost use Rattle.sql_parser.specs.Grammar as grammar;
    ghost use Rattle.sql_parser.specs.Members.{literal_decided, literal_has_token};

    type Value = Value;

    ghost form = { grammar.literal };

    ghost decided = { literal_decided };

    ghost has_token = { literal_has_token };

    fn is_next(parser: &Parser<'_>) -> bool {
        is_at_literal(parser)
    }

    #[tactic(auto, unfolding(crate::specs::Grammar::literal))]
    fn read(parser: &mut Parser<'_>) -> Result<Value, Stop> {
        literal(parser)
    }
}

/// The values of a row, in parentheses.
struct Tuple;

impl Member for Tuple {
    ghost use Rattle.sql_parser.specs.Grammar as grammar;
    ghost use Rattle.sql_parser.specs.Members.{tuple_decided, tuple_has_token};

    type Value = Row;

    ghost form = { grammar.tuple };

    ghost decided = { tuple_decided };

    ghost has_token = { tuple_has_token };

    #[tactic(auto, unfolding(crate::specs::Grammar::tuple))]
    fn is_next(parser: &Parser<'_>) -> bool {
        parser.is_at_sign(Sign::OpenParenthesis)
    }

    #[tactic(auto, unfolding(crate::specs::Grammar::tuple))]
    fn read(parser: &mut Parser<'_>) -> Result<Row, Stop> {
        parser.sign(Sign::OpenParenthesis)?;
        let width = parser.row_width();
        let values = list_with_capacity::<Literal>(
            parser,
            Some(MOST_MEMBERS),
            Separator::Comma,
            width,
        )?;
        parser.sign(Sign::CloseParenthesis)?;
        parser.set_row_width(values.len());
        Ok(Row::from_values(values.into_list()))
    }
}

#[tactic(auto, unfolding(crate::specs::Grammar::insert))]
pub fn insert(parser: &mut Parser<'_>) -> Result<Statement, Stop>
    ensures reads { Gives (λ x. x) result parser.new (reading most_levels grammar.insert parser.old) }
    ensures ending { parser.new.ending ≡ parser.old.ending }
{
    parser.keyword(Keyword::Insert)?;
    parser.keyword(Keyword::Into)?;
    let table = parser.name()?;
    parser.keyword(Keyword::Values)?;
    let rows = list::<Tuple>(parser, None, Separator::Comma)?;
    let rows = Rows::from_rows(rows.into_list());
    Ok(Statement::Insert { table, rows })
}
