ghost use Rattle.std.specs.Prelude.{◌≡◌, ◌≤◌, ◌-ℤ◌, pos};
ghost use Rattle.grammar_laws.specs.Prediction.{first_of};
ghost use Rattle.sql_parser.specs.Ahead.{Gives, reading, is_at};
ghost use Rattle.sql_parser.specs.Grammar as grammar;

use crate::parser::Parser;
use crate::stops::Stop;
use lake_values::Value;
use sql_model::Ref;
use sql_tokens::{Keyword, Sign};

/// The largest number of a value that stands without a minus.
pub const MOST_NUMBER: u64 = 9_223_372_036_854_775_807;

/// A number, a text or NULL.
#[tactic(auto, unfolding(crate::specs::Grammar::literal))]
pub fn literal(parser: &mut Parser<'_>) -> Result<Value, Stop>
    ensures reads { Gives (λ x. x) result parser.new (reading 0 grammar.literal parser.old) }
    ensures ending { parser.new.ending ≡ parser.old.ending }
{
    if parser.is_at_number(MOST_NUMBER) {
        let number = parser.number(MOST_NUMBER)?;
        return Ok(Value::Int(number as i64));
    }
    if parser.is_at_sign(Sign::Minus) {
        parser.sign(Sign::Minus)?;
        let number = parser.number(MOST_NUMBER + 1)?;
        return Ok(Value::Int(negated(number)));
    }
    if parser.is_at_text() {
        let text = parser.text()?;
        return Ok(Value::Text(text));
    }
    parser.keyword(Keyword::Null)?;
    Ok(Value::Null)
}

fn negated(number: u64) -> i64
    requires { number ≤ 9223372036854775808 }
    ensures { result ≡ pos 0 -ℤ pos number }
{
    (-i128::from(number)) as i64
}

/// A column, with the table that stands before it where there is one.
#[tactic(auto, unfolding(crate::specs::Grammar::reference))]
pub fn reference(parser: &mut Parser<'_>) -> Result<Ref, Stop>
    ensures reads { Gives (λ x. x) result parser.new (reading 0 grammar.reference parser.old) }
    ensures ending { parser.new.ending ≡ parser.old.ending }
{
    let first = parser.name()?;
    if !parser.is_at_sign(Sign::Dot) {
        return Ok(Ref {
            table: None,
            column: first,
        });
    }
    parser.sign(Sign::Dot)?;
    let column = parser.name()?;
    Ok(Ref {
        table: Some(first),
        column,
    })
}

#[tactic(auto, unfolding(crate::specs::Grammar::literal))]
pub fn is_at_literal(parser: &Parser<'_>) -> bool
    ensures { result ≡ is_at (first_of grammar.literal) parser.now }
{
    parser.is_at_number(MOST_NUMBER)
        || parser.is_at_sign(Sign::Minus)
        || parser.is_at_text()
        || parser.is_at_keyword(Keyword::Null)
}
