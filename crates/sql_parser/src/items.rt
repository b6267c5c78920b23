ghost use Rattle.std.specs.Prelude.{◌≡◌};
ghost use Rattle.grammar_laws.specs.Prediction.{first_of};
ghost use Rattle.sql_parser.specs.Ahead.{Gives, reading, most_levels, is_at};
ghost use Rattle.sql_parser.specs.Grammar as grammar;

use crate::expressions::{expression, is_at_expression};
use crate::lists::Member;
use crate::parser::Parser;
use crate::stops::Stop;
use lake_values::Text;
use sql_model::{Agg, Expr, Item};
use sql_tokens::{Keyword, Sign};

/// The name that AS gives, where one stands.
#[tactic(auto, unfolding(crate::specs::Grammar::alias))]
fn alias(parser: &mut Parser<'_>) -> Result<Option<Text>, Stop>
    ensures reads { Gives (λ x. x) result parser.new (reading most_levels grammar.alias parser.old) }
    ensures ending { parser.new.ending ≡ parser.old.ending }
{
    if !parser.is_at_keyword(Keyword::As) {
        return Ok(None);
    }
    parser.keyword(Keyword::As)?;
    let name = parser.name()?;
    Ok(Some(name))
}

#[tactic(auto, unfolding(crate::specs::Grammar::aggregate, crate::specs::Grammar::count))]
fn is_at_aggregate(parser: &Parser<'_>) -> bool
    ensures { result ≡ is_at (first_of grammar.aggregate) parser.now }
{
    parser.is_at_keyword(Keyword::Count)
        || parser.is_at_keyword(Keyword::Sum)
        || parser.is_at_keyword(Keyword::Min)
        || parser.is_at_keyword(Keyword::Max)
}

/// What COUNT counts: all rows, or those that have a value.
#[tactic(auto, unfolding(crate::specs::Grammar::counted_rows))]
fn counted_rows(parser: &mut Parser<'_>) -> Result<Agg, Stop>
    ensures reads { Gives (λ x. x) result parser.new (reading most_levels grammar.counted_rows parser.old) }
    ensures ending { parser.new.ending ≡ parser.old.ending }
{
    if parser.is_at_sign(Sign::Star) {
        parser.sign(Sign::Star)?;
        return Ok(Agg::CountAll);
    }
    let argument = expression(parser)?;
    Ok(Agg::Count(argument))
}

/// The argument of an aggregate, in parentheses.
#[tactic(auto, unfolding(crate::specs::Grammar::argument))]
fn argument(parser: &mut Parser<'_>) -> Result<Expr, Stop>
    ensures reads { Gives (λ x. x) result parser.new (reading most_levels grammar.argument parser.old) }
    ensures ending { parser.new.ending ≡ parser.old.ending }
{
    parser.sign(Sign::OpenParenthesis)?;
    let argument = expression(parser)?;
    parser.sign(Sign::CloseParenthesis)?;
    Ok(argument)
}

#[tactic(auto, unfolding(crate::specs::Grammar::count))]
fn count(parser: &mut Parser<'_>) -> Result<Agg, Stop>
    ensures reads { Gives (λ x. x) result parser.new (reading most_levels grammar.count parser.old) }
    ensures ending { parser.new.ending ≡ parser.old.ending }
{
    parser.keyword(Keyword::Count)?;
    parser.sign(Sign::OpenParenthesis)?;
    let counted = counted_rows(parser)?;
    parser.sign(Sign::CloseParenthesis)?;
    Ok(counted)
}

#[tactic(auto, unfolding(crate::specs::Grammar::aggregate, crate::specs::Grammar::count))]
fn aggregate(parser: &mut Parser<'_>) -> Result<Agg, Stop>
    ensures reads { Gives (λ x. x) result parser.new (reading most_levels grammar.aggregate parser.old) }
    ensures ending { parser.new.ending ≡ parser.old.ending }
{
    if parser.is_at_keyword(Keyword::Count) {
        return count(parser);
    }
    if parser.is_at_keyword(Keyword::Sum) {
        parser.keyword(Keyword::Sum)?;
        let argument = argument(parser)?;
        return Ok(Agg::Sum(argument));
    }
    if parser.is_at_keyword(Keyword::Min) {
        parser.keyword(Keyword::Min)?;
        let argument = argument(parser)?;
        return Ok(Agg::Min(argument));
    }
    parser.keyword(Keyword::Max)?;
    let argument = argument(parser)?;
    Ok(Agg::Max(argument))
}

/// An item of a SELECT.
pub struct SelectItem;

impl Member for SelectItem {
    ghost use Rattle.sql_parser.specs.Grammar as grammar;
    ghost use Rattle.sql_parser.specs.Members.{item_decided, item_has_token};

    type Value = Item;

    ghost form = { grammar.item };

    ghost decided = { item_decided };

    ghost has_token = { item_has_token };

    #[tactic(auto, unfolding(crate::specs::Grammar::item))]
    fn is_next(parser: &Parser<'_>) -> bool {
        is_at_aggregate(parser) || is_at_expression(parser)
    }

    #[tactic(auto, unfolding(crate::specs::Grammar::item, crate::specs::Grammar::aggregate, crate::specs::Grammar::count))]
    fn read(parser: &mut Parser<'_>) -> Result<Item, Stop> {
        if is_at_aggregate(parser) {
            let aggregate = aggregate(parser)?;
            let alias = alias(parser)?;
            return Ok(Item::Agg(aggregate, alias));
        }
        let expr = expression(parser)?;
        let alias = alias(parser)?;
        Ok(Item::Plain(expr, alias))
    }
}
