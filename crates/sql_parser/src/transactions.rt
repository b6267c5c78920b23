ghost use Rattle.std.specs.Prelude.{◌≡◌};
ghost use Rattle.grammar_laws.specs.Prediction.{first_of};
ghost use Rattle.sql_parser.specs.Ahead.{Gives, reading, most_levels, is_at};
ghost use Rattle.sql_parser.specs.Grammar as grammar;

use crate::parser::Parser;
use crate::stops::Stop;
use sql_model::Statement;
use sql_tokens::Keyword;

/// BEGIN, behind which the word TRANSACTION may stand.
#[tactic(auto, unfolding(crate::specs::Grammar::begin))]
fn begin(parser: &mut Parser<'_>) -> Result<Statement, Stop>
    ensures reads { Gives (λ x. x) result parser.new (reading most_levels grammar.begin parser.old) }
    ensures ending { parser.new.ending ≡ parser.old.ending }
{
    parser.keyword(Keyword::Begin)?;
    if parser.is_at_keyword(Keyword::Transaction) {
        parser.keyword(Keyword::Transaction)?;
    }
    Ok(Statement::Begin)
}

#[tactic(auto, unfolding(crate::specs::Grammar::commit))]
fn commit(parser: &mut Parser<'_>) -> Result<Statement, Stop>
    ensures reads { Gives (λ x. x) result parser.new (reading most_levels grammar.commit parser.old) }
    ensures ending { parser.new.ending ≡ parser.old.ending }
{
    parser.keyword(Keyword::Commit)?;
    Ok(Statement::Commit)
}

#[tactic(auto, unfolding(crate::specs::Grammar::roll_back))]
fn roll_back(parser: &mut Parser<'_>) -> Result<Statement, Stop>
    ensures reads { Gives (λ x. x) result parser.new (reading most_levels grammar.roll_back parser.old) }
    ensures ending { parser.new.ending ≡ parser.old.ending }
{
    parser.keyword(Keyword::Rollback)?;
    Ok(Statement::RollBack)
}

/// A statement that begins or ends a transaction.
#[tactic(auto, unfolding(crate::specs::Grammar::transaction, crate::specs::Grammar::begin, crate::specs::Grammar::commit))]
pub fn transaction(parser: &mut Parser<'_>) -> Result<Statement, Stop>
    ensures reads { Gives (λ x. x) result parser.new (reading most_levels grammar.transaction parser.old) }
    ensures ending { parser.new.ending ≡ parser.old.ending }
{
    if parser.is_at_keyword(Keyword::Begin) {
        return begin(parser);
    }
    if parser.is_at_keyword(Keyword::Commit) {
        return commit(parser);
    }
    roll_back(parser)
}

#[tactic(auto, unfolding(crate::specs::Grammar::transaction, crate::specs::Grammar::begin, crate::specs::Grammar::commit, crate::specs::Grammar::roll_back))]
pub fn is_at_transaction(parser: &Parser<'_>) -> bool
    ensures { result ≡ is_at (first_of grammar.transaction) parser.now }
{
    parser.is_at_keyword(Keyword::Begin)
        || parser.is_at_keyword(Keyword::Commit)
        || parser.is_at_keyword(Keyword::Rollback)
}
