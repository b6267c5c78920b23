ghost use Rattle.std.specs.Prelude.{◌≡◌, ◌≤◌, ◌<◌, ◌+◌, ◌^◌, length, vec_len, IfOk, None};
ghost use Rattle.grammar_laws.specs.Prediction.{first_of};
ghost use Rattle.sql_tokens.specs.declared.faults.ParseFault.TheVariants as fault;
ghost use Rattle.sql_parser.specs.Ahead.{Gives, reading, most_levels, is_at, refusal_of};
ghost use Rattle.sql_parser.specs.Grammar as grammar;
ghost use Rattle.sql_parser.specs.Refusals.{refused_next, fault_of};
ghost use Rattle.sql_model.specs.Form.{is_form};
ghost use Rattle.sql_model.specs.ScriptStatements.{is_script_statement};
ghost use Rattle.sql_parser.specs.Scripts.{AllStatements, AreNumbered, script_of};
ghost use Rattle.sql_tokens.specs.Places.{bad_of};

use crate::changes::{delete, update};
use crate::inserts::insert;
use crate::lists::{Member, run};
use crate::parser::Parser;
use crate::queries::select;
use crate::stops::{Limits, Stop};
use crate::tables::create;
use crate::transactions::{is_at_transaction, transaction};
use lake_values::{Listed, NoMemory};
use sql_model::{Numbered, Script, Statement, Step};
use sql_tokens::{Keyword, ParseFault, Sign, script_bad};
use std::alloc::Global;

/// The session of a statement without a mark.
const FIRST_SESSION: u32 = 1;

/// A statement and the session that runs it.
#[derive(Debug, Drop)]
struct Line {
    session: u32,
    statement: Statement,
}

/// A statement, told by its first keyword.
#[tactic(auto, unfolding(crate::specs::Grammar::statement, crate::specs::Grammar::create, crate::specs::Grammar::insert, crate::specs::Grammar::select, crate::specs::Grammar::update, crate::specs::Grammar::delete, crate::specs::Grammar::head))]
fn statement(parser: &mut Parser<'_>) -> Result<Statement, Stop>
    ensures reads { Gives (λ x. x) result parser.new (reading most_levels grammar.statement parser.old) }
    ensures ending { parser.new.ending ≡ parser.old.ending }
{
    if parser.is_at_keyword(Keyword::Create) {
        return create(parser);
    }
    if parser.is_at_keyword(Keyword::Insert) {
        return insert(parser);
    }
    if parser.is_at_keyword(Keyword::Select) {
        return select(parser);
    }
    if parser.is_at_keyword(Keyword::Update) {
        return update(parser);
    }
    if parser.is_at_keyword(Keyword::Delete) {
        return delete(parser);
    }
    transaction(parser)
}

#[tactic(auto, unfolding(crate::specs::Grammar::statement, crate::specs::Grammar::create, crate::specs::Grammar::insert, crate::specs::Grammar::select, crate::specs::Grammar::update, crate::specs::Grammar::delete, crate::specs::Grammar::transaction, crate::specs::Grammar::begin, crate::specs::Grammar::commit, crate::specs::Grammar::roll_back, crate::specs::Grammar::head))]
fn is_at_statement(parser: &Parser<'_>) -> bool
    ensures { result ≡ is_at (first_of grammar.statement) parser.now }
{
    parser.is_at_keyword(Keyword::Create)
        || parser.is_at_keyword(Keyword::Insert)
        || parser.is_at_keyword(Keyword::Select)
        || parser.is_at_keyword(Keyword::Update)
        || parser.is_at_keyword(Keyword::Delete)
        || is_at_transaction(parser)
}

/// The session that runs the next statement: that of the mark, where one stands.
#[tactic(auto, unfolding(crate::specs::Grammar::session_of_line))]
fn session_of_line(parser: &mut Parser<'_>) -> Result<u32, Stop>
    ensures reads { Gives (λ x. x) result parser.new (reading most_levels grammar.session_of_line parser.old) }
    ensures ending { parser.new.ending ≡ parser.old.ending }
{
    if !parser.is_at_session() {
        return Ok(FIRST_SESSION);
    }
    parser.session()
}

/// A line of a script: a statement with its semicolon, behind the mark of its session or without one.
struct ScriptLine;

impl Member for ScriptLine {
    ghost use Rattle.sql_parser.specs.Grammar as grammar;
    ghost use Rattle.sql_parser.specs.Members.{line_decided, line_has_token};

    type Value = Line;

    ghost form = { grammar.line };

    ghost decided = { line_decided };

    ghost has_token = { line_has_token };

    fn is_next(parser: &Parser<'_>) -> bool {
        parser.is_at_session() || is_at_statement(parser)
    }

    #[tactic(auto, unfolding(crate::specs::Grammar::line))]
    fn read(parser: &mut Parser<'_>) -> Result<Line, Stop> {
        let session = session_of_line(parser)?;
        let statement = statement(parser)?;
        parser.sign(Sign::Semicolon)?;
        Ok(Line { session, statement })
    }
}

#[tactic(auto, unfolding(crate::specs::Grammar::lines))]
fn lines(parser: &mut Parser<'_>) -> Result<Listed<Line>, Stop>
    ensures reads { Gives (λ x. x) result parser.new (reading most_levels grammar.lines parser.old) }
    ensures ending { parser.new.ending ≡ parser.old.ending }
    ensures few { IfOk result (λ lines. length lines < 2 ^ 32) }
{
    run::<ScriptLine>(parser, u32::MAX)
}

/// The lines as steps, numbered from 1.
fn steps_of(alloc: Global, lines: Listed<Line>) -> Result<Script, NoMemory>
    requires { length lines < 2 ^ 32 }
    ensures { IfOk result (λ steps. steps ≡ grammar.steps_from 1 lines) }
{
    let mut steps = Vec::with_capacity(alloc, lines.len())?;
    let mut place = 0;
    for line in lines.into_list() {
        place += 1;
        steps.push(Step::One(Numbered {
            place,
            session: line.session,
            statement: line.statement,
        }))?;
    }
    Ok(Listed::from_list(steps))
}

/// The script that the bytes are, or the first place at which they are none.
///
/// A script is a list of statements, each ended by a semicolon, as `specs/Grammar` says. Its statements are
/// numbered from 1. The mark in front of one names its session, and without a mark this is session 1. Bytes are
/// refused at the first token that no script goes on with, or that passes a limit; at the first byte that is no
/// token, if that stands before; or else at their end.
pub fn parse_script(alloc: Global, bytes: &[u8]) -> Result<Script, ParseFault>
    ensures script { IfOk result (λ steps. script_of bytes.now ≡ Ok steps) }
    ensures numbered { IfOk result AreNumbered }
    ensures kinds { IfOk result (AllStatements is_script_statement) }
    ensures in_form { IfOk result (AllStatements is_form) }
    ensures refused { (bad : _) → result ≡ Err (fault.Refused bad) → script_of bytes.now ≡ Err bad }
{
    let mut parser = Parser::new(alloc, bytes)?;
    match lines(&mut parser) {
        Ok(lines) if parser.is_at_end() => Ok(steps_of(alloc, lines)?),
        Ok(_) => Err(refusal(&parser, bytes, Limits::Syntax)),
        Err(stop) => Err(fault_of(&parser, bytes, stop)),
    }
}

/// The refusal of what is next.
fn refusal(parser: &Parser<'_>, bytes: &[u8], kind: Limits) -> ParseFault
    requires { parser.now.ending.bytes ≡ length bytes.now }
    ensures { result ≡ fault.Refused (bad_of bytes.now (refused_next (refusal_of kind) parser.now)) }
{
    ParseFault::Refused(script_bad(bytes, parser.refusal(kind)))
}

/// Why there is no script, where reading its lines was stopped.
fn fault_of(parser: &Parser<'_>, bytes: &[u8], stop: Stop) -> ParseFault
    requires { parser.now.ending.bytes ≡ length bytes.now }
    ensures { result ≡ fault_of bytes.now parser.now stop }
{
    match stop {
        Stop::Refused(kind) => refusal(parser, bytes, kind),
        Stop::NoMemory => ParseFault::NoMemory,
    }
}
