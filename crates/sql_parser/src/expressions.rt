ghost use Rattle.std.specs.Prelude.{◌≡◌, ◌≤◌, IfOk};
ghost use Rattle.grammar_laws.specs.Grammars.{maybe};
ghost use Rattle.grammar_laws.specs.Prediction.{first_of};
ghost use Rattle.grammar_laws.specs.Reading.{mapped};
ghost use Rattle.sql_parser.specs.Ahead.{Gives, reading, most_levels, is_at};
ghost use Rattle.sql_parser.specs.Grammar as grammar;

use crate::parser::Parser;
use crate::stops::{Limits, Stop};
use crate::values::{is_at_literal, literal, reference};
use lake_values::NoMemory;
use sql_model::{ArithOp, CmpOp, Expr};
use sql_tokens::{Keyword, Sign};
use sqlite_items::Boxed;
use std::alloc::Global;

/// The chains of operators, from those that bind most.
#[derive(Clone, Copy, Debug, PartialEq, Eq)]
pub enum Chain {
    Product,
    Sum,
    Conjunction,
    Disjunction,
}

/// An operator between two expressions.
#[derive(Clone, Copy, Debug, PartialEq, Eq)]
pub enum BinaryOp {
    Arith(ArithOp),
    And,
    Or,
}

/// How many parentheses and NOTs may stand round a token of an expression.
const MOST_LEVELS: u32 = 100;

/// How many operators an expression may have.
const MOST_OPERATORS: u32 = 1000;

#[tactic(auto, unfolding(crate::specs::Grammar::binary_op))]
fn is_at_binary_op(parser: &Parser<'_>, chain: Chain) -> bool
    ensures { result ≡ is_at (first_of (grammar.binary_op chain)) parser.now }
{
    match chain {
        Chain::Product => parser.is_at_sign(Sign::Star),
        Chain::Sum => parser.is_at_sign(Sign::Plus) || parser.is_at_sign(Sign::Minus),
        Chain::Conjunction => parser.is_at_keyword(Keyword::And),
        Chain::Disjunction => parser.is_at_keyword(Keyword::Or),
    }
}

/// An operator of the chain.
#[tactic(auto, unfolding(crate::specs::Grammar::binary_op))]
fn binary_op(parser: &mut Parser<'_>, chain: Chain) -> Result<BinaryOp, Stop>
    ensures reads { Gives (λ x. x) result parser.new (reading 0 (grammar.binary_op chain) parser.old) }
    ensures ending { parser.new.ending ≡ parser.old.ending }
{
    match chain {
        Chain::Product => {
            parser.operator(Sign::Star)?;
            Ok(BinaryOp::Arith(ArithOp::Mul))
        }
        Chain::Sum if parser.is_at_sign(Sign::Plus) => {
            parser.operator(Sign::Plus)?;
            Ok(BinaryOp::Arith(ArithOp::Add))
        }
        Chain::Sum => {
            parser.operator(Sign::Minus)?;
            Ok(BinaryOp::Arith(ArithOp::Sub))
        }
        Chain::Conjunction => {
            parser.key_operator(Keyword::And)?;
            Ok(BinaryOp::And)
        }
        Chain::Disjunction => {
            parser.key_operator(Keyword::Or)?;
            Ok(BinaryOp::Or)
        }
    }
}

fn joined(alloc: Global, op: BinaryOp, left: Expr, right: Expr) -> Result<Expr, NoMemory>
    ensures { IfOk result (λ expr. expr ≡ grammar.joined op left right) }
{
    let left = Boxed::new(alloc, left)?;
    let right = Boxed::new(alloc, right)?;
    Ok(match op {
        BinaryOp::Arith(op) => Expr::Arith(op, left, right),
        BinaryOp::And => Expr::And(left, right),
        BinaryOp::Or => Expr::Or(left, right),
    })
}

fn compared(alloc: Global, op: CmpOp, left: Expr, right: Expr) -> Result<Expr, NoMemory>
    ensures { IfOk result (λ expr. expr ≡ grammar.compared op right left) }
{
    let left = Boxed::new(alloc, left)?;
    let right = Boxed::new(alloc, right)?;
    Ok(Expr::Compare(op, left, right))
}

/// IS NULL, or IS NOT NULL, for which it answers true.
#[tactic(auto, unfolding(crate::specs::Grammar::null_check))]
fn null_check(parser: &mut Parser<'_>) -> Result<bool, Stop>
    ensures reads { Gives (λ x. x) result parser.new (reading 0 grammar.null_check parser.old) }
    ensures ending { parser.new.ending ≡ parser.old.ending }
{
    parser.key_operator(Keyword::Is)?;
    let is_negated = parser.is_at_keyword(Keyword::Not);
    if is_negated {
        parser.key_operator(Keyword::Not)?;
    }
    parser.keyword(Keyword::Null)?;
    Ok(is_negated)
}

fn null_test(alloc: Global, is_negated: bool, operand: Expr) -> Result<Expr, NoMemory>
    ensures { IfOk result (λ expr. expr ≡ grammar.null_test is_negated operand) }
{
    let is_null = Expr::IsNull(Boxed::new(alloc, operand)?);
    if is_negated {
        Ok(Expr::Not(Boxed::new(alloc, is_null)?))
    } else {
        Ok(is_null)
    }
}

/// Operands with the operators of the chain between them, grouped to the left.
#[cycle(expressions)]
fn chain_of(parser: &mut Parser<'_>, levels: u32, chain: Chain) -> Result<Expr, Stop>
    ensures reads { Gives (λ x. x) result parser.new (reading levels (grammar.chain chain) parser.old) }
    ensures ending { parser.new.ending ≡ parser.old.ending }
{
    let mut left = operand(parser, levels, chain)?;
    while is_at_binary_op(parser, chain) {
        let op = binary_op(parser, chain)?;
        let right = operand(parser, levels, chain)?;
        left = joined(parser.allocator(), op, left, right)?;
    }
    Ok(left)
}

/// What the operators of the chain join.
#[cycle(expressions)]
#[tactic(auto, unfolding(crate::specs::Grammar::operand, crate::specs::Grammar::product, crate::specs::Grammar::conjunction))]
fn operand(parser: &mut Parser<'_>, levels: u32, chain: Chain) -> Result<Expr, Stop>
    ensures reads { Gives (λ x. x) result parser.new (reading levels (grammar.operand chain) parser.old) }
    ensures ending { parser.new.ending ≡ parser.old.ending }
{
    match chain {
        Chain::Product => factor(parser, levels),
        Chain::Sum => chain_of(parser, levels, Chain::Product),
        Chain::Conjunction => negation(parser, levels),
        Chain::Disjunction => chain_of(parser, levels, Chain::Conjunction),
    }
}

#[cycle(expressions)]
#[tactic(auto, unfolding(crate::specs::Grammar::disjunction, crate::specs::Grammar::operand))]
fn disjunction(parser: &mut Parser<'_>, levels: u32) -> Result<Expr, Stop>
    ensures reads { Gives (λ x. x) result parser.new (reading levels grammar.disjunction parser.old) }
    ensures ending { parser.new.ending ≡ parser.old.ending }
{
    chain_of(parser, levels, Chain::Disjunction)
}

#[cycle(expressions)]
#[tactic(auto, unfolding(crate::specs::Grammar::sum, crate::specs::Grammar::operand))]
fn sum(parser: &mut Parser<'_>, levels: u32) -> Result<Expr, Stop>
    ensures reads { Gives (λ x. x) result parser.new (reading levels grammar.sum parser.old) }
    ensures ending { parser.new.ending ≡ parser.old.ending }
{
    chain_of(parser, levels, Chain::Sum)
}

/// A value, a column or an expression in parentheses.
#[cycle(expressions)]
#[tactic(auto, unfolding(crate::specs::Grammar::factor, crate::specs::Grammar::literal, crate::specs::Grammar::reference))]
fn factor(parser: &mut Parser<'_>, levels: u32) -> Result<Expr, Stop>
    ensures reads { Gives (λ x. x) result parser.new (reading levels grammar.factor parser.old) }
    ensures ending { parser.new.ending ≡ parser.old.ending }
{
    if is_at_literal(parser) {
        let value = literal(parser)?;
        return Ok(Expr::Literal(value));
    }
    if parser.is_at_name() {
        let column = reference(parser)?;
        return Ok(Expr::Column(column));
    }
    parenthesized(parser, levels)
}

#[cycle(expressions)]
#[tactic(auto, unfolding(crate::specs::Grammar::parenthesized))]
fn parenthesized(parser: &mut Parser<'_>, levels: u32) -> Result<Expr, Stop>
    ensures reads { Gives (λ x. x) result parser.new (reading levels grammar.parenthesized parser.old) }
    ensures ending { parser.new.ending ≡ parser.old.ending }
{
    if !parser.is_at_sign(Sign::OpenParenthesis) {
        return Err(Stop::Refused(Limits::Syntax));
    }
    if levels == 0 {
        return Err(Stop::Refused(Limits::Limit));
    }
    parser.sign(Sign::OpenParenthesis)?;
    let inner = disjunction(parser, levels - 1)?;
    parser.sign(Sign::CloseParenthesis)?;
    Ok(inner)
}

/// A predicate, behind NOT or not.
#[cycle(expressions)]
#[tactic(auto, unfolding(crate::specs::Grammar::negation, crate::specs::Grammar::negated))]
fn negation(parser: &mut Parser<'_>, levels: u32) -> Result<Expr, Stop>
    ensures reads { Gives (λ x. x) result parser.new (reading levels grammar.negation parser.old) }
    ensures ending { parser.new.ending ≡ parser.old.ending }
{
    if parser.is_at_keyword(Keyword::Not) {
        negated(parser, levels)
    } else {
        predicate(parser, levels)
    }
}

#[cycle(expressions)]
#[tactic(auto, unfolding(crate::specs::Grammar::negated))]
fn negated(parser: &mut Parser<'_>, levels: u32) -> Result<Expr, Stop>
    ensures reads { Gives (λ x. x) result parser.new (reading levels grammar.negated parser.old) }
    ensures ending { parser.new.ending ≡ parser.old.ending }
{
    if !parser.is_at_keyword(Keyword::Not) {
        return Err(Stop::Refused(Limits::Syntax));
    }
    if levels == 0 {
        return Err(Stop::Refused(Limits::Limit));
    }
    parser.key_operator(Keyword::Not)?;
    let inner = negation(parser, levels - 1)?;
    Ok(Expr::Not(Boxed::new(parser.allocator(), inner)?))
}

/// A sum, compared with another or with NULL where that follows.
#[cycle(expressions)]
#[tactic(auto, unfolding(crate::specs::Grammar::predicate))]
fn predicate(parser: &mut Parser<'_>, levels: u32) -> Result<Expr, Stop>
    ensures reads { Gives (λ x. x) result parser.new (reading levels grammar.predicate parser.old) }
    ensures ending { parser.new.ending ≡ parser.old.ending }
{
    let left = sum(parser, levels)?;
    tested(parser, levels, left)
}

/// The predicate of this left side, or the left side where none follows.
#[cycle(expressions)]
#[tactic(auto, unfolding(crate::specs::Grammar::tested, crate::specs::Grammar::null_check))]
fn tested(parser: &mut Parser<'_>, levels: u32, left: Expr) -> Result<Expr, Stop>
    ensures reads { Gives (λ x. x) result parser.new (mapped (grammar.applied left) (reading levels (maybe grammar.tested) parser.old)) }
    ensures ending { parser.new.ending ≡ parser.old.ending }
{
    if parser.is_at_comparison() {
        let op = parser.comparison()?;
        let right = sum(parser, levels)?;
        return Ok(compared(parser.allocator(), op, left, right)?);
    }
    if parser.is_at_keyword(Keyword::Is) {
        let is_negated = null_check(parser)?;
        return Ok(null_test(parser.allocator(), is_negated, left)?);
    }
    Ok(left)
}

/// A whole expression.
#[tactic(auto, unfolding(crate::specs::Grammar::expression, crate::specs::Ahead::most_levels))]
pub fn expression(parser: &mut Parser<'_>) -> Result<Expr, Stop>
    ensures reads { Gives (λ x. x) result parser.new (reading most_levels grammar.expression parser.old) }
    ensures ending { parser.new.ending ≡ parser.old.ending }
{
    let outer = parser.replace_operators(MOST_OPERATORS);
    let expr = disjunction(parser, MOST_LEVELS)?;
    parser.replace_operators(outer);
    Ok(expr)
}

/// The condition of a WHERE, where one stands.
#[tactic(auto, unfolding(crate::specs::Grammar::where_clause))]
pub fn where_clause(parser: &mut Parser<'_>) -> Result<Option<Expr>, Stop>
    ensures reads { Gives (λ x. x) result parser.new (reading most_levels grammar.where_clause parser.old) }
    ensures ending { parser.new.ending ≡ parser.old.ending }
{
    if !parser.is_at_keyword(Keyword::Where) {
        return Ok(None);
    }
    parser.keyword(Keyword::Where)?;
    let condition = expression(parser)?;
    Ok(Some(condition))
}

/// Whether an expression can begin with the next token.
#[tactic(auto, unfolding(crate::specs::Grammar::expression, crate::specs::Grammar::disjunction, crate::specs::Grammar::conjunction, crate::specs::Grammar::negation, crate::specs::Grammar::negated, crate::specs::Grammar::predicate, crate::specs::Grammar::sum, crate::specs::Grammar::product, crate::specs::Grammar::factor, crate::specs::Grammar::reference, crate::specs::Grammar::parenthesized, crate::specs::Grammar::literal))]
pub fn is_at_expression(parser: &Parser<'_>) -> bool
    ensures { result ≡ is_at (first_of grammar.expression) parser.now }
{
    parser.is_at_keyword(Keyword::Not)
        || is_at_literal(parser)
        || parser.is_at_name()
        || parser.is_at_sign(Sign::OpenParenthesis)
}
