ghost use Rattle.std.specs.Prelude.{◌≡◌, ◌∷◌, [], map, IfOk};
ghost use Rattle.std.specs.List.{list_any};
ghost use Rattle.sql_model.specs.BoundForms.{is_aggregate};
ghost use Rattle.grammar_laws.specs.Reading.{mapped};
ghost use Rattle.sql_parser.specs.Ahead.{Gives, reading, most_levels, is_at};
ghost use Rattle.sql_parser.specs.Grammar as grammar;

use crate::expressions::where_clause;
use crate::items::SelectItem;
use crate::lists::{MOST_MEMBERS, Member, Separator, list, list_with_capacity, run};
use crate::parser::Parser;
use crate::selects::{Body, Head, Join, Joins, Tail};
use crate::stops::Stop;
use crate::values::{MOST_NUMBER, reference};
use lake_values::{Listed, NoMemory, Text};
use sql_model::{
    Item, Items, Ons, OrderBy, OrderKey, OrderKeys, Ref, Refs, Select, SourceRef, Sources,
    Statement,
};
use sql_tokens::{Keyword, Sign};
use std::alloc::Global;

/// The second name of a table, where one stands.
#[tactic(auto, unfolding(crate::specs::Grammar::second_name))]
fn second_name(parser: &mut Parser<'_>) -> Result<Option<Text>, Stop>
    ensures reads { Gives (λ x. x) result parser.new (reading most_levels grammar.second_name parser.old) }
    ensures ending { parser.new.ending ≡ parser.old.ending }
{
    if parser.is_at_keyword(Keyword::As) {
        parser.keyword(Keyword::As)?;
        let name = parser.name()?;
        return Ok(Some(name));
    }
    if !parser.is_at_name() {
        return Ok(None);
    }
    let name = parser.name()?;
    Ok(Some(name))
}

/// A table under its second name, or under its own.
fn source_of(table: Text, name: Option<Text>) -> Result<SourceRef, NoMemory>
    ensures { IfOk result (λ source. source ≡ grammar.source_of table name) }
{
    let name = match name {
        Some(name) => name,
        None => table.copy()?,
    };
    Ok(SourceRef { table, name })
}

#[tactic(auto, unfolding(crate::specs::Grammar::source))]
fn source(parser: &mut Parser<'_>) -> Result<SourceRef, Stop>
    ensures reads { Gives (λ x. x) result parser.new (reading most_levels grammar.source parser.old) }
    ensures ending { parser.new.ending ≡ parser.old.ending }
{
    let table = parser.name()?;
    let name = second_name(parser)?;
    Ok(source_of(table, name)?)
}

/// An equality of an ON.
struct Equality;

impl Member for Equality {
    ghost use Rattle.sql_parser.specs.Grammar as grammar;
    ghost use Rattle.sql_parser.specs.Members.{same_decided, same_has_token};

    type Value = (Ref, Ref);

    ghost form = { grammar.same };

    ghost decided = { same_decided };

    ghost has_token = { same_has_token };

    #[tactic(auto, unfolding(crate::specs::Grammar::same, crate::specs::Grammar::reference))]
    fn is_next(parser: &Parser<'_>) -> bool {
        parser.is_at_name()
    }

    #[tactic(auto, unfolding(crate::specs::Grammar::same, crate::specs::Grammar::reference))]
    fn read(parser: &mut Parser<'_>) -> Result<(Ref, Ref), Stop> {
        let left = reference(parser)?;
        parser.sign(Sign::Equal)?;
        let right = reference(parser)?;
        Ok((left, right))
    }
}

/// A table that a query joins.
struct JoinedTable;

impl Member for JoinedTable {
    ghost use Rattle.sql_parser.specs.Grammar as grammar;
    ghost use Rattle.sql_parser.specs.Members.{join_decided, join_has_token};

    type Value = Join;

    ghost form = { grammar.join };

    ghost decided = { join_decided };

    ghost has_token = { join_has_token };

    #[tactic(auto, unfolding(crate::specs::Grammar::join))]
    fn is_next(parser: &Parser<'_>) -> bool {
        parser.is_at_keyword(Keyword::Inner) || parser.is_at_keyword(Keyword::Join)
    }

    #[tactic(auto, unfolding(crate::specs::Grammar::join))]
    fn read(parser: &mut Parser<'_>) -> Result<Join, Stop> {
        if parser.is_at_keyword(Keyword::Inner) {
            parser.keyword(Keyword::Inner)?;
        }
        parser.keyword(Keyword::Join)?;
        let source = source(parser)?;
        parser.keyword(Keyword::On)?;
        // Mostly there is one equality.
        let on = list_with_capacity::<Equality>(parser, None, Separator::And, 1)?;
        Ok(Join { source, on })
    }
}

/// How many tables a query may join to its first.
const MOST_JOINS: u32 = 3;

#[tactic(auto, unfolding(crate::specs::Grammar::joins))]
fn joins(parser: &mut Parser<'_>) -> Result<Joins, Stop>
    ensures reads { Gives (λ x. x) result parser.new (reading most_levels grammar.joins parser.old) }
    ensures ending { parser.new.ending ≡ parser.old.ending }
{
    run::<JoinedTable>(parser, MOST_JOINS)
}

/// A column of a GROUP BY.
struct GroupColumn;

impl Member for GroupColumn {
    ghost use Rattle.sql_parser.specs.Grammar as grammar;
    ghost use Rattle.sql_parser.specs.Members.{reference_decided, reference_has_token};

    type Value = Ref;

    ghost form = { grammar.reference };

    ghost decided = { reference_decided };

    ghost has_token = { reference_has_token };

    #[tactic(auto, unfolding(crate::specs::Grammar::reference))]
    fn is_next(parser: &Parser<'_>) -> bool {
        parser.is_at_name()
    }

    #[tactic(auto, unfolding(crate::specs::Grammar::reference))]
    fn read(parser: &mut Parser<'_>) -> Result<Ref, Stop> {
        reference(parser)
    }
}

/// The columns of a GROUP BY, or none.
#[tactic(auto, unfolding(crate::specs::Grammar::group_clause))]
fn group_clause(parser: &mut Parser<'_>) -> Result<Refs, Stop>
    ensures reads { Gives (λ x. x) result parser.new (reading most_levels grammar.group_clause parser.old) }
    ensures ending { parser.new.ending ≡ parser.old.ending }
{
    if !parser.is_at_keyword(Keyword::Group) {
        return Ok(Listed::empty(parser.allocator()));
    }
    parser.keyword(Keyword::Group)?;
    parser.keyword(Keyword::By)?;
    list::<GroupColumn>(parser, Some(MOST_MEMBERS), Separator::Comma)
}

/// The items of a SELECT; none stand for all columns.
#[tactic(auto, unfolding(crate::specs::Grammar::items))]
fn items(parser: &mut Parser<'_>) -> Result<Option<Items>, Stop>
    ensures reads { Gives (λ x. x) result parser.new (reading most_levels grammar.items parser.old) }
    ensures ending { parser.new.ending ≡ parser.old.ending }
{
    if parser.is_at_sign(Sign::Star) {
        parser.sign(Sign::Star)?;
        return Ok(None);
    }
    let items = list::<SelectItem>(parser, Some(MOST_MEMBERS), Separator::Comma)?;
    Ok(Some(items))
}

#[tactic(auto, unfolding(crate::specs::Grammar::head))]
fn head(parser: &mut Parser<'_>) -> Result<Head, Stop>
    ensures reads { Gives (λ x. x) result parser.new (reading most_levels grammar.head parser.old) }
    ensures ending { parser.new.ending ≡ parser.old.ending }
{
    parser.keyword(Keyword::Select)?;
    let items = items(parser)?;
    parser.keyword(Keyword::From)?;
    let source = source(parser)?;
    Ok(Head { items, source })
}

fn has_aggregate(items: &Option<Items>) -> bool
    ensures { result ≡ grammar.has_aggregate items.now }
{
    match items {
        None => false,
        Some(items) => is_any_aggregate(items.as_slice()),
    }
}

fn is_any_aggregate(items: &[Item]) -> bool
    ensures { result ≡ list_any is_aggregate items.now }
{
    items.iter().any(|item| is_aggregate(item))
}

fn is_aggregate(item: &Item) -> bool
    ensures { result ≡ is_aggregate item.now }
{
    matches!(item, Item::Agg(_, _))
}

/// The condition and the groups of a query that selects an aggregate.
#[tactic(auto, unfolding(crate::specs::Grammar::body_behind_aggregate, crate::specs::Grammar::grouped))]
fn body_behind_aggregate(parser: &mut Parser<'_>) -> Result<Body, Stop>
    ensures reads { Gives (λ x. x) result parser.new (reading most_levels grammar.body_behind_aggregate parser.old) }
    ensures ending { parser.new.ending ≡ parser.old.ending }
{
    let joins = Listed::empty(parser.allocator());
    let filter = where_clause(parser)?;
    let groups = group_clause(parser)?;
    Ok(Body {
        joins,
        filter,
        groups,
    })
}

/// The further tables, the condition and the groups of a query without aggregates.
#[tactic(auto, unfolding(crate::specs::Grammar::body, crate::specs::Grammar::grouped, crate::specs::Grammar::ungrouped))]
fn body(parser: &mut Parser<'_>) -> Result<Body, Stop>
    ensures reads { Gives (λ x. x) result parser.new (reading most_levels grammar.body parser.old) }
    ensures ending { parser.new.ending ≡ parser.old.ending }
{
    let joins = joins(parser)?;
    let filter = where_clause(parser)?;
    if !joins.is_empty() {
        let groups = Listed::empty(parser.allocator());
        return Ok(Body {
            joins,
            filter,
            groups,
        });
    }
    let groups = group_clause(parser)?;
    Ok(Body {
        joins,
        filter,
        groups,
    })
}

/// What a key of an ORDER BY names.
#[tactic(auto, unfolding(crate::specs::Grammar::order_by))]
fn order_by(parser: &mut Parser<'_>) -> Result<OrderBy, Stop>
    ensures reads { Gives (λ x. x) result parser.new (reading most_levels grammar.order_by parser.old) }
    ensures ending { parser.new.ending ≡ parser.old.ending }
{
    if parser.is_at_number(MOST_NUMBER) {
        let number = parser.number(MOST_NUMBER)?;
        return Ok(OrderBy::Number(number));
    }
    let name = parser.name()?;
    Ok(OrderBy::Name(name))
}

/// Whether a key is descending.
#[tactic(auto, unfolding(crate::specs::Grammar::direction))]
fn direction(parser: &mut Parser<'_>) -> Result<bool, Stop>
    ensures reads { Gives (λ x. x) result parser.new (reading most_levels grammar.direction parser.old) }
    ensures ending { parser.new.ending ≡ parser.old.ending }
{
    if parser.is_at_keyword(Keyword::Asc) {
        parser.keyword(Keyword::Asc)?;
        return Ok(false);
    }
    if parser.is_at_keyword(Keyword::Desc) {
        parser.keyword(Keyword::Desc)?;
        return Ok(true);
    }
    Ok(false)
}

/// A key of an ORDER BY.
struct SortKey;

impl Member for SortKey {
    ghost use Rattle.sql_parser.specs.Grammar as grammar;
    ghost use Rattle.sql_parser.specs.Members.{order_key_decided, order_key_has_token};

    type Value = OrderKey;

    ghost form = { grammar.order_key };

    ghost decided = { order_key_decided };

    ghost has_token = { order_key_has_token };

    #[tactic(auto, unfolding(crate::specs::Grammar::order_key, crate::specs::Grammar::order_by))]
    fn is_next(parser: &Parser<'_>) -> bool {
        parser.is_at_number(MOST_NUMBER) || parser.is_at_name()
    }

    #[tactic(auto, unfolding(crate::specs::Grammar::order_key))]
    fn read(parser: &mut Parser<'_>) -> Result<OrderKey, Stop> {
        let by = order_by(parser)?;
        let descending = direction(parser)?;
        Ok(OrderKey { by, descending })
    }
}

/// The keys of an ORDER BY, or none.
#[tactic(auto, unfolding(crate::specs::Grammar::order_clause))]
fn order_clause(parser: &mut Parser<'_>) -> Result<OrderKeys, Stop>
    ensures reads { Gives (λ x. x) result parser.new (reading most_levels grammar.order_clause parser.old) }
    ensures ending { parser.new.ending ≡ parser.old.ending }
{
    if !parser.is_at_keyword(Keyword::Order) {
        return Ok(Listed::empty(parser.allocator()));
    }
    parser.keyword(Keyword::Order)?;
    parser.keyword(Keyword::By)?;
    list::<SortKey>(parser, Some(MOST_MEMBERS), Separator::Comma)
}

#[tactic(auto, unfolding(crate::specs::Grammar::limit_clause))]
fn limit_clause(parser: &mut Parser<'_>) -> Result<Option<u64>, Stop>
    ensures reads { Gives (λ x. x) result parser.new (reading most_levels grammar.limit_clause parser.old) }
    ensures ending { parser.new.ending ≡ parser.old.ending }
{
    if !parser.is_at_keyword(Keyword::Limit) {
        return Ok(None);
    }
    parser.keyword(Keyword::Limit)?;
    let limit = parser.number(MOST_NUMBER)?;
    Ok(Some(limit))
}

#[tactic(auto, unfolding(crate::specs::Grammar::tail))]
fn tail(parser: &mut Parser<'_>) -> Result<Tail, Stop>
    ensures reads { Gives (λ x. x) result parser.new (reading most_levels grammar.tail parser.old) }
    ensures ending { parser.new.ending ≡ parser.old.ending }
{
    let order = order_clause(parser)?;
    let limit = limit_clause(parser)?;
    Ok(Tail { order, limit })
}

/// The tables of a query, the first of them before those that it joins.
fn sources_of(alloc: Global, first: SourceRef, joins: Joins) -> Result<(Sources, Ons), NoMemory>
    ensures sources { IfOk result (λ made. made.0 ≡ first ∷ map (λ j. j.source) joins) }
    ensures ons { IfOk result (λ made. made.1 ≡ map (λ j. j.on) joins) }
{
    let mut sources = Vec::with_capacity(alloc, joins.len() + 1)?;
    sources.push(first)?;
    let mut ons = Vec::with_capacity(alloc, joins.len())?;
    for join in joins.into_list() {
        let Join { source, on } = join;
        sources.push(source)?;
        ons.push(on)?;
    }
    Ok((Listed::from_list(sources), Listed::from_list(ons)))
}

fn items_of(alloc: Global, items: Option<Items>) -> Items
    ensures { result ≡ grammar.items_of items }
{
    match items {
        Some(items) => items,
        None => Listed::empty(alloc),
    }
}

/// The query of these parts.
fn query_of(alloc: Global, head: Head, body: Body, tail: Tail) -> Result<Select, NoMemory>
    ensures { IfOk result (λ query. query ≡ grammar.query_of head body tail) }
{
    let Head { items, source } = head;
    let Body {
        joins,
        filter,
        groups,
    } = body;
    let Tail { order, limit } = tail;
    let star = items.is_none();
    let items = items_of(alloc, items);
    let (sources, ons) = sources_of(alloc, source, joins)?;
    Ok(Select {
        star,
        items,
        sources,
        ons,
        filter,
        groups,
        order,
        limit,
    })
}

/// Behind an aggregate comes no JOIN.
fn body_behind(parser: &mut Parser<'_>, has_aggregate: bool) -> Result<Body, Stop>
    ensures reads { Gives (λ x. x) result parser.new (reading most_levels (grammar.body_behind has_aggregate) parser.old) }
    ensures ending { parser.new.ending ≡ parser.old.ending }
{
    if has_aggregate {
        body_behind_aggregate(parser)
    } else {
        body(parser)
    }
}

#[tactic(auto, unfolding(crate::specs::Grammar::select))]
pub fn select(parser: &mut Parser<'_>) -> Result<Statement, Stop>
    ensures reads { Gives (λ x. x) result parser.new (reading most_levels grammar.select parser.old) }
    ensures ending { parser.new.ending ≡ parser.old.ending }
{
    let head = head(parser)?;
    let has_aggregate = has_aggregate(&head.items);
    let body = body_behind(parser, has_aggregate)?;
    let tail = tail(parser)?;
    let query = query_of(parser.allocator(), head, body, tail)?;
    Ok(Statement::Select(query))
}
