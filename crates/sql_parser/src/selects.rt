use lake_values::Listed;
use sql_model::{Expr, Items, OrderKeys, Ref, RefPairs, Refs, SourceRef};

/// A table that a query joins, and the equalities of its ON.
#[derive(Debug, Drop)]
pub struct Join {
    pub source: SourceRef,
    pub on: RefPairs,
}

pub type Joins = Listed<Join>;

/// What a query selects, and its first table. No items stand for all columns.
#[derive(Debug, Drop)]
pub struct Head {
    pub items: Option<Items>,
    pub source: SourceRef,
}

/// The further tables of a query, its condition and its groups.
#[derive(Debug, Drop)]
pub struct Body {
    pub joins: Joins,
    pub filter: Option<Expr>,
    pub groups: Refs,
}

/// The order of a query's rows, and how many of them are answered.
#[derive(Debug, Drop)]
pub struct Tail {
    pub order: OrderKeys,
    pub limit: Option<u64>,
}
