use crate::{Expr, Items, Ref, Refs};
use lake_values::{Columns, Listed, Rows, Text};

/// An assignment of an UPDATE.
#[derive(Debug, Drop)]
pub struct Set {
    pub column: Text,
    pub value: Expr,
}

pub type Sets = Listed<Set>;

/// A table of a query, and the name under which the query speaks of it.
#[derive(Debug, Drop)]
pub struct SourceRef {
    pub table: Text,
    pub name: Text,
}

pub type Sources = Listed<SourceRef>;

/// The two sides of each equality of an ON.
pub type RefPairs = Listed<(Ref, Ref)>;

/// The equalities of each JOIN.
pub type Ons = Listed<RefPairs>;

/// What an ORDER BY key names: an output by its name or by its number, from 1.
#[derive(Debug, Drop)]
pub enum OrderBy {
    Name(Text),
    Number(u64),
}

#[derive(Debug, Drop)]
pub struct OrderKey {
    pub by: OrderBy,
    pub descending: bool,
}

pub type OrderKeys = Listed<OrderKey>;

/// A query. `star` stands for all columns; then there are no items.
#[derive(Debug, Drop)]
pub struct Select {
    pub star: bool,
    pub items: Items,
    pub sources: Sources,
    pub ons: Ons,
    pub filter: Option<Expr>,
    pub groups: Refs,
    pub order: OrderKeys,
    pub limit: Option<u64>,
}

#[derive(Debug, Drop)]
pub enum Statement {
    Create {
        table: Text,
        columns: Columns,
        distribution: Option<Text>,
    },
    Begin,
    Commit,
    RollBack,
    Insert {
        table: Text,
        rows: Rows,
    },
    Select(Select),
    Update {
        table: Text,
        sets: Sets,
        filter: Option<Expr>,
    },
    Delete {
        table: Text,
        filter: Option<Expr>,
    },
    Compact {
        table: Text,
    },
    Checkpoint {
        table: Text,
    },
    Collect {
        retain: u64,
    },
}
