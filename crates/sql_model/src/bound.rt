use crate::{ArithOp, CmpOp};
use lake_values::{Listed, Rows, Schema, Text, Value};
use sqlite_items::Boxed;

/// An expression whose columns are places, from 0, in the row that it is evaluated on.
#[derive(Debug, Drop)]
pub enum BoundExpr {
    Column(u32),
    Literal(Value),
    Arith(ArithOp, Boxed<BoundExpr>, Boxed<BoundExpr>),
    Compare(CmpOp, Boxed<BoundExpr>, Boxed<BoundExpr>),
    IsNull(Boxed<BoundExpr>),
    Not(Boxed<BoundExpr>),
    And(Boxed<BoundExpr>, Boxed<BoundExpr>),
    Or(Boxed<BoundExpr>, Boxed<BoundExpr>),
}

#[derive(Debug, Drop)]
pub enum BoundAgg {
    CountAll,
    Count(BoundExpr),
    Sum(BoundExpr),
    Min(BoundExpr),
    Max(BoundExpr),
}

/// A key of the order: a place in the answer's row.
#[derive(Clone, Copy, Debug, PartialEq, Eq)]
pub struct Key {
    pub column: u32,
    pub descending: bool,
}

pub type Texts = Listed<Text>;

pub type Numbers = Listed<u32>;
/// Each pair is a place in the row joined so far, and one in the new table's row.
pub type Pairs = Listed<(u32, u32)>;

pub type PairLists = Listed<Pairs>;

pub type BoundExprs = Listed<BoundExpr>;

pub type ExprLists = Listed<BoundExprs>;

pub type BoundAggs = Listed<BoundAgg>;

pub type Keys = Listed<Key>;

/// The schemas of a version's tables, each with the name of its table.
pub type Schemas = Listed<(Text, Schema)>;

/// A query after binding.
#[derive(Debug, Drop)]
pub struct Query {
    /// The tables in written order.
    pub tables: Texts,
    /// The number of columns of each table.
    pub widths: Numbers,
    /// The equalities of each JOIN between the row joined so far and the new table's row.
    pub pairs: PairLists,
    /// For each stage the conditions without arithmetic that stand there.
    pub guards: ExprLists,
    /// The conditions with arithmetic.
    pub computed: BoundExprs,
    /// The projection; empty for a grouped query.
    pub items: BoundExprs,
    /// The columns of GROUP BY; empty for a query that isn't grouped.
    pub keys: Numbers,
    pub aggs: BoundAggs,
    /// For each answer column its place in the group's row, keys first, or its item.
    pub outputs: Numbers,
    pub order: Keys,
    pub limit: Option<u64>,
}

/// A statement after binding. `column` is the number of the distribution column.
#[derive(Debug, Drop)]
pub enum Bound {
    Select(Query),
    Insert {
        table: Text,
        rows: Rows,
        column: u32,
    },
    /// `items` are the whole changed row.
    Update {
        table: Text,
        guards: BoundExprs,
        computed: BoundExprs,
        items: BoundExprs,
        column: u32,
    },
    Delete {
        table: Text,
        guards: BoundExprs,
        computed: BoundExprs,
    },
    /// A CREATE, COMPACT or CHECKPOINT.
    Named {
        table: Text,
    },
}
