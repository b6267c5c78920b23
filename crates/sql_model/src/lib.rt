//! What statements mean: statements, bound forms, refusals, replies, changes, and the definitions of what a statement
//! answers and changes over the tables that it sees.
//!
//! Nothing here speaks of sessions or of a chronicle; `lake_model` does.
//!
//! What the clauses say: `in_row_order`, `in_mark_order` and `sort_by_mark` list rows in exactly
//! ascending order (`listed`, `ordered`); copies equal what was copied. Laws:
//! `same_bags_same_answer` (a query answers the same over databases that have the same rows
//! equally often, in whatever order) and `same_bag_same_listing` (two lists of rows have the same
//! rows equally often exactly where they are equal in ascending order).
#![tactic(auto)]

mod bound;
mod changes;
mod copies;
mod expressions;
mod laws;
mod listing;
mod replies;
mod scopes;
mod scripts;
mod statements;

pub use bound::{
    Bound, BoundAgg, BoundAggs, BoundExpr, BoundExprs, ExprLists, Key, Keys, Numbers, PairLists,
    Pairs, Query, Schemas, Texts,
};
pub use changes::{Added, AddedList, Change, Mark, MarkedRow, MarkedRows, Marks};
pub use copies::{copy_additions, copy_marked_rows};
pub use expressions::{Agg, ArithOp, CmpOp, Expr, Item, Items, Ref, Refs};
pub use laws::{same_bag_same_listing, same_bags_same_answer};
pub use listing::{in_mark_order, in_row_order, sort_by_mark};
pub use replies::{Failure, Refusal, Reply, Verb};
pub use scopes::{ExprType, Found, Heading};
pub use scripts::{Group, Numbered, Script, Step};
pub use statements::{
    Ons, OrderBy, OrderKey, OrderKeys, RefPairs, Select, Set, Sets, SourceRef, Sources, Statement,
};
