//! What the lake is: the entries of its chronicle, and the definitions of what is right. `specs/` says which chronicles are
//! legal, which follow a script, and what is printed for them. The names of `sql_model`, of which they speak, are passed on.
//!
//! What the clauses say: `reply_text` appends exactly the text of a reply (`ok`), or nothing for
//! want of memory (`err`). Laws: `views_stay` (what a session does leaves the transactions of the
//! others, and what they see), `first_committer_wins` (of two commits that wrote one unit the
//! later one's transaction saw the earlier), `one_text` (two legal chronicles that follow one
//! serial script and in which nothing failed have one text), `states_are_sound` (what legality
//! alone says of a state) and `changes_are_parts` (what ran and changed something is a part of its
//! transaction). `upkeep_example` works compaction, collection and a failed COMMIT by the
//! definitions.
#![tactic(auto)]

mod entries;
mod examples;
mod laws;
mod reply_texts;

pub use entries::{Cells16, Chronicle, Entry, Fact};
pub use examples::upkeep_example;
pub use laws::{changes_are_parts, first_committer_wins, one_text, states_are_sound, views_stay};
pub use reply_texts::reply_text;
pub use sql_model::{
    Added, AddedList, Agg, ArithOp, Bound, BoundAgg, BoundAggs, BoundExpr, BoundExprs, Change,
    CmpOp, Expr, ExprLists, ExprType, Failure, Found, Group, Heading, Item, Items, Key, Keys, Mark,
    MarkedRow, MarkedRows, Marks, Numbered, Numbers, Ons, OrderBy, OrderKey, OrderKeys, PairLists,
    Pairs, Query, Ref, RefPairs, Refs, Refusal, Reply, Schemas, Script, Select, Set, Sets,
    SourceRef, Sources, Statement, Step, Texts, Verb, copy_additions, copy_marked_rows,
    in_mark_order, in_row_order, same_bag_same_listing, same_bags_same_answer, sort_by_mark,
};
