use lake_values::{Listed, Text, Value};
use sqlite_items::Boxed;

#[derive(Clone, Copy, Debug, PartialEq, Eq)]
pub enum ArithOp {
    Add,
    Sub,
    Mul,
}

#[derive(Clone, Copy, Debug, PartialEq, Eq)]
pub enum CmpOp {
    Eq,
    Ne,
    Lt,
    Le,
    Gt,
    Ge,
}

/// A column by its name, with the name of its table where that was written.
#[derive(Debug, Drop)]
pub struct Ref {
    pub table: Option<Text>,
    pub column: Text,
}

pub type Refs = Listed<Ref>;

/// An expression as a statement writes it.
#[derive(Debug, Drop)]
pub enum Expr {
    Column(Ref),
    Literal(Value),
    Arith(ArithOp, Boxed<Expr>, Boxed<Expr>),
    Compare(CmpOp, Boxed<Expr>, Boxed<Expr>),
    IsNull(Boxed<Expr>),
    Not(Boxed<Expr>),
    And(Boxed<Expr>, Boxed<Expr>),
    Or(Boxed<Expr>, Boxed<Expr>),
}

/// An aggregate over the rows of a group.
#[derive(Debug, Drop)]
pub enum Agg {
    CountAll,
    Count(Expr),
    Sum(Expr),
    Min(Expr),
    Max(Expr),
}

/// An item of a SELECT, with the name that AS gives it.
#[derive(Debug, Drop)]
pub enum Item {
    Plain(Expr, Option<Text>),
    Agg(Agg, Option<Text>),
}

pub type Items = Listed<Item>;
