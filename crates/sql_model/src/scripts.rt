use crate::Statement;
use lake_values::Listed;

/// A statement with its place in the script, from 1, and the session that runs it, from 1 to 16.
#[derive(Debug, Drop)]
pub struct Numbered {
    pub place: u32,
    pub session: u32,
    pub statement: Statement,
}

/// The statements of a block whose sessions run at once.
pub type Group = Listed<Numbered>;

/// What runs before the next step begins.
#[derive(Debug, Drop)]
pub enum Step {
    One(Numbered),
    Parallel(Group),
}

/// The steps of a script, in the order of the text.
pub type Script = Listed<Step>;
