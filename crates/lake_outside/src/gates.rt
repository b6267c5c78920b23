/// An attempt of a task, as a gate sees it.
#[derive(Clone, Copy, Debug, PartialEq, Eq)]
pub struct Ticket {
    /// The place of the statement in the script.
    pub place: u32,
    pub wave: u32,
    pub task: u32,
    pub attempt: u32,
    pub server: u32,
}

/// What every attempt passes before it claims its task. A test can hold attempts there.
pub trait Gate: Sync {
    /// Returns when the attempt may go on.
    fn pass(&self, ticket: &Ticket);
}

/// A gate that lets everything pass at once.
#[derive(Clone, Copy, Debug, PartialEq, Eq)]
pub struct OpenGate;

impl Gate for OpenGate {
    /// Returns when the attempt may go on.
    fn pass(&self, _ticket: &Ticket) {}
}
