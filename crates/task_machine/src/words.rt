/// Where a task stands.
#[derive(Clone, Copy, Debug, PartialEq, Eq)]
pub enum State {
    /// An input isn't there yet.
    Blocked,
    /// All inputs are there, and no attempt runs.
    Ready,
    /// One attempt runs, or two on different servers.
    Running,
    /// The attempt with this number won.
    Done { winner: u32 },
    /// Three faults were taken.
    Spent,
}

/// How an attempt ended.
#[derive(Clone, Copy, Debug, PartialEq, Eq)]
pub enum How {
    /// It has a result.
    Good,
    /// A port failed it.
    Fault,
    /// Another attempt of the task had been first.
    Beaten,
}

/// What a report of an attempt means for its task.
#[derive(Clone, Copy, Debug, PartialEq, Eq)]
pub enum Verdict {
    /// The task is done, by this attempt.
    Won,
    /// The attempt didn't run any more.
    Late,
    /// The attempt is gone, and the task can be tried again.
    Retry,
    /// It was the third fault: the task isn't tried again.
    Spent,
}

/// An attempt, by its number from 1, and the server on which it runs.
#[derive(Clone, Copy, Debug, PartialEq, Eq)]
pub struct Placed {
    pub attempt: u32,
    pub server: u32,
}
