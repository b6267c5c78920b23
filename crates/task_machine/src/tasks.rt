ghost use Rattle.std.specs.Prelude.{◌≡◌, ◌+◌, ◌-◌, ◌^◌, ◌<◌, IsTrue, true, false};
ghost use Rattle.task_machine.specs.Progress.{held, lost, may_start, off, readied, reported, runs};
ghost use Rattle.task_machine.specs.Progress.{runs_on, started, state_of, untouched, verdict_of};
ghost use Rattle.task_machine.specs.Progress.{without};
ghost use Rattle.task_machine.specs.declared.words.How.TheVariants.{Fault as GivenFault};
ghost use Rattle.task_machine.specs.declared.words.State.TheVariants.{Blocked};

use crate::{How, Placed, State, Verdict};
use std::marker::Model;

// A task with as many faults is spent.
const MOST_FAULTS: u32 = 3;

/// A task of a statement. Contracts see its progress. No call takes memory.
#[derive(Debug, Drop)]
pub struct Task {
    ready: bool,
    assigns: u32,
    faults: u32,
    first: Option<Placed>,
    second: Option<Placed>,
    winner: Option<u32>,
}

impl Model for Task {
    ghost use Rattle.std.specs.Prelude.{◌++◌};
    ghost use Rattle.task_machine.specs.Progress.{IsProgress, Progress, held};

    ghost Value = { Progress };

    ghost view = { λ t. record {
      ready = t.ready;
      assigns = t.assigns;
      faults = t.faults;
      running = held t.first ++ held t.second;
      winner = t.winner;
    } };

    ghost invariant = { λ t. IsProgress (record {
      ready = t.ready;
      assigns = t.assigns;
      faults = t.faults;
      running = held t.first ++ held t.second;
      winner = t.winner;
    }) };
}

impl Task {
    /// A task that was never started; `ready` says whether all its inputs are there.
    pub fn new(ready: bool) -> Task
        ensures { result ≡ untouched ready }
    {
        Task {
            ready,
            assigns: 0,
            faults: 0,
            first: None,
            second: None,
            winner: None,
        }
    }

    pub fn state(&self) -> State
        ensures state { result ≡ state_of self.now }
    {
        if let Some(winner) = self.winner {
            return State::Done { winner };
        }
        if self.faults >= MOST_FAULTS {
            return State::Spent;
        }
        if self.first.is_some() || self.second.is_some() {
            return State::Running;
        }
        if self.ready {
            State::Ready
        } else {
            State::Blocked
        }
    }

    /// How many attempts were started so far.
    pub fn attempts(&self) -> u32
        ensures { result ≡ self.now.assigns }
    {
        self.assigns
    }

    /// Notes that all inputs are there.
    pub fn ready(&mut self)
        requires { state_of self.old ≡ Blocked }
        ensures readied { self.new ≡ readied self.old }
    {
        self.ready = true;
    }

    /// Starts an attempt on a server, and answers its number. A task has at most two attempts at
    /// once, on different servers.
    pub fn start(&mut self, server: u32) -> u32
        requires may { IsTrue (may_start server self.old) }
        requires room { self.old.assigns < 2 ^ 32 - 1 }
        ensures number { result ≡ self.old.assigns + 1 }
        ensures started { self.new ≡ started server self.old }
    {
        let attempt = self.assigns + 1;
        self.assigns = attempt;
        if self.first.is_none() {
            self.first = self.second;
        }
        self.second = Some(Placed { attempt, server });
        attempt
    }

    /// Notes how an attempt ended, and answers what this means.
    pub fn report(&mut self, attempt: u32, how: How) -> Verdict
        ensures verdict { result ≡ verdict_of attempt how self.old }
        ensures after { self.new ≡ reported attempt how self.old }
    {
        if !is_attempt(self.first, attempt) && !is_attempt(self.second, attempt) {
            return Verdict::Late;
        }
        match how {
            How::Good => {
                self.winner = Some(attempt);
                self.first = None;
                self.second = None;
                Verdict::Won
            }
            How::Fault => self.take_fault(attempt),
            How::Beaten => {
                self.first = leave(self.first, attempt);
                self.second = leave(self.second, attempt);
                Verdict::Retry
            }
        }
    }

    // Notes a fault of an attempt that runs.
    fn take_fault(&mut self, attempt: u32) -> Verdict
        requires { runs attempt self.old.running ≡ true }
        ensures verdict { result ≡ verdict_of attempt GivenFault self.old }
        ensures after { self.new ≡ reported attempt GivenFault self.old }
    {
        self.faults += 1;
        if self.faults >= MOST_FAULTS {
            self.first = None;
            self.second = None;
            return Verdict::Spent;
        }
        self.first = leave(self.first, attempt);
        self.second = leave(self.second, attempt);
        Verdict::Retry
    }

    /// Takes the attempt off a server that is lost, and answers whether one ran there.
    pub fn lose(&mut self, server: u32) -> bool
        ensures ran { result ≡ runs_on server self.old.running }
        ensures after { self.new ≡ lost server self.old }
    {
        let ran = is_on(self.first, server) || is_on(self.second, server);
        self.first = fall(self.first, server);
        self.second = fall(self.second, server);
        ran
    }
}

fn is_attempt(place: Option<Placed>, attempt: u32) -> bool
    ensures { result ≡ runs attempt (held place) }
{
    match place {
        Some(placed) => placed.attempt == attempt,
        None => false,
    }
}

fn is_on(place: Option<Placed>, server: u32) -> bool
    ensures { result ≡ runs_on server (held place) }
{
    match place {
        Some(placed) => placed.server == server,
        None => false,
    }
}

// The place without this attempt.
fn leave(place: Option<Placed>, attempt: u32) -> Option<Placed>
    ensures { held result ≡ without attempt (held place) }
{
    match place {
        Some(placed) if placed.attempt == attempt => None,
        other => other,
    }
}

// The place without an attempt on this server.
fn fall(place: Option<Placed>, server: u32) -> Option<Placed>
    ensures { held result ≡ off server (held place) }
{
    match place {
        Some(placed) if placed.server == server => None,
        other => other,
    }
}
