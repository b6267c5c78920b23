ghost use Rattle.std.specs.Prelude.{◌≡◌, ◌↔◌, ◌≤◌, IsTrue};
ghost use Rattle.lake_outside.specs.Counts.{FailsNext, with_passed, with_failed};

use std::marker::Model;

/// Which calls of a source, a sink or a port fail by order, counted from 1, how many were made, and how many
/// failed.
#[derive(Debug, Drop)]
pub struct CallCount {
    fails: Vec<u64>,
    made: u64,
    failed: u64,
}

impl Model for CallCount {
    ghost use Rattle.lake_outside.specs.Counts.{Calls};

    ghost Value = { Calls };

    ghost view = { λ c. record { fails = c.fails.items; made = c.made; failed = c.failed } };
}

impl CallCount {
    /// No call was made yet. The k-th fails where `fails` has k.
    pub fn new(fails: Vec<u64>) -> CallCount
        ensures { result ≡ record { fails = fails.items; made = 0; failed = 0 } }
    {
        CallCount {
            fails,
            made: 0,
            failed: 0,
        }
    }

    /// Whether the next call is one of those that fail.
    pub fn fails_next(&self) -> bool
        ensures { IsTrue result ↔ FailsNext self.now }
    {
        self.fails.contains(&self.made.saturating_add(1))
    }

    /// Counts a call that didn't fail.
    pub fn pass(&mut self)
        ensures { self.new ≡ with_passed self.old }
    {
        self.made = self.made.saturating_add(1);
    }

    /// Counts a call that failed.
    pub fn fail(&mut self)
        ensures counted { self.new ≡ with_failed self.old }
        ensures never_falls { self.old.failed ≤ self.new.failed }
    {
        self.made = self.made.saturating_add(1);
        self.failed = self.failed.saturating_add(1);
    }
}
