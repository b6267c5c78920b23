ghost use Rattle.std.specs.Prelude.{◌≡◌, ◌<◌, ◌≤◌, ℕ, List, Option, None, length, take, IfOk, OnErr, MatchResult, IsErrOf};
ghost use Rattle.std.specs.Io.KnownBytes.{Appends, Consumes, Keeps, IsAtEnd};
ghost use Rattle.lake_outside.specs.Counts.{Rises};

use crate::{Failed, PutError};

/// Where bytes come from.
pub trait Source {
    // The bytes that it still has, where it tells them.
    ghost left: { Self → Option (List ℕ) } = { λ _. None };

    // How often it failed.
    ghost faults: { Self → ℕ };

    /// Puts bytes into the front of `buf` and answers their number, which is 0 only where nothing is left.
    fn take(&mut self, buf: &mut [u8]) -> Result<usize, Failed>
        requires { 0 < length buf.old }
        ensures bound { IfOk result (λ n. n ≤ length buf.new) }
        ensures bytes { MatchResult result
            (λ n. Consumes (left self.old) (left self.new) (take n buf.new) × (n ≡ 0 → IsAtEnd (left self.new)))
            (λ _. Keeps (left self.old) (left self.new)) }
        ensures never_falls { faults self.old ≤ faults self.new }
        ensures failed { OnErr result (Rises (faults self.old) (faults self.new)) };
}

/// Where bytes go.
pub trait Sink {
    // The bytes that it took, where it tells them.
    ghost written: { Self → Option (List ℕ) } = { λ _. None };

    // How often it failed.
    ghost faults: { Self → ℕ };

    // How often it took nothing.
    ghost idle: { Self → ℕ };

    /// Takes the front of `bytes` and answers how many bytes it took.
    fn put(&mut self, bytes: &[u8]) -> Result<usize, PutError>
        requires { 0 < length bytes.now }
        ensures bound { IfOk result (λ n. n ≤ length bytes.now) }
        ensures appended { MatchResult result
            (λ n. Appends (written self.old) (written self.new) (take n bytes.now))
            (λ _. Keeps (written self.old) (written self.new)) }
        ensures never_falls { faults self.old ≤ faults self.new }
        ensures idle_never_falls { idle self.old ≤ idle self.new }
        ensures failed { IsErrOf result PutError.Failed → Rises (faults self.old) (faults self.new) }
        ensures idle { result ≡ Ok 0 → Rises (idle self.old) (idle self.new) };
}
