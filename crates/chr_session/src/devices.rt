//! What a session reads from and writes to.
ghost use Rattle.std.specs.Prelude.{◌≡◌, ℕ, ◌+◌, ◌<◌, ◌≤◌, List, ◌++◌, length, take, IfOk, OnErr};
ghost use Rattle.chr_session.specs.Devices.{HasCause, Gives};

/// A device failed: it gave or took nothing.
#[derive(Clone, Copy, Debug, PartialEq, Eq)]
pub struct Failed;

/// What a session reads.
pub trait Source {
    /// These bytes are still to come. A source that can't tell holds it of none.
    ghost left: { Self → List ℕ → Type 0 };

    /// At most so many bytes it gives from now on.
    ghost budget: { Self → ℕ };

    /// How often it has failed.
    ghost failures: { Self → ℕ };

    /// Puts the next bytes into `into`, and answers how many: none only at the end.
    fn read(&mut self, into: &mut [u8]) -> Result<usize, Failed>
        requires { 0 < length into.old }
        ensures within { IfOk result (λ n. n ≤ length into.old) }
        ensures bytes { IfOk result (λ n. (bytes : List ℕ) → left self.old bytes → Gives bytes n into.new (left self.new)) }
        ensures budget { IfOk result (λ n. budget self.new + n ≤ budget self.old) }
        ensures cause { HasCause (failures self.old) (failures self.new) result };
}

/// What a session writes to.
pub trait Sink {
    /// These bytes were taken. A sink that can't tell holds it of none.
    ghost taken: { Self → List ℕ → Type 0 };

    /// How often it has failed.
    ghost failures: { Self → ℕ };

    /// Takes bytes, and answers how many of them, at least one.
    fn write(&mut self, bytes: &[u8]) -> Result<usize, Failed>
        requires { 0 < length bytes.now }
        ensures some { IfOk result (λ n. (0 < n) × (n ≤ length bytes.now)) }
        ensures bytes { IfOk result (λ n. (all : List ℕ) → taken self.old all → taken self.new (all ++ take n bytes.now)) }
        ensures none { OnErr result ((all : List ℕ) → taken self.old all → taken self.new all) }
        ensures cause { HasCause (failures self.old) (failures self.new) result };
}
