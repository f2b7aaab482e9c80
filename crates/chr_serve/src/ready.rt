//! Who is told that a server can serve.
ghost use Rattle.std.specs.Prelude.{◌≡◌, ℕ};

/// Who is told that a server can serve.
pub trait Ready {
    /// Of how many workers it is to be told.
    ghost expected: { Self → ℕ };

    /// Tells that the threads of so many workers and of all sessions are started, and that the memory of all sessions is
    /// taken.
    fn tell(&self, workers: usize)
        requires { workers ≡ expected self.now };
}
