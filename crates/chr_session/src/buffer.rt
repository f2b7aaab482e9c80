//! The bytes of a source, one at a time.
ghost use Rattle.std.specs.Prelude.{◌≡◌, ◌+◌, ◌-◌, ◌<◌, ◌≤◌, ◌∷◌, ℕ, List, [], length, IfOk, OnOk, OnSome};
ghost use Rattle.chr_session.specs.Devices.{HasCause, Comes, NextIs};

use crate::devices::{Failed, Source};
use std::marker::Model;

/// Bytes that were read and not yet used.
#[derive(Drop)]
pub struct Buffer {
    bytes: [u8; 1024],
    from: usize,
    to: usize,
}

impl Model for Buffer {
    ghost use Rattle.std.specs.Prelude.{◌-◌, ◌≤◌, ℕ, List, take, drop};

    ghost Value = { List ℕ };

    ghost view = { λ b. take (b.to - b.from) (drop b.from b.bytes) };

    ghost invariant = { λ b. (b.from ≤ b.to) × (b.to ≤ 1024) };
}

impl Buffer {
    /// A buffer without bytes.
    pub fn new() -> Self
        ensures { result ≡ [] }
    {
        Buffer {
            bytes: [0; 1024],
            from: 0,
            to: 0,
        }
    }

    /// Takes the first of the bytes that it holds.
    fn take_first(&mut self) -> u8
        requires { 0 < length self.old }
        ensures { self.old ≡ result ∷ self.new }
    {
        let byte = self.bytes[self.from];
        self.from += 1;
        byte
    }

    /// The next byte, or none at the end of the source.
    #[tactic(auto, using(crate::proofs::Passed::next_taken, crate::proofs::Passed::next_ends, crate::proofs::Passed::refilled_less, crate::proofs::Passed::within_end, crate::proofs::Passed::held_met))]
    pub fn next<S: Source>(&mut self, source: &mut S) -> Result<Option<u8>, Failed>
        ensures byte { IfOk result (λ b. (input : List ℕ) → Comes self.old (S.left source.old) input → NextIs b (Comes self.new (S.left source.new)) input) }
        ensures budget { IfOk result (λ b. OnSome b (S.budget source.new + length self.new < S.budget source.old + length self.old)) }
        ensures within { OnOk result (S.budget source.new + length self.new ≤ S.budget source.old + length self.old) }
        ensures cause { HasCause (S.failures source.old) (S.failures source.new) result }
    {
        if self.from < self.to {
            return Ok(Some(self.take_first()));
        }
        let n = source.read(&mut self.bytes)?;
        if n == 0 {
            return Ok(None);
        }
        self.from = 0;
        self.to = n;
        Ok(Some(self.take_first()))
    }
}
