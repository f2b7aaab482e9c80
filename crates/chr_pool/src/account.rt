//! What each thread has pushed and taken, and the rule that ties it to the contents of a deque or of the queue.
ghost use Rattle.std.specs.Prelude.{◌≡◌, ℕ};

use crossbeam_deque::protocol::{Join, Lesson, Outcome, Protocol, Split};
use std::collections::LinkedList;

/// A task with a number, by which contracts speak of it.
pub trait Numbered {
    ghost number: { Self → ℕ };

    /// The task's number.
    fn number(&self) -> u64
        ensures { result ≡ number self.now };
}

impl Numbered for u64 {
    ghost number = { λ n. n };

    fn number(&self) -> u64 {
        *self
    }
}

/// What one pass on a deque or on the queue has pushed and taken, as the numbers of the tasks, in order.
///
/// A pass is one thread's access in proofs. The account of a deque is cut into 64 parts, which its passes share, so the
/// pass with all 64 has the only account. `joined` says that the pass took over the account of another, so that its lists
/// are no longer in the order of its own calls. No value of this type is ever made.
pub struct Account {
    pub parts: u64,
    pub joined: bool,
    pub pushed: LinkedList<u64>,
    pub taken: LinkedList<u64>,
}

/// The rule of each deque and of the queue: what is in it is what was pushed and not yet taken, in the order of pushing.
pub struct TakenOnce;

impl<T: Numbered> Protocol<T, Account> for TakenOnce {
    ghost use Rattle.std.specs.Prelude.{false, [], map};
    ghost use Rattle.chr_pool.specs.Accounts.{account, Kept};

    ghost holds = { λ items views. Kept (map T.number items) views };

    ghost first = { account 64 false [] [] };

    ghost guest = { account 64 false [] [] };
}

/// The step of a push.
pub struct Pushed;

impl<T: Numbered> Outcome<T, Account> for Pushed {
    ghost use Rattle.std.specs.Prelude.{◌≡◌, ◌++◌, map};
    ghost use Rattle.chr_pool.specs.Accounts.{account};

    ghost then = { λ v xs w. w ≡ account v.parts v.joined (v.pushed ++ map T.number xs) v.taken };
}

/// The step of a pop, of a steal, and of taking from the queue.
pub struct Took;

impl<T: Numbered> Outcome<T, Account> for Took {
    ghost use Rattle.std.specs.Prelude.{◌≡◌, ◌++◌, map, ℕ};
    ghost use Rattle.std.specs.List.{sum_by};
    ghost use Rattle.chr_pool.specs.Accounts.{account};

    ghost then = { λ v xs w. w ≡ account v.parts v.joined v.pushed (v.taken ++ map T.number xs) };

    ghost empty = { λ v. v.parts ≡ 64 → (h : ℕ → ℕ) → sum_by h v.pushed ≡ sum_by h v.taken };
}

/// The same by the pass that has every part: it also learns that no more was taken than was pushed.
pub struct Left;

impl<T: Numbered> Outcome<T, Account> for Left {
    ghost use Rattle.std.specs.Prelude.{◌≡◌, ◌≤◌, ◌++◌, map, ℕ, length};
    ghost use Rattle.std.specs.List.{sum_by};
    ghost use Rattle.chr_pool.specs.Accounts.{account};

    ghost then = { λ v xs w. (w ≡ account v.parts v.joined v.pushed (v.taken ++ map T.number xs)) × (v.parts ≡ 64 → length w.taken ≤ length w.pushed) };

    ghost empty = { λ v. v.parts ≡ 64 → (h : ℕ → ℕ) → sum_by h v.pushed ≡ sum_by h v.taken };
}

/// What the pass that has every part learns of the contents.
pub struct Known;

impl<T: Numbered> Lesson<T, Account> for Known {
    ghost use Rattle.std.specs.Prelude.{◌≡◌, ◌+◌, map, ℕ};
    ghost use Rattle.std.specs.List.{sum_by};

    ghost fact = { λ v items. v.parts ≡ 64 → (h : ℕ → ℕ) → sum_by h v.pushed ≡ sum_by h v.taken + sum_by h (map T.number items) };
}

/// How a pass gives one part to a new pass, which has pushed and taken nothing, and how two passes become one.
pub struct Cut;

impl Split<Account> for Cut {
    ghost use Rattle.std.specs.Prelude.{◌-◌, false, []};
    ghost use Rattle.chr_pool.specs.Accounts.{account};

    ghost left = { λ v. account (v.parts - 1) v.joined v.pushed v.taken };

    ghost right = { λ v. account 1 false [] [] };
}

impl Join<Account> for Cut {
    ghost use Rattle.std.specs.Prelude.{◌+◌, ◌++◌, true, false, []};
    ghost use Rattle.chr_pool.specs.Accounts.{account};

    ghost both = { λ v w. account (v.parts + w.parts) true (v.pushed ++ w.pushed) (v.taken ++ w.taken) };

    ghost spent = { account 0 false [] [] };
}
