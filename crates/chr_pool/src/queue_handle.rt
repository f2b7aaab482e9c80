//! A handle on the queue that the inlets feed.
ghost use Rattle.std.specs.Prelude.{◌≡◌, ◌<◌};
ghost use Rattle.std.specs.Arc.{arc_value};
ghost use Rattle.crossbeam_deque.specs.Injected.{injector_view, IsInjectorPassOf};

use crate::account::{Account, Cut, Left, Numbered, Pushed, TakenOnce, Took};
use crossbeam_deque::{Injector, InjectorPass, Steal};
use std::alloc::{AllocError, Global};
use std::sync::{Arc, Wait};

/// The queue, with the pass whose account has what was pushed and taken by this handle.
#[derive(Drop)]
pub struct QueueHandle<T: Numbered + Drop> {
    pub(crate) queue: Arc<Injector<T, Global, Account, TakenOnce>, Global>,
    pub(crate) pass: InjectorPass<T, Account>,
    ghost tied: { IsInjectorPassOf (arc_value queue) pass },
    ghost some_part: { 0 < (injector_view pass).parts },
}

impl<T: Numbered + Drop> QueueHandle<T> {
    ghost use Rattle.std.specs.Prelude.{MatchOption, MatchResult, ℕ, ◌+◌, ◌≤◌, length, vec_len, vec_capacity, map, IfOk, OnOk, false, []};
    ghost use Rattle.std.specs.List.{sum_by};
    ghost use Rattle.chr_pool.specs.Accounts.{account, took, gave, join};
    ghost use Rattle.chr_pool.specs.Handles.{queue_shape, queue_account};

    /// Takes the first task.
    pub(crate) fn take<R: Wait>(&mut self, rt: &R) -> Option<T>
        ensures same { queue_shape self.new ≡ queue_shape self.old }
        ensures rule { MatchOption result (queue_account self.new ≡ queue_account self.old) (λ x. queue_account self.new ≡ took (T.number x) (queue_account self.old)) }
    {
        for _ in rt.forever() {
            match self.queue.steal_as::<Took, R>(rt, &mut self.pass) {
                Steal::Success(task) => return Some(task),
                Steal::Empty => return None,
                Steal::Retry => {}
            }
        }
        unreachable!()
    }

    /// Pushes a task at the back, or gives it back.
    pub(crate) fn push<R: Wait>(&mut self, rt: &R, task: T) -> Result<(), T>
        ensures same { queue_shape self.new ≡ queue_shape self.old }
        ensures rule { MatchResult result (λ _. queue_account self.new ≡ gave (T.number task) (queue_account self.old)) (λ x. (x ≡ task) × (queue_account self.new ≡ queue_account self.old)) }
    {
        self.queue.push_as::<Pushed, R>(rt, &mut self.pass, task)
    }

    /// Adds the account of another handle to this one's.
    #[tactic(auto, using(crate::proofs::Rules::merges))]
    pub(crate) fn absorb(&mut self, other: QueueHandle<T>)
        requires { (queue_shape other).0 ≡ (queue_shape self.old).0 }
        ensures same { (queue_shape self.new).0 ≡ (queue_shape self.old).0 }
        ensures rule { queue_account self.new ≡ join (queue_account self.old) (queue_account other) }
    {
        let QueueHandle { queue, pass } = other;
        self.queue.absorb::<Cut>(&mut self.pass, pass);
        drop(queue);
    }

    /// Takes all tasks that are left in the queue.
    pub(crate) fn drain<R: Wait>(&mut self, rt: &R, left: &mut Vec<T>)
        requires whole { (queue_account self.old).parts ≡ 64 }
        requires room { vec_len left.old + length (queue_account self.old).pushed ≤ vec_capacity left.old + length (queue_account self.old).taken }
        ensures capacity { vec_capacity left.new ≡ vec_capacity left.old }
        ensures rule { (h : ℕ → ℕ) → sum_by h (map T.number left.new.items) + sum_by h (queue_account self.old).taken ≡ sum_by h (map T.number left.old.items) + sum_by h (queue_account self.old).pushed }
    {
        for _ in rt.forever() {
            match self.queue.steal_as::<Left, R>(rt, &mut self.pass) {
                Steal::Success(task) => left.push_reserved(task),
                Steal::Empty => return,
                Steal::Retry => {}
            }
        }
        unreachable!()
    }

    /// A new handle on the same queue, which gets one part of this one's account.
    #[tactic(auto, using(crate::proofs::Rules::forks))]
    pub(crate) fn split(&mut self) -> Result<QueueHandle<T>, AllocError>
        requires { 1 < (queue_account self.old).parts }
        ensures same { ((queue_shape self.new).0 ≡ (queue_shape self.old).0) × ((queue_account self.new).pushed ≡ (queue_account self.old).pushed) × ((queue_account self.new).taken ≡ (queue_account self.old).taken) }
        ensures parts { OnOk result ((queue_account self.new).parts + 1 ≡ (queue_account self.old).parts) }
        ensures made { IfOk result (λ l. ((queue_shape l).0 ≡ (queue_shape self.old).0) × (queue_account l ≡ account 1 false [] [])) }
    {
        let queue = Arc::try_clone(&self.queue)?;
        let pass = self.queue.another::<Cut>(&mut self.pass);
        Ok(QueueHandle { queue, pass })
    }
}
