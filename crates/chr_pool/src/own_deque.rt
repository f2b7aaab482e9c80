//! A deque whose hand is back.
ghost use Rattle.std.specs.Prelude.{◌≡◌, ◌<◌};
ghost use Rattle.crossbeam_deque.specs.Handles.{worker_flavor, worker_view};

use crate::account::{Account, Cut, Known, Left, Numbered, TakenOnce};
use crate::deque_handle::DequeHandle;
use crossbeam_deque::Worker;
use std::alloc::Global;
use std::sync::Wait;

/// The deque of a hand that is back.
#[derive(Drop)]
pub struct OwnDeque<T: Numbered + Drop> {
    pub(crate) worker: Worker<T, Global, Account, TakenOnce>,
    ghost fifo: { worker_flavor worker ≡ 0 },
    ghost some_part: { 0 < (worker_view worker).parts },
}

impl<T: Numbered + Drop> OwnDeque<T> {
    ghost use Rattle.std.specs.Prelude.{ℕ, ◌+◌, ◌≤◌, length, vec_len, vec_capacity, map};
    ghost use Rattle.std.specs.List.{sum_by};
    ghost use Rattle.chr_pool.specs.Accounts.{join};
    ghost use Rattle.chr_pool.specs.Handles.{handle_account, handle_deque};
    ghost use Rattle.chr_pool.specs.OwnDeques.{own_account, own_deque};

    /// Adds the account of what another hand stole to that of the deque's owner.
    #[tactic(auto, using(crate::proofs::Rules::merges))]
    pub(crate) fn absorb(&mut self, deque_handle: DequeHandle<T>)
        requires { handle_deque deque_handle ≡ own_deque self.old }
        ensures same { own_deque self.new ≡ own_deque self.old }
        ensures rule { own_account self.new ≡ join (own_account self.old) (handle_account deque_handle) }
    {
        let DequeHandle { stealer, pass } = deque_handle;
        self.worker.absorb::<Cut>(pass);
        drop(stealer);
    }

    /// Shows that no more was taken than was pushed.
    pub(crate) fn look(&mut self)
        requires { (own_account self.old).parts ≡ 64 }
        ensures same { (own_deque self.new ≡ own_deque self.old) × (own_account self.new ≡ own_account self.old) }
        ensures rule { length (own_account self.old).taken ≤ length (own_account self.old).pushed }
    {
        let _ = self.worker.len_as::<Known>();
    }

    /// Takes all tasks that are left in the deque.
    pub(crate) fn drain<R: Wait>(&mut self, rt: &R, left: &mut Vec<T>)
        requires whole { (own_account self.old).parts ≡ 64 }
        requires room { vec_len left.old + length (own_account self.old).pushed ≤ vec_capacity left.old + length (own_account self.old).taken }
        ensures capacity { vec_capacity left.new ≡ vec_capacity left.old }
        ensures rule { (h : ℕ → ℕ) → sum_by h (map T.number left.new.items) + sum_by h (own_account self.old).taken ≡ sum_by h (map T.number left.old.items) + sum_by h (own_account self.old).pushed }
    {
        for _ in rt.forever() {
            match self.worker.pop_as::<Left>() {
                Some(task) => left.push_reserved(task),
                None => return,
            }
        }
        unreachable!()
    }
}
