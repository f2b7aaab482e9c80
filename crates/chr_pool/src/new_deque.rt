//! A deque that no hand has yet.
ghost use Rattle.std.specs.Prelude.{◌≡◌, ◌≤◌, ◌<◌, ◌^◌, []};
ghost use Rattle.crossbeam_deque.specs.Handles.{worker_flavor, worker_view, worker_capacity, worker_index};

use crate::account::{Account, Cut, Numbered, TakenOnce};
use crate::deque_handle::DequeHandle;
use crossbeam_deque::Worker;
use std::alloc::{AllocError, Global};

/// A deque that no hand has yet, with how many parts of its account it has kept.
#[derive(Drop)]
pub struct NewDeque<T: Numbered + Drop> {
    pub(crate) capacity: u64,
    pub(crate) parts: u64,
    pub(crate) worker: Worker<T, Global, Account, TakenOnce>,
    ghost fifo: { worker_flavor worker ≡ 0 },
    ghost parts_kept: { (worker_view worker).parts ≡ parts },
    ghost some_part: { 0 < parts },
    ghost nothing_pushed: { (worker_view worker).pushed ≡ [] },
    ghost nothing_taken: { (worker_view worker).taken ≡ [] },
    ghost index: { worker_index worker ≡ 0 },
    ghost room: { capacity ≤ worker_capacity worker },
    ghost capacity_limit: { capacity < 2 ^ 32 },
}

impl<T: Numbered + Drop> NewDeque<T> {
    ghost use Rattle.std.specs.Prelude.{◌+◌, IfOk, OnOk};
    ghost use Rattle.chr_pool.specs.Handles.{handle_deque, handle_account};
    ghost use Rattle.chr_pool.specs.NewDeques.{new_deque};

    /// A deque with room for the first `capacity` tasks.
    pub(crate) fn new(alloc: Global, capacity: u64) -> Result<NewDeque<T>, AllocError>
        requires { capacity < 2 ^ 32 }
        ensures { IfOk result (λ f. (f.parts ≡ 64) × (f.capacity ≡ capacity)) }
    {
        let worker = Worker::fifo_as(alloc, capacity as usize)?;
        Ok(NewDeque {
            capacity,
            parts: 64,
            worker,
        })
    }

    /// A handle on it for a hand, which gets one part of its account.
    #[tactic(auto, using(crate::proofs::Rules::forks))]
    pub(crate) fn split(&mut self) -> Result<DequeHandle<T>, AllocError>
        requires { 1 < self.old.parts }
        ensures same { (new_deque self.new ≡ new_deque self.old) × (self.new.capacity ≡ self.old.capacity) }
        ensures parts { OnOk result (self.new.parts + 1 ≡ self.old.parts) }
        ensures handle { IfOk result (λ w. (handle_deque w ≡ new_deque self.old) × ((handle_account w).parts ≡ 1) × ((handle_account w).pushed ≡ []) × ((handle_account w).taken ≡ [])) }
    {
        let stealer = self.worker.stealer()?;
        let pass = self.worker.another::<Cut>();
        self.parts -= 1;
        Ok(DequeHandle { stealer, pass })
    }
}
