//! A hand of the pool: its own deque, and handles on the queue and on all deques.
ghost use Rattle.std.specs.Prelude.{◌≡◌, ◌<◌, ◌≤◌, ◌∷◌, ◌^◌, [], length, map, MatchOption};
ghost use Rattle.std.specs.List.{concat};
ghost use Rattle.crossbeam_deque.specs.Handles.{worker_flavor, worker_view, worker_capacity, worker_index};
ghost use Rattle.chr_pool.specs.Handles.{queue_account, stolen, handle_shape, OneGrew};

use crate::account::{Account, Numbered, Pushed, TakenOnce, Took};
use crate::deque_handle::DequeHandle;
use crate::queue_handle::QueueHandle;
use crossbeam_deque::Worker;
use std::alloc::Global;
use std::sync::Wait;

/// How many pushes a hand or inlet makes at most, and how many takings a hand: 2^58 of each.
pub(crate) const LIMIT: u64 = 1 << 58;

/// One worker's access to the pool. [`make`](crate::make) makes it, and it may be moved to any thread.
///
/// Contracts see the numbers of the tasks that it pushed (`hand_pushed`), and of those that it took, one list for each
/// source (`hand_views`): its own deque, the queue, and then the deque of each hand, by stealing. What no call changes
/// of it is its `hand_id`.
#[derive(Drop)]
pub struct Hand<T: Numbered + Drop> {
    pub(crate) number: usize,
    pub(crate) capacity: u64,
    pub(crate) pushed: u64,
    pub(crate) taken: u64,
    pub(crate) own: Worker<T, Global, Account, TakenOnce>,
    pub(crate) queue_handle: QueueHandle<T>,
    pub(crate) deque_handles: Vec<DequeHandle<T>>,
    ghost fifo: { worker_flavor own ≡ 0 },
    ghost some_part: { 0 < (worker_view own).parts },
    ghost room: { capacity ≤ worker_capacity own },
    ghost index: { worker_index own ≤ pushed },
    ghost queue_only_taken: { (queue_account queue_handle).pushed ≡ [] },
    ghost pushed_counted: { length (worker_view own).pushed ≡ pushed },
    ghost taken_counted: { length (concat ((worker_view own).taken ∷ (queue_account queue_handle).taken ∷ map stolen deque_handles.items)) ≡ taken },
    ghost pushed_limit: { pushed ≤ 2 ^ 58 },
    ghost taken_limit: { taken ≤ 2 ^ 58 },
    ghost capacity_limit: { capacity < 2 ^ 32 },
}

// Steals the first task of the first deque that has one, leaving out one deque.
fn steal_from<T: Numbered + Drop, R: Wait>(
    handles: &mut Vec<DequeHandle<T>>,
    left_out: usize,
    rt: &R,
) -> Option<T>
    ensures same { map handle_shape handles.new.items ≡ map handle_shape handles.old.items }
    ensures rule { MatchOption result (map stolen handles.new.items ≡ map stolen handles.old.items) (λ x. OneGrew (T.number x) (map stolen handles.old.items) (map stolen handles.new.items)) }
{
    for i in 0..handles.len() {
        if i == left_out {
            continue;
        }
        if let Some(task) = handles[i].take(rt) {
            return Some(task);
        }
    }
    None
}

impl<T: Numbered + Drop> Hand<T> {
    ghost use Rattle.std.specs.Prelude.{MatchResult, IfErr, IfSome, ◌++◌};
    ghost use Rattle.chr_pool.specs.Hands.{hand_id, hand_capacity, hand_pushed, hand_fed, hand_views};

    /// Pushes a task at the back of this hand's own deque. It waits for nobody.
    ///
    /// The first `capacity` pushes, as given to [`make`](crate::make), succeed and take no memory. A later one is refused
    /// where memory runs out, or after 2^58 pushes; the task then comes back.
    pub fn push(&mut self, task: T) -> Result<(), T>
        ensures same { hand_id self.new ≡ hand_id self.old }
        ensures pushed { MatchResult result (λ _. hand_pushed self.new ≡ hand_pushed self.old ++ T.number task ∷ []) (λ x. (x ≡ task) × (hand_pushed self.new ≡ hand_pushed self.old)) }
        ensures taken { hand_views self.new ≡ hand_views self.old }
        ensures refused { IfErr result (λ _. hand_capacity self.old ≤ length (hand_pushed self.old)) }
    {
        if self.pushed >= LIMIT {
            return Err(task);
        }
        self.own.push_as::<Pushed>(task)?;
        self.pushed += 1;
        Ok(())
    }

    /// Takes the first task of this hand's own deque, else of the queue, else of the first deque of another hand, by
    /// rising number, that has one. It may wait for a thread that is using the queue or that deque.
    ///
    /// One list of `hand_views` gets the task's number at its end. The answer is `None` where nothing was found, or after
    /// 2^58 takings.
    #[tactic(auto, using(crate::proofs::Rules::takes, crate::proofs::ViewLists::later_grew))]
    pub fn take<R: Wait>(&mut self, rt: &R) -> Option<T>
        ensures same { hand_id self.new ≡ hand_id self.old }
        ensures pushed { hand_pushed self.new ≡ hand_pushed self.old }
        ensures taken { MatchOption result (hand_views self.new ≡ hand_views self.old) (λ x. OneGrew (T.number x) (hand_views self.old) (hand_views self.new)) }
    {
        if self.taken >= LIMIT {
            return None;
        }
        if let Some(task) = self.own.pop_as::<Took>() {
            self.taken += 1;
            return Some(task);
        }
        if let Some(task) = self.queue_handle.take(rt) {
            self.taken += 1;
            return Some(task);
        }
        let task = steal_from(&mut self.deque_handles, self.number, rt)?;
        self.taken += 1;
        Some(task)
    }

    /// Takes the first task of the queue, whatever this hand's own deque has. It may wait for a thread that is using the
    /// queue.
    ///
    /// Of `hand_views` the list of the queue gets the task's number at its end. The answer is `None` where nothing was found,
    /// or after 2^58 takings.
    pub fn take_fed<R: Wait>(&mut self, rt: &R) -> Option<T>
        ensures same { hand_id self.new ≡ hand_id self.old }
        ensures pushed { hand_pushed self.new ≡ hand_pushed self.old }
        ensures taken { MatchOption result (hand_views self.new ≡ hand_views self.old) (λ x. OneGrew (T.number x) (hand_views self.old) (hand_views self.new)) }
        ensures fed { IfSome result (λ x. hand_fed self.new ≡ hand_fed self.old ++ T.number x ∷ []) }
    {
        if self.taken >= LIMIT {
            return None;
        }
        let task = self.queue_handle.take(rt)?;
        self.taken += 1;
        Some(task)
    }
}
