//! An inlet of the pool, which feeds the queue.
ghost use Rattle.std.specs.Prelude.{◌≡◌, ◌≤◌, ◌^◌, [], length};
ghost use Rattle.chr_pool.specs.Handles.{queue_account};

use crate::account::Numbered;
use crate::hand::LIMIT;
use crate::queue_handle::QueueHandle;
use std::sync::Wait;

/// Feeds the pool's queue. [`make`](crate::make) makes it, and it may be moved to any thread.
///
/// Contracts see the numbers of the tasks that it pushed (`inlet_pushed`). What no call changes of it is its `inlet_id`.
#[derive(Drop)]
pub struct Inlet<T: Numbered + Drop> {
    pub(crate) pushed: u64,
    pub(crate) queue_handle: QueueHandle<T>,
    ghost queue_only_pushed: { (queue_account queue_handle).taken ≡ [] },
    ghost pushed_counted: { length (queue_account queue_handle).pushed ≡ pushed },
    ghost pushed_limit: { pushed ≤ 2 ^ 58 },
}

impl<T: Numbered + Drop> Inlet<T> {
    ghost use Rattle.std.specs.Prelude.{MatchResult, ◌++◌, ◌∷◌};
    ghost use Rattle.chr_pool.specs.Inlets.{inlet_id, inlet_pushed};

    /// Pushes a task at the back of the queue. It may wait for a thread that is using the queue.
    ///
    /// It is refused where memory runs out, or after 2^58 pushes; the task then comes back.
    pub fn push<R: Wait>(&mut self, rt: &R, task: T) -> Result<(), T>
        ensures same { inlet_id self.new ≡ inlet_id self.old }
        ensures pushed { MatchResult result (λ _. inlet_pushed self.new ≡ inlet_pushed self.old ++ T.number task ∷ []) (λ x. (x ≡ task) × (inlet_pushed self.new ≡ inlet_pushed self.old)) }
    {
        if self.pushed >= LIMIT {
            return Err(task);
        }
        self.queue_handle.push(rt, task)?;
        self.pushed += 1;
        Ok(())
    }
}
