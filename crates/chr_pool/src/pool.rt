//! The end of a pool: what was pushed and taken in all, and the tasks that are left.
ghost use Rattle.std.specs.Prelude.{◌≡◌, ◌+◌, ◌*◌, ◌^◌, ◌≤◌, ◌++◌, length, map, IfOk, IfErr, IsPermutation, vec_len, vec_capacity};
ghost use Rattle.std.specs.List.{sum_by};
ghost use Rattle.chr_pool.specs.Hands.{hand_id};
ghost use Rattle.chr_pool.specs.Inlets.{inlet_id, inlet_queue};
ghost use Rattle.chr_pool.specs.Pools.{OfOneMake, pool_pushed, pool_taken};

use crate::account::Numbered;
use crate::hand::Hand;
use crate::inlet::Inlet;
use crate::queue_handle::QueueHandle;
use crate::settling::{settle, take_apart};
use std::alloc::Global;
use std::sync::Wait;

/// What [`gather`] answers: how many tasks were pushed and taken in all, and the tasks that are left.
#[derive(Drop)]
pub struct Tally<T> {
    pub pushed: u64,
    pub taken: u64,
    pub left: Vec<T>,
}

// How many tasks the hands pushed and took.
fn count_hands<T: Numbered + Drop>(hands: &Vec<Hand<T>>) -> (u64, u64)
    requires { length hands.now.items ≤ 16 }
    ensures pushed { result.0 ≡ sum_by (λ h. h.pushed) hands.now.items }
    ensures taken { result.1 ≡ sum_by (λ h. h.taken) hands.now.items }
    ensures few { result.0 ≤ 16 * 2 ^ 58 }
{
    let mut pushed = 0;
    let mut taken = 0;
    for hand in hands {
        pushed += hand.pushed;
        taken += hand.taken;
    }
    (pushed, taken)
}

// How many tasks the inlets pushed.
fn count_inlets<T: Numbered + Drop>(inlets: &Vec<Inlet<T>>) -> u64
    requires { length inlets.now.items ≤ 16 }
    ensures pushed { result ≡ sum_by (λ i. i.pushed) inlets.now.items }
    ensures few { result ≤ 16 * 2 ^ 58 }
{
    let mut pushed = 0;
    for inlet in inlets {
        pushed += inlet.pushed;
    }
    pushed
}

// Adds the inlets' handles on the queue to those of the hands.
fn add_queue_handles<T: Numbered + Drop>(
    inlets: Vec<Inlet<T>>,
    queue_handles: &mut Vec<QueueHandle<T>>,
)
    requires { length queue_handles.old.items + length inlets.items ≤ vec_capacity queue_handles.old }
    ensures { queue_handles.new.items ≡ queue_handles.old.items ++ map inlet_queue inlets.items }
{
    for inlet in inlets {
        let Inlet {
            pushed: _,
            queue_handle,
        } = inlet;
        queue_handles.push_reserved(queue_handle);
    }
}

/// Ends a pool: counts what was pushed and taken, and takes the tasks that are left in the deques and the queue.
///
/// It is called with all hands and inlets of one [`make`](crate::make). The numbers of the tasks taken and left are those
/// of the tasks pushed, as multisets. Where memory runs out, which is found out before anything is taken, hands and inlets
/// come back as they were. It may wait for the queue.
pub fn gather<T: Numbered + Drop, R: Wait>(
    rt: &R,
    alloc: Global,
    hands: Vec<Hand<T>>,
    inlets: Vec<Inlet<T>>,
) -> Result<Tally<T>, (Vec<Hand<T>>, Vec<Inlet<T>>)>
    requires { OfOneMake (map hand_id hands.items) (map inlet_id inlets.items) }
    ensures refused { IfErr result (λ r. (r.0 ≡ hands) × (r.1 ≡ inlets)) }
    ensures account { IfOk result (λ t. IsPermutation (pool_pushed hands.items inlets.items) (pool_taken hands.items ++ map T.number t.left.items)) }
    ensures counts { IfOk result (λ t. (t.pushed ≡ length (pool_pushed hands.items inlets.items)) × (t.taken ≡ length (pool_taken hands.items)) × (t.taken + vec_len t.left ≡ t.pushed)) }
{
    let (from_hands, taken) = count_hands(&hands);
    let pushed = from_hands + count_inlets(&inlets);
    let Ok(mut owns) = Vec::with_capacity(alloc, hands.len()) else {
        return Err((hands, inlets));
    };
    let Ok(mut rows) = Vec::with_capacity(alloc, hands.len()) else {
        return Err((hands, inlets));
    };
    let Ok(mut queue_handles) = Vec::with_capacity(alloc, hands.len() + inlets.len()) else {
        return Err((hands, inlets));
    };
    let Ok(left) = Vec::with_capacity(alloc, pushed.saturating_sub(taken) as usize) else {
        return Err((hands, inlets));
    };
    take_apart(hands, &mut owns, &mut rows, &mut queue_handles);
    add_queue_handles(inlets, &mut queue_handles);
    let left = settle(rt, owns, rows, queue_handles, left);
    Ok(Tally {
        pushed,
        taken,
        left,
    })
}
