//! Adding up the accounts of a pool, deque by deque, and taking what is left.
ghost use Rattle.std.specs.Prelude.{◌≡◌, ◌+◌, ◌≤◌, ◌<◌, ◌*◌, ◌-◌, ℕ, List, [], ◌∷◌, ◌++◌, length, map, All, vec_len, vec_capacity, IfOk, IfErr, MatchResult};
ghost use Rattle.std.specs.List.{sum_by};
ghost use Rattle.std.specs.declared.alloc.Global.{Global};
ghost use Rattle.crossbeam_queue.specs.SegTies.{SegId};
ghost use Rattle.chr_pool.specs.Accounts.{absorbed, all_absorbed, joined, all_added, parts_of};
ghost use Rattle.chr_pool.specs.Handles.{handle_account, handle_deque, queue_account, queue_shape, taken_of, pushed_of};
ghost use Rattle.chr_pool.specs.OwnDeques.{own_account, own_deque, accounts};
ghost use Rattle.chr_pool.specs.Hands.{hand_account, hand_deque, hand_handles, hand_queue, row_accounts, row_deques, row_parts};

use crate::account::Numbered;
use crate::deque_handle::DequeHandle;
use crate::hand::Hand;
use crate::own_deque::OwnDeque;
use crate::queue_handle::QueueHandle;
use std::sync::Wait;

// Adds the accounts of one hand's handles to those of the deques, each to that of its deque.
fn absorb_row<T: Numbered + Drop>(owns: &mut Vec<OwnDeque<T>>, row: Vec<DequeHandle<T>>)
    requires { map handle_deque row.items ≡ map own_deque owns.old.items }
    ensures same { map own_deque owns.new.items ≡ map own_deque owns.old.items }
    ensures rule { map own_account owns.new.items ≡ absorbed (map own_account owns.old.items) (map handle_account row.items) }
{
    let mut i = 0;
    for deque_handle in row {
        owns[i].absorb(deque_handle);
        i += 1;
    }
}

// The same for all hands.
#[tactic(auto, using(std::proofs::lemmas::List::nil_from_length))]
fn absorb_rows<T: Numbered + Drop>(owns: &mut Vec<OwnDeque<T>>, rows: Vec<Vec<DequeHandle<T>>>)
    requires { All (λ r. row_deques r ≡ map own_deque owns.old.items) rows.items }
    ensures same { map own_deque owns.new.items ≡ map own_deque owns.old.items }
    ensures rule { map own_account owns.new.items ≡ all_absorbed (map own_account owns.old.items) (map row_accounts rows.items) }
{
    for row in rows {
        absorb_row(owns, row);
    }
}

// Adds the accounts of all handles on the queue to one of them.
#[tactic(auto, using(std::proofs::lemmas::List::nil_from_length))]
fn absorb_queue_handles<T: Numbered + Drop>(
    first: &mut QueueHandle<T>,
    queue_handles: Vec<QueueHandle<T>>,
)
    requires { All (λ l. (queue_shape l).0 ≡ (queue_shape first.old).0) queue_handles.items }
    ensures { queue_account first.new ≡ joined (queue_account first.old) (map queue_account queue_handles.items) }
{
    for queue_handle in queue_handles {
        first.absorb(queue_handle);
    }
}

// Shows of each deque that no more was taken than was pushed.
fn look_all<T: Numbered + Drop>(owns: &mut Vec<OwnDeque<T>>)
    requires { All (λ v. v.parts ≡ 64) (map own_account owns.old.items) }
    ensures same { map own_account owns.new.items ≡ map own_account owns.old.items }
    ensures rule { All (λ v. length v.taken ≤ length v.pushed) (map own_account owns.old.items) }
{
    for i in 0..owns.len() {
        owns[i].look();
    }
}

// Takes all tasks that are left in the deques.
#[tactic(auto, using(std::proofs::lemmas::List::nil_from_length))]
fn drain_all<T: Numbered + Drop, R: Wait>(rt: &R, owns: Vec<OwnDeque<T>>, left: &mut Vec<T>)
    requires whole { All (λ v. v.parts ≡ 64) (map own_account owns.items) }
    requires few { All (λ v. length v.taken ≤ length v.pushed) (map own_account owns.items) }
    requires room { vec_len left.old + length (pushed_of (map own_account owns.items)) ≤ vec_capacity left.old + length (taken_of (map own_account owns.items)) }
    ensures { (h : ℕ → ℕ) → sum_by h (map T.number left.new.items) + sum_by h (taken_of (map own_account owns.items)) ≡ sum_by h (map T.number left.old.items) + sum_by h (pushed_of (map own_account owns.items)) }
{
    for own in owns {
        let mut own = own;
        own.drain(rt, left);
    }
}

// Takes hands apart into their deques, their rows of handles on all deques, and their handles on the queue.
pub(crate) fn take_apart<T: Numbered + Drop>(
    hands: Vec<Hand<T>>,
    owns: &mut Vec<OwnDeque<T>>,
    rows: &mut Vec<Vec<DequeHandle<T>>>,
    queue_handles: &mut Vec<QueueHandle<T>>,
)
    requires owns { (owns.old.items ≡ []) × (length hands.items ≤ vec_capacity owns.old) }
    requires rows { (rows.old.items ≡ []) × (length hands.items ≤ vec_capacity rows.old) }
    requires queue_handles { (queue_handles.old.items ≡ []) × (length hands.items ≤ vec_capacity queue_handles.old) }
    ensures accounts { map own_account owns.new.items ≡ map hand_account hands.items }
    ensures deques { map own_deque owns.new.items ≡ map hand_deque hands.items }
    ensures rows { rows.new.items ≡ map hand_handles hands.items }
    ensures queue_handles { (queue_handles.new.items ≡ map hand_queue hands.items) × (vec_capacity queue_handles.new ≡ vec_capacity queue_handles.old) }
{
    for hand in hands {
        let Hand {
            number: _,
            capacity: _,
            pushed: _,
            taken: _,
            own,
            queue_handle,
            deque_handles,
        } = hand;
        owns.push_reserved(OwnDeque { worker: own });
        rows.push_reserved(deque_handles);
        queue_handles.push_reserved(queue_handle);
    }
}

// Adds up all accounts, deque by deque and for the queue, and takes all tasks that are left.
pub(crate) fn settle<T: Numbered + Drop, R: Wait>(
    rt: &R,
    owns: Vec<OwnDeque<T>>,
    rows: Vec<Vec<DequeHandle<T>>>,
    queue_handles: Vec<QueueHandle<T>>,
    left: Vec<T>,
) -> Vec<T>
    requires rows { All (λ r. row_deques r ≡ map own_deque owns.items) rows.items }
    requires parts { All (λ p. p ≡ 64) (all_added (parts_of (map own_account owns.items)) (map row_parts rows.items)) }
    requires queue_handles { 0 < length queue_handles.items }
    requires queue { (q : SegId Global) × All (λ l. (queue_shape l).0 ≡ q) queue_handles.items }
    requires queue_parts { sum_by (λ l. (queue_account l).parts) queue_handles.items ≡ 64 }
    requires empty { left.items ≡ [] }
    requires room { length (pushed_of (accounts owns rows queue_handles)) ≤ vec_capacity left + length (taken_of (accounts owns rows queue_handles)) }
    ensures { (h : ℕ → ℕ) → sum_by h (map T.number result.items) + sum_by h (taken_of (accounts owns rows queue_handles)) ≡ sum_by h (pushed_of (accounts owns rows queue_handles)) }
{
    let mut owns = owns;
    let mut queue_handles = queue_handles;
    let mut left = left;
    absorb_rows(&mut owns, rows);
    let Some(mut queue_handle) = queue_handles.pop() else {
        unreachable!();
    };
    absorb_queue_handles(&mut queue_handle, queue_handles);
    look_all(&mut owns);
    queue_handle.drain(rt, &mut left);
    drain_all(rt, owns, &mut left);
    left
}
