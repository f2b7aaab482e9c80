//! Making a pool.
ghost use Rattle.std.specs.Prelude.{◌≡◌, ◌+◌, ◌≤◌, ◌<◌, ◌^◌, ◌++◌, [], length, map, false, All, IfOk, OnOk};
ghost use Rattle.std.specs.List.{sum_by, flat_map, range_with_len};
ghost use Rattle.chr_pool.specs.Accounts.{account};
ghost use Rattle.chr_pool.specs.Handles.{handle_deque, queue_account, queue_shape};
ghost use Rattle.chr_pool.specs.Hands.{hand_id, hand_deque, hand_number, hand_capacity};
ghost use Rattle.chr_pool.specs.Inlets.{inlet_id, inlet_pushed};
ghost use Rattle.chr_pool.specs.NewDeques.{new_deque, new_capacity, IsNewHandle, IsRow, IsNewHand};
ghost use Rattle.chr_pool.specs.Pools.{OfOneMake, pool_pushed, pool_taken};

use crate::account::Numbered;
use crate::deque_handle::DequeHandle;
use crate::hand::Hand;
use crate::inlet::Inlet;
use crate::new_deque::NewDeque;
use crate::queue_handle::QueueHandle;
use crossbeam_deque::Injector;
use std::alloc::{AllocError, Global};
use std::sync::Arc;

// A handle on each of the deques.
fn split_row<T: Numbered + Drop>(
    alloc: Global,
    deques: &mut Vec<NewDeque<T>>,
    parts: u64,
) -> Result<Vec<DequeHandle<T>>, AllocError>
    requires { (1 < parts) × All (λ d. d.parts ≡ parts) deques.old.items }
    ensures deques { OnOk result (map new_deque deques.new.items ≡ map new_deque deques.old.items) }
    ensures capacities { OnOk result (map new_capacity deques.new.items ≡ map new_capacity deques.old.items) }
    ensures parts { OnOk result (All (λ d. d.parts + 1 ≡ parts) deques.new.items) }
    ensures row { IfOk result (λ r. (map handle_deque r.items ≡ map new_deque deques.old.items) × All IsNewHandle r.items) }
{
    let mut row = Vec::new(alloc);
    for i in 0..deques.len() {
        row.push(deques[i].split()?)?;
    }
    Ok(row)
}

// As many new deques, each with room for `capacity` tasks.
fn new_deques<T: Numbered + Drop>(
    alloc: Global,
    count: usize,
    capacity: u64,
) -> Result<Vec<NewDeque<T>>, AllocError>
    requires { capacity < 2 ^ 32 }
    ensures { IfOk result (λ v. (length v.items ≡ count) × All (λ d. (d.parts ≡ 64) × (d.capacity ≡ capacity)) v.items) }
{
    let mut deques = Vec::new(alloc);
    for _ in 0..count {
        deques.push(NewDeque::new(alloc, capacity)?)?;
    }
    Ok(deques)
}

// For each of the deques a row of handles on all of them.
fn all_rows<T: Numbered + Drop>(
    alloc: Global,
    deques: &mut Vec<NewDeque<T>>,
) -> Result<Vec<Vec<DequeHandle<T>>>, AllocError>
    requires { (length deques.old.items ≤ 16) × All (λ d. d.parts ≡ 64) deques.old.items }
    ensures deques { OnOk result (map new_deque deques.new.items ≡ map new_deque deques.old.items) }
    ensures capacities { OnOk result (map new_capacity deques.new.items ≡ map new_capacity deques.old.items) }
    ensures parts { OnOk result (All (λ d. d.parts + length deques.old.items ≡ 64) deques.new.items) }
    ensures rows { IfOk result (λ v. (length v.items ≡ length deques.old.items) × All (IsRow (map new_deque deques.old.items)) v.items) }
{
    let mut rows = Vec::new(alloc);
    let mut parts = 64;
    for _ in 0..deques.len() {
        let row = split_row(alloc, deques, parts)?;
        parts -= 1;
        rows.push(row)?;
    }
    Ok(rows)
}

// A hand for each of the deques, with a row of handles on all of them and a handle on the queue, split off from `first`.
fn all_hands<T: Numbered + Drop>(
    alloc: Global,
    deques: Vec<NewDeque<T>>,
    rows: Vec<Vec<DequeHandle<T>>>,
    first: &mut QueueHandle<T>,
) -> Result<Vec<Hand<T>>, AllocError>
    requires count { (length rows.items ≡ length deques.items) × (length deques.items ≤ 16) }
    requires parts { All (λ d. d.parts + length deques.items ≡ 64) deques.items }
    requires rows { All (IsRow (map new_deque deques.items)) rows.items }
    requires first { queue_account first.old ≡ account 64 false [] [] }
    ensures first { OnOk result (((queue_shape first.new).0 ≡ (queue_shape first.old).0) × ((queue_account first.new).parts + length deques.items ≡ 64) × ((queue_account first.new).pushed ≡ []) × ((queue_account first.new).taken ≡ [])) }
    ensures deques { IfOk result (λ v. map hand_deque v.items ≡ map new_deque deques.items) }
    ensures capacities { IfOk result (λ v. map hand_capacity v.items ≡ map new_capacity deques.items) }
    ensures numbers { IfOk result (λ v. map hand_number v.items ≡ range_with_len 0 (length deques.items)) }
    ensures hands { IfOk result (λ v. All (IsNewHand (map new_deque deques.items) (queue_shape first.old).0 (length deques.items)) v.items) }
{
    let mut rows = rows;
    let mut made = Vec::new(alloc);
    let mut number = 0;
    for deque in deques {
        let Some(deque_handles) = rows.pop() else {
            unreachable!();
        };
        let NewDeque {
            capacity,
            parts: _,
            worker,
        } = deque;
        let queue_handle = first.split()?;
        made.push(Hand {
            number,
            capacity,
            pushed: 0,
            taken: 0,
            own: worker,
            queue_handle,
            deque_handles,
        })?;
        number += 1;
    }
    Ok(made)
}

// As many inlets, the last of which has the handle that is given, and the others new handles on the same queue.
fn all_inlets<T: Numbered + Drop>(
    alloc: Global,
    first: QueueHandle<T>,
    count: usize,
) -> Result<Vec<Inlet<T>>, AllocError>
    requires count { (0 < count) × (count ≤ 16) }
    requires first { (16 < (queue_account first).parts) × ((queue_account first).pushed ≡ []) × ((queue_account first).taken ≡ []) }
    ensures count { IfOk result (λ v. length v.items ≡ count) }
    ensures queues { IfOk result (λ v. All (λ q. q.0 ≡ (queue_shape first).0) (map inlet_id v.items)) }
    ensures parts { IfOk result (λ v. sum_by (λ q. q.1) (map inlet_id v.items) ≡ (queue_account first).parts) }
    ensures empty { IfOk result (λ v. flat_map inlet_pushed v.items ≡ []) }
{
    let mut first = first;
    let mut inlets = Vec::new(alloc);
    for _ in 1..count {
        let queue_handle = first.split()?;
        inlets.push(Inlet {
            pushed: 0,
            queue_handle,
        })?;
    }
    inlets.push(Inlet {
        pushed: 0,
        queue_handle: first,
    })?;
    Ok(inlets)
}

/// Makes a pool of 1 to 16 hands and 1 to 16 inlets, in which nothing was pushed yet.
///
/// The hands are numbered from 0 on, and the first `capacity` pushes on each succeed. It fails where memory runs out.
///
/// Contracts see that these are all hands and inlets of one pool (`OfOneMake`). What that says is of their `hand_id` and
/// `inlet_id` alone, which no call changes, so it is still true when they come back to [`gather`](crate::gather).
pub fn make<T: Numbered + Drop>(
    alloc: Global,
    hands: usize,
    inlets: usize,
    capacity: u64,
) -> Result<(Vec<Hand<T>>, Vec<Inlet<T>>), AllocError>
    requires hands { (0 < hands) × (hands ≤ 16) }
    requires inlets { (0 < inlets) × (inlets ≤ 16) }
    requires capacity { capacity < 2 ^ 32 }
    ensures one { IfOk result (λ r. OfOneMake (map hand_id r.0.items) (map inlet_id r.1.items)) }
    ensures sizes { IfOk result (λ r. (length r.0.items ≡ hands) × (length r.1.items ≡ inlets)) }
    ensures numbers { IfOk result (λ r. map hand_number r.0.items ≡ range_with_len 0 hands) }
    ensures capacity { IfOk result (λ r. All (λ n. n ≡ capacity) (map hand_capacity r.0.items)) }
    ensures empty { IfOk result (λ r. pool_pushed r.0.items r.1.items ++ pool_taken r.0.items ≡ []) }
{
    let mut deques = new_deques(alloc, hands, capacity)?;
    let rows = all_rows(alloc, &mut deques)?;
    let (queue, pass) = Injector::new_as(alloc)?;
    let mut first = QueueHandle {
        queue: Arc::new(alloc, queue)?,
        pass,
    };
    let made = all_hands(alloc, deques, rows, &mut first)?;
    let inlets = all_inlets(alloc, first, inlets)?;
    Ok((made, inlets))
}
