//! Calls and their answers in one thread.
//!
//! A call that is refused memory has to leave all as it was, and is made once more. So each test passes where any one of
//! its requests is refused, as `rt try --test --fail-alloc N` does with the Nth request of each test. A plain run refuses
//! none. No allocator of a test can refuse one, since a pool takes its memory from `Global`.
ghost use Rattle.std.specs.Prelude.{◌≡◌, map, IfOk};
ghost use Rattle.chr_pool.specs.Hands.{hand_id};
ghost use Rattle.chr_pool.specs.Inlets.{inlet_id};
ghost use Rattle.chr_pool.specs.Pools.{OfOneMake};

use chr_pool::{Hand, Inlet, Tally, gather, make};
use std::alloc::{AllocError, Global};
use std::sync::Wait;
use std::test::*;

/// A call, and for `Take` what it answers. Hands and inlets are numbered from 0 on.
#[derive(Clone, Copy)]
enum Call {
    Push { hand: usize, task: u64 },
    Feed { inlet: usize, task: u64 },
    Take { hand: usize, task: Option<u64> },
}

// The call of a text: `push HAND TASK`, `feed INLET TASK`, or `take HAND` with the task that it answers, where there is one.
fn call_of(text: &str) -> Option<Call> {
    let (name, rest) = text.split_once(' ')?;
    let (place, task) = match rest.split_once(' ') {
        None => (rest.parse().ok()?, None),
        Some((place, task)) => (place.parse().ok()?, Some(task.parse().ok()?)),
    };
    match (name, task) {
        ("push", Some(task)) => Some(Call::Push { hand: place, task }),
        ("feed", Some(task)) => Some(Call::Feed { inlet: place, task }),
        ("take", task) => Some(Call::Take { hand: place, task }),
        _ => None,
    }
}

// Pushes a task, once more where it comes back.
fn push(hand: &mut Hand<u64>, task: u64) -> bool
    ensures { hand_id hand.new ≡ hand_id hand.old }
{
    match hand.push(task) {
        Ok(()) => true,
        Err(back) => back == task && hand.push(back).is_ok(),
    }
}

// The same by an inlet.
fn feed<R: Wait>(rt: &R, inlet: &mut Inlet<u64>, task: u64) -> bool
    ensures { inlet_id inlet.new ≡ inlet_id inlet.old }
{
    match inlet.push(rt, task) {
        Ok(()) => true,
        Err(back) => back == task && inlet.push(rt, back).is_ok(),
    }
}

// Makes a call, and says whether it answers as it is to.
fn answers<R: Wait>(
    rt: &R,
    hands: &mut Vec<Hand<u64>>,
    inlets: &mut Vec<Inlet<u64>>,
    call: Call,
) -> bool
    ensures hands { map hand_id hands.new.items ≡ map hand_id hands.old.items }
    ensures inlets { map inlet_id inlets.new.items ≡ map inlet_id inlets.old.items }
{
    match call {
        Call::Push { hand, task } => hand < hands.len() && push(&mut hands[hand], task),
        Call::Feed { inlet, task } => inlet < inlets.len() && feed(rt, &mut inlets[inlet], task),
        Call::Take { hand, task } => hand < hands.len() && hands[hand].take(rt) == task,
    }
}

// Makes the calls of texts, and says whether each answers as it is to.
fn all_answer<R: Wait>(
    rt: &R,
    hands: &mut Vec<Hand<u64>>,
    inlets: &mut Vec<Inlet<u64>>,
    calls: &[&str],
) -> bool
    ensures hands { map hand_id hands.new.items ≡ map hand_id hands.old.items }
    ensures inlets { map inlet_id inlets.new.items ≡ map inlet_id inlets.old.items }
{
    for text in calls {
        let Some(call) = call_of(text) else {
            return false;
        };
        if !answers(rt, hands, inlets, call) {
            return false;
        }
    }
    true
}

// A pool of three hands, with room for four tasks each, and an inlet.
fn pool(alloc: Global) -> Result<(Vec<Hand<u64>>, Vec<Inlet<u64>>), AllocError>
    ensures { IfOk result (λ r. OfOneMake (map hand_id r.0.items) (map inlet_id r.1.items)) }
{
    match make::<u64>(alloc, 3, 1, 4) {
        Ok(made) => Ok(made),
        Err(_) => make::<u64>(alloc, 3, 1, 4),
    }
}

// Ends a pool, by a second call where the first is refused.
fn end<R: Wait>(
    rt: &R,
    alloc: Global,
    hands: Vec<Hand<u64>>,
    inlets: Vec<Inlet<u64>>,
) -> Result<Tally<u64>, AllocError>
    requires { OfOneMake (map hand_id hands.items) (map inlet_id inlets.items) }
{
    match gather(rt, alloc, hands, inlets) {
        Ok(tally) => Ok(tally),
        Err((hands, inlets)) => match gather(rt, alloc, hands, inlets) {
            Ok(tally) => Ok(tally),
            Err(_) => Err(AllocError),
        },
    }
}

// Whether a pool of three hands and an inlet answers these calls, and what `gather` then counts and leaves.
fn holds<R: Wait>(
    rt: &R,
    alloc: Global,
    calls: &[&str],
    counts: (u64, u64),
    left: &[u64],
) -> Result<bool, AllocError> {
    let (mut hands, mut inlets) = pool(alloc)?;
    if !all_answer(rt, &mut hands, &mut inlets, calls) {
        return Ok(false);
    }
    let tally = end(rt, alloc, hands, inlets)?;
    Ok((tally.pushed, tally.taken) == counts && tally.left.as_slice() == left)
}

#[test]
fn the_oldest_task_is_stolen(rt: HostRuntime) -> Result<(), Fail> {
    let calls = ["push 0 5", "push 0 6", "push 0 7", "take 1 5", "take 0 6"];
    assert!(rt; holds(&rt, rt.alloc(), &calls, (3, 2), &[7])?);
    Ok(())
}

#[test]
fn the_queue_comes_before_the_deques_of_others(rt: HostRuntime) -> Result<(), Fail> {
    let calls = ["feed 0 9", "push 1 5", "take 0 9", "take 0 5", "take 0"];
    assert!(rt; holds(&rt, rt.alloc(), &calls, (2, 2), &[])?);
    Ok(())
}

#[test]
fn the_hands_own_deque_comes_before_the_queue(rt: HostRuntime) -> Result<(), Fail> {
    let calls = ["feed 0 9", "push 0 5", "take 0 5", "take 0 9"];
    assert!(rt; holds(&rt, rt.alloc(), &calls, (2, 2), &[])?);
    Ok(())
}

#[test]
fn the_deques_of_others_come_by_rising_number(rt: HostRuntime) -> Result<(), Fail> {
    let calls = [
        "push 2 7", "push 0 5", "push 0 6", "take 1 5", "take 1 6", "take 1 7",
    ];
    assert!(rt; holds(&rt, rt.alloc(), &calls, (3, 3), &[])?);
    Ok(())
}

#[test]
fn a_deque_grows(rt: HostRuntime) -> Result<(), Fail> {
    let calls = [
        "push 0 1", "push 0 2", "push 0 3", "push 0 4", "push 0 5", "push 0 6", "take 1 1",
    ];
    assert!(rt; holds(&rt, rt.alloc(), &calls, (6, 1), &[2, 3, 4, 5, 6])?);
    Ok(())
}

#[test]
fn the_queue_grows(rt: HostRuntime) -> Result<(), Fail> {
    // A block of the queue has 31 tasks.
    let calls = ["feed 0 9"; 40];
    assert!(rt; holds(&rt, rt.alloc(), &calls, (40, 0), &[9; 40])?);
    Ok(())
}
