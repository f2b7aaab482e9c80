ghost use Rattle.std.specs.Prelude.{◌≡◌, ◌<◌, ◌≤◌, map, IfOk};
ghost use Rattle.chr_pool.specs.Hands.{hand_id};
ghost use Rattle.chr_pool.specs.Inlets.{inlet_id};

use chr_pool::{Hand, Inlet, gather, make};
use std::alloc::{AllocError, Global};
use std::sync::Wait;
use std::sync::atomic::{AtomicU64, Ordering};
use std::test::*;
use std::thread;
use std::thread::Threads;

/// How many tasks each hand pushes.
const EACH: u64 = 6_000;

/// How many tasks the inlet pushes, so that 16 hands and the inlet push 100,000.
const FED: u64 = 4_000;

// Counts a task.
fn count(seen: &[AtomicU64], task: u64) {
    if let Some(times) = seen.get(task as usize) {
        times.fetch_add(1, Ordering::SeqCst);
    }
}

// Pushes the tasks from `first` on.
fn push_tasks(hand: &mut Hand<u64>, first: u64)
    ensures { hand_id hand.new ≡ hand_id hand.old }
{
    for k in 0..EACH {
        let _ = hand.push(first.wrapping_add(k));
    }
}

// Takes tasks until there are none, and counts them.
fn take_all<R: Wait>(rt: &R, hand: &mut Hand<u64>, seen: &[AtomicU64])
    ensures { hand_id hand.new ≡ hand_id hand.old }
{
    for _ in rt.forever() {
        match hand.take(rt) {
            Some(task) => count(seen, task),
            None => return,
        }
    }
    unreachable!()
}

// What a hand does in its thread.
fn work<R: Wait>(rt: &R, hand: Hand<u64>, first: u64, seen: &[AtomicU64]) -> Hand<u64>
    ensures { hand_id result ≡ hand_id hand }
{
    let mut hand = hand;
    push_tasks(&mut hand, first);
    take_all(rt, &mut hand, seen);
    hand
}

// All hands work, each in a thread of its own. Each draws the number of its first task.
fn work_all<R: Threads + Wait + Sync>(
    rt: &R,
    hands: Vec<Hand<u64>>,
    seen: &[AtomicU64],
) -> Result<Vec<Hand<u64>>, AllocError>
    ensures { IfOk result (λ v. map hand_id v.items ≡ map hand_id hands.items) }
{
    let next = AtomicU64::new(0);
    let back = thread::map_vec(
        rt,
        hands,
        &|hand: Hand<u64>| -> Hand<u64>
            ensures { hand_id result ≡ hand_id hand }
        { work(rt, hand, next.fetch_add(EACH, Ordering::SeqCst), seen) },
    )?;
    Ok(back)
}

// Feeds the tasks from `first` on to the first inlet.
fn feed<R: Wait>(rt: &R, inlets: Vec<Inlet<u64>>, first: u64) -> Vec<Inlet<u64>>
    ensures { map inlet_id result.items ≡ map inlet_id inlets.items }
{
    let mut inlets = inlets;
    for k in 0..FED {
        if !inlets.is_empty() {
            let _ = inlets[0].push(rt, first.wrapping_add(k));
        }
    }
    inlets
}

// A counter for each task.
fn counters(alloc: Global, tasks: u64) -> Result<Vec<AtomicU64>, AllocError> {
    let mut seen = Vec::new(alloc);
    for _ in 0..tasks {
        seen.push(AtomicU64::new(0))?;
    }
    Ok(seen)
}

// Whether so many hands and an inlet, at work in threads at once, take each task once or leave it to `gather` once.
fn each_once<R: Threads + Wait + Sync>(
    rt: &R,
    alloc: Global,
    count_of_hands: usize,
) -> Result<bool, AllocError>
    requires { (0 < count_of_hands) × (count_of_hands ≤ 16) }
{
    let (hands, inlets) = make::<u64>(alloc, count_of_hands, 1, EACH)?;
    let first = count_of_hands as u64 * EACH;
    let seen = counters(alloc, first + FED)?;
    let tasks = seen.as_slice();
    let (inlets, hands) = thread::join(
        rt,
        move || -> Vec<Inlet<u64>>
            ensures { map inlet_id result.items ≡ map inlet_id inlets.items }
        { feed(rt, inlets, first) },
        move || -> Result<Vec<Hand<u64>>, AllocError>
            ensures { IfOk result (λ v. map hand_id v.items ≡ map hand_id hands.items) }
        { work_all(rt, hands, tasks) },
    );
    let Ok(tally) = gather(rt, alloc, hands?, inlets) else {
        return Err(AllocError);
    };
    for task in &tally.left {
        count(tasks, *task);
    }
    Ok(tally.pushed == first + FED && tasks.iter().all(|times| times.load(Ordering::SeqCst) == 1))
}

#[test]
fn hands_in_threads(rt: HostRuntime) -> Result<(), Fail> {
    for hands in [1, 4, 16] {
        assert!(rt; each_once(&rt, rt.alloc(), hands)?);
    }
    Ok(())
}
