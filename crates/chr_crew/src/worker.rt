//! Workers: a hand and a seat each.
ghost use Rattle.std.specs.Prelude.{◌≡◌, ◌≤◌, ◌<◌, ◌+◌, ◌++◌, ℕ, map, length, get_or, vec_len, vec_capacity, IsTrue};
ghost use Rattle.chr_pool.specs.Hands.{hand_id};
ghost use Rattle.chr_crew.specs.Pools.{HasPushedOn};

use crate::gate::{Gate, Stop};
use crate::work::work;
use chr_pool::Hand;
use chr_seats::{PostLedger, Seat, WORKER_SEATS};
use chr_shared::Shared;
use std::alloc::{Allocator, Global};
use std::sync::Wait;
use std::sync::ledger::Ledger;
use std::thread;
use std::thread::Threads;

/// What a worker works by: a hand of the pool, and a seat.
#[derive(Drop)]
pub struct Worker<L1: PostLedger, L2: Ledger> {
    pub hand: Hand<u64>,
    pub seat: Seat<L1, L2>,
    /// Whether it has worked.
    pub has_worked: bool,
}

impl<L1: PostLedger, L2: Ledger> Worker<L1, L2> {
    /// Works by its hand and its seat, as [`work`] says.
    pub fn work<A: Allocator + Copy, R: Wait, G: Gate>(
        &mut self,
        rt: &R,
        shared: &Shared<L1, L2, A>,
        gate: &G,
        stop: Stop,
    )
        ensures hand { hand_id self.new.hand ≡ hand_id self.old.hand }
        ensures pushed { HasPushedOn self.old.hand self.new.hand }
        ensures number { self.new.seat.number ≡ self.old.seat.number }
        ensures posts { self.new.seat.counts.posts ≡ self.old.seat.counts.posts }
        ensures worked { IsTrue self.new.has_worked }
    {
        let Worker {
            hand,
            seat,
            has_worked,
        } = self;
        work(rt, shared, hand, seat, gate, stop);
        *has_worked = true;
    }
}

/// Gives each hand a seat, in order.
pub fn join_all<L1: PostLedger, L2: Ledger, A: Allocator>(
    hands: &mut Vec<Hand<u64>>,
    seats: &mut Vec<Seat<L1, L2>, A>,
    workers: &mut Vec<Worker<L1, L2>, A>,
)
    requires enough { vec_len hands.old ≤ vec_len seats.old }
    requires empty { vec_len workers.old ≡ 0 }
    requires room { vec_len hands.old ≤ vec_capacity workers.old }
    ensures hands { map (λ w. w.hand) workers.new.items ≡ hands.old.items }
    ensures count { length workers.new.items ≡ length hands.old.items }
    ensures seats { map (λ w. w.seat) workers.new.items ++ seats.new.items ≡ seats.old.items }
    ensures none { vec_len hands.new ≡ 0 }
    ensures seats_back { vec_capacity seats.new ≡ vec_capacity seats.old }
    ensures hands_back { vec_len hands.old ≤ vec_capacity hands.new }
{
    while !hands.is_empty() {
        let hand = hands.remove(0);
        let seat = seats.remove(0);
        workers.push_reserved(Worker {
            hand,
            seat,
            has_worked: false,
        });
    }
}

/// Takes the hands and the seats back from workers that have worked, in order.
pub fn part_all<L1: PostLedger, L2: Ledger, A: Allocator>(
    workers: &mut Vec<Worker<L1, L2>, A>,
    seats: &mut Vec<Seat<L1, L2>, A>,
    hands: &mut Vec<Hand<u64>>,
)
    requires empty { vec_len hands.old ≡ 0 }
    requires room { vec_len workers.old ≤ vec_capacity hands.old }
    requires back { vec_len seats.old + vec_len workers.old ≤ vec_capacity seats.old }
    requires worked { (k : ℕ) (d : _) → k < length workers.old.items → IsTrue (get_or workers.old.items k d).has_worked }
    ensures hands { hands.new.items ≡ map (λ w. w.hand) workers.old.items }
    ensures seats { seats.new.items ≡ seats.old.items ++ map (λ w. w.seat) workers.old.items }
{
    while !workers.is_empty() {
        let Worker {
            hand,
            seat,
            has_worked: _,
        } = workers.remove(0);
        hands.push_reserved(hand);
        seats.push_reserved(seat);
    }
}

/// Has all workers work at once, each in a thread of its own, as long as they are no more than the sixteen that one book has
/// seats for. Where no thread can be made, they work in turn.
pub fn work_all<
    L1: PostLedger + Send + Sync,
    L2: Ledger + Send + Sync,
    A: Allocator + Copy + Send + Sync,
    R: Threads + Wait + Sync,
    G: Gate + Sync,
>(rt: &R, shared: &Shared<L1, L2, A>, workers: &mut [Worker<L1, L2>], gate: &G, stop: Stop)
    ensures hands { (k : ℕ) (d : _) → k < length workers.old → hand_id (get_or workers.new k d).hand ≡ hand_id (get_or workers.old k d).hand }
    ensures pushed { (k : ℕ) (d : _) → k < length workers.old → HasPushedOn (get_or workers.old k d).hand (get_or workers.new k d).hand }
    ensures numbers { (k : ℕ) (d : _) → k < length workers.old → (get_or workers.new k d).seat.number ≡ (get_or workers.old k d).seat.number }
    ensures worked { (k : ℕ) (d : _) → k < length workers.old → IsTrue (get_or workers.new k d).has_worked }
{
    thread::for_each_mut(
        rt,
        workers,
        WORKER_SEATS,
        &|_, worker| worker.work(rt, shared, gate, stop),
    );
}
