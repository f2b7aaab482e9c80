//! Who the threads of a server are.
ghost use Rattle.std.specs.Prelude.{◌≡◌, ◌≤◌, ◌+◌, length, vec_len, vec_capacity};

use chr_pool::{Hand, Inlet};
use chr_seats::{PostLedger, Seat};
use chr_session::Rooms;
use std::alloc::Allocator;
use std::sync::ledger::Ledger;

/// What a thread does.
#[derive(Drop)]
pub enum Part<A: Allocator> {
    /// It works, by this hand.
    Work(Hand<u64>),
    /// It serves sessions, one after another, by this inlet and in this memory.
    Serve(Inlet<u64>, Rooms<A>),
}

/// A seat, and what the thread does that has it.
#[derive(Drop)]
pub struct Member<L1: PostLedger, L2: Ledger, A: Allocator> {
    pub seat: Seat<L1, L2>,
    pub part: Part<A>,
}

/// Gives each hand a seat of the workers, in order, and each inlet a seat of the sessions and the memory of one.
pub fn muster<L1: PostLedger, L2: Ledger, A: Allocator>(
    hands: Vec<Hand<u64>>,
    inlets: Vec<Inlet<u64>>,
    memory: Vec<Rooms<A>, A>,
    workers: &mut Vec<Seat<L1, L2>, A>,
    sessions: Vec<Seat<L1, L2>, A>,
    room: Vec<Member<L1, L2, A>, A>,
) -> Vec<Member<L1, L2, A>, A>
    requires hands { length hands.items ≤ vec_len workers.old }
    requires inlets { vec_len inlets ≡ vec_len sessions }
    requires memory { vec_len memory ≡ vec_len sessions }
    requires empty { vec_len room ≡ 0 }
    requires room { length hands.items + vec_len inlets ≤ vec_capacity room }
    ensures all { vec_len result + vec_len workers.new ≡ vec_len workers.old + vec_len sessions }
    ensures count { vec_len result ≡ length hands.items + vec_len inlets }
{
    let mut members = room;
    for hand in hands {
        let seat = workers.remove(0);
        members.push_reserved(Member {
            seat,
            part: Part::Work(hand),
        });
    }
    let mut inlets = inlets.into_iter();
    let mut memory = memory.into_iter();
    for seat in sessions {
        let Some(inlet) = inlets.next() else {
            unreachable!();
        };
        let Some(rooms) = memory.next() else {
            unreachable!();
        };
        members.push_reserved(Member {
            seat,
            part: Part::Serve(inlet, rooms),
        });
    }
    members
}

/// Takes the seats back from threads that have ended.
pub fn dismiss<L1: PostLedger, L2: Ledger, A: Allocator>(
    members: Vec<Member<L1, L2, A>, A>,
    room: Vec<Seat<L1, L2>, A>,
) -> Vec<Seat<L1, L2>, A>
    requires empty { vec_len room ≡ 0 }
    requires room { vec_len members ≤ vec_capacity room }
    ensures { vec_len result ≡ vec_len members }
{
    let mut seats = room;
    for member in members {
        let Member { seat, part: _ } = member;
        seats.push_reserved(seat);
    }
    seats
}
