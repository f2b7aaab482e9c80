//! Opening the ledgers, and adding their shares up.
ghost use Rattle.std.specs.Prelude.{◌≡◌, ◌≤◌, ◌<◌, ◌+◌, ℕ, List, sum_by, vec_len, vec_capacity};
ghost use Rattle.chr_log.specs.Events.{Entry as PlainEntry};
ghost use Rattle.chr_seats.specs.Accounts.{AreCounts, AreSeats, IsCounted, made_upto};

use crate::counts::Counts;
use crate::seat::{PostLedger, Seat, WORKER_SEATS};
use std::alloc::Allocator;
use std::sync::ledger::{Blank, Book, Ledger, Share};

/// One ledger: its book, and the share that no seat has yet.
#[derive(Drop)]
struct Opened<L: Ledger> {
    book: Book<L>,
    rest: Share<L>,
}

/// Opens a ledger.
fn open<L: Ledger>(blank: Blank) -> Opened<L>
    requires { (blank.name ≡ L.name) × (blank.parts ≡ L.parts) × (blank.parts ≡ 32) }
    ensures total { result.book.total ≡ 0 }
    ensures parts { result.rest.parts ≡ 32 }
    ensures amount { result.rest.amount ≡ 0 }
{
    let (book, rest) = blank.open::<L>();
    Opened { book, rest }
}

/// A part of a ledger with this amount.
fn part_with<L: Ledger>(opened: &mut Opened<L>, amount: u64) -> Share<L>
    requires parts { 0 < opened.old.rest.parts }
    requires none { opened.old.rest.amount ≡ 0 }
    ensures part { result.parts ≡ 1 }
    ensures amount { result.amount ≡ amount }
    ensures total { opened.new.book.total ≡ opened.old.book.total + amount }
    ensures parts { opened.new.rest.parts + 1 ≡ opened.old.rest.parts }
    ensures none { opened.new.rest.amount ≡ 0 }
{
    let mut share = opened.rest.split_off(1, 0);
    opened.book.add(&mut share, amount);
    share
}

/// Gives each of the sixteen seats after the number `from` a part of each ledger, with its counts.
fn push_seats<L1: PostLedger, L2: Ledger, A: Allocator>(
    counts: &[Counts; 32],
    from: usize,
    posts: &mut Opened<L1>,
    others: &mut Opened<L2>,
    seats: &mut Vec<Seat<L1, L2>, A>,
)
    requires from { from + 16 ≤ 32 }
    requires empty { vec_len seats.old ≡ 0 }
    requires room { 16 ≤ vec_capacity seats.old }
    requires post_parts { (posts.old.rest.parts + from ≡ 32) × (posts.old.rest.amount ≡ 0) }
    requires other_parts { (others.old.rest.parts + from ≡ 32) × (others.old.rest.amount ≡ 0) }
    ensures post_parts { (posts.new.rest.parts + (from + 16) ≡ 32) × (posts.new.rest.amount ≡ 0) }
    ensures other_parts { (others.new.rest.parts + (from + 16) ≡ 32) × (others.new.rest.amount ≡ 0) }
    ensures seats { (log : List (PlainEntry ℕ)) → AreCounts log counts.now → AreSeats log from seats.new.items }
    ensures posts { (log : List (PlainEntry ℕ)) → AreCounts log counts.now → posts.old.book.total ≡ (made_upto from log).posts → posts.new.book.total ≡ (made_upto (from + 16) log).posts }
    ensures others { (log : List (PlainEntry ℕ)) → AreCounts log counts.now → others.old.book.total ≡ (made_upto from log).others → others.new.book.total ≡ (made_upto (from + 16) log).others }
{
    for k in 0..WORKER_SEATS {
        let count = counts[from + k];
        let post_part = part_with(posts, count.posts);
        let other_part = part_with(others, count.others);
        seats.push_reserved(Seat {
            number: (from + k + 1) as u32,
            counts: count,
            posts: post_part,
            others: other_part,
        });
    }
}

/// Opens both ledgers, and gives each of the 32 seats a part of each, with its counts.
pub fn seat_all<L1: PostLedger, L2: Ledger, A: Allocator>(
    counts: &[Counts; 32],
    posts: Blank,
    others: Blank,
    workers: &mut Vec<Seat<L1, L2>, A>,
    sessions: &mut Vec<Seat<L1, L2>, A>,
) -> (Book<L1>, Book<L2>)
    requires posts { (posts.name ≡ L1.name) × (posts.parts ≡ L1.parts) × (posts.parts ≡ 32) }
    requires others { (others.name ≡ L2.name) × (others.parts ≡ L2.parts) × (others.parts ≡ 32) }
    requires empty { (vec_len workers.old ≡ 0) × (vec_len sessions.old ≡ 0) }
    requires room { (16 ≤ vec_capacity workers.old) × (16 ≤ vec_capacity sessions.old) }
    ensures workers { (log : List (PlainEntry ℕ)) → AreCounts log counts.now → AreSeats log 0 workers.new.items }
    ensures sessions { (log : List (PlainEntry ℕ)) → AreCounts log counts.now → AreSeats log 16 sessions.new.items }
    ensures counted { (log : List (PlainEntry ℕ)) → AreCounts log counts.now → IsCounted log counts.now result.0.total result.1.total }
{
    let mut posts = open::<L1>(posts);
    let mut others = open::<L2>(others);
    push_seats(counts, 0, &mut posts, &mut others, workers);
    push_seats(counts, WORKER_SEATS, &mut posts, &mut others, sessions);
    let Opened {
        book: post_book,
        rest: _,
    } = posts;
    let Opened {
        book: other_book,
        rest: _,
    } = others;
    (post_book, other_book)
}

/// Adds the shares of these seats to two shares.
pub fn merge_all<L1: PostLedger, L2: Ledger, A: Allocator>(
    mut seats: Vec<Seat<L1, L2>, A>,
    posts: &mut Share<L1>,
    others: &mut Share<L2>,
)
    ensures post_parts { posts.new.parts ≡ posts.old.parts + vec_len seats }
    ensures other_parts { others.new.parts ≡ others.old.parts + vec_len seats }
    ensures posts { posts.new.amount ≡ posts.old.amount + sum_by (λ s. s.counts.posts) seats.items }
    ensures others { others.new.amount ≡ others.old.amount + sum_by (λ s. s.counts.others) seats.items }
{
    while let Some(seat) = seats.pop() {
        let Seat {
            number: _,
            counts: _,
            posts: more_posts,
            others: more_others,
        } = seat;
        posts.merge(more_posts);
        others.merge(more_others);
    }
}

/// The shares of these seats, added up.
pub fn merged<L1: PostLedger, L2: Ledger, A: Allocator>(
    mut seats: Vec<Seat<L1, L2>, A>,
) -> (Share<L1>, Share<L2>)
    requires { 0 < vec_len seats }
    ensures post_parts { result.0.parts ≡ vec_len seats }
    ensures other_parts { result.1.parts ≡ vec_len seats }
    ensures posts { result.0.amount ≡ sum_by (λ s. s.counts.posts) seats.items }
    ensures others { result.1.amount ≡ sum_by (λ s. s.counts.others) seats.items }
{
    let Some(first) = seats.pop() else {
        unreachable!();
    };
    let Seat {
        number: _,
        counts: _,
        mut posts,
        mut others,
    } = first;
    merge_all(seats, &mut posts, &mut others);
    (posts, others)
}
