//! How a program of one's own uses these crates: it reads rules, posts constraints, runs the rules and reads the store.
#![tactic(auto)]

use chr_book::Book;
use chr_lex::fault::ReadError;
use chr_solo::solo_steps;
use chr_value::GREATEST_LABEL;
use std::alloc::Allocator;

const RULES: &str =
    "gcd(0) <=> true.\ngcd(N) \\ gcd(M) <=> 0 < N, N =< M | L is M mod N, gcd(L).\n";

const POSTS: &str = "gcd(12), gcd(18).";

/// The seat that posts and runs.
const SEAT: u32 = 0;

const MOST_CALLS: u64 = 1_000_000;

/// Opens a book of the rules, posts the constraints, runs the rules until no goal is open or so many calls were made, and
/// returns the lines of the store.
fn run<A: Allocator + Copy>(alloc: A) -> Result<Vec<u8, A>, ReadError> {
    let mut book = Book::of_text(alloc, RULES.as_bytes(), GREATEST_LABEL)?;
    book.post_text(SEAT, POSTS.as_bytes())?;
    solo_steps(&mut book, SEAT, MOST_CALLS)?;
    let mut lines = Vec::new(alloc);
    book.store_lines(&mut lines)?;
    Ok(lines)
}

fn main(rt: HostRuntime) -> anyhow::Result<()> {
    let lines = run(rt.alloc())?;
    print!(rt; "{}", str::from_utf8(&lines)?)?;
    Ok(())
}
