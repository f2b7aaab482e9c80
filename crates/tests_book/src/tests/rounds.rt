//! Rounds of calls by one seat.
use crate::tests::rows::{Row, rows_right};
use crate::tests::script::Call::{Claim, Post};
use crate::tests::script::{Opening, Script, is_text};
use crate::tests::tables::TOKEN;
use std::alloc::Global;

static POSTED: [Row; 1] = [(0, Post("n(1), t, t."), "Ok(1)", "WWW")];

/// A seat, a ticket, how many rounds are made at most, the answer, and the states of the tickets after it.
type Rounds<'t> = (u32, u64, u64, &'t str, &'t str);

static ROUNDS: [Rounds; 8] = [
    (2, 1, 9, "Ok(Rounds { passed: 0, last: Passed })", "1WW"),
    (1, 1, 9, "Ok(Rounds { passed: 1, last: Dropped })", "EWW"),
    (1, 2, 0, "Ok(Rounds { passed: 0, last: Passed })", "E1W"),
    (1, 2, 9, "Ok(Rounds { passed: 1, last: Fired })", "E1WW"),
    (1, 2, 9, "Ok(Rounds { passed: 0, last: Dropped })", "EEWW"),
    (1, 3, 9, "Ok(Rounds { passed: 1, last: Dropped })", "EEEW"),
    (1, 3, 9, "Ok(Rounds { passed: 0, last: Passed })", "EEEW"),
    (1, 4, 9, "Ok(Rounds { passed: 0, last: Dropped })", "EEEE"),
];

const LINES: &str =
    "quiet\nP 1 n(1)\nP 2 t\nP 3 t\nA 1 1\nD 1\nA 2 2\nF 2 1 2\\1\nD 2\nA 3 3\nD 3\nA 4 4\nD 4\n#2 t\n#3 t\n#4 r(1)\n";

static WAITING: [Row; 1] = [(0, Post("t, n(1), t."), "Ok(1)", "WWW")];

static STARTS: [Rounds; 8] = [
    (1, 1, 0, "Ok(None)", "WWW"),
    (
        1,
        1,
        9,
        "Ok(Some(Rounds { passed: 1, last: Dropped }))",
        "EWW",
    ),
    (
        1,
        2,
        9,
        "Ok(Some(Rounds { passed: 1, last: Fired }))",
        "EEWW",
    ),
    (1, 2, 9, "Ok(None)", "EEWW"),
    (
        1,
        3,
        1,
        "Ok(Some(Rounds { passed: 0, last: Passed }))",
        "EE1W",
    ),
    (1, 3, 9, "Ok(None)", "EE1W"),
    (1, 4, 9, "Ok(None)", "EE1W"),
    (1, 5, 9, "Ok(None)", "EE1W"),
];

const STARTED: &str =
    "open\nP 1 t\nP 2 n(1)\nP 3 t\nA 1 1\nD 1\nA 2 2\nF 2 1 1\\2\nA 3 3\n#1 t\n#3 t\n";

/// Makes rounds, which start the ticket or come after seat 1 has claimed it, where it waits. Whether the answer, and the states
/// of the tickets after it, are as expected.
fn is_right(script: &mut Script<Global>, starts: bool, rounds: &Rounds) -> bool {
    let (seat, ticket, most, answer, states) = *rounds;
    if !starts && script.make(1, Claim(ticket), &[]).is_err() {
        return false;
    }
    is_text(script.make_rounds(starts, seat, ticket, most), answer) && script.has_states(states)
}

/// Makes all rounds after the posts. How many are as expected before the first that isn't. None where the posts aren't
/// answered as expected.
fn rounds_right(
    script: &mut Script<Global>,
    posts: &[Row],
    starts: bool,
    all: &[Rounds],
) -> Option<usize> {
    if rows_right(script, posts) < posts.len() {
        return None;
    }
    for (i, rounds) in all.iter().enumerate() {
        if !is_right(script, starts, rounds) {
            return Some(i);
        }
    }
    Some(all.len())
}

/// The same on a book of its own, with labels up to a limit, and whether it ends in these lines.
fn end(
    alloc: Global,
    limit: u64,
    posts: &[Row],
    starts: bool,
    all: &[Rounds],
    lines: &str,
) -> Option<(usize, bool)> {
    let mut script = Script::open(alloc, alloc, Opening { limit, ..TOKEN })?;
    let right = rounds_right(&mut script, posts, starts, all)?;
    Some((right, script.has_lines(lines.as_bytes())))
}

#[test]
fn rounds_of_one_seat(rt: HostRuntime) {
    let end = end(rt.alloc(), 9, &POSTED, false, &ROUNDS, LINES);
    assert_eq!(rt; end, Some((8, true)));
}

#[test]
fn tickets_that_wait_are_started(rt: HostRuntime) {
    let end = end(rt.alloc(), 3, &WAITING, true, &STARTS, STARTED);
    assert_eq!(rt; end, Some((8, true)));
}
