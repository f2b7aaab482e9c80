//! Three sessions beside two workers.
ghost use Rattle.std.specs.Prelude.{◌≡◌, false};
ghost use Rattle.chr_seats.specs.Accounts.{AreNamed};

use crate::tests::hall::{Hall, Worker, hall_of, work_until};
use crate::tests::over_memory::{LOAD, Lent, Sessions};
use chr_book::Book;
use chr_check::Verdict;
use chr_check_text::check_text;
use chr_crew::{Place, Rack, Stop};
use chr_seats::{Blanks, PostLedger};
use chr_session::{Command, Desk, Ended, Reply};
use chr_shared::Shared;
use chr_shared_desk::SharedDesk;
use std::alloc::Global;
use std::marker::Brand;
use std::sync::Wait;
use std::sync::ledger::Ledger;
use std::test::*;
use std::thread;
use std::thread::Threads;

/// Two rules, of 75 bytes.
const GCD: &str = "gcd(0) <=> true.\ngcd(N) \\ gcd(M) <=> 0 < N, N =< M | L is M mod N, gcd(L).\n";

/// How often a session looks at the book until it is quiet.
const LOOKS: u32 = 10_000_000;

/// Two posts of a session: the text, and the two atoms.
type Posts<'t> = (&'t str, &'t str, &'t str);

const FIRST: Posts = ("gcd(9), gcd(6).", "gcd(9)", "gcd(6)");

const SECOND: Posts = ("gcd(10), gcd(4).", "gcd(10)", "gcd(4)");

/// Whether lines have these two posts under this ticket and the next, one after the other.
fn have_posts(alloc: Global, lines: &[u8], ticket: u64, posts: Posts<'_>) -> bool {
    let next = ticket.wrapping_add(1);
    let (_, atom, other) = posts;
    let Ok(expected) = format!(in alloc; "P {ticket} {atom}\nP {next} {other}\n") else {
        return false;
    };
    lines
        .windows(expected.len())
        .any(|window| window == expected.as_bytes())
}

/// Whether the log has a session's posts as soon as it has posted, whatever the workers have done of them.
fn finds_its_posts<D: Desk<Global>>(alloc: Global, desk: &mut D, posts: Posts<'_>) -> bool {
    let Reply::Posted(first, 2) = desk.ask(Command::Post(posts.0.as_bytes())) else {
        return false;
    };
    let Reply::Log(_, lines) = desk.ask(Command::Log(1)) else {
        return false;
    };
    have_posts(alloc, lines.as_slice(), first, posts)
}

/// Whether the book becomes quiet, with one constraint.
fn ends<D: Desk<Global>>(desk: &mut D) -> bool {
    if !matches!(desk.ask(Command::Wait(LOOKS)), Reply::Quiet) {
        return false;
    }
    match desk.ask(Command::Store) {
        Reply::Store(1, lines) => lines.ends_with(b" gcd(1)\n"),
        _ => false,
    }
}

/// A session that posts, and is to find its posts.
fn post_from<L1: PostLedger, L2: Ledger, R: Wait>(
    rt: &R,
    alloc: Global,
    shared: &Shared<L1, L2, Global>,
    rack: &Rack<L1, L2, Global>,
    posts: Posts<'_>,
) -> bool {
    let Ok(Place { seat, inlet }) = rack.take(rt) else {
        return false;
    };
    let mut desk = SharedDesk::new(rt, alloc, shared, seat, inlet);
    finds_its_posts(alloc, &mut desk, posts)
}

/// Two sessions post at once, each of which is to find its posts, after a third has loaded; then that one waits for the end.
fn talk<L1: PostLedger + Send + Sync, L2: Ledger + Send + Sync, R: Threads + Wait + Sync>(
    rt: &R,
    alloc: Global,
    shared: &Shared<L1, L2, Global>,
    rack: &Rack<L1, L2, Global>,
) -> bool {
    let Ok(Place { seat, inlet }) = rack.take(rt) else {
        return false;
    };
    let mut desk = SharedDesk::new(rt, alloc, shared, seat, inlet);
    let loaded = matches!(desk.ask(Command::Load(GCD.as_bytes())), Reply::Loaded(2));
    let (found, other_found) = thread::join(
        rt,
        || post_from(rt, alloc, shared, rack, FIRST),
        || post_from(rt, alloc, shared, rack, SECOND),
    );
    loaded && found && other_found && ends(&mut desk)
}

/// What a session over memory writes. None where it doesn't end with its input.
fn written<S: Sessions>(sessions: &S, input: &str, piece: usize) -> Option<Vec<u8>> {
    match sessions.serve(input.as_bytes(), piece) {
        Some((Ok(Ended::End), written)) => Some(written),
        _ => None,
    }
}

/// Whether a session loads the rules.
fn loads<S: Sessions>(sessions: &S, piece: usize) -> bool {
    match written(sessions, LOAD, piece) {
        Some(told) => told.as_slice() == b"loaded 2\n".as_slice(),
        None => false,
    }
}

/// Whether the replies to a post and to `log 1` name a ticket under which, and the next, the log has the two posts.
fn are_found(alloc: Global, written: &[u8], posts: Posts<'_>) -> Option<bool> {
    let (posted, log) = str::from_utf8(written).ok()?.split_once('\n')?;
    let ticket = posted.strip_prefix("posted ")?.strip_suffix(" 2")?;
    let ticket = ticket.parse::<u64>().ok()?;
    Some(have_posts(alloc, log.as_bytes(), ticket, posts))
}

/// Whether a session that posts finds its posts in the log at once.
fn posts_and_finds<S: Sessions>(
    alloc: Global,
    sessions: &S,
    posts: Posts<'_>,
    piece: usize,
) -> bool {
    match format!(in alloc; "post {}\nlog 1\n", posts.0) {
        Ok(input) => match written(sessions, input.as_str(), piece) {
            Some(told) => are_found(alloc, &told, posts) == Some(true),
            None => false,
        },
        Err(_) => false,
    }
}

/// Whether a session finds the end of the run.
fn finds_the_end<S: Sessions>(sessions: &S, piece: usize) -> bool {
    match written(sessions, "wait 10000000\nstore\n", piece) {
        Some(told) => told.starts_with(b"quiet\nstore 1\n#") && told.ends_with(b" gcd(1)\n"),
        None => false,
    }
}

/// Whether two sessions that post at once each find their posts, after one has loaded, and the next finds the end of the run.
fn find_over_memory<S: Sessions + Sync, R: Threads + Sync>(
    rt: &R,
    alloc: Global,
    sessions: &S,
    piece: usize,
) -> bool {
    let loads = loads(sessions, piece);
    let (found, other_found) = thread::join(
        rt,
        || posts_and_finds(alloc, sessions, FIRST, piece),
        || posts_and_finds(alloc, sessions, SECOND, piece),
    );
    let ends = finds_the_end(sessions, piece);
    loads && found && other_found && ends
}

/// The same by the places of a rack.
fn talk_over_memory<
    L1: PostLedger + Send + Sync,
    L2: Ledger + Send + Sync,
    R: Threads + Wait + Sync,
>(
    rt: &R,
    alloc: Global,
    shared: &Shared<L1, L2, Global>,
    rack: &Rack<L1, L2, Global>,
    piece: usize,
) -> bool {
    let sessions = Lent {
        rt,
        alloc,
        texts: alloc,
        shared,
        rack,
    };
    find_over_memory(rt, alloc, &sessions, piece)
}

/// Two workers until the crew is closed.
fn work_both<L1: PostLedger + Send + Sync, L2: Ledger + Send + Sync, R: Threads + Wait + Sync>(
    rt: &R,
    shared: &Shared<L1, L2, Global>,
    workers: (Worker<L1, L2>, Worker<L1, L2>),
) {
    let (mut worker, mut other) = workers;
    thread::join(
        rt,
        || work_until(rt, shared, &mut worker, Stop::Closed),
        || work_until(rt, shared, &mut other, Stop::Closed),
    );
}

/// By what the sessions talk.
#[derive(Clone, Copy, Debug)]
enum By {
    /// By desks.
    Desks,
    /// Over memory, in pieces of this size.
    Pieces(usize),
}

/// Whether the check finds in a book a run to its end.
fn is_run_and_final(alloc: Global, book: &Book<Global>) -> bool {
    let (mut log, mut store) = (Vec::new(alloc), Vec::new(alloc));
    if log.extend_from_slice(b"chr-log 2\n").is_err()
        || book.log_lines(&mut log, 1).is_err()
        || book.store_lines(&mut store).is_err()
    {
        return false;
    }
    match check_text(alloc, GCD.as_bytes(), &log, &store) {
        Ok(checked) => checked.answer == Ok(Verdict::RunAndFinal),
        Err(_) => false,
    }
}

/// Two workers and three sessions at once. None where memory ran out.
fn talk_beside_workers<
    L1: PostLedger + Send + Sync,
    L2: Ledger + Send + Sync,
    R: Threads + Wait + Sync,
>(rt: &R, alloc: Global, by: By, blanks: Blanks<Global>) -> Option<bool>
    requires named { AreNamed blanks L1.name L1.parts L2.name L2.parts L1.history }
    requires none { L1.loaded ≡ false }
{
    let Hall {
        alloc: _,
        shared,
        rack,
        workers,
    } = hall_of::<L1, L2, Global>(alloc, alloc, blanks)?;
    let (_, right) = thread::join(
        rt,
        || work_both(rt, &shared, workers),
        || {
            let right = match by {
                By::Desks => talk(rt, alloc, &shared, &rack),
                By::Pieces(piece) => talk_over_memory(rt, alloc, &shared, &rack, piece),
            };
            shared.close(rt);
            right
        },
    );
    let book = shared.into_kept().into_book()?;
    Some(right && is_run_and_final(alloc, &book))
}

/// The same on a lock of its own.
fn find_their_posts<R: Threads + Wait + Sync>(rt: &R, alloc: Global, by: By) -> Option<bool> {
    talk_beside_workers::<Brand, Brand, R>(rt, alloc, by, Blanks::new())
}

#[test]
fn desk_posts_other_atoms(rt: HostRuntime) {
    for round in 0..20u64 {
        let found = find_their_posts(&rt, rt.alloc(), By::Desks);
        assert_eq!(rt; found, Some(true), "round {round}");
    }
}

#[test]
fn sessions_over_memory_find_their_posts(rt: HostRuntime) {
    for round in 0..20u64 {
        for piece in [1, 65_536] {
            let found = find_their_posts(&rt, rt.alloc(), By::Pieces(piece));
            assert_eq!(rt; found, Some(true), "round {round}, pieces of {piece}");
        }
    }
}
