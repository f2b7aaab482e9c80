//! Sixteen sessions that load at once.
ghost use Rattle.std.specs.Prelude.{◌≡◌, false};
ghost use Rattle.chr_seats.specs.Accounts.{AreNamed};

use crate::tests::hall::{Hall, Worker, hall_of, work_until};
use chr_crew::{Place, Rack, Stop};
use chr_seats::{Blanks, PostLedger};
use chr_session::{Command, Desk, Fault, Reply};
use chr_shared::Shared;
use chr_shared_desk::SharedDesk;
use std::alloc::{AllocError, Global};
use std::marker::Brand;
use std::sync::Wait;
use std::sync::ledger::Ledger;
use std::test::*;
use std::thread;
use std::thread::Threads;

/// How many sessions load at once.
const RACERS: usize = 16;

/// Rules that nothing is posted for, so many that a load takes long enough for others to come between.
const FILLERS: usize = 30;

/// What a session is told of its load.
#[derive(Clone, Copy, Debug, PartialEq, Eq)]
enum Told {
    Loaded,
    AlreadyLoaded,
    Another,
}

/// The rules of the session with this number, by which `go` becomes that number.
fn rules_of(alloc: Global, number: usize) -> Result<String<Global>, AllocError> {
    let mut text = format!(in alloc; "go <=> won({number}).\n")?;
    for _ in 0..FILLERS {
        text.push_str("filler(X) <=> X < 0 | true.\n")?;
    }
    Ok(text)
}

/// What a desk is told that loads these rules. It is told E20 only where it then finds a book.
fn told_of<D: Desk<Global>>(desk: &mut D, text: &[u8]) -> Told {
    match desk.ask(Command::Load(text)) {
        Reply::Loaded(count) if count == FILLERS + 1 => Told::Loaded,
        Reply::Fault(Fault::AlreadyLoaded)
            if matches!(desk.ask(Command::Store), Reply::Store(0, _)) => { Told::AlreadyLoaded }
        _ => Told::Another,
    }
}

/// What a session that loads its rules is told.
fn load<L1: PostLedger, L2: Ledger, R: Wait>(
    rt: &R,
    alloc: Global,
    shared: &Shared<L1, L2, Global>,
    rack: &Rack<L1, L2, Global>,
    number: usize,
) -> Told {
    let (Ok(Place { seat, inlet }), Ok(text)) = (rack.take(rt), rules_of(alloc, number)) else {
        return Told::Another;
    };
    let mut desk = SharedDesk::new(rt, alloc, shared, seat, inlet);
    let told = told_of(&mut desk, text.as_bytes());
    let (seat, inlet) = desk.end();
    rack.give_back(rt, Place { seat, inlet });
    told
}

/// The number of the one session that was told `loaded`, where all others were told E20.
fn winner(told: &[Told]) -> Option<usize> {
    let mut winner = None;
    for number in 0..told.len() {
        match told[number] {
            Told::Loaded if winner.is_none() => winner = Some(number),
            Told::AlreadyLoaded => {}
            Told::Loaded | Told::Another => return None,
        }
    }
    winner
}

/// Whether a post runs under the rules of the session with this number.
fn runs_by_rules_of<D: Desk<Global>, L1: PostLedger, L2: Ledger, R: Wait>(
    rt: &R,
    alloc: Global,
    shared: &Shared<L1, L2, Global>,
    desk: &mut D,
    worker: &mut Worker<L1, L2>,
    number: usize,
) -> bool {
    if !matches!(desk.ask(Command::Post(b"go.")), Reply::Posted(1, 1)) {
        return false;
    }
    work_until(rt, shared, worker, Stop::Turns(1000));
    match (
        desk.ask(Command::Store),
        format!(in alloc; "#2 won({number})\n"),
    ) {
        (Reply::Store(1, lines), Ok(line)) => lines.as_slice() == line.as_bytes(),
        _ => false,
    }
}

/// The same of a post at a place of the rack. None where there is none.
fn last_runs_by_rules_of<L1: PostLedger, L2: Ledger, R: Wait>(
    rt: &R,
    hall: &mut Hall<L1, L2, Global>,
    number: usize,
) -> Option<bool> {
    let Place { seat, inlet } = hall.rack.take(rt).ok()?;
    let mut desk = SharedDesk::new(rt, hall.alloc, &hall.shared, seat, inlet);
    Some(runs_by_rules_of(
        rt,
        hall.alloc,
        &hall.shared,
        &mut desk,
        &mut hall.workers.0,
        number,
    ))
}

/// What each of the sessions is told that load at once. None where memory ran out.
fn load_all<L1: PostLedger + Send + Sync, L2: Ledger + Send + Sync, R: Threads + Wait + Sync>(
    rt: &R,
    alloc: Global,
    shared: &Shared<L1, L2, Global>,
    rack: &Rack<L1, L2, Global>,
) -> Option<Vec<Told>> {
    thread::map_indices(
        rt,
        alloc,
        RACERS,
        &|number| load(rt, alloc, shared, rack, number),
    )
    .ok()
}

/// Whether just one of the sessions is told `loaded`, and a post runs under its rules. None where memory ran out.
fn race<L1: PostLedger + Send + Sync, L2: Ledger + Send + Sync, R: Threads + Wait + Sync>(
    rt: &R,
    alloc: Global,
    blanks: Blanks<Global>,
) -> Option<bool>
    requires named { AreNamed blanks L1.name L1.parts L2.name L2.parts L1.history }
    requires none { L1.loaded ≡ false }
{
    let mut hall = hall_of::<L1, L2, Global>(alloc, alloc, blanks)?;
    let told = load_all(rt, alloc, &hall.shared, &hall.rack)?;
    match winner(&told) {
        Some(number) => last_runs_by_rules_of(rt, &mut hall, number),
        None => Some(false),
    }
}

/// The same on a lock of its own.
fn one_load_stands<R: Threads + Wait + Sync>(rt: &R, alloc: Global) -> Option<bool> {
    race::<Brand, Brand, R>(rt, alloc, Blanks::new())
}

#[test]
fn one_of_sixteen_loads_stands(rt: HostRuntime) {
    for round in 0..5u64 {
        let stands = one_load_stands(&rt, rt.alloc());
        assert_eq!(rt; stands, Some(true), "round {round}");
    }
}
