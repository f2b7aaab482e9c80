//! Locks, racks and desks with a request for memory refused.
//!
//! The memory is that of the lock, the rack and the desk. That of the pool isn't refused, since it is always of `Global`.
ghost use Rattle.std.specs.Prelude.{◌≡◌, false};
ghost use Rattle.chr_seats.specs.Accounts.{AreNamed};

use crate::tests::hall::{Hall, Visit, Worker, visited, work_until};
use chr_crew::{Place, Rack, Stop};
use chr_pool::make;
use chr_seats::{Blanks, PostLedger};
use chr_session::{Command, Desk, Fault, Reply};
use chr_shared::Shared;
use chr_shared_desk::SharedDesk;
use refusing::{Refusable, Refusing, refuse_each};
use std::alloc::Global;
use std::marker::Brand;
use std::sync::Wait;
use std::sync::ledger::Ledger;

type Memory<'m> = &'m Refusing<Global>;

/// What is opened over no book.
#[derive(Clone, Copy, Debug)]
enum Opens {
    Lock,
    Rack,
}

/// Whether a lock is opened with request number `n` refused, and may be used.
fn lock_is_opened<'m, L1: PostLedger, L2: Ledger, R: Wait>(
    rt: &R,
    memory: Memory<'m>,
    n: u64,
    blanks: Blanks<Memory<'m>>,
) -> bool
    requires named { AreNamed blanks L1.name L1.parts L2.name L2.parts L1.history }
    requires none { L1.loaded ≡ false }
{
    memory.refuse(n);
    match Shared::<L1, L2, Memory<'m>>::empty(memory, blanks) {
        Ok((shared, _seats)) => shared.resting(rt) == 0,
        Err(_) => false,
    }
}

/// The same of a rack over the sessions of a lock, whose requests aren't refused. None where memory ran out for these.
fn rack_is_opened<'m, L1: PostLedger, L2: Ledger, R: Wait>(
    rt: &R,
    memory: Memory<'m>,
    pool: Global,
    n: u64,
    blanks: Blanks<Memory<'m>>,
) -> Option<bool>
    requires named { AreNamed blanks L1.name L1.parts L2.name L2.parts L1.history }
    requires none { L1.loaded ≡ false }
{
    let (_shared, seats) = Shared::<L1, L2, Memory<'m>>::empty(memory, blanks).ok()?;
    let (_hands, inlets) = make::<u64>(pool, 1, 16, 0).ok()?;
    memory.refuse(n);
    Some(match Rack::new(memory, seats.sessions, inlets) {
        Ok(rack) => rack.take(rt).is_ok(),
        Err(_) => false,
    })
}

/// The same on seats of its own.
fn is_opened<R: Wait>(rt: &R, memory: Memory, pool: Global, n: u64, opens: Opens) -> Option<bool> {
    let blanks = Blanks::new();
    match opens {
        Opens::Lock => Some(lock_is_opened::<Brand, Brand, R>(rt, memory, n, blanks)),
        Opens::Rack => rack_is_opened::<Brand, Brand, R>(rt, memory, pool, n, blanks),
    }
}

#[derive(Drop)]
struct Opened<'r, R: Wait> {
    rt: &'r R,
    opens: Opens,
    pool: Global,
}

impl<R: Wait> Refusable for Opened<'_, R> {
    fn is_made_again(&self, memory: &Refusing<Global>, n: u64) -> Option<bool> {
        let fails = !is_opened(self.rt, memory, self.pool, n, self.opens)?;
        let refused = memory.is_refused(fails)?;
        is_opened(self.rt, memory, self.pool, 0, self.opens)?.then_some(refused)
    }
}

#[test]
fn locks_and_racks_are_refused(rt: HostRuntime) {
    for opens in [Opens::Lock, Opens::Rack] {
        let opened = Opened {
            rt: &rt,
            opens,
            pool: rt.alloc(),
        };
        let refused = refuse_each(rt.alloc(), &opened);
        assert!(rt; matches!(refused, Ok(1..)), "{opens:?}: {refused:?}");
    }
}

/// A command.
enum Asks<'t> {
    Load(&'t [u8]),
    Post(&'t [u8]),
    Wait,
    Store,
    Log(u32),
}

/// A desk's reply, but for what no command of the tests is told.
enum Told<'t> {
    Loaded(usize),
    Posted(u64, usize),
    Quiet,
    Open,
    Store(usize, &'t str),
    Log(usize, &'t str),
}

/// A command and its reply.
type Row<'t> = (Asks<'t>, Told<'t>);

/// What a desk is told before a worker works.
static BEFORE: [Row; 6] = [
    (Asks::Load(b"a <=> b.\n"), Told::Loaded(1)),
    (Asks::Wait, Told::Quiet),
    (Asks::Post(b"c, a."), Told::Posted(1, 2)),
    (Asks::Wait, Told::Open),
    (Asks::Store, Told::Store(0, "")),
    (Asks::Log(1), Told::Log(2, "P 1 c\nP 2 a\n")),
];

/// What it is told after that.
static AFTER: [Row; 4] = [
    (Asks::Wait, Told::Quiet),
    (Asks::Store, Told::Store(2, "#1 c\n#3 b\n")),
    (Asks::Log(7), Told::Log(2, "A 3 3\nD 3\n")),
    (Asks::Post(b""), Told::Posted(4, 0)),
];

/// The command to a desk.
fn command<'t>(asks: &Asks<'t>) -> Command<'t> {
    match asks {
        Asks::Load(text) => Command::Load(text),
        Asks::Post(text) => Command::Post(text),
        Asks::Wait => Command::Wait(0),
        Asks::Store => Command::Store,
        Asks::Log(first) => Command::Log(*first),
    }
}

/// Whether a desk replied this.
fn is_told(reply: &Reply<Memory>, told: &Told) -> bool {
    match (reply, told) {
        (Reply::Loaded(count), Told::Loaded(wanted)) => count == wanted,
        (Reply::Posted(first, count), Told::Posted(ticket, wanted)) => {
            first == ticket && count == wanted
        }
        (Reply::Quiet, Told::Quiet) | (Reply::Open, Told::Open) => true,
        (Reply::Store(count, lines), Told::Store(wanted, text))
        | (Reply::Log(count, lines), Told::Log(wanted, text)) => {
            count == wanted && lines.as_slice() == text.as_bytes()
        }
        _ => false,
    }
}

/// Asks a desk with request number `n` of the command refused, and again where it was. Whether it was. None where the reply
/// isn't E01 exactly then, or isn't the expected one else. A load does without the memory for the list of a rule's words.
fn is_refused<'m, D: Desk<Memory<'m>>>(
    desk: &mut D,
    memory: Memory<'m>,
    n: u64,
    row: &Row,
) -> Option<bool> {
    memory.refuse(n);
    let mut reply = desk.ask(command(&row.0));
    let refused = memory.was_refused();
    memory.refuse(0);
    let fails = matches!(reply, Reply::Fault(Fault::NoMemory));
    let does_without = refused && !fails && matches!(row.0, Asks::Load(_));
    if fails != refused && !does_without {
        return None;
    }
    if fails {
        reply = desk.ask(command(&row.0));
    }
    is_told(&reply, &row.1).then_some(refused)
}

/// The same of all commands of some rows. How many were refused.
fn refusals<'m, D: Desk<Memory<'m>>>(
    desk: &mut D,
    memory: Memory<'m>,
    n: u64,
    rows: &[Row],
) -> Option<u64> {
    let mut all = 0u64;
    for row in rows {
        all = all.wrapping_add(u64::from(is_refused(desk, memory, n, row)?));
    }
    Some(all)
}

/// The same of all rows, with a worker between them.
fn play_on<'m, D: Desk<Memory<'m>>, L1: PostLedger, L2: Ledger, R: Wait>(
    rt: &R,
    shared: &Shared<L1, L2, Memory<'m>>,
    worker: &mut Worker<L1, L2>,
    desk: &mut D,
    memory: Memory<'m>,
    n: u64,
) -> Option<u64> {
    let before = refusals(desk, memory, n, &BEFORE)?;
    work_until(rt, shared, worker, Stop::Turns(1000));
    let after = refusals(desk, memory, n, &AFTER)?;
    Some(before.wrapping_add(after))
}

/// The same at a place of the rack. How many were refused.
#[derive(Drop)]
struct Play {
    n: u64,
}

impl<'m> Visit<Memory<'m>> for Play {
    type Seen = u64;

    fn visit<L1: PostLedger, L2: Ledger, R: Wait>(
        &self,
        rt: &R,
        hall: &mut Hall<L1, L2, Memory<'m>>,
    ) -> Option<u64> {
        let Place { seat, inlet } = hall.rack.take(rt).ok()?;
        let mut desk = SharedDesk::new(rt, hall.alloc, &hall.shared, seat, inlet);
        play_on(
            rt,
            &hall.shared,
            &mut hall.workers.0,
            &mut desk,
            hall.alloc,
            self.n,
        )
    }
}

/// Plays with the first request of each command refused, then with the second, and so on. The first of these numbers with
/// which none was refused or a reply wasn't as expected, and what was played then.
fn last_play<R: Wait>(rt: &R, pool: Global) -> (u64, Option<u64>) {
    for n in 1..200u64 {
        let memory = Refusing::new(pool, 0);
        let played = visited(rt, &memory, pool, &Play { n });
        match played {
            Some(refusals) if 0 < refusals => (),
            _ => return (n, played),
        }
    }
    (200, None)
}

#[test]
fn each_request_of_a_desk_is_refused(rt: HostRuntime) {
    let (n, played) = last_play(&rt, rt.alloc());
    assert_eq!(rt; played, Some(0), "request {n}");
    assert!(rt; 1 < n);
}
