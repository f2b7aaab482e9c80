//! A log, and the writers of a log and of a store.
use crate::tests::refused_texts::Memory;
use chr_log::{Entry, Event, Labels, Log, Version, write_log, write_store};
use chr_value::{Atom, Name, Names, Value};
use refusing::Refusing;
use std::alloc::Global;

const TEXT: &str = "chr-log 1\nF 1 256 \\4294967295\nF 2 256 \\4294967295\nF 3 256 \\4294967295\n";

/// A firing of rule 256 by a ticket, which takes no memory.
fn entry_of<'m>(ticket: u64) -> Entry<Memory<'m>> {
    let mut removed = Labels::new();
    removed.push(4_294_967_295);
    let event = Event::Fire {
        ticket,
        rule: 256,
        kept: Labels::new(),
        removed,
    };
    Entry { event, seat: 1 }
}

/// Adds 40 entries, each again where that fails.
fn push_all<'m>(memory: Memory<'m>, n: u64, log: &mut Log<Memory<'m>>) -> Option<bool> {
    let mut fails = false;
    memory.refuse(n);
    for ticket in 1..41u64 {
        if log.push(entry_of(ticket)).is_err() {
            fails = true;
            log.push(entry_of(ticket)).ok()?;
        }
    }
    if log.len() != 40 {
        return None;
    }
    memory.is_refused(fails)
}

pub fn push(memory: &Refusing<Global>, n: u64) -> Option<bool> {
    let mut log = Log::new(memory);
    push_all(memory, n, &mut log)
}

/// Makes room for two entries, which then take no memory.
fn reserve_two<'m>(memory: Memory<'m>, n: u64, log: &mut Log<Memory<'m>>) -> Option<bool> {
    memory.refuse(n);
    let refused = memory.is_refused(log.reserve(2).is_err())?;
    log.reserve(2).ok()?;
    let before = memory.requests();
    log.push_reserved(entry_of(1));
    log.push_reserved(entry_of(2));
    (memory.requests() == before).then_some(refused)
}

pub fn reserve(memory: &Refusing<Global>, n: u64) -> Option<bool> {
    let mut log = Log::new(memory);
    reserve_two(memory, n, &mut log)
}

/// Copies a log of three firings.
fn copy_three<'m>(memory: Memory<'m>, n: u64, log: &mut Log<Memory<'m>>) -> Option<bool> {
    for ticket in 1..4u64 {
        log.push(entry_of(ticket)).ok()?;
    }
    memory.refuse(n);
    let refused = memory.is_refused(log.copy(memory).is_err())?;
    (log.copy(memory).ok()?.len() == 3).then_some(refused)
}

pub fn copy(memory: &Refusing<Global>, n: u64) -> Option<bool> {
    let mut log = Log::new(memory);
    copy_three(memory, n, &mut log)
}

/// Three firings.
fn events_of(
    memory: &Refusing<Global>,
) -> Option<Vec<Event<&Refusing<Global>>, &Refusing<Global>>> {
    let mut events = Vec::new(memory);
    for ticket in 1..4u64 {
        events.push(entry_of(ticket).event).ok()?;
    }
    Some(events)
}

/// Whether the events are written as their text into an emptied buffer. None where memory is refused.
fn is_log_written<'m>(
    names: &Names<Memory<'m>>,
    events: &[Event<Memory<'m>>],
    out: &mut Vec<u8, Memory<'m>>,
) -> Option<bool> {
    out.clear();
    match write_log(out, names, Version::One, events) {
        Ok(()) => Some(out.as_slice() == TEXT.as_bytes()),
        Err(_) => None,
    }
}

/// Writes the events, and once more into the same buffer.
fn write_events<'m>(memory: Memory<'m>, n: u64, events: &[Event<Memory<'m>>]) -> Option<bool> {
    let names = Names::new(memory);
    let mut out = Vec::new(memory);
    memory.refuse(n);
    let fails = is_log_written(&names, events, &mut out).is_none();
    let refused = memory.is_refused(fails);
    let again = is_log_written(&names, events, &mut out);
    if again == Some(true) { refused } else { None }
}

pub fn write_events_of_a_log(memory: &Refusing<Global>, n: u64) -> Option<bool> {
    let events = events_of(memory)?;
    write_events(memory, n, &events)
}

/// Whether a store is written as its text into an emptied buffer. None where memory is refused.
fn is_store_written<'m>(
    names: &Names<Memory<'m>>,
    lines: &[(u64, Atom<Memory<'m>>)],
    out: &mut Vec<u8, Memory<'m>>,
) -> Option<bool> {
    out.clear();
    match write_store(out, names, lines) {
        Ok(()) => Some(out.as_slice() == b"#4294967295 gcd(1000000000)\n".as_slice()),
        Err(_) => None,
    }
}

/// Writes a store of one atom, whose name has its number in the table, and once more into the same buffer.
fn write_one<'m>(
    memory: Memory<'m>,
    n: u64,
    names: &Names<Memory<'m>>,
    name: Name,
) -> Option<bool> {
    let mut atom = Atom::new(memory, name);
    atom.push(Value::Int(1_000_000_000)).ok()?;
    let lines = [(4_294_967_295, atom)];
    let mut out = Vec::new(memory);
    memory.refuse(n);
    let fails = is_store_written(names, &lines, &mut out).is_none();
    let refused = memory.is_refused(fails);
    let again = is_store_written(names, &lines, &mut out);
    if again == Some(true) { refused } else { None }
}

pub fn write_line_of_a_store(memory: &Refusing<Global>, n: u64) -> Option<bool> {
    let mut names = Names::new(memory);
    match names.intern("gcd") {
        Ok(name) => write_one(memory, n, &names, name),
        Err(_) => None,
    }
}
