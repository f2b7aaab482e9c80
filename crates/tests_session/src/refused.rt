//! Worked sessions with each request refused.
use crate::serving::{end, texts};
use crate::talks::{COMPOUND_RUN, GREATEST, RUN, Talk};
use chr_session::{Ended, MemorySink, MemorySource, ServeFault};
use refusing::Refusing;
use std::alloc::Global;
use std::test::Fail;

/// A word for the command that is refused memory, and what is then written. A wait makes its calls up to the one that is
/// refused, so the store and the log after it are those after any entry but the last.
type Refused = &'static [(&'static str, &'static str)];

static COMPOUND_REFUSED: [(&str, &str); 9] = [
    (
        "load",
        "fault E01 NoMemory\nfault E24 NoProgram\nfault E24 NoProgram\nfault E24 NoProgram\nfault E24 NoProgram\nbye\n",
    ),
    (
        "post",
        "loaded 1\nfault E01 NoMemory\nquiet\nstore 0\nlog 0\nbye\n",
    ),
    (
        "wait",
        "loaded 1\nposted 1 1\nfault E01 NoMemory\nstore 0\nlog 0\nbye\n",
    ),
    (
        "wait",
        "loaded 1\nposted 1 1\nfault E01 NoMemory\nstore 1\n#1 p(f(a,1))\nlog 0\nbye\n",
    ),
    (
        "wait",
        "loaded 1\nposted 1 1\nfault E01 NoMemory\nstore 0\nlog 1\nF 1 1 \\1\nbye\n",
    ),
    (
        "wait",
        "loaded 1\nposted 1 1\nfault E01 NoMemory\nstore 1\n#2 q(f(1,a))\nlog 2\nF 1 1 \\1\nA 2 2\nbye\n",
    ),
    (
        "store",
        "loaded 1\nposted 1 1\nquiet\nfault E01 NoMemory\nlog 3\nF 1 1 \\1\nA 2 2\nD 2\nbye\n",
    ),
    (
        "log",
        "loaded 1\nposted 1 1\nquiet\nstore 1\n#2 q(f(1,a))\nfault E01 NoMemory\nbye\n",
    ),
    (
        "",
        "loaded 1\nposted 1 1\nquiet\nstore 1\n#2 q(f(1,a))\nlog 3\nF 1 1 \\1\nA 2 2\nD 2\nbye\n",
    ),
];

static REFUSED: [(&str, &str); 12] = [
    (
        "load",
        "fault E01 NoMemory\nfault E24 NoProgram\nfault E24 NoProgram\nfault E24 NoProgram\nfault E24 NoProgram\nbye\n",
    ),
    (
        "post",
        "loaded 2\nfault E01 NoMemory\nquiet\nstore 0\nlog 0\nbye\n",
    ),
    (
        "wait",
        "loaded 2\nposted 1 2\nfault E01 NoMemory\nstore 0\nlog 0\nbye\n",
    ),
    (
        "wait",
        "loaded 2\nposted 1 2\nfault E01 NoMemory\nstore 1\n#1 gcd(9)\nlog 0\nbye\n",
    ),
    (
        "wait",
        "loaded 2\nposted 1 2\nfault E01 NoMemory\nstore 2\n#1 gcd(9)\n#2 gcd(6)\nlog 0\nbye\n",
    ),
    (
        "wait",
        "loaded 2\nposted 1 2\nfault E01 NoMemory\nstore 1\n#2 gcd(6)\nlog 0\nbye\n",
    ),
    (
        "wait",
        "loaded 2\nposted 1 2\nfault E01 NoMemory\nstore 2\n#2 gcd(6)\n#3 gcd(3)\nlog 0\nbye\n",
    ),
    (
        "wait",
        "loaded 2\nposted 1 2\nfault E01 NoMemory\nstore 1\n#3 gcd(3)\nlog 0\nbye\n",
    ),
    (
        "wait",
        "loaded 2\nposted 1 2\nfault E01 NoMemory\nstore 2\n#3 gcd(3)\n#4 gcd(0)\nlog 1\nA 4 4\nbye\n",
    ),
    (
        "store",
        "loaded 2\nposted 1 2\nquiet\nfault E01 NoMemory\nlog 2\nA 4 4\nF 4 1 \\4\nbye\n",
    ),
    (
        "log",
        "loaded 2\nposted 1 2\nquiet\nstore 1\n#3 gcd(3)\nfault E01 NoMemory\nbye\n",
    ),
    (
        "",
        "loaded 2\nposted 1 2\nquiet\nstore 1\n#3 gcd(3)\nlog 2\nA 4 4\nF 4 1 \\4\nbye\n",
    ),
];

/// The commands of a run that are refused, in order, and "rule" for each rule of its program.
type Commands = &'static [&'static str];

static COMMANDS: [&str; 10] = [
    "serve", "load", "rule", "load", "rule", "load", "post", "wait", "store", "log",
];

static COMPOUND_COMMANDS: [&str; 8] = [
    "serve", "load", "rule", "load", "post", "wait", "store", "log",
];

/// Each run, what is written where a command of it is refused, and these commands.
fn runs() -> [(&'static Talk<'static>, Refused, Commands); 2] {
    [
        (&RUN, &REFUSED, &COMMANDS),
        (&COMPOUND_RUN, &COMPOUND_REFUSED, &COMPOUND_COMMANDS),
    ]
}

/// The command that was answered E01, "" where none was, and "serve" where the session ended before the first. None for any
/// other session.
fn command_refused(
    rows: Refused,
    ended: Result<Ended, ServeFault>,
    written: &[u8],
) -> Option<&'static str> {
    if ended == Err(ServeFault::NoMemory) && written.is_empty() {
        return Some("serve");
    }
    for (command, replies) in rows {
        if ended == Ok(Ended::Quit) && written == replies.as_bytes() {
            return Some(*command);
        }
    }
    None
}

/// Serves a run with request number `n` refused. The command that was refused, by the words above, or "rule" where a rule did
/// without the list of its words, and whether a request was refused.
fn refused(alloc: Global, input: &[u8], rows: Refused, n: u64) -> Option<(&'static str, bool)> {
    let memory = Refusing::new(alloc, n);
    let mut source = MemorySource::new(input, 65_536);
    let mut sink = MemorySink::new(alloc, 65_536);
    let (ended, _) = end(&memory, GREATEST, &mut source, &mut sink);
    match command_refused(rows, ended, &sink.bytes) {
        None => None,
        Some("") if memory.was_refused() => Some(("rule", true)),
        Some(command) => Some((command, memory.was_refused())),
    }
}

/// The commands that are refused as the first request of a run is, then the second, and so on until none is. None where a
/// session is another, or where a command is refused without a request.
fn commands_refused(alloc: Global, input: &[u8], rows: Refused) -> Option<Vec<&'static str>> {
    let mut commands = Vec::new(alloc);
    for n in 1..1000u64 {
        let (command, was_refused) = refused(alloc, input, rows, n)?;
        if was_refused != (command != "") {
            return None;
        }
        if command == "" {
            return Some(commands);
        }
        if commands.last() != Some(&command) {
            commands.push(command).ok()?;
        }
    }
    None
}

#[test]
fn each_request_of_a_session_is_refused(rt: HostRuntime) -> Result<(), Fail> {
    for (talk, rows, wanted) in runs() {
        let (input, _) = texts(rt.alloc(), talk.lines)?;
        let commands = commands_refused(rt.alloc(), &input, rows);
        let commands = commands.unwrap_or(Vec::new(rt.alloc()));
        assert_eq!(rt; commands.as_slice(), wanted, "{}", talk.name);
    }
    Ok(())
}
