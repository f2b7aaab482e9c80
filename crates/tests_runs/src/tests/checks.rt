//! Checks of logs.
use chr_check::Verdict;
use chr_check::fault::CheckFault;
use chr_check_text::{CheckTextFault, check_text, watched_check_text};
use chr_watch::Watch;
use std::alloc::{AllocError, Global};
use std::test::*;

const GCD: &str = "gcd(0) <=> true.\ngcd(N) \\ gcd(M) <=> 0 < N, N =< M | L is M mod N, gcd(L).\n";

/// The log of a run of `GCD`, line by line.
static GCD_LOG: [&str; 13] = [
    "chr-log 1\n",
    "P 1 gcd(9)\n",
    "P 2 gcd(6)\n",
    "A 1 1\n",
    "D 1\n",
    "A 2 2\n",
    "F 2 2 2\\1\n",
    "D 2\n",
    "A 3 3\n",
    "F 3 2 3\\2\n",
    "D 3\n",
    "A 4 4\n",
    "F 4 1 \\4\n",
];

const GCD_STORE: &str = "#3 gcd(3)\n";

const TWICE: &str = "p(X), p(X) <=> q(X).";

const TOKEN: &str = "t \\ n(X) <=> r(X).";

const SWAP: &str = "p(f(X,Y)) <=> q(f(Y,X)).";

const TALLER: &str = "n(X) <=> n(s(X)).";

const TOKEN_STORE: &str = "#2 t\n#3 r(1)\n";

/// How an answer is displayed.
fn displayed(alloc: Global, answer: Result<Verdict, CheckFault>) -> Result<String, AllocError> {
    match answer {
        Ok(Verdict::RunAndFinal) => format!(in alloc; "run final\n"),
        Ok(Verdict::Run) => format!(in alloc; "run\n"),
        Err(fault) => format!(in alloc; "refused {fault}\n"),
    }
}

/// How the fault of the first text that can't be read is displayed.
fn displayed_fault(alloc: Global, fault: CheckTextFault) -> Result<String, AllocError> {
    match fault {
        CheckTextFault::Program(fault) => format!(in alloc; "program {}: {fault}", fault.line),
        CheckTextFault::Log(fault) => format!(in alloc; "log {}: {fault}", fault.line()),
        CheckTextFault::Store(fault) => format!(in alloc; "store {}: {fault}", fault.line()),
        CheckTextFault::Memory => format!(in alloc; "no memory"),
    }
}

/// Whether a text that is made with memory is this.
fn is_text(made: Result<String, AllocError>, wanted: &str) -> bool {
    match made {
        Ok(text) => text.as_str() == wanted,
        Err(_) => false,
    }
}

/// Whether this is told of three texts: the line of the answer, which is also how it is displayed, or the fault of the first
/// text that can't be read.
fn is_told(alloc: Global, program: &str, log: &str, store: &str, wanted: &str) -> bool {
    match check_text(alloc, program.as_bytes(), log.as_bytes(), store.as_bytes()) {
        Ok(checked) => {
            checked.line.as_slice() == wanted.as_bytes()
                && is_text(displayed(alloc, checked.answer), wanted)
        }
        Err(fault) => is_text(displayed_fault(alloc, fault), wanted),
    }
}

/// A program, the version and the events of a log, a store, and what is told of them.
type Row<'r> = (&'r str, u8, &'r str, &'r str, &'r str);

/// Whether a row has what is told of its texts.
fn is_told_of(alloc: Global, row: &Row) -> bool {
    let (program, version, events, store, wanted) = *row;
    match format!(in alloc; "chr-log {version}\n{events}") {
        Ok(log) => is_told(alloc, program, log.as_str(), store, wanted),
        Err(_) => false,
    }
}

/// A line of the log of the run of `GCD`, counted from 1, and what is told where it is left out.
static WITHOUT: [(usize, &str); 13] = [
    (1, "run final\n"),
    (2, "refused E16 log 2 BadTicket\n"),
    (3, "refused E16 log 5 BadTicket\n"),
    (4, "refused E16 log 4 BadTicket\n"),
    (5, "run\n"),
    (6, "refused E16 log 6 BadTicket\n"),
    (7, "refused E16 log 7 StillApplies\n"),
    (8, "run\n"),
    (9, "refused E16 log 9 BadTicket\n"),
    (10, "refused E16 log 10 StillApplies\n"),
    (11, "run\n"),
    (12, "refused E16 log 12 BadTicket\n"),
    (13, "refused E16 store 2 StoreDiffers\n"),
];

/// Adds the events of the run of `GCD` but for one of the lines of its log.
fn add_without(line: usize, events: &mut String) -> Result<(), AllocError> {
    for (place, text) in GCD_LOG.iter().enumerate() {
        if place > 0 && place + 1 != line {
            events.push_str(text)?;
        }
    }
    Ok(())
}

/// Whether this is told of that run without the line, under the header of a version.
fn is_told_without(alloc: Global, version: u8, line: usize, wanted: &str) -> bool {
    let mut events = String::new(alloc);
    add_without(line, &mut events).is_ok()
        && is_told_of(alloc, &(GCD, version, events.as_str(), GCD_STORE, wanted))
}

#[test]
fn a_log_without_one_line(rt: HostRuntime) {
    for version in [1, 2] {
        for (line, wanted) in &WITHOUT {
            let is = is_told_without(rt.alloc(), version, *line, wanted);
            assert!(rt; is, "version {version} without line {line}");
        }
    }
}

/// What is changed in the log of the run of `GCD`, its lines from the first firing on, those from the last one on, a store, and
/// what is told of them.
type Changed<'r> = (&'r str, &'r str, &'r str, &'r str, &'r str);

static CHANGED: [Changed; 5] = [
    (
        "as it was",
        "F 2 2 2\\1\nD 2\n",
        "F 4 1 \\4\n",
        GCD_STORE,
        "run final\n",
    ),
    (
        "the last line twice",
        "F 2 2 2\\1\nD 2\n",
        "F 4 1 \\4\nF 4 1 \\4\n",
        GCD_STORE,
        "refused E16 log 14 BadTicket\n",
    ),
    (
        "a drop too early",
        "D 2\nF 2 2 2\\1\n",
        "F 4 1 \\4\n",
        GCD_STORE,
        "refused E16 log 7 StillApplies\n",
    ),
    (
        "another store",
        "F 2 2 2\\1\nD 2\n",
        "F 4 1 \\4\n",
        "#3 gcd(4)\n",
        "refused E16 store 1 StoreDiffers\n",
    ),
    (
        "cut after an activation",
        "F 2 2 2\\1\nD 2\n",
        "",
        "#3 gcd(3)\n#4 gcd(0)\n",
        "run\n",
    ),
];

/// Whether a row has what is told of its log.
fn is_told_of_changed(alloc: Global, row: &Changed) -> bool {
    let (_, before, last, store, wanted) = *row;
    let head = "P 1 gcd(9)\nP 2 gcd(6)\nA 1 1\nD 1\nA 2 2\n";
    let tail = "A 3 3\nF 3 2 3\\2\nD 3\nA 4 4\n";
    match format!(in alloc; "{head}{before}{tail}{last}") {
        Ok(events) => is_told_of(alloc, &(GCD, 1, events.as_str(), store, wanted)),
        Err(_) => false,
    }
}

#[test]
fn a_log_with_changed_lines(rt: HostRuntime) {
    for row in &CHANGED {
        assert!(rt; is_told_of_changed(rt.alloc(), row), "{}", row.0);
    }
}

/// A program, the events of a log, a store, and what is told of them.
static KINDS: [(&str, &str, &str, &str); 26] = [
    ("", "", "", "run final\n"),
    ("", "P 1 a\n", "", "run\n"),
    ("", "P 2 a\n", "", "refused E16 log 2 BadTicket\n"),
    ("", "P 1 a\nA 1 2\n", "", "refused E16 log 3 BadLabel\n"),
    ("", "P 1 a\nA 2 1\n", "", "refused E16 log 3 BadTicket\n"),
    (
        "",
        "P 1 a\nA 1 1\nA 1 2\n",
        "",
        "refused E16 log 4 BadTicket\n",
    ),
    ("", "P 1 a\nD 1\n", "", "refused E16 log 3 BadTicket\n"),
    (
        "",
        "P 1 a\nA 1 1\nF 1 1 \\1\n",
        "",
        "refused E16 log 4 NoInstance\n",
    ),
    (
        TWICE,
        "P 1 p(1)\nA 1 1\nF 1 1 \\1,1\n",
        "",
        "refused E16 log 4 NoInstance\n",
    ),
    (
        TWICE,
        "P 1 p(1)\nA 1 1\nF 1 1 \\1,2\n",
        "",
        "refused E16 log 4 BadLabel\n",
    ),
    (
        TWICE,
        "P 1 p(1)\nP 2 p(1)\nA 1 1\nA 2 2\nF 1 1 1\\2\n",
        "",
        "refused E16 log 6 NoInstance\n",
    ),
    (
        TWICE,
        "P 1 p(1)\nP 2 p(1)\nA 1 1\nD 1\nA 2 2\nF 2 1 \\2,1\nA 3 3\nD 3\n",
        "#3 q(1)\n",
        "run final\n",
    ),
    (
        TWICE,
        "P 1 p(1)\nP 2 p(1)\nA 1 1\nD 1\nA 2 2\nF 2 1 \\2,1\n",
        "",
        "run\n",
    ),
    (
        TWICE,
        "P 1 p(1)\nP 2 p(1)\nP 3 p(1)\nA 1 1\nA 2 2\nA 3 3\nF 3 1 \\1,2\n",
        "",
        "refused E16 log 8 NoInstance\n",
    ),
    (
        "",
        "P 1 a\nA 1 1\nD 1\n",
        "",
        "refused E16 store 1 StoreDiffers\n",
    ),
    (
        "",
        "P 1 a\nA 1 1\nD 1\n",
        "#1 b\n",
        "refused E16 store 1 StoreDiffers\n",
    ),
    (
        "",
        "P 1 a\nA 1 1\nD 1\n",
        "#2 a\n",
        "refused E16 store 1 StoreDiffers\n",
    ),
    (
        "",
        "P 1 a\nA 1 1\nD 1\n",
        "#1 a\n#2 a\n",
        "refused E16 store 2 StoreDiffers\n",
    ),
    ("", "P 1 a\nA 1 1\nD 1\n", "#1 a\n", "run final\n"),
    (
        SWAP,
        "P 1 p(f(a,1))\nA 1 1\nF 1 1 \\1\nA 2 2\nD 2\n",
        "#2 q(f(1,a))\n",
        "run final\n",
    ),
    (
        SWAP,
        "P 1 p(f(a,1))\nA 1 1\nF 1 1 \\1\nA 2 2\nD 2\n",
        "#2 q(f(a,1))\n",
        "refused E16 store 1 StoreDiffers\n",
    ),
    (
        SWAP,
        "P 1 p(f(a,1))\nA 1 1\nD 1\n",
        "#1 p(f(a,1))\n",
        "refused E16 log 4 StillApplies\n",
    ),
    (
        SWAP,
        "P 1 p(f(a))\nA 1 1\nF 1 1 \\1\n",
        "",
        "refused E16 log 4 NoInstance\n",
    ),
    (
        SWAP,
        "P 1 p(f(a))\nA 1 1\nD 1\n",
        "#1 p(f(a))\n",
        "run final\n",
    ),
    (
        TALLER,
        "P 1 n(s(s(s(s(s(s(z)))))))\nA 1 1\nF 1 1 \\1\nA 2 2\nD 2\n",
        "#2 n(s(s(s(s(s(s(s(z))))))))\n",
        "run final\n",
    ),
    (
        TALLER,
        "P 1 n(s(s(s(s(s(s(s(z))))))))\nA 1 1\nF 1 1 \\1\n",
        "",
        "refused E16 log 4 NoInstance\n",
    ),
];

#[test]
fn faults_by_kind(rt: HostRuntime) {
    for (program, events, store, wanted) in &KINDS {
        let is = is_told_of(rt.alloc(), &(*program, 1, *events, *store, *wanted));
        assert!(rt; is, "{program} {events} {store}");
    }
}

const OLDER: &str = "P 1 n(1)\nP 2 t\nA 1 1\nA 2 2\nD 1\nF 2 1 2\\1\nD 2\nA 3 3\nD 3\n";

const STRICT: &str = "P 1 n(1)\nP 2 t\nA 1 1\nA 2 2\nF 2 1 2\\1\nA 3 3\nD 1\nD 2\nD 3\n";

const STRICT_GCD: &str =
    "P 1 gcd(9)\nP 2 gcd(6)\nA 1 1\nA 2 2\nF 2 2 2\\1\nA 3 3\nF 3 2 3\\2\nA 4 4\nF 4 1 \\4\nD 1\nD 2\nD 3\n";

static VERSIONS: [Row; 6] = [
    (TOKEN, 2, OLDER, TOKEN_STORE, "run final\n"),
    (
        TOKEN,
        1,
        OLDER,
        TOKEN_STORE,
        "refused E16 log 6 StillApplies\n",
    ),
    (TOKEN, 1, STRICT, TOKEN_STORE, "run final\n"),
    (TOKEN, 2, STRICT, TOKEN_STORE, "run final\n"),
    (
        TOKEN,
        2,
        "P 1 n(1)\nP 2 t\nA 1 1\nA 2 2\nD 1\nD 2\n",
        TOKEN_STORE,
        "refused E16 log 7 StillApplies\n",
    ),
    (GCD, 1, STRICT_GCD, GCD_STORE, "run final\n"),
];

#[test]
fn a_goal_may_be_dropped_by_version(rt: HostRuntime) {
    for row in &VERSIONS {
        assert!(rt; is_told_of(rt.alloc(), row), "version {} {}", row.1, row.2);
    }
}

/// The log of one constraint that stays.
const ENTERED: &str = "chr-log 1\nP 1 a\nA 1 1\nD 1\n";

/// A program, a log, a store, and what is told of them.
static TEXTS: [(&str, &str, &str, &str); 20] = [
    ("", ENTERED, "#1 a\n", "run final\n"),
    ("a ==> b.", ENTERED, "#1 a\n", "program 1: E05 Propagation"),
    (
        "% a\n% b\n% c\np(X) <=> q(Y).",
        ENTERED,
        "",
        "program 4: E08 Binding",
    ),
    ("p(X) <=> q(X)", ENTERED, "", "program 1: E04 Syntax"),
    ("", "", "", "log 1: E11 BadEntry"),
    ("", "chr-log 3\n", "", "log 1: E11 BadEntry"),
    ("", "chr-log 1", "", "log 1: E11 BadEntry"),
    ("", "chr-log 1\nA 01 1\n", "", "log 2: E11 BadEntry"),
    ("", "chr-log 1\nF 1 1 1\\\n", "", "log 2: E11 BadEntry"),
    ("", "chr-log 1\nP 1 a\nA 1 1", "", "log 3: E11 BadEntry"),
    ("", ENTERED, "#1 a", "store 1: E11 BadEntry"),
    ("", ENTERED, "#0 a\n", "store 1: E11 BadEntry"),
    ("", ENTERED, "#1 a\n#1 a\n", "store 2: E11 BadEntry"),
    ("", ENTERED, "store 1\n#1 a\n", "store 1: E11 BadEntry"),
    ("a ==> b.", "", "#", "program 1: E05 Propagation"),
    ("", "chr-log 1\nP 2 a\n", "#", "store 1: E11 BadEntry"),
    ("", "chr-log 1\nP\n", "#", "log 2: E11 BadEntry"),
    (
        "p(s(s(s(s(s(s(s(s(z))))))))) <=> true.",
        ENTERED,
        "",
        "program 1: E07 TooMany",
    ),
    (
        "",
        "chr-log 1\nP 1 p(s(s(s(s(s(s(s(s(z)))))))))\n",
        "",
        "log 2: E11 BadEntry",
    ),
    (
        "",
        ENTERED,
        "#1 p(s(s(s(s(s(s(s(s(z)))))))))\n",
        "store 1: E11 BadEntry",
    ),
];

#[test]
fn texts_that_are_not_read(rt: HostRuntime) -> Result<(), Fail> {
    for (program, log, store, wanted) in &TEXTS {
        let is = is_told(rt.alloc(), program, log, store, wanted);
        assert!(rt; is, "log {log} store {store}");
    }
    let long = " ".repeat(rt.alloc(), 65_537)?;
    let wanted = "program 0: E09 TooLong";
    assert!(rt; is_told(rt.alloc(), long.as_str(), ENTERED, "", wanted));
    Ok(())
}

/// How many counts it was told, and whether they were 0, 1 and so on.
#[derive(Clone, Copy, Debug)]
struct Counted {
    counts: u64,
    are_in_order: bool,
}

impl Watch for Counted {
    fn done(&mut self, count: u64) {
        self.are_in_order = self.are_in_order && count == self.counts;
        self.counts = self.counts.saturating_add(1);
    }
}

/// A log, and of how many of its entries a watch is told.
static TOLD: [(&str, u64); 4] = [
    ("chr-log 1\n", 0),
    ("chr-log 1\nP 1 a\nA 1 1\nD 1\n", 3),
    ("chr-log 1\nP 1 a\nA 1 2\nD 1\n", 2),
    ("chr-log 1\nP 1 a\nA 1 01\n", 0),
];

/// Whether a watch is told of so many entries of a log, in order.
fn is_told_to_a_watch(alloc: Global, log: &str, told: u64) -> bool {
    let mut counted = Counted {
        counts: 0,
        are_in_order: true,
    };
    let _ = watched_check_text(alloc, b"", log.as_bytes(), b"#1 a\n", &mut counted);
    counted.are_in_order && counted.counts == told
}

#[test]
fn each_entry_is_told(rt: HostRuntime) {
    for (log, told) in &TOLD {
        assert!(rt; is_told_to_a_watch(rt.alloc(), log, *told), "{log}");
    }
}
