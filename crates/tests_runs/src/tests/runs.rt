//! Worked runs.
use chr_lex::fault::{Kind, ReadFault};
use chr_run_text::{RunFault, RunOut, Show, run_text, watched_run};
use chr_solo::End;
use chr_watch::Watch;
use std::alloc::Global;
use std::test::Fail;

const GCD: &[u8] =
    b"gcd(0) <=> true.\ngcd(N) \\ gcd(M) <=> 0 < N, N =< M | L is M mod N, gcd(L).\n";

const TWICE: &[u8] = b"p(X), p(X) <=> q(X).";

const STEPS: u32 = 1_000_000;

const GREATEST: u32 = 4_294_967_295;

/// The most calls of a run, its greatest label, and what is shown.
type Options = (u32, u32, Show);

const ALL: Options = (STEPS, GREATEST, Show::All);

const STORE: Options = (STEPS, GREATEST, Show::Store);

const LOG: Options = (STEPS, GREATEST, Show::Log);

const STRICT: Options = (STEPS, GREATEST, Show::Strict);

/// Options, and how the run of `GCD` on 9 and 6 ends and what is shown of it.
static OPTIONS: [(Options, End, &[u8]); 9] = [
    (
        ALL,
        End::Quiet,
        b"quiet\nstore 1\n#3 gcd(3)\nlog 12\nP 1 gcd(9)\nP 2 gcd(6)\nA 1 1\nD 1\nA 2 2\nF 2 2 2\\1\nD 2\nA 3 3\nF 3 2 3\\2\nD 3\nA 4 4\nF 4 1 \\4\n",
    ),
    (STORE, End::Quiet, b"#3 gcd(3)\n"),
    (
        LOG,
        End::Quiet,
        b"chr-log 2\nP 1 gcd(9)\nP 2 gcd(6)\nA 1 1\nD 1\nA 2 2\nF 2 2 2\\1\nD 2\nA 3 3\nF 3 2 3\\2\nD 3\nA 4 4\nF 4 1 \\4\n",
    ),
    (
        STRICT,
        End::Quiet,
        b"chr-log 1\nP 1 gcd(9)\nP 2 gcd(6)\nA 1 1\nA 2 2\nF 2 2 2\\1\nA 3 3\nF 3 2 3\\2\nA 4 4\nF 4 1 \\4\nD 1\nD 2\nD 3\n",
    ),
    (
        (0, GREATEST, Show::All),
        End::Open,
        b"open\nstore 0\nlog 2\nP 1 gcd(9)\nP 2 gcd(6)\n",
    ),
    (
        (1, GREATEST, Show::All),
        End::Open,
        b"open\nstore 1\n#1 gcd(9)\nlog 3\nP 1 gcd(9)\nP 2 gcd(6)\nA 1 1\n",
    ),
    ((1, GREATEST, Show::Store), End::Open, b"#1 gcd(9)\n"),
    (
        (1, GREATEST, Show::Log),
        End::Open,
        b"chr-log 2\nP 1 gcd(9)\nP 2 gcd(6)\nA 1 1\n",
    ),
    ((1, GREATEST, Show::Strict), End::Open, b""),
];

/// Rules, posts, and all that is shown of their run, which ends quiet.
static QUIET: [(&[u8], &[u8], &[u8]); 21] = [
    (
        b"",
        b"a, b(2).",
        b"quiet\nstore 2\n#1 a\n#2 b(2)\nlog 6\nP 1 a\nP 2 b(2)\nA 1 1\nD 1\nA 2 2\nD 2\n",
    ),
    (GCD, b"", b"quiet\nstore 0\nlog 0\n"),
    (
        TWICE,
        b"p(1).",
        b"quiet\nstore 1\n#1 p(1)\nlog 3\nP 1 p(1)\nA 1 1\nD 1\n",
    ),
    (
        TWICE,
        b"p(1), p(1).",
        b"quiet\nstore 1\n#3 q(1)\nlog 8\nP 1 p(1)\nP 2 p(1)\nA 1 1\nD 1\nA 2 2\nF 2 1 \\2,1\nA 3 3\nD 3\n",
    ),
    (
        b"min(N) \\ min(M) <=> N =< M | true.",
        b"min(3), min(1), min(2), min(1).",
        b"quiet\nstore 1\n#4 min(1)\nlog 14\nP 1 min(3)\nP 2 min(1)\nP 3 min(2)\nP 4 min(1)\nA 1 1\nD 1\nA 2 2\nF 2 1 2\\1\nD 2\nA 3 3\nF 3 1 2\\3\nA 4 4\nF 4 1 4\\2\nD 4\n",
    ),
    (
        b"inc(N) <=> M is N + 1, inc(M).",
        b"inc(9223372036854775806).",
        b"quiet\nstore 1\n#2 inc(9223372036854775807)\nlog 5\nP 1 inc(9223372036854775806)\nA 1 1\nF 1 1 \\1\nA 2 2\nD 2\n",
    ),
    (
        b"t(A,B) <=> C is A rem B, r(C).",
        b"t(-9223372036854775808,-1).",
        b"quiet\nstore 1\n#2 r(0)\nlog 5\nP 1 t(-9223372036854775808,-1)\nA 1 1\nF 1 1 \\1\nA 2 2\nD 2\n",
    ),
    (
        b"t(A,B) <=> C is A // B, r(C).",
        b"t(-9223372036854775808,-1).",
        b"quiet\nstore 1\n#1 t(-9223372036854775808,-1)\nlog 3\nP 1 t(-9223372036854775808,-1)\nA 1 1\nD 1\n",
    ),
    (
        b"edge(X,Y), edge(Y,Z), node(Z) <=> path(X,Z).",
        b"edge(a,b), edge(b,c), node(c).",
        b"quiet\nstore 1\n#4 path(a,c)\nlog 11\nP 1 edge(a,b)\nP 2 edge(b,c)\nP 3 node(c)\nA 1 1\nD 1\nA 2 2\nD 2\nA 3 3\nF 3 1 \\1,2,3\nA 4 4\nD 4\n",
    ),
    (
        b":- use_module(library(chr)).\n:- chr_constraint leq/2.\ndup @ leq(X,Y) \\ leq(X,Y) <=> true. % twice\nloop @ leq(X,X) <=> true.\n",
        b"leq(a,b), leq(a,b), leq(c,c).",
        b"quiet\nstore 1\n#2 leq(a,b)\nlog 10\nP 1 leq(a,b)\nP 2 leq(a,b)\nP 3 leq(c,c)\nA 1 1\nD 1\nA 2 2\nF 2 1 2\\1\nD 2\nA 3 3\nF 3 2 \\3\n",
    ),
    (
        b"p(X) <=> Y is 3 -1, q(Y).",
        b"p(0).",
        b"quiet\nstore 1\n#2 q(2)\nlog 5\nP 1 p(0)\nA 1 1\nF 1 1 \\1\nA 2 2\nD 2\n",
    ),
    (
        b"p(_,_) <=> q.",
        b"p(1,2).",
        b"quiet\nstore 1\n#2 q\nlog 5\nP 1 p(1,2)\nA 1 1\nF 1 1 \\1\nA 2 2\nD 2\n",
    ),
    (
        b"p(X) <=> X \\== 1 | q.",
        b"p(a), p(1).",
        b"quiet\nstore 2\n#2 p(1)\n#3 q\nlog 8\nP 1 p(a)\nP 2 p(1)\nA 1 1\nF 1 1 \\1\nA 2 2\nD 2\nA 3 3\nD 3\n",
    ),
    (
        b"p(f(X,Y)) <=> q(f(Y,X)).",
        b"p(f(a,1)).",
        b"quiet\nstore 1\n#2 q(f(1,a))\nlog 5\nP 1 p(f(a,1))\nA 1 1\nF 1 1 \\1\nA 2 2\nD 2\n",
    ),
    (
        b"n(X) <=> n(s(X)).",
        b"n(z).",
        b"quiet\nstore 1\n#8 n(s(s(s(s(s(s(s(z))))))))\nlog 17\nP 1 n(z)\nA 1 1\nF 1 1 \\1\nA 2 2\nF 2 1 \\2\nA 3 3\nF 3 1 \\3\nA 4 4\nF 4 1 \\4\nA 5 5\nF 5 1 \\5\nA 6 6\nF 6 1 \\6\nA 7 7\nF 7 1 \\7\nA 8 8\nD 8\n",
    ),
    (
        b"p(X) <=> X \\== f | q.",
        b"p(f), p(f(1)).",
        b"quiet\nstore 2\n#1 p(f)\n#3 q\nlog 8\nP 1 p(f)\nP 2 p(f(1))\nA 1 1\nD 1\nA 2 2\nF 2 1 \\2\nA 3 3\nD 3\n",
    ),
    (
        b"p(X) <=> Y is X + 1, q(Y).",
        b"p(f(1)).",
        b"quiet\nstore 1\n#1 p(f(1))\nlog 3\nP 1 p(f(1))\nA 1 1\nD 1\n",
    ),
    (
        b"t(X) <=> t(g(X,X)).",
        b"t(a).",
        b"quiet\nstore 1\n#6 t(g(g(g(g(g(a,a),g(a,a)),g(g(a,a),g(a,a))),g(g(g(a,a),g(a,a)),g(g(a,a),g(a,a)))),g(g(g(g(a,a),g(a,a)),g(g(a,a),g(a,a))),g(g(g(a,a),g(a,a)),g(g(a,a),g(a,a))))))\nlog 13\nP 1 t(a)\nA 1 1\nF 1 1 \\1\nA 2 2\nF 2 1 \\2\nA 3 3\nF 3 1 \\3\nA 4 4\nF 4 1 \\4\nA 5 5\nF 5 1 \\5\nA 6 6\nD 6\n",
    ),
    (
        b"link(X,Y), link(Y,Z) <=> link(X,Z).",
        b"link(f(a),g(1)), link(f(a,b),c), link(g(1),f(a,b)).",
        b"quiet\nstore 1\n#5 link(f(a),c)\nlog 13\nP 1 link(f(a),g(1))\nP 2 link(f(a,b),c)\nP 3 link(g(1),f(a,b))\nA 1 1\nD 1\nA 2 2\nD 2\nA 3 3\nF 3 1 \\3,2\nA 4 4\nF 4 1 \\1,4\nA 5 5\nD 5\n",
    ),
    (
        b"edge(X,Y), edge(Y,Z), node(Z,Z) <=> true.",
        b"edge(1,4), edge(1,2), edge(2,3), edge(4,3), node(3,3).",
        b"quiet\nstore 2\n#1 edge(1,4)\n#4 edge(4,3)\nlog 15\nP 1 edge(1,4)\nP 2 edge(1,2)\nP 3 edge(2,3)\nP 4 edge(4,3)\nP 5 node(3,3)\nA 1 1\nD 1\nA 2 2\nD 2\nA 3 3\nD 3\nA 4 4\nD 4\nA 5 5\nF 5 1 \\2,3,5\n",
    ),
    (
        b"edge(X,Y) \\ edge(Y,X) <=> true. node(X,Y) <=> true. node(X,X), edge(Y,Y) <=> true.",
        b"edge(1,2), edge(2,1), node(1,1), edge(3,3).",
        b"quiet\nstore 2\n#2 edge(2,1)\n#4 edge(3,3)\nlog 13\nP 1 edge(1,2)\nP 2 edge(2,1)\nP 3 node(1,1)\nP 4 edge(3,3)\nA 1 1\nD 1\nA 2 2\nF 2 1 2\\1\nD 2\nA 3 3\nF 3 2 \\3\nA 4 4\nD 4\n",
    ),
];

/// Rules, posts, options, how the run ends, and what is shown of it.
type Row<'r> = (&'r [u8], &'r [u8], Options, End, &'r [u8]);

static OTHERS: [Row; 9] = [
    (
        GCD,
        b"gcd(4).",
        (8, GREATEST, Show::All),
        End::Open,
        b"open\nstore 1\n#1 gcd(4)\nlog 2\nP 1 gcd(4)\nA 1 1\n",
    ),
    (
        GCD,
        b"gcd(4).",
        (9, GREATEST, Show::All),
        End::Quiet,
        b"quiet\nstore 1\n#1 gcd(4)\nlog 3\nP 1 gcd(4)\nA 1 1\nD 1\n",
    ),
    (
        GCD,
        b"",
        (0, GREATEST, Show::All),
        End::Quiet,
        b"quiet\nstore 0\nlog 0\n",
    ),
    (GCD, b"", STORE, End::Quiet, b""),
    (GCD, b"", LOG, End::Quiet, b"chr-log 2\n"),
    (GCD, b"", STRICT, End::Quiet, b"chr-log 1\n"),
    (
        b"",
        b"a, b, c, d.",
        (STEPS, 3, Show::All),
        End::Open,
        b"open\nstore 3\n#1 a\n#2 b\n#3 c\nlog 10\nP 1 a\nP 2 b\nP 3 c\nP 4 d\nA 1 1\nD 1\nA 2 2\nD 2\nA 3 3\nD 3\n",
    ),
    (
        b"",
        b"a.",
        (STEPS, 0, Show::All),
        End::Open,
        b"open\nstore 0\nlog 1\nP 1 a\n",
    ),
    (
        b"",
        b"a.",
        (STEPS, 1, Show::All),
        End::Quiet,
        b"quiet\nstore 1\n#1 a\nlog 3\nP 1 a\nA 1 1\nD 1\n",
    ),
];

/// The run of two texts with these options.
fn run(
    alloc: Global,
    program: &[u8],
    posts: &[u8],
    options: Options,
) -> Result<RunOut<Global>, RunFault> {
    let (steps, labels, show) = options;
    run_text(
        alloc,
        program,
        posts,
        u64::from(steps),
        u64::from(labels),
        show,
    )
}

/// Whether a run ends and is shown as its row has it.
fn is_shown(alloc: Global, row: &Row) -> bool {
    let (program, posts, options, end, shown) = *row;
    match run(alloc, program, posts, options) {
        Ok(made) => made.end == end && made.bytes.as_slice() == shown,
        Err(_) => false,
    }
}

#[test]
fn a_run_by_options(rt: HostRuntime) {
    for (i, (options, end, shown)) in OPTIONS.iter().enumerate() {
        let row = (GCD, b"gcd(9), gcd(6).".as_slice(), *options, *end, *shown);
        assert!(rt; is_shown(rt.alloc(), &row), "row {i}");
    }
}

#[test]
fn worked_runs(rt: HostRuntime) {
    for (i, (program, posts, shown)) in QUIET.iter().enumerate() {
        let row = (*program, *posts, ALL, End::Quiet, *shown);
        assert!(rt; is_shown(rt.alloc(), &row), "row {i}");
    }
}

#[test]
fn other_runs_by_options(rt: HostRuntime) {
    for (i, row) in OTHERS.iter().enumerate() {
        assert!(rt; is_shown(rt.alloc(), row), "row {i}");
    }
}

/// Rules, posts, and the fault of the one or the other.
static FAULTS: [(&[u8], &[u8], RunFault); 10] = [
    (
        b"a ==> b.",
        b"",
        RunFault::Program(ReadFault {
            kind: Kind::Propagation,
            line: 1,
        }),
    ),
    (
        b"p(99999999999999999999) ==> q(Y).",
        b"",
        RunFault::Program(ReadFault {
            kind: Kind::Propagation,
            line: 1,
        }),
    ),
    (
        b"% one\n% two\n% three\np(X) <=> q(Y).",
        b"",
        RunFault::Program(ReadFault {
            kind: Kind::Binding,
            line: 4,
        }),
    ),
    (
        b"p(9223372036854775808) <=> true.",
        b"",
        RunFault::Program(ReadFault {
            kind: Kind::NumberRange,
            line: 1,
        }),
    ),
    (
        b"p(X) <=> q(X)",
        b"",
        RunFault::Program(ReadFault {
            kind: Kind::Syntax,
            line: 1,
        }),
    ),
    (
        b"p(s(s(s(s(s(s(s(s(z))))))))) <=> true.",
        b"",
        RunFault::Program(ReadFault {
            kind: Kind::TooMany,
            line: 1,
        }),
    ),
    (
        b"a <=> b.",
        b"a.\np(s(s(s(s(s(s(s(s(z))))))))).",
        RunFault::Posts(ReadFault {
            kind: Kind::TooMany,
            line: 2,
        }),
    ),
    (
        b"a ==> b.",
        b"p(X).",
        RunFault::Program(ReadFault {
            kind: Kind::Propagation,
            line: 1,
        }),
    ),
    (
        b"a <=> b.",
        b"\np(X).",
        RunFault::Posts(ReadFault {
            kind: Kind::Binding,
            line: 2,
        }),
    ),
    (
        b"a <=> b.",
        b"a",
        RunFault::Posts(ReadFault {
            kind: Kind::Syntax,
            line: 1,
        }),
    ),
];

/// The fault of a text that is too long.
const TOO_LONG: ReadFault = ReadFault {
    kind: Kind::TooLong,
    line: 0,
};

/// Whether a run ends in this fault.
fn is_at_fault(alloc: Global, program: &[u8], posts: &[u8], wanted: RunFault) -> bool {
    match run(alloc, program, posts, ALL) {
        Ok(_) => false,
        Err(fault) => fault == wanted,
    }
}

/// Whether a run ends quiet.
fn is_quiet(alloc: Global, program: &[u8], posts: &[u8]) -> bool {
    match run(alloc, program, posts, ALL) {
        Ok(made) => made.end == End::Quiet,
        Err(_) => false,
    }
}

#[test]
fn texts_at_fault(rt: HostRuntime) {
    for (i, (program, posts, wanted)) in FAULTS.iter().enumerate() {
        assert!(rt;
            is_at_fault(rt.alloc(), program, posts, *wanted),
            "texts {i}"
        );
    }
}

#[test]
fn texts_up_to_their_limit(rt: HostRuntime) -> Result<(), Fail> {
    let mut blanks = vec![in rt.alloc(); b' '; 65_536]?;
    assert!(rt; is_quiet(rt.alloc(), &blanks, b"a."));
    blanks.push(b' ')?;
    let fault = RunFault::Program(TOO_LONG);
    assert!(rt; is_at_fault(rt.alloc(), &blanks, b"", fault));
    let fault = RunFault::Posts(TOO_LONG);
    assert!(rt; is_at_fault(rt.alloc(), b"", &blanks, fault));
    Ok(())
}

/// The values of `A` and of `B`, and the one atom that is left when `t(A,B)` may become `r(C)`, where `C` is `A // B`, `A rem B`
/// and `A mod B`.
static DIVISIONS: [(&str, [&str; 3]); 4] = [
    ("-7,2", ["#2 r(-3)", "#2 r(-1)", "#2 r(1)"]),
    ("7,-2", ["#2 r(-3)", "#2 r(1)", "#2 r(-1)"]),
    (
        "-9223372036854775808,-1",
        ["#1 t(-9223372036854775808,-1)", "#2 r(0)", "#2 r(0)"],
    ),
    ("1,0", ["#1 t(1,0)", "#1 t(1,0)", "#1 t(1,0)"]),
];

/// The same where `C` is `A + B`.
static SUMS: [(&str, &str); 2] = [
    ("9223372036854775806,1", "#2 r(9223372036854775807)"),
    ("9223372036854775807,1", "#1 t(9223372036854775807,1)"),
];

/// Whether this atom is left.
fn is_left(alloc: Global, operator: &str, values: &str, left: &str) -> Option<bool> {
    let program = format!(in alloc; "t(A,B) <=> C is A {operator} B, r(C).").ok()?;
    let posts = format!(in alloc; "t({values}).").ok()?;
    let begin = format!(in alloc; "quiet\nstore 1\n{left}\nlog ").ok()?;
    let made = run(alloc, program.as_bytes(), posts.as_bytes(), ALL).ok()?;
    Some(made.bytes.as_slice().starts_with(begin.as_bytes()))
}

#[test]
fn worked_expressions(rt: HostRuntime) {
    for (values, left) in &DIVISIONS {
        for (operator, left) in ["//", "rem", "mod"].iter().zip(left) {
            let is = is_left(rt.alloc(), operator, values, left);
            assert_eq!(rt; is, Some(true), "{operator} at {values}");
        }
    }
    for (values, left) in &SUMS {
        let is = is_left(rt.alloc(), "+", values, left);
        assert_eq!(rt; is, Some(true), "sum of {values}");
    }
}

/// How many calls it has been told of, with those before them, and whether each count was greater than the one before, by at
/// most 2,048.
#[derive(Clone, Copy, Debug)]
struct Counted {
    calls: u64,
    counts_rise: bool,
}

impl Watch for Counted {
    fn done(&mut self, count: u64) {
        let passed_over = count.checked_sub(self.calls);
        self.counts_rise = self.counts_rise && passed_over.is_some_and(|calls| calls < 2_048);
        self.calls = count.saturating_add(1);
    }
}

/// Rules, atoms, how many calls are asked for, and how many a watch is told of with those before them: all that are made. The
/// first whole run makes nine: for each `b`, with which no rule applies, a claim, a question for a trial, and a drop; for the
/// `a` a claim, a question that gives a trial, and its firing. The second makes five: a claim, a question that gives a trial
/// whose guard fails, its report, a question that gives none, and a drop.
static TOLD: [(&[u8], &[u8], u64, u64); 7] = [
    (b"a <=> b.", b"b, a.", 0, 0),
    (b"a <=> b.", b"b, a.", 1, 1),
    (b"a <=> b.", b"b, a.", 5, 5),
    (b"a <=> b.", b"b, a.", 1_000_000, 9),
    (b"p(X) <=> X \\== 1 | q.", b"p(1).", 2, 2),
    (b"p(X) <=> X \\== 1 | q.", b"p(1).", 3, 3),
    (b"p(X) <=> X \\== 1 | q.", b"p(1).", 1_000_000, 5),
];

/// Whether a watch is told of so many calls of a run that makes at most so many steps.
fn is_told(alloc: Global, program: &[u8], posts: &[u8], steps: u64, told: u64) -> bool {
    let mut counted = Counted {
        calls: 0,
        counts_rise: true,
    };
    let _ = watched_run(alloc, program, posts, steps, 9, Show::All, &mut counted);
    counted.counts_rise && counted.calls == told
}

#[test]
fn calls_are_told(rt: HostRuntime) {
    for (program, posts, steps, told) in &TOLD {
        let is = is_told(rt.alloc(), program, posts, *steps, *told);
        assert!(rt; is, "{steps} calls");
    }
}
