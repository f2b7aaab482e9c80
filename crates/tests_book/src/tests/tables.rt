//! Worked tables of calls.
use crate::tests::rows::Row;
use crate::tests::script::Call::{
    Claim, DropGoal, Fire, FireOf, MarkStray, Post, PutDown, Report, ReportOf, TakeStray, Trial,
};
use crate::tests::script::Opening;

/// A table of calls.
#[derive(Clone, Copy)]
pub struct Table<'t> {
    pub name: &'t str,
    /// What its book is opened with.
    pub opening: Opening<'t>,
    pub rows: &'t [Row<'t>],
    /// The lines that it ends in.
    pub lines: &'t str,
}

/// A token turns each `n` into an `r`.
pub const TOKEN: Opening = Opening {
    program: "t \\ n(X) <=> r(X).",
    names: "",
    limit: 4_294_967_295,
};

pub const GCD: Opening = Opening {
    program: "gcd(0) <=> true. gcd(N) \\ gcd(M) <=> 0 < N, N =< M | L is M mod N, gcd(L).",
    names: "",
    limit: 4_294_967_295,
};

/// Two seats hold the same constraint in their candidates, and one of them fires.
static ONE_OF_TWO_FIRES: Table = Table {
    name: "one of two fires",
    opening: TOKEN,
    rows: &[
        (0, Post("n(1), t, t."), "Ok(1)", "WWW"),
        (1, Claim(1), "Ok(1)", "1WW"),
        (1, Trial(1), "1.2 [1] Part", "1WW"),
        (1, Report(1), "Ok(())", "1WW"),
        (1, Trial(1), "Done", "1WW"),
        (1, DropGoal(1), "Ok(Dropped)", "EWW"),
        (1, Claim(2), "Ok(2)", "E1W"),
        (2, Claim(3), "Ok(3)", "E12"),
        (1, Trial(2), "1.1 [2] Part", "E12"),
        (1, Report(2), "Ok(())", "E12"),
        (1, Trial(2), "1.1 [2, 1] Whole", "E12"),
        (2, Trial(3), "1.1 [3] Part", "E12"),
        (2, Report(3), "Ok(())", "E12"),
        (2, Trial(3), "1.1 [3, 1] Whole", "E12"),
        (
            1,
            Fire(2),
            "Ok(Fired(Fired { first: 4, count: 1, active_lives: true }))",
            "E12W",
        ),
        (2, Fire(3), "Ok(Missed)", "E12W"),
    ],
    lines: "open\nP 1 n(1)\nP 2 t\nP 3 t\nA 1 1\nD 1\nA 2 2\nA 3 3\nF 2 1 2\\1\n#2 t\n#3 t\n",
};

/// A kept head of a candidate has left the store, and its removed head is still there.
static KEPT_HEAD_IS_GONE: Table = Table {
    name: "kept head is gone",
    opening: Opening {
        program: "t \\ n(X) <=> r(X). k, t <=> true.",
        names: "",
        limit: 4_294_967_295,
    },
    rows: &[
        (0, Post("t, n(1), k."), "Ok(1)", "WWW"),
        (1, Claim(1), "Ok(1)", "1WW"),
        (2, Claim(2), "Ok(2)", "12W"),
        (3, Claim(3), "Ok(3)", "123"),
        (2, Trial(2), "1.2 [2] Part", "123"),
        (2, Report(2), "Ok(())", "123"),
        (2, Trial(2), "1.2 [2, 1] Whole", "123"),
        (3, Trial(3), "2.1 [3] Part", "123"),
        (3, Report(3), "Ok(())", "123"),
        (3, Trial(3), "2.1 [3, 1] Whole", "123"),
        (
            3,
            Fire(3),
            "Ok(Fired(Fired { first: 4, count: 0, active_lives: false }))",
            "12E",
        ),
        (2, Fire(2), "Ok(Missed)", "12E"),
        (2, Trial(2), "Done", "12E"),
        (2, DropGoal(2), "Ok(Dropped)", "1EE"),
        (1, Trial(1), "Gone", "1EE"),
        (1, DropGoal(1), "Ok(Dropped)", "EEE"),
    ],
    lines: "quiet\nP 1 t\nP 2 n(1)\nP 3 k\nA 1 1\nA 2 2\nA 3 3\nF 3 2 \\3,1\nD 2\nD 1\n#2 n(1)\n",
};

/// A goal is dropped while a younger one may fire with it, which then does.
pub static OLDER_GOAL_IS_DROPPED: Table = Table {
    name: "older goal is dropped",
    opening: TOKEN,
    rows: &[
        (0, Post("n(1), t."), "Ok(1)", "WW"),
        (1, Claim(1), "Ok(1)", "1W"),
        (1, Trial(1), "1.2 [1] Part", "1W"),
        (1, Report(1), "Ok(())", "1W"),
        (1, Trial(1), "Done", "1W"),
        (2, Claim(2), "Ok(2)", "12"),
        (1, DropGoal(1), "Ok(Dropped)", "E2"),
        (1, Claim(1), "Err(NotWaiting(Ended))", "E2"),
        (2, Trial(2), "1.1 [2] Part", "E2"),
        (2, Report(2), "Ok(())", "E2"),
        (2, Trial(2), "1.1 [2, 1] Whole", "E2"),
        (
            2,
            Fire(2),
            "Ok(Fired(Fired { first: 3, count: 1, active_lives: true }))",
            "E2W",
        ),
        (2, Trial(2), "Done", "E2W"),
        (2, DropGoal(2), "Ok(Dropped)", "EEW"),
        (2, Claim(3), "Ok(3)", "EE2"),
        (2, Trial(3), "Done", "EE2"),
        (2, DropGoal(3), "Ok(Dropped)", "EEE"),
    ],
    lines: "quiet\nP 1 n(1)\nP 2 t\nA 1 1\nA 2 2\nD 1\nF 2 1 2\\1\nD 2\nA 3 3\nD 3\n#2 t\n#3 r(1)\n",
};

/// A ticket is put down in the middle of its search, with which another seat goes on.
static ANOTHER_SEAT_GOES_ON: Table = Table {
    name: "another seat goes on",
    opening: TOKEN,
    rows: &[
        (0, Post("n(1), t."), "Ok(1)", "WW"),
        (1, Claim(1), "Ok(1)", "1W"),
        (1, Trial(1), "1.2 [1] Part", "1W"),
        (1, Report(1), "Ok(())", "1W"),
        (1, Trial(1), "Done", "1W"),
        (1, DropGoal(1), "Ok(Dropped)", "EW"),
        (1, Claim(2), "Ok(2)", "E1"),
        (1, Trial(2), "1.1 [2] Part", "E1"),
        (1, Report(2), "Ok(())", "E1"),
        (1, PutDown(2), "Ok(())", "ER"),
        (1, TakeStray, "Some(2)", "ER"),
        (1, TakeStray, "None", "ER"),
        (2, Claim(2), "Ok(2)", "E2"),
        (2, Trial(2), "1.1 [2, 1] Whole", "E2"),
        (
            2,
            Fire(2),
            "Ok(Fired(Fired { first: 3, count: 1, active_lives: true }))",
            "E2W",
        ),
    ],
    lines: "open\nP 1 n(1)\nP 2 t\nA 1 1\nD 1\nA 2 2\nF 2 1 2\\1\n#2 t\n",
};

/// No label is above the limit.
static LABELS_ARE_SPENT: Table = Table {
    name: "labels are spent",
    opening: Opening {
        program: "",
        names: "a, b, c, d.",
        limit: 3,
    },
    rows: &[
        (0, Post("a, b, c, d."), "Ok(1)", "WWWW"),
        (1, Claim(1), "Ok(1)", "1WWW"),
        (1, Trial(1), "Done", "1WWW"),
        (1, DropGoal(1), "Ok(Dropped)", "EWWW"),
        (1, Claim(2), "Ok(2)", "E1WW"),
        (1, DropGoal(2), "Ok(Dropped)", "EEWW"),
        (1, Claim(3), "Ok(3)", "EE1W"),
        (1, DropGoal(3), "Ok(Dropped)", "EEEW"),
        (1, Claim(4), "Err(LabelsSpent)", "EEEW"),
    ],
    lines: "open\nP 1 a\nP 2 b\nP 3 c\nP 4 d\nA 1 1\nD 1\nA 2 2\nD 2\nA 3 3\nD 3\n#1 a\n#2 b\n#3 c\n",
};

/// Calls that are refused, each of which leaves the book as it was.
static REFUSED_CALLS: Table = Table {
    name: "refused calls",
    opening: TOKEN,
    rows: &[
        (0, Post("n(1), t."), "Ok(1)", "WW"),
        (1, Claim(99), "Err(NotWaiting(Unknown))", "WW"),
        (1, Claim(1), "Ok(1)", "1W"),
        (2, Trial(1), "Err(NotHeld)", "1W"),
        (1, Trial(1), "1.2 [1] Part", "1W"),
        (1, Fire(1), "Err(NotWhole)", "1W"),
        (1, Report(1), "Ok(())", "1W"),
        (1, Report(1), "Err(Stale)", "1W"),
        (1, Trial(1), "Done", "1W"),
        (1, DropGoal(1), "Ok(Dropped)", "EW"),
        (1, Claim(2), "Ok(2)", "E1"),
        (1, Trial(2), "1.1 [2] Part", "E1"),
        (1, Report(2), "Ok(())", "E1"),
        (1, Trial(2), "1.1 [2, 1] Whole", "E1"),
        (1, Report(2), "Err(IsWhole)", "E1"),
        (
            1,
            Fire(2),
            "Ok(Fired(Fired { first: 3, count: 1, active_lives: true }))",
            "E1W",
        ),
    ],
    lines: "open\nP 1 n(1)\nP 2 t\nA 1 1\nD 1\nA 2 2\nF 2 1 2\\1\n#2 t\n",
};

/// One seat takes each ticket to its end.
static ONE_SEAT: Table = Table {
    name: "one seat",
    opening: GCD,
    rows: &[
        (0, Post("gcd(9), gcd(6)."), "Ok(1)", "WW"),
        (1, Claim(1), "Ok(1)", "1W"),
        (1, Trial(1), "1.1 [1] Misfit", "1W"),
        (1, Report(1), "Ok(())", "1W"),
        (1, Trial(1), "2.1 [1] Part", "1W"),
        (1, Report(1), "Ok(())", "1W"),
        (1, Trial(1), "2.2 [1] Part", "1W"),
        (1, Report(1), "Ok(())", "1W"),
        (1, Trial(1), "Done", "1W"),
        (1, DropGoal(1), "Ok(Dropped)", "EW"),
        (1, Claim(2), "Ok(2)", "E1"),
        (1, Trial(2), "1.1 [2] Misfit", "E1"),
        (1, Report(2), "Ok(())", "E1"),
        (1, Trial(2), "2.1 [2] Part", "E1"),
        (1, Report(2), "Ok(())", "E1"),
        (1, Trial(2), "2.1 [2, 1] Whole", "E1"),
        (
            1,
            Fire(2),
            "Ok(Fired(Fired { first: 3, count: 1, active_lives: true }))",
            "E1W",
        ),
        (1, Trial(2), "2.2 [2] Part", "E1W"),
        (1, Report(2), "Ok(())", "E1W"),
        (1, Trial(2), "Done", "E1W"),
        (1, DropGoal(2), "Ok(Dropped)", "EEW"),
        (1, Claim(3), "Ok(3)", "EE1"),
        (1, Trial(3), "1.1 [3] Misfit", "EE1"),
        (1, Report(3), "Ok(())", "EE1"),
        (1, Trial(3), "2.1 [3] Part", "EE1"),
        (1, Report(3), "Ok(())", "EE1"),
        (1, Trial(3), "2.1 [3, 2] Whole", "EE1"),
        (
            1,
            Fire(3),
            "Ok(Fired(Fired { first: 4, count: 1, active_lives: true }))",
            "EE1W",
        ),
        (1, Trial(3), "2.2 [3] Part", "EE1W"),
        (1, Report(3), "Ok(())", "EE1W"),
        (1, Trial(3), "Done", "EE1W"),
        (1, DropGoal(3), "Ok(Dropped)", "EEEW"),
        (1, Claim(4), "Ok(4)", "EEE1"),
        (1, Trial(4), "1.1 [4] Whole", "EEE1"),
        (
            1,
            Fire(4),
            "Ok(Fired(Fired { first: 5, count: 0, active_lives: false }))",
            "EEEE",
        ),
    ],
    lines: "quiet\nP 1 gcd(9)\nP 2 gcd(6)\nA 1 1\nD 1\nA 2 2\nF 2 2 2\\1\nD 2\nA 3 3\nF 3 2 3\\2\nD 3\nA 4 4\nF 4 1 \\4\n#3 gcd(3)\n",
};

/// Each answer of each call.
static EACH_ANSWER: Table = Table {
    name: "each answer",
    opening: Opening {
        program: "t \\ n(X) <=> r(X). r(0) <=> true.",
        names: "",
        limit: 7,
    },
    rows: &[
        (0, Post("x."), "Err(UnknownName)", ""),
        (0, Post("t, n(x)."), "Err(UnknownName)", ""),
        (0, Post(""), "Ok(1)", ""),
        (0, Post("n(1), t."), "Ok(1)", "WW"),
        (1, Claim(0), "Err(NotWaiting(Unknown))", "WW"),
        (1, Claim(3), "Err(NotWaiting(Unknown))", "WW"),
        (1, MarkStray(3), "Err(NotWaiting(Unknown))", "WW"),
        (1, Trial(1), "Err(NotHeld)", "WW"),
        (1, DropGoal(1), "Err(NotHeld)", "WW"),
        (1, PutDown(1), "Err(NotHeld)", "WW"),
        (1, TakeStray, "None", "WW"),
        (1, Claim(1), "Ok(1)", "1W"),
        (2, Claim(1), "Err(NotWaiting(Held(1)))", "1W"),
        (2, MarkStray(1), "Err(NotWaiting(Held(1)))", "1W"),
        (2, Trial(1), "Err(NotHeld)", "1W"),
        (2, DropGoal(1), "Err(NotHeld)", "1W"),
        (2, PutDown(1), "Err(NotHeld)", "1W"),
        (1, DropGoal(1), "Ok(Unfinished)", "1W"),
        (1, Trial(1), "1.2 [1] Part", "1W"),
        (1, Trial(1), "1.2 [1] Part", "1W"),
        (2, ReportOf(1, 1), "Err(NotHeld)", "1W"),
        (2, FireOf(1, 1), "Err(NotHeld)", "1W"),
        (1, Fire(1), "Err(NotWhole)", "1W"),
        (1, ReportOf(1, 1), "Ok(())", "1W"),
        (1, Report(1), "Err(Stale)", "1W"),
        (1, Fire(1), "Err(Stale)", "1W"),
        (1, Trial(1), "Done", "1W"),
        (1, PutDown(1), "Ok(())", "RW"),
        (1, Trial(1), "Err(NotHeld)", "RW"),
        (1, TakeStray, "Some(1)", "RW"),
        (1, TakeStray, "None", "RW"),
        (2, MarkStray(2), "Ok(())", "RW"),
        (2, MarkStray(1), "Ok(())", "RW"),
        (2, Claim(1), "Ok(1)", "2W"),
        (1, TakeStray, "Some(2)", "2W"),
        (1, TakeStray, "None", "2W"),
        (2, Trial(1), "Done", "2W"),
        (1, Claim(2), "Ok(2)", "21"),
        (1, Trial(2), "1.1 [2] Part", "21"),
        (1, Report(2), "Ok(())", "21"),
        (1, Trial(2), "1.1 [2, 1] Whole", "21"),
        (1, Report(2), "Err(IsWhole)", "21"),
        (1, PutDown(2), "Ok(())", "2R"),
        (1, Claim(2), "Ok(2)", "21"),
        (1, Fire(2), "Err(Stale)", "21"),
        (1, Trial(2), "1.1 [2, 1] Whole", "21"),
        (
            1,
            Fire(2),
            "Ok(Fired(Fired { first: 3, count: 1, active_lives: true }))",
            "21W",
        ),
        (2, Trial(1), "Gone", "21W"),
        (2, DropGoal(1), "Ok(Dropped)", "E1W"),
        (2, Claim(1), "Err(NotWaiting(Ended))", "E1W"),
        (2, MarkStray(1), "Err(NotWaiting(Ended))", "E1W"),
        (1, Fire(2), "Err(Stale)", "E1W"),
        (1, Trial(2), "Done", "E1W"),
        (1, DropGoal(2), "Ok(Dropped)", "EEW"),
        (0, Post("n(0), t, t, n(3)."), "Ok(4)", "EEWWWWW"),
        (3, Claim(4), "Ok(3)", "EEW3WWW"),
        (1, Claim(5), "Ok(4)", "EEW31WW"),
        (2, Claim(6), "Ok(5)", "EEW312W"),
        (1, Trial(5), "1.1 [4] Part", "EEW312W"),
        (1, Report(5), "Ok(())", "EEW312W"),
        (1, Trial(5), "1.1 [4, 3] Whole", "EEW312W"),
        (2, Trial(6), "1.1 [5] Part", "EEW312W"),
        (2, Report(6), "Ok(())", "EEW312W"),
        (2, Trial(6), "1.1 [5, 3] Whole", "EEW312W"),
        (2, FireOf(6, 7), "Err(Stale)", "EEW312W"),
        (
            1,
            Fire(5),
            "Ok(Fired(Fired { first: 8, count: 1, active_lives: true }))",
            "EEW312WW",
        ),
        (2, Fire(6), "Ok(Missed)", "EEW312WW"),
        (2, Fire(6), "Err(Stale)", "EEW312WW"),
        (2, Trial(6), "Done", "EEW312WW"),
        (2, DropGoal(6), "Ok(Dropped)", "EEW31EWW"),
        (3, DropGoal(4), "Ok(Dropped)", "EEWE1EWW"),
        (1, DropGoal(5), "Ok(Dropped)", "EEWEEEWW"),
        (2, MarkStray(7), "Ok(())", "EEWEEEWW"),
        (1, Claim(7), "Ok(6)", "EEWEEE1W"),
        (2, TakeStray, "None", "EEWEEE1W"),
        (1, Trial(7), "1.2 [6] Part", "EEWEEE1W"),
        (1, Report(7), "Ok(())", "EEWEEE1W"),
        (1, Trial(7), "1.2 [6, 2] Whole", "EEWEEE1W"),
        (
            1,
            Fire(7),
            "Ok(Fired(Fired { first: 9, count: 1, active_lives: false }))",
            "EEWEEEEWW",
        ),
        (1, Fire(7), "Err(NotHeld)", "EEWEEEEWW"),
        (1, Claim(3), "Ok(7)", "EE1EEEEWW"),
        (1, Trial(3), "2.1 [7] Misfit", "EE1EEEEWW"),
        (1, Report(3), "Ok(())", "EE1EEEEWW"),
        (1, Trial(3), "Done", "EE1EEEEWW"),
        (1, Claim(8), "Err(LabelsSpent)", "EE1EEEEWW"),
        (1, PutDown(3), "Ok(())", "EEREEEEWW"),
        (2, Claim(3), "Ok(7)", "EE2EEEEWW"),
        (2, DropGoal(3), "Ok(Dropped)", "EEEEEEEWW"),
    ],
    lines: "open\nP 1 n(1)\nP 2 t\nA 1 1\nA 2 2\nF 2 1 2\\1\nD 1\nD 2\nP 4 n(0)\nP 5 t\nP 6 t\nP 7 n(3)\nA 4 3\nA 5 4\nA 6 5\nF 5 1 4\\3\nD 6\nD 4\nD 5\nA 7 6\nF 7 1 2\\6\nA 3 7\nD 3\n#2 t\n#4 t\n#5 t\n#7 r(1)\n",
};

/// Compound values at heads, in a body and in posts, and posts with a name deep in a value that the table lacks.
static COMPOUND_VALUES: Table = Table {
    name: "compound values",
    opening: Opening {
        program: "t \\ n(f(X)) <=> r(g(X,f(X))). u(X), r(g(X,Y)) <=> s(Y).",
        names: "a(h).",
        limit: 100,
    },
    rows: &[
        (0, Post("n(f(x))."), "Err(UnknownName)", ""),
        (0, Post("t, n(f(x(1)))."), "Err(UnknownName)", ""),
        (0, Post("n(f(h(a))), t, n(h(a)), u(h(a))."), "Ok(1)", "WWWW"),
        (1, Claim(1), "Ok(1)", "1WWW"),
        (1, Trial(1), "1.2 [1] Part", "1WWW"),
        (1, Report(1), "Ok(())", "1WWW"),
        (1, Trial(1), "Done", "1WWW"),
        (1, DropGoal(1), "Ok(Dropped)", "EWWW"),
        (2, Claim(2), "Ok(2)", "E2WW"),
        (3, Claim(3), "Ok(3)", "E23W"),
        (3, Trial(3), "1.2 [3] Misfit", "E23W"),
        (3, Report(3), "Ok(())", "E23W"),
        (3, Trial(3), "Done", "E23W"),
        (2, Trial(2), "1.1 [2] Part", "E23W"),
        (2, Report(2), "Ok(())", "E23W"),
        (2, Trial(2), "1.1 [2, 1] Whole", "E23W"),
        (
            2,
            Fire(2),
            "Ok(Fired(Fired { first: 5, count: 1, active_lives: true }))",
            "E23WW",
        ),
        (3, DropGoal(3), "Ok(Dropped)", "E2EWW"),
        (2, Trial(2), "Done", "E2EWW"),
        (2, DropGoal(2), "Ok(Dropped)", "EEEWW"),
        (1, Claim(5), "Ok(4)", "EEEW1"),
        (1, Trial(5), "2.2 [4] Part", "EEEW1"),
        (1, Report(5), "Ok(())", "EEEW1"),
        (1, Trial(5), "Done", "EEEW1"),
        (1, DropGoal(5), "Ok(Dropped)", "EEEWE"),
        (1, Claim(4), "Ok(5)", "EEE1E"),
        (1, Trial(4), "2.1 [5] Part", "EEE1E"),
        (1, Report(4), "Ok(())", "EEE1E"),
        (1, Trial(4), "2.1 [5, 4] Whole", "EEE1E"),
        (
            1,
            Fire(4),
            "Ok(Fired(Fired { first: 6, count: 1, active_lives: false }))",
            "EEEEEW",
        ),
        (1, Claim(6), "Ok(6)", "EEEEE1"),
        (1, Trial(6), "Done", "EEEEE1"),
        (1, DropGoal(6), "Ok(Dropped)", "EEEEEE"),
    ],
    lines: "quiet\nP 1 n(f(h(a)))\nP 2 t\nP 3 n(h(a))\nP 4 u(h(a))\nA 1 1\nD 1\nA 2 2\nA 3 3\nF 2 1 2\\1\nD 3\nD 2\nA 5 4\nD 5\nA 4 5\nF 4 2 \\5,4\nA 6 6\nD 6\n#2 t\n#3 n(h(a))\n#6 s(f(h(a)))\n",
};

/// So many tickets that a post and a body each grow their tree of tickets in their midst.
static MANY_TICKETS: Table = Table {
    name: "many tickets",
    opening: Opening {
        program: "a <=> b, b, b, b, b, b, b, b, b, b, b, b, b, b, b, b.",
        names: "",
        limit: 10,
    },
    rows: &[
        (
            0,
            Post("a, a, a, a, a, a, a, a, a, a, a, a, a, a."),
            "Ok(1)",
            "WWWWWWWWWWWWWW",
        ),
        (1, Claim(1), "Ok(1)", "1WWWWWWWWWWWWW"),
        (1, Trial(1), "1.1 [1] Whole", "1WWWWWWWWWWWWW"),
        (
            1,
            Fire(1),
            "Ok(Fired(Fired { first: 15, count: 16, active_lives: false }))",
            "EWWWWWWWWWWWWWWWWWWWWWWWWWWWWW",
        ),
    ],
    lines: "open\nP 1 a\nP 2 a\nP 3 a\nP 4 a\nP 5 a\nP 6 a\nP 7 a\nP 8 a\nP 9 a\nP 10 a\nP 11 a\nP 12 a\nP 13 a\nP 14 a\nA 1 1\nF 1 1 \\1\n",
};

/// The search of a goal without partners.
pub static ALONE: Table = Table {
    name: "alone",
    opening: GCD,
    rows: &[
        (0, Post("gcd(4)."), "Ok(1)", "W"),
        (1, Claim(1), "Ok(1)", "1"),
        (1, Trial(1), "1.1 [1] Misfit", "1"),
        (1, Report(1), "Ok(())", "1"),
        (1, Trial(1), "2.1 [1] Part", "1"),
        (1, Report(1), "Ok(())", "1"),
        (1, Trial(1), "2.2 [1] Part", "1"),
        (1, Report(1), "Ok(())", "1"),
        (1, Trial(1), "Done", "1"),
        (1, DropGoal(1), "Ok(Dropped)", "E"),
    ],
    lines: "quiet\nP 1 gcd(4)\nA 1 1\nD 1\n#1 gcd(4)\n",
};

/// Words of a seat that was told no trial for the ticket, or whose last trial was of another ticket or told to another seat.
pub static OWN_WORDS: Table = Table {
    name: "own words",
    opening: TOKEN,
    rows: &[
        (0, Post("n(1), t."), "Ok(1)", "WW"),
        (1, Report(1), "Err(NotHeld)", "WW"),
        (1, Claim(1), "Ok(1)", "1W"),
        (1, Report(1), "Err(Stale)", "1W"),
        (1, Fire(1), "Err(Stale)", "1W"),
        (2, Fire(1), "Err(NotHeld)", "1W"),
        (1, Trial(1), "1.2 [1] Part", "1W"),
        (2, Claim(2), "Ok(2)", "12"),
        (2, Trial(2), "1.1 [2] Part", "12"),
        (1, Report(1), "Ok(())", "12"),
        (1, PutDown(1), "Ok(())", "R2"),
        (2, Claim(1), "Ok(1)", "22"),
        (2, Report(1), "Err(Stale)", "22"),
        (2, Report(2), "Ok(())", "22"),
        (2, Trial(2), "1.1 [2, 1] Whole", "22"),
        (1, Fire(2), "Err(NotHeld)", "22"),
        (
            2,
            Fire(2),
            "Ok(Fired(Fired { first: 3, count: 1, active_lives: true }))",
            "22W",
        ),
    ],
    lines: "open\nP 1 n(1)\nP 2 t\nA 1 1\nA 2 2\nF 2 1 2\\1\n#2 t\n",
};

/// The tables that hold row by row and as one list.
pub fn tables() -> [&'static Table<'static>; 10] {
    [
        &KEPT_HEAD_IS_GONE,
        &ONE_OF_TWO_FIRES,
        &OLDER_GOAL_IS_DROPPED,
        &ANOTHER_SEAT_GOES_ON,
        &LABELS_ARE_SPENT,
        &REFUSED_CALLS,
        &ONE_SEAT,
        &EACH_ANSWER,
        &COMPOUND_VALUES,
        &MANY_TICKETS,
    ]
}
