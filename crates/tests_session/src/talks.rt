//! Worked sessions.
use chr_session::Ended;

/// The greatest label limit.
pub const GREATEST: u32 = 4_294_967_295;

/// A session.
#[derive(Clone, Copy, Debug)]
pub struct Talk<'t> {
    /// What it shows.
    pub name: &'t str,
    /// No label above this one is given.
    pub limit: u32,
    /// What the session is told, a command a line: it stands after `> `, and `~` in it is the end of a line. Each other line
    /// is one of the reply to the command before it.
    pub lines: &'t [u8],
    /// How it ends.
    pub ended: Ended,
    /// Whether a program stands at its end.
    pub stands: bool,
}

/// A session without a limit, whose input ends while a program stands.
const OPEN: Talk = Talk {
    name: "",
    limit: GREATEST,
    lines: b"",
    ended: Ended::End,
    stands: true,
};

/// A run to its end.
pub static RUN: Talk = Talk {
    name: "a run",
    lines: b"
> load 75~gcd(0) <=> true.~gcd(N) \\ gcd(M) <=> 0 < N, N =< M | L is M mod N, gcd(L).~
loaded 2
> post gcd(9), gcd(6).\r~
posted 1 2
> wait 1000~
quiet
> store\r~
store 1
#3 gcd(3)
> log 11~
log 2
A 4 4
F 4 1 \\4
> quit~
bye
",
    ended: Ended::Quit,
    ..OPEN
};

/// A run with compound values to its end.
pub static COMPOUND_RUN: Talk = Talk {
    name: "a run with compound values",
    lines: b"
> load 24~p(f(X,Y)) <=> q(f(Y,X)).
loaded 1
> post p(f(a,1)).~
posted 1 1
> wait 1000~
quiet
> store~
store 1
#2 q(f(1,a))
> log 3~
log 3
F 1 1 \\1
A 2 2
D 2
> quit~
bye
",
    ended: Ended::Quit,
    ..OPEN
};

static COMPOUND_POSTS: Talk = Talk {
    name: "posts of compound values, with faults and without",
    lines: b"
> load 0~
loaded 0
> post p(f(1,g(a))), q(f).~
posted 1 2
> post p(s(s(s(s(s(s(s(z)))))))).~
posted 3 1
> post p(s(s(s(s(s(s(s(s(z))))))))).~
fault E07 TooMany 1
> post p(f(1,2,3,4,5,6,7,8,9)).~
fault E07 TooMany 1
> post p(f(X)).~
fault E08 Binding 1
> post p(f()).~
fault E04 Syntax 1
> post p(f(9223372036854775808)).~
fault E06 NumberRange 1
> wait 3~
open
> store~
store 1
#1 p(f(1,g(a)))
> log 1~
log 5
P 1 p(f(1,g(a)))
P 2 q(f)
P 3 p(s(s(s(s(s(s(s(z))))))))
A 1 1
D 1
",
    ..OPEN
};

static RUN_IN_PARTS: Talk = Talk {
    name: "a load with a fault, and a run in parts",
    lines: b"
> load 9~a ==> b.~
fault E05 Propagation 1
> load 9~a <=> b.~
loaded 1
> post a.~
posted 1 1
> wait 3~
open
> store~
store 0
> wait 3~
quiet
> store~
store 1
#2 b
> log 3~
log 3
F 1 1 \\1
A 2 2
D 2
",
    ..OPEN
};

static NO_PROGRAM_STANDS: Talk = Talk {
    name: "no program stands",
    lines: b"
> post a.~
fault E24 NoProgram
> post p(X).~
fault E24 NoProgram
> post~
fault E24 NoProgram
> wait 1~
fault E24 NoProgram
> store~
fault E24 NoProgram
> log 1~
fault E24 NoProgram
> wait~
fault E21 UnknownCommand
> store a~
fault E21 UnknownCommand
> log 0~
fault E21 UnknownCommand
> wait 99999999999~
fault E21 UnknownCommand
> load 4294967296~
fault E21 UnknownCommand
> ~
> load 9~a ==> b.~
fault E05 Propagation 1
> store~
fault E24 NoProgram
",
    stands: false,
    ..OPEN
};

static PROGRAM_STANDS: Talk = Talk {
    name: "a program stands",
    lines: b"
> load 75~gcd(0) <=> true.~gcd(N) \\ gcd(M) <=> 0 < N, N =< M | L is M mod N, gcd(L).~
loaded 2
> load 75~gcd(0) <=> true.~gcd(N) \\ gcd(M) <=> 0 < N, N =< M | L is M mod N, gcd(L).~
fault E20 AlreadyLoaded
> load 9~a ==> b.~
fault E20 AlreadyLoaded
> load 0~
fault E20 AlreadyLoaded
> load~
fault E21 UnknownCommand
> load 2 2~
fault E21 UnknownCommand
> load a~
fault E21 UnknownCommand
> load 4294967296~
fault E21 UnknownCommand
> log 0~
fault E21 UnknownCommand
> wait 99999999999~
fault E21 UnknownCommand
> post p(X).~
fault E08 Binding 1
> wait 0~
quiet
> post gcd(4).~
posted 1 1
> wait 8~
open
> log 1~
log 2
P 1 gcd(4)
A 1 1
> wait 1~
open
> wait 1~
open
> wait 2~
quiet
> log 3~
log 1
D 1
",
    ..OPEN
};

static FAULTY_PROGRAMS: Talk = Talk {
    name: "programs with faults",
    lines: b"
> load 14~p <=> true.~\xff~
fault E03 BadByte 2
> load 13~p(X) <=> q(X)
fault E04 Syntax 1
> load 9~a ==> b.~
fault E05 Propagation 1
> load 32~p(9223372036854775808) <=> true.
fault E06 NumberRange 1
> load 20~a,a,a,a,a,a,a <=> b.
fault E07 TooMany 1
> load 38~p(s(s(s(s(s(s(s(s(z))))))))) <=> true.
fault E07 TooMany 1
> load 34~% one~% two~% three~p(X) <=> q(Y).
fault E08 Binding 4
> load 0~
loaded 0
",
    ..OPEN
};

static POSTS: Talk = Talk {
    name: "posts, with faults and without",
    lines: b"
> load 0~
loaded 0
> post \xff~
fault E03 BadByte 1
> post a~
fault E04 Syntax 1
> post a. b~
fault E04 Syntax 1
> post true.~
fault E04 Syntax 1
> post p(9223372036854775808).~
fault E06 NumberRange 1
> post p(1,2,3,4,5,6,7,8,9).~
fault E07 TooMany 1
> post p(X).~
fault E08 Binding 1
> post~
posted 1 0
> post a, b(2).~
posted 1 2
> post c. d(-1,e). % c~
posted 3 2
> post~
posted 5 0
> store~
store 0
> log 1~
log 4
P 1 a
P 2 b(2)
P 3 c
P 4 d(-1,e)
> log 4~
log 1
P 4 d(-1,e)
> log 5~
log 0
> log 4294967295~
log 0
> wait 3~
open
> store~
store 1
#1 a
> wait 4294967295~
quiet
> store~
store 4
#1 a
#2 b(2)
#3 c
#4 d(-1,e)
> log 9~
log 4
A 3 3
D 3
A 4 4
D 4
",
    ..OPEN
};

static LEAST_LIMIT: Talk = Talk {
    name: "the least label limit",
    limit: 0,
    lines: b"
> load 0~
loaded 0
> wait 7~
quiet
> post a.~
posted 1 1
> wait 7~
open
> log 1~
log 1
P 1 a
",
    ..OPEN
};

static LABELS_ARE_SPENT: Talk = Talk {
    name: "labels are spent",
    limit: 3,
    lines: b"
> load 0~
loaded 0
> post a, b, c, d.~
posted 1 4
> wait 1000000~
open
> store~
store 3
#1 a
#2 b
#3 c
> log 10~
log 1
D 3
> wait 1000000~
open
",
    ..OPEN
};

static BLANKS_AND_LINE_ENDS: Talk = Talk {
    name: "blanks, tabs and line ends",
    lines: b"
> ~\r~ ~\t\r~ \t \t\r~
> \t load \t 9 \t\r~a <=> b.~
loaded 1
> post a.~
posted 1 1
>  post\ta. \r~
posted 2 1
> \tpost\t \ta,\tb. \t~
posted 3 2
> post a,\rb.~
posted 5 2
> post \t\r~
posted 7 0
> \twait\t0 ~
open
>   wait   0000000000\t\r~
open
> wait 4294967295\r~
quiet
> \tlog\t25\t\r~
log 2
A 10 10
D 10
>  \tstore\t \r~
store 6
#4 b
#6 b
#7 b
#8 b
#9 b
#10 b
> \r\r~
fault E21 UnknownCommand
> \rwait 0~
fault E21 UnknownCommand
> wa\rit 0~
fault E21 UnknownCommand
> wait\r0~
fault E21 UnknownCommand
> wait 0\r\r~
fault E21 UnknownCommand
> wait 0\r ~
fault E21 UnknownCommand
> \t quit \t\r~store~
bye
",
    ended: Ended::Quit,
    ..OPEN
};

static WORDS_AND_NUMBERS: Talk = Talk {
    name: "words and numbers",
    lines: b"
> load 0000000000~
loaded 0
> hello~
fault E21 UnknownCommand
> Store~
fault E21 UnknownCommand
> stores~
fault E21 UnknownCommand
> stor~
fault E21 UnknownCommand
> store 1~
fault E21 UnknownCommand
> postp.~
fault E21 UnknownCommand
> wait~
fault E21 UnknownCommand
> wait0~
fault E21 UnknownCommand
> wait 0 0~
fault E21 UnknownCommand
> wait +1~
fault E21 UnknownCommand
> wait -1~
fault E21 UnknownCommand
> wait 1.~
fault E21 UnknownCommand
> wait a~
fault E21 UnknownCommand
> wait 00000000001~
fault E21 UnknownCommand
> wait 4294967296~
fault E21 UnknownCommand
> wait 9999999999~
fault E21 UnknownCommand
> wait 4294967295~
quiet
> wait 0000000001~
quiet
> log~
fault E21 UnknownCommand
> log 0000000000~
fault E21 UnknownCommand
> log 1 2~
fault E21 UnknownCommand
> log 4294967296~
fault E21 UnknownCommand
> log 0000000001~
log 0
> quit now~
fault E21 UnknownCommand
> quit~
bye
",
    ended: Ended::Quit,
    ..OPEN
};

static NUL: Talk = Talk {
    name: "NUL in lines and texts",
    lines: b"
> load 9~a <=> b.\0
fault E03 BadByte 1
> load 12~%\0~a <=> b.~
loaded 1
> \0~
fault E21 UnknownCommand
> \0store~
fault E21 UnknownCommand
> store\0~
fault E21 UnknownCommand
> store \0~
fault E21 UnknownCommand
> wait\01~
fault E21 UnknownCommand
> wait 1\0~
fault E21 UnknownCommand
> log 1\0~
fault E21 UnknownCommand
> post a\0.~
fault E03 BadByte 1
> post a.\0~
fault E03 BadByte 1
> post a. % \0~
posted 1 1
> quit\0~
fault E21 UnknownCommand
> wait 9~
quiet
> store~
store 1
#2 b
> quit~
bye
",
    ended: Ended::Quit,
    ..OPEN
};

static LOAD_IS_CUT: Talk = Talk {
    name: "a load that is cut",
    lines: b"
> load 40~0123456789
fault E23 Cut
",
    ended: Ended::Cut,
    stands: false,
    ..OPEN
};

static SECOND_LOAD_IS_CUT: Talk = Talk {
    name: "a second load that is cut",
    lines: b"
> load 0~
loaded 0
> load 65537~a
fault E23 Cut
",
    ended: Ended::Cut,
    ..OPEN
};

/// All of these sessions.
pub fn talks() -> [&'static Talk<'static>; 15] {
    [
        &RUN,
        &COMPOUND_RUN,
        &COMPOUND_POSTS,
        &RUN_IN_PARTS,
        &NO_PROGRAM_STANDS,
        &PROGRAM_STANDS,
        &FAULTY_PROGRAMS,
        &POSTS,
        &LEAST_LIMIT,
        &LABELS_ARE_SPENT,
        &BLANKS_AND_LINE_ENDS,
        &WORDS_AND_NUMBERS,
        &NUL,
        &LOAD_IS_CUT,
        &SECOND_LOAD_IS_CUT,
    ]
}
