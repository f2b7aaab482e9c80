//! Worked explanations. What is wanted was found by hand, from the rules and the entries of the logs.
use chr_check::fault::{CheckFault, Kind, Place};
use chr_explain::{ExplainFault, Form, Question, explain_text};
use std::alloc::Allocator;

/// The rules and a log, a question, and what is shown.
pub struct Row {
    pub program: &'static [u8],
    pub log: &'static [u8],
    pub question: Question,
    pub shown: &'static [u8],
}

pub static ROWS: [Row; 5] = [
    Row {
        program: b"gcd(0) <=> true.\ngcd(N) \\ gcd(M) <=> 0 < N, N =< M | L is M mod N, gcd(L).\n",
        log: b"chr-log 2\nP 1 gcd(9)\nP 2 gcd(6)\nA 1 1\nD 1\nA 2 2\nF 2 2 2\\1\nD 2\nA 3 3\nF 3 2 3\\2\nD 3\nA 4 4\nF 4 1 \\4\n",
        question: Question {
            label: 3,
            gone: false,
            form: Form::Text,
        },
        shown: b"#1 gcd(9) at log 4: posted at log 2\n#2 gcd(6) at log 6: posted at log 3\n#3 gcd(3) at log 9: rule 2 (program 2) fired at log 7 on #2 \\ #1, N = 6, M = 9, L = 3\n",
    },
    Row {
        program: b"gcd(0) <=> true.\ngcd(N) \\ gcd(M) <=> 0 < N, N =< M | L is M mod N, gcd(L).\n",
        log: b"chr-log 2\nP 1 gcd(9)\nP 2 gcd(6)\nA 1 1\nD 1\nA 2 2\nF 2 2 2\\1\nD 2\nA 3 3\nF 3 2 3\\2\nD 3\nA 4 4\nF 4 1 \\4\n",
        question: Question {
            label: 3,
            gone: true,
            form: Form::Text,
        },
        shown: b"#1 gcd(9) at log 4: posted at log 2; removed at log 7 by rule 2 (program 2)\n#2 gcd(6) at log 6: posted at log 3; removed at log 10 by rule 2 (program 2)\n#3 gcd(3) at log 9: rule 2 (program 2) fired at log 7 on #2 \\ #1, N = 6, M = 9, L = 3\n",
    },
    Row {
        program: b"gcd(0) <=> true.\ngcd(N) \\ gcd(M) <=> 0 < N, N =< M | L is M mod N, gcd(L).\n",
        log: b"chr-log 2\nP 1 gcd(9)\nP 2 gcd(6)\nA 1 1\nD 1\nA 2 2\nF 2 2 2\\1\nD 2\nA 3 3\nF 3 2 3\\2\nD 3\nA 4 4\nF 4 1 \\4\n",
        question: Question {
            label: 3,
            gone: false,
            form: Form::Dot,
        },
        shown: b"digraph causes {\n  node [shape=box];\n  1 [label=\"#1 gcd(9) at log 4: posted at log 2\"];\n  2 [label=\"#2 gcd(6) at log 6: posted at log 3\"];\n  3 [label=\"#3 gcd(3) at log 9: rule 2 (program 2) fired at log 7 on #2 \\\\ #1, N = 6, M = 9, L = 3\"];\n  2 -> 3 [style=dashed];\n  1 -> 3;\n}\n",
    },
    Row {
        program: b"% Earliest starts of tasks on machines.\n%\n% task(A, M, P, D)  the task A takes the machine M for D units of time; a machine takes its tasks by rising P\n% before(A, B)      the task B starts after the end of the task A\n% planned(A, M, P, D), start(A, S)  the same task, which can't start before S\n% end(E)            all tasks end at E, or later\n:- use_module(library(chr)).\n:- chr_constraint task/4, before/2, planned/4, start/2, end/1.\n\nplan    @ task(A, M, P, D) <=> planned(A, M, P, D), start(A, 0).\n\nfollow  @ before(A, B), planned(A, _, _, D), start(A, S) \\ start(B, T) <=> T < S + D | U is S + D, start(B, U).\nmachine @ planned(A, M, P, D), start(A, S), planned(B, M, Q, _) \\ start(B, T) <=> P < Q, T < S + D | U is S + D, start(B, U).\n\nlast    @ planned(A, _, _, D), start(A, S) \\ end(E) <=> E < S + D | F is S + D, end(F).\n",
        log: b"chr-log 2\nP 1 task(cut_top,saw,1,3)\nP 2 task(cut_legs,saw,2,2)\nP 3 task(cut_frame,saw,3,2)\nP 4 task(turn_front,lathe,1,4)\nP 5 task(turn_back,lathe,2,4)\nP 6 task(sand_top,bench,1,2)\nP 7 task(join,bench,2,3)\nP 8 task(finish,bench,3,1)\nP 9 before(cut_top,sand_top)\nP 10 before(cut_legs,turn_front)\nP 11 before(cut_legs,turn_back)\nP 12 before(cut_frame,join)\nP 13 before(turn_front,join)\nP 14 before(turn_back,join)\nP 15 before(sand_top,finish)\nP 16 before(join,finish)\nP 17 end(0)\nA 1 1\nF 1 1 \\1\nA 2 2\nF 2 1 \\2\nA 3 3\nF 3 1 \\3\nA 4 4\nF 4 1 \\4\nA 5 5\nF 5 1 \\5\nA 6 6\nF 6 1 \\6\nA 7 7\nF 7 1 \\7\nA 8 8\nF 8 1 \\8\nA 9 9\nD 9\nA 10 10\nD 10\nA 11 11\nD 11\nA 12 12\nD 12\nA 13 13\nD 13\nA 14 14\nD 14\nA 15 15\nD 15\nA 16 16\nD 16\nA 17 17\nD 17\nA 18 18\nD 18\nA 19 19\nF 19 4 18,19\\17\nD 19\nA 20 20\nD 20\nA 21 21\nF 21 3 18,19,20\\21\nA 22 22\nD 22\nA 23 23\nF 23 3 18,19,22\\23\nA 24 24\nD 24\nA 25 25\nD 25\nA 26 26\nD 26\nA 27 27\nF 27 3 24,25,26\\27\nA 28 28\nD 28\nA 29 29\nF 29 2 9,18,19\\29\nA 30 30\nD 30\nA 31 31\nF 31 2 13,24,25\\31\nA 32 32\nD 32\nA 33 33\nD 33\nA 34 34\nF 34 4 24,25\\34\nA 35 35\nF 35 2 10,20,35\\25\nD 35\nA 36 36\nF 36 3 20,35,22\\36\nA 37 37\nF 37 2 11,20,35\\37\nA 38 38\nF 38 2 15,28,38\\33\nD 38\nA 39 39\nF 39 3 28,38,30\\39\nA 40 40\nF 40 4 20,35\\40\nA 41 41\n",
        question: Question {
            label: 41,
            gone: false,
            form: Form::Text,
        },
        shown: b"#1 task(cut_top,saw,1,3) at log 19: posted at log 2\n#2 task(cut_legs,saw,2,2) at log 21: posted at log 3\n#4 task(turn_front,lathe,1,4) at log 25: posted at log 5\n#10 before(cut_legs,turn_front) at log 37: posted at log 11\n#18 planned(cut_top,saw,1,3) at log 53: rule 1 (program 10) fired at log 20 on \\ #1, A = cut_top, M = saw, P = 1, D = 3\n#19 start(cut_top,0) at log 55: rule 1 (program 10) fired at log 20 on \\ #1, A = cut_top, M = saw, P = 1, D = 3\n#20 planned(cut_legs,saw,2,2) at log 58: rule 1 (program 10) fired at log 22 on \\ #2, A = cut_legs, M = saw, P = 2, D = 2\n#21 start(cut_legs,0) at log 60: rule 1 (program 10) fired at log 22 on \\ #2, A = cut_legs, M = saw, P = 2, D = 2\n#25 start(turn_front,0) at log 68: rule 1 (program 10) fired at log 26 on \\ #4, A = turn_front, M = lathe, P = 1, D = 4\n#35 start(cut_legs,3) at log 88: rule 3 (program 13) fired at log 61 on #18 #19 #20 \\ #21, A = cut_top, M = saw, P = 1, D = 3, S = 0, B = cut_legs, Q = 2, T = 0, U = 3\n#41 start(turn_front,5) at log 102: rule 2 (program 12) fired at log 89 on #10 #20 #35 \\ #25, A = cut_legs, B = turn_front, D = 2, S = 3, T = 0, U = 5\n",
    },
    Row {
        program: b"p(f(X,Y)) <=> q(f(Y,X)).\n",
        log: b"chr-log 2\nP 1 p(f(a,g(1)))\nA 1 1\nF 1 1 \\1\nA 2 2\nD 2\n",
        question: Question {
            label: 2,
            gone: false,
            form: Form::Text,
        },
        shown: b"#1 p(f(a,g(1))) at log 3: posted at log 2\n#2 q(f(g(1),a)) at log 5: rule 1 (program 1) fired at log 4 on \\ #1, X = a, Y = g(1)\n",
    },
];

/// Whether a row's explanation is what is wanted.
fn is_shown<A: Allocator + Copy>(alloc: A, row: &Row) -> bool {
    match explain_text(alloc, row.program, row.log, row.question) {
        Ok(out) => out.as_slice() == row.shown,
        Err(_) => false,
    }
}

#[test]
fn worked_explanations(rt: HostRuntime) {
    for row in &ROWS {
        let shown = is_shown(rt.alloc(), row);
        assert!(rt; shown);
    }
}

/// Whether a question about a log of the first program has this fault.
fn has_fault<A: Allocator + Copy>(alloc: A, log: &[u8], label: u64, fault: ExplainFault) -> bool {
    let question = Question {
        label,
        gone: false,
        form: Form::Text,
    };
    match explain_text(alloc, ROWS[0].program, log, question) {
        Ok(_) => false,
        Err(told) => told == fault,
    }
}

#[test]
fn labels_that_never_were(rt: HostRuntime) {
    for label in [0, 5, 4_294_967_295] {
        let told = has_fault(rt.alloc(), ROWS[0].log, label, ExplainFault::NotGiven);
        assert!(rt; told);
    }
}

#[test]
fn a_log_that_is_refused(rt: HostRuntime) {
    let fault = CheckFault {
        place: Place::Log,
        line: 3,
        kind: Kind::BadTicket,
    };
    let log = b"chr-log 2\nP 1 gcd(9)\nA 2 1\n";
    let told = has_fault(rt.alloc(), log, 1, ExplainFault::Refused(fault));
    assert!(rt; told);
}
