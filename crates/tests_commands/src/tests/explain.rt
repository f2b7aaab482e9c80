//! Explanations: what their command lines ask for, and how they end.
use crate::tests::command_line::{Errors, asks, first_other};
use crate::tests::message::whole;
use chr_command_line::Request;
use chr_commands::Status;
use chr_commands::explain::{explain, explain_sources};
use chr_commands::message::{Detail, Text};
use chr_explain::{Form, Question};
use clap::error::ErrorKind;
use std::alloc::Global;
use std::test::*;

const LINES: Question = Question {
    label: 3,
    gone: false,
    form: Form::Text,
};

/// Command lines with the question that they ask of the log `log` by the rules `rules`.
static ASKED: [(&str, Question); 5] = [
    ("chr explain rules log 3", LINES),
    ("chr explain rules log 3 --as text", LINES),
    (
        "chr explain --gone rules log 1",
        Question {
            label: 1,
            gone: true,
            form: Form::Text,
        },
    ),
    (
        "chr explain rules log --as=dot 4294967295",
        Question {
            label: 4_294_967_295,
            gone: false,
            form: Form::Dot,
        },
    ),
    (
        "chr explain --as dot rules log 3 --gone",
        Question {
            label: 3,
            gone: true,
            form: Form::Dot,
        },
    ),
];

/// Whether a command line asks this question.
fn asks_of_log(alloc: Global, line: &str, question: Question) -> bool {
    let wanted = Request::Explain {
        file: "rules",
        log: "log",
        question,
    };
    asks(alloc, line, &wanted, &[])
}

#[test]
fn questions(rt: HostRuntime) {
    for (line, question) in &ASKED {
        assert!(rt; asks_of_log(rt.alloc(), line, *question), "{line}");
    }
}

/// Command lines at fault.
static REFUSED: [Errors; 4] = [
    (
        ErrorKind::MissingRequiredArgument,
        2,
        &["chr explain rules log"],
    ),
    (
        ErrorKind::ValueValidation,
        2,
        &[
            "chr explain rules log 0",
            "chr explain rules log 4294967296",
            "chr explain rules log #3",
        ],
    ),
    (
        ErrorKind::InvalidValue,
        2,
        &["chr explain rules log 3 --as svg"],
    ),
    (
        ErrorKind::ArgumentConflict,
        2,
        &["chr explain rules log 3 --gone --gone", "chr explain - - 3"],
    ),
];

#[test]
fn words_at_fault(rt: HostRuntime) {
    for row in &REFUSED {
        assert_eq!(rt; first_other(rt.alloc(), row), None);
    }
}

#[test]
fn a_file_that_is_not_there(rt: HostRuntime) {
    let path = "there-is-no-such-file";
    let status = explain(&rt, Detail::Line, path, path, LINES);
    assert!(rt; status == Status::Usage);
}

const GCD: &str = "gcd(0) <=> true.\ngcd(N) \\ gcd(M) <=> 0 < N, N =< M | L is M mod N, gcd(L).\n";

const LOG: &str = "chr-log 2\nP 1 gcd(9)\nP 2 gcd(6)\nA 1 1\nD 1\nA 2 2\nF 2 2 2\\1\nD 2\nA 3 3\n";

/// Rules, a log, a label, and how the explanation ends.
static STATUSES: [(&str, &str, u64, Status); 6] = [
    (GCD, LOG, 3, Status::Done),
    (GCD, LOG, 1, Status::Done),
    (GCD, LOG, 4, Status::Fault),
    ("gcd", LOG, 3, Status::Fault),
    (GCD, "chr-log 3\n", 3, Status::Fault),
    (GCD, "chr-log 2\nP 2 gcd(9)\n", 1, Status::Fault),
];

/// Whether an explanation ends so.
fn ends(rt: &HostRuntime, row: &(&'static str, &'static str, u64, Status)) -> bool {
    let (program, log, label, wanted) = *row;
    let program = whole(Text::Program, "rules", program.as_bytes());
    let log = whole(Text::Log, "log", log.as_bytes());
    let question = Question {
        label,
        gone: true,
        form: Form::Text,
    };
    explain_sources(rt, Detail::Explained, program, log, question) == wanted
}

#[test]
fn ends_of_explanations(rt: HostRuntime) {
    for row in &STATUSES {
        assert!(rt; ends(&rt, row));
    }
}
