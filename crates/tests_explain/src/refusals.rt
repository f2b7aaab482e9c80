//! Explanations, with each of their requests for memory refused in turn.
use crate::explanations::{ROWS, Row};
use chr_explain::{ExplainFault, Question, explain_text};
use refusing::{Refusable, Refusing, refuse_each};
use std::alloc::{Allocator, Global};

/// What is explained: the label of a row's question, which is what the row has, or one that the log doesn't give. And how
/// many requests the reading of the rules makes.
#[derive(Drop)]
struct Asked<'a> {
    row: &'a Row,
    question: Question,
    is_given: bool,
    rules: u64,
}

/// Whether the explanation, or the fault, is what is wanted. None where it is E01.
fn is_right<A: Allocator + Copy>(alloc: A, asked: &Asked) -> Option<bool> {
    match explain_text(alloc, asked.row.program, asked.row.log, asked.question) {
        Ok(out) => Some(asked.is_given && out.as_slice() == asked.row.shown),
        Err(ExplainFault::Memory) => None,
        Err(fault) => Some(!asked.is_given && fault == ExplainFault::NotGiven),
    }
}

impl Refusable for Asked<'_> {
    /// A rule is read without the memory for the list of its words; else a refused request is E01.
    fn is_made_again(&self, memory: &Refusing<Global>, n: u64) -> Option<bool> {
        memory.refuse(n);
        let first = is_right(memory, self);
        let refused = memory.was_refused();
        memory.refuse(0);
        let does_without = refused && n <= self.rules && first == Some(true);
        let expected = if refused { None } else { Some(true) };
        let is_expected = first == expected || does_without;
        (is_expected && is_right(memory, self) == Some(true)).then_some(refused)
    }
}

/// How many requests the reading of a row's rules makes: a text of a log without its header is at fault after them.
fn requests_of_rules(alloc: Global, row: &Row) -> u64 {
    let memory = Refusing::new(alloc, 0);
    let _ = explain_text(&memory, row.program, b"", row.question);
    memory.requests()
}

/// Explains a label of a row's log with each request refused in turn. Whether some were refused after the rules were read, and
/// all was as wanted, and the last number of a request with which it was explained.
fn refuse_all(alloc: Global, row: &Row, label: u64, is_given: bool) -> (bool, u64) {
    let rules = requests_of_rules(alloc, row);
    let asked = Asked {
        row,
        question: Question {
            label,
            ..row.question
        },
        is_given,
        rules,
    };
    match refuse_each(alloc, &asked) {
        Ok(refused) => (rules < refused, refused.saturating_add(1)),
        Err(n) => (false, n),
    }
}

/// The places of the rows with a short log.
const SHORT: [usize; 4] = [0, 1, 2, 4];

#[test]
fn each_request_is_refused(rt: HostRuntime) {
    for i in SHORT {
        let row = &ROWS[i];
        let (is_right, n) = refuse_all(rt.alloc(), row, row.question.label, true);
        assert!(rt; is_right, "request {n} of row {i}");
    }
}

#[test]
fn each_request_is_refused_of_a_label_that_never_was(rt: HostRuntime) {
    let (is_right, n) = refuse_all(rt.alloc(), &ROWS[0], 5, false);
    assert!(rt; is_right, "request {n}");
}
