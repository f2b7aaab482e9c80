//! A judgement that was made of another program's rule.
use crate::tests::rows::{Row, rows_right};
use crate::tests::script::Call::{Claim, Fire, Post, Trial};
use crate::tests::script::{Opening, Script, is_text};
use std::alloc::Global;

static ROWS: [Row; 3] = [
    (0, Post("a."), "Ok(1)", "W"),
    (1, Claim(1), "Ok(1)", "1"),
    (1, Trial(1), "1.1 [1] Whole", "1"),
];

/// A book of a program, whose first trial is judged. None where a call isn't answered as expected.
fn judged(alloc: Global, program: &str) -> Option<Script<Global>> {
    let opening = Opening {
        program,
        names: "",
        limit: 10,
    };
    let mut script = Script::open(alloc, alloc, opening)?;
    if rows_right(&mut script, &ROWS) < ROWS.len() {
        return None;
    }
    Some(script)
}

/// Whether a book answers E14 to the judgement of another, is left as it was, and then answers to its own judgement as
/// expected.
fn is_right(script: &mut Script<Global>, other: &Script<Global>, own: &str) -> bool {
    match (script.lines(), other.judged(1)) {
        (Ok(before), Some(judged)) => {
            is_text(script.fire_judged(1, 1, judged), "Err(Stale)")
                && script.has_lines(&before)
                && is_text(script.make(1, Fire(1), &[]), own)
        }
        _ => false,
    }
}

/// The same for a book of the first program, and the judgement of a book of the second.
fn are_right(alloc: Global, first: &str, second: &str, own: &str) -> bool {
    match (judged(alloc, first), judged(alloc, second)) {
        (Some(mut script), Some(other)) => is_right(&mut script, &other, own),
        _ => false,
    }
}

/// Two programs, and the answer to the first one's own judgement.
const PAIRS: [(&str, &str, &str); 4] = [
    (
        "a <=> b.",
        "a <=> b, b.",
        "Ok(Fired(Fired { first: 2, count: 1, active_lives: false }))",
    ),
    (
        "a <=> b, b.",
        "a <=> b.",
        "Ok(Fired(Fired { first: 2, count: 2, active_lives: false }))",
    ),
    (
        "a <=> b.",
        "a <=> 0 < 1 | b.",
        "Ok(Fired(Fired { first: 2, count: 1, active_lives: false }))",
    ),
    (
        "a <=> true.",
        "a <=> a.",
        "Ok(Fired(Fired { first: 2, count: 0, active_lives: false }))",
    ),
];

#[test]
fn fire_trusts_the_rule_number(rt: HostRuntime) {
    for (first, second, own) in &PAIRS {
        assert!(rt;
            are_right(rt.alloc(), first, second, own),
            "{first} {second}"
        );
    }
}
