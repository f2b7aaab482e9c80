//! Checks and pictures, with each of their requests for memory refused in turn.
use crate::tests::pictures::{GCD, LOG, SWAP, SWAP_LOG, are_titles};
use chr_check_text::{CheckPartsFault, CheckTextFault, check_text, watched_check_parts};
use chr_picture::{PictureFault, Range, draw_text};
use chr_watch::Unwatched;
use refusing::{Refusable, Refusing, refuse_each};
use std::alloc::{Allocator, Global};

/// A call that reads a text of rules first, and what it is to answer.
trait Asked {
    /// Makes the call. Whether it answers as expected; None where that is E01.
    fn is_right<A: Allocator + Copy>(&self, alloc: A, texts: Global) -> Option<bool>;

    /// Makes a call that ends once the rules are read.
    fn read_rules<A: Allocator + Copy>(&self, alloc: A);
}

/// A call, how many requests the reading of its rules makes, and the allocator of texts.
#[derive(Drop)]
struct Over<'a, C> {
    asked: &'a C,
    rules: u64,
    texts: Global,
}

impl<C: Asked> Refusable for Over<'_, C> {
    /// A rule is read without the memory for the list of its words; else a refused request is E01.
    fn is_made_again(&self, memory: &Refusing<Global>, n: u64) -> Option<bool> {
        memory.refuse(n);
        let first = self.asked.is_right(memory, self.texts);
        let refused = memory.was_refused();
        memory.refuse(0);
        let does_without = refused && n <= self.rules && first == Some(true);
        let expected = if refused { None } else { Some(true) };
        let is_expected = first == expected || does_without;
        let again = self.asked.is_right(memory, self.texts);
        (is_expected && again == Some(true)).then_some(refused)
    }
}

/// Makes a call with each of its requests refused in turn. Whether some were refused after the rules were read, and all was as
/// expected, and the last number of a request with which it was made.
fn refuse_all<C: Asked>(texts: Global, asked: &C) -> (bool, u64) {
    let memory = Refusing::new(texts, 0);
    asked.read_rules(&memory);
    let rules = memory.requests();
    let over = Over {
        asked,
        rules,
        texts,
    };
    match refuse_each(texts, &over) {
        Ok(refused) => (rules < refused, refused.saturating_add(1)),
        Err(n) => (false, n),
    }
}

/// The texts of a check, of which the log may have further parts, and the line of its answer.
struct Checking {
    program: &'static [u8],
    log: &'static [u8],
    more: &'static [&'static [u8]],
    store: &'static [u8],
    line: &'static [u8],
}

/// Worked checks, of each kind of answer.
static CHECKS: [Checking; 5] = [
    Checking {
        program: GCD,
        log: LOG,
        more: &[],
        store: b"#3 gcd(3)\n",
        line: b"run final\n",
    },
    Checking {
        program: SWAP,
        log: b"chr-log 1\nP 1 p(f(a,g(1)))\n",
        more: &[b"A 1 1\nF 1 1 \\1\n", b"A 2 2\nD 2\n"],
        store: b"#2 q(f(g(1),a))\n",
        line: b"run final\n",
    },
    Checking {
        program: SWAP,
        log: b"chr-log 2\nP 1 p(f(a,g(1)))\nP 2 p(b)\nA 1 1\n",
        more: &[],
        store: b"#1 p(f(a,g(1)))\n",
        line: b"run\n",
    },
    Checking {
        program: SWAP,
        log: b"chr-log 2\nP 1 p(f(a,g(1)))\nA 1 1\n",
        more: &[b"D 1\n"],
        store: b"",
        line: b"refused E16 log 4 StillApplies\n",
    },
    Checking {
        program: SWAP,
        log: b"chr-log 2\nP 1 p(f(a,g(1)))\nA 1 1\nF 1 1 \\1\nA 2 2\n",
        more: &[],
        store: b"#2 q(f(a,g(1)))\n",
        line: b"refused E16 store 1 StoreDiffers\n",
    },
];

/// The check of a log in one text.
fn is_told<A: Allocator + Copy>(alloc: A, check: &Checking) -> Option<bool> {
    match check_text(alloc, check.program, check.log, check.store) {
        Ok(checked) => Some(checked.line.as_slice() == check.line),
        Err(CheckTextFault::Memory) => None,
        Err(_) => Some(false),
    }
}

/// The check of a log in parts.
fn is_told_of_parts<A: Allocator + Copy>(alloc: A, check: &Checking) -> Option<bool> {
    let program = check.program;
    match watched_check_parts(
        alloc,
        program,
        check.log,
        check.more,
        check.store,
        &mut Unwatched,
    ) {
        Ok(checked) => Some(checked.line.as_slice() == check.line),
        Err(CheckPartsFault::Memory) => None,
        Err(_) => Some(false),
    }
}

impl Asked for Checking {
    fn is_right<A: Allocator + Copy>(&self, alloc: A, _texts: Global) -> Option<bool> {
        if self.more.is_empty() {
            is_told(alloc, self)
        } else {
            is_told_of_parts(alloc, self)
        }
    }

    fn read_rules<A: Allocator + Copy>(&self, alloc: A) {
        let _ = check_text(alloc, self.program, b"", b"");
    }
}

#[test]
fn each_request_of_a_check_is_refused(rt: HostRuntime) {
    for (i, check) in CHECKS.iter().enumerate() {
        let (is_right, n) = refuse_all(rt.alloc(), check);
        assert!(rt; is_right, "request {n} of check {i}");
    }
}

/// The texts and the range of a picture, and the titles of what is drawn, or why nothing is.
struct Drawing {
    program: &'static [u8],
    log: &'static [u8],
    range: Range,
    drawn: Result<&'static [&'static str], PictureFault>,
}

static DRAWINGS: [Drawing; 3] = [
    Drawing {
        program: GCD,
        log: LOG,
        range: Range { from: 6, to: 10 },
        drawn: Ok(&[
            "#1 gcd(9), in the store before entry 6, removed by entry 6",
            "#2 gcd(6), in the store before entry 6, removed by entry 9",
            "#3 gcd(3), activated by entry 8",
            "entry 6: rule 2, kept: #2, removed: #1",
            "entry 9: rule 2, kept: #3, removed: #2",
        ]),
    },
    Drawing {
        program: SWAP,
        log: SWAP_LOG,
        range: Range { from: 1, to: 5 },
        drawn: Ok(&[
            "#1 p(f(a,g(1))), activated by entry 2, removed by entry 3",
            "#2 q(f(g(1),a)), activated by entry 4",
            "entry 3: rule 1, kept:, removed: #1",
        ]),
    },
    Drawing {
        program: SWAP,
        log: SWAP_LOG,
        range: Range { from: 6, to: 9 },
        drawn: Err(PictureFault::NoEntry(5)),
    },
];

impl Asked for Drawing {
    fn is_right<A: Allocator + Copy>(&self, alloc: A, texts: Global) -> Option<bool> {
        match (
            draw_text(alloc, self.program, self.log, self.range),
            self.drawn,
        ) {
            (Ok(drawn), Ok(titles)) => Some(are_titles(texts, &drawn, titles)),
            (Err(PictureFault::Memory), _) => None,
            (Err(fault), Err(expected)) => Some(fault == expected),
            _ => Some(false),
        }
    }

    fn read_rules<A: Allocator + Copy>(&self, alloc: A) {
        let _ = draw_text(alloc, self.program, b"", self.range);
    }
}

#[test]
fn each_request_of_a_picture_is_refused(rt: HostRuntime) {
    for (i, drawing) in DRAWINGS.iter().enumerate() {
        let (is_right, n) = refuse_all(rt.alloc(), drawing);
        assert!(rt; is_right, "request {n} of picture {i}");
    }
}
