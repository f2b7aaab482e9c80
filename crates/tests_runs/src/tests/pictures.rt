//! Pictures of parts of a log.
use chr_picture::{PictureFault, Range, draw_text};
use std::alloc::Global;
use std::test::*;

pub const GCD: &[u8] =
    b"gcd(0) <=> true.\ngcd(N) \\ gcd(M) <=> 0 < N, N =< M | L is M mod N, gcd(L).\n";

/// The log of a run of `GCD`.
pub const LOG: &[u8] =
    b"chr-log 1\nP 1 gcd(9)\nP 2 gcd(6)\nA 1 1\nD 1\nA 2 2\nF 2 2 2\\1\nD 2\nA 3 3\nF 3 2 3\\2\nD 3\nA 4 4\nF 4 1 \\4\n";

pub const SWAP: &[u8] = b"p(f(X,Y)) <=> q(f(Y,X)).\n";

/// The log of a run of `SWAP`.
pub const SWAP_LOG: &[u8] = b"chr-log 1\nP 1 p(f(a,g(1)))\nA 1 1\nF 1 1 \\1\nA 2 2\nD 2\n";

/// How often a text has this part.
pub fn count(text: &[u8], part: &[u8]) -> usize {
    let parts = text.windows(part.len().max(1)).filter(|one| *one == part);
    parts.count()
}

/// The first and the last entry that is drawn, and the titles of what is drawn of them, worked by hand.
static PARTS: [(u32, u32, &[&str]); 5] = [
    (
        1,
        5,
        &[
            "#1 gcd(9), activated by entry 3",
            "#2 gcd(6), activated by entry 5",
        ],
    ),
    (
        6,
        6,
        &[
            "#1 gcd(9), in the store before entry 6, removed by entry 6",
            "#2 gcd(6), in the store before entry 6",
            "entry 6: rule 2, kept: #2, removed: #1",
        ],
    ),
    (7, 7, &[]),
    (
        7,
        10,
        &[
            "#2 gcd(6), in the store before entry 7, removed by entry 9",
            "#3 gcd(3), activated by entry 8",
            "entry 9: rule 2, kept: #3, removed: #2",
        ],
    ),
    (
        11,
        4_294_967_295,
        &[
            "#4 gcd(0), activated by entry 11, removed by entry 12",
            "entry 12: rule 1, kept:, removed: #4",
        ],
    ),
];

/// Whether a picture has this title, once.
pub fn has_title(alloc: Global, picture: &[u8], title: &str) -> bool {
    match format!(in alloc; "<title>{title}</title>") {
        Ok(title) => count(picture, title.as_bytes()) == 1,
        Err(_) => false,
    }
}

/// Whether these titles and no others are in a picture.
pub fn are_titles(alloc: Global, picture: &[u8], titles: &[&str]) -> bool {
    for title in titles {
        if !has_title(alloc, picture, title) {
            return false;
        }
    }
    count(picture, b"<title>") == titles.len()
}

/// Whether these titles and no others are in the picture of a range of a log.
fn has_titles(alloc: Global, program: &[u8], log: &[u8], range: Range, titles: &[&str]) -> bool {
    match draw_text(alloc, program, log, range) {
        Ok(drawn) => are_titles(alloc, &drawn, titles),
        Err(_) => false,
    }
}

#[test]
fn parts_of_a_log(rt: HostRuntime) {
    for (i, (from, to, titles)) in PARTS.iter().enumerate() {
        let range = Range {
            from: *from,
            to: *to,
        };
        let has = has_titles(rt.alloc(), GCD, LOG, range, titles);
        assert!(rt; has, "row {i}");
    }
}

#[test]
fn compound_values_of_a_log(rt: HostRuntime) {
    let titles = [
        "#1 p(f(a,g(1))), activated by entry 2, removed by entry 3",
        "#2 q(f(g(1),a)), activated by entry 4",
        "entry 3: rule 1, kept:, removed: #1",
    ];
    let range = Range { from: 1, to: 5 };
    assert!(rt; has_titles(rt.alloc(), SWAP, SWAP_LOG, range, &titles));
}

/// Whether a range has no entry of the twelve of the log.
fn has_no_entry(alloc: Global, from: u32, to: u32) -> bool {
    let drawn = draw_text(alloc, GCD, LOG, Range { from, to });
    matches!(drawn, Err(PictureFault::NoEntry(12)))
}

#[test]
fn entries_that_there_are_not(rt: HostRuntime) {
    for (from, to) in [(13, 20), (2, 1), (1, 0)] {
        assert!(rt; has_no_entry(rt.alloc(), from, to), "from {from} to {to}");
    }
}
