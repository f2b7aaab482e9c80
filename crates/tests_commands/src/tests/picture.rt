//! How a picture ends.
use crate::tests::stage::Stage;
use chr_commands::picture::picture;
use chr_commands::{Detail, Status};
use chr_picture::Range;
use std::alloc::{AllocError, Global};
use std::test::*;
use std::{fs, io};

const GCD: &str = "gcd(0) <=> true.\ngcd(N) \\ gcd(M) <=> 0 < N, N =< M | L is M mod N, gcd(L).\n";

const LOG: &str = "chr-log 1\nP 1 gcd(9)\nP 2 gcd(6)\nA 1 1\nD 1\nA 2 2\nF 2 2 2\\1\n";

/// Rules and a log, written to files, the first and the last entry that is drawn, and how the picture ends.
static ENDS: [(&str, &str, u32, u32, Status); 8] = [
    (GCD, LOG, 1, 4_294_967_295, Status::Done),
    (GCD, LOG, 6, 6, Status::Done),
    (GCD, LOG, 7, 7, Status::Fault),
    (GCD, LOG, 5, 4, Status::Fault),
    (GCD, "chr-log 1\n", 1, 9, Status::Fault),
    (GCD, "chr-log 1\nP 1 gcd(9)\nA 1 2\n", 1, 1, Status::Fault),
    (GCD, "P 1 gcd(9)\n", 1, 1, Status::Fault),
    ("gcd(0) <=> .", LOG, 1, 1, Status::Fault),
];

#[test]
fn ends_of_pictures(rt: HostRuntime) -> io::Result<()> {
    for (i, (rules, log, from, to, wanted)) in ENDS.iter().enumerate() {
        fs::write(&rt, "picture.chr", rules.as_bytes())?;
        fs::write(&rt, "picture.txt", log.as_bytes())?;
        let range = Range {
            from: *from,
            to: *to,
        };
        let status = picture(&rt, Detail::Line, "picture.chr", "picture.txt", range);
        assert!(rt; status == *wanted, "row {i}");
    }
    Ok(())
}

#[test]
fn a_file_that_is_not_there(rt: HostRuntime) {
    let path = "there-is-no-such-file";
    let range = Range { from: 1, to: 1 };
    let status = picture(&rt, Detail::Line, path, path, range);
    assert!(rt; status == Status::Usage);
}

/// A log of so many posts, each of which is activated where that is asked for.
fn log_of(alloc: Global, posts: u32, are_active: bool) -> Result<String, AllocError> {
    let mut log = String::from_str(alloc, "chr-log 2\n")?;
    for number in 1..=posts {
        write!(log, "P {number} a\n")?;
        if are_active {
            write!(log, "A {number} {number}\n")?;
        }
    }
    Ok(log)
}

#[test]
fn a_picture_that_is_cut(rt: HostRuntime) -> Result<(), Fail> {
    fs::write(&rt, "picture.chr", b"a, b <=> c.".as_slice())?;
    let log = log_of(rt.alloc(), 2_001, false)?;
    fs::write(&rt, "picture.txt", log.as_str())?;
    for (from, caption) in [
        (1, "'>entries 1 to 2000 of 2001<"),
        (2, "'>entries 2 to 2001 of 2001<"),
    ] {
        let range = Range { from, to: 9_999 };
        let stage = Stage::new(&rt, b"");
        let status = picture(&stage, Detail::Line, "picture.chr", "picture.txt", range);
        assert!(rt; status == Status::Done && stage.has_said(""));
        assert!(rt; stage.has_printed_part(caption));
    }
    Ok(())
}

/// How many firings are drawn of six constraints each, which are 10,002.
const FIRINGS: u32 = 1_667;

/// Adds a firing that removes six constraints, whose labels are those of their goals.
fn add_firing(log: &mut String, first: u64) -> Result<(), AllocError> {
    write!(log, "F {first} 1 \\{first}")?;
    for after in 1..6u64 {
        write!(log, ",{}", first.saturating_add(after))?;
    }
    log.push_str("\n")
}

#[test]
fn a_picture_of_too_many_constraints(rt: HostRuntime) -> Result<(), Fail> {
    fs::write(&rt, "picture.chr", b"a, a, a, a, a, a <=> true.".as_slice())?;
    let mut log = log_of(rt.alloc(), 6 * FIRINGS, true)?;
    for firing in 0..FIRINGS {
        add_firing(&mut log, u64::from(firing) * 6 + 1)?;
    }
    fs::write(&rt, "picture.txt", log.as_str())?;
    let range = Range {
        from: 12 * FIRINGS + 1,
        to: 13 * FIRINGS,
    };
    let stage = Stage::new(&rt, b"");
    let status = picture(&stage, Detail::Line, "picture.chr", "picture.txt", range);
    let said = "chr: nothing is drawn: these entries have more than 10,000 constraints\n";
    assert!(rt; status == Status::Fault && stage.has_printed("") && stage.has_said(said));
    Ok(())
}
