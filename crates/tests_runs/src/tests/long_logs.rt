//! Pictures of long logs: of more than 2,000 entries, and with more than 10,000 rows.
use crate::tests::pictures::{count, has_title};
use chr_picture::{PictureFault, Range, draw_text};
use std::alloc::{AllocError, Global};
use std::test::*;

/// How many tickets are posted in a log, and then activated.
const TICKETS: u32 = 1_500;

/// A range of the 3,000 entries of such a log, how many constraints are drawn of it, the last one, and the caption.
static CUTS: [(u32, u32, usize, &str, &str); 4] = [
    (
        1,
        4_294_967_295,
        500,
        "#500 p, activated by entry 2000",
        "entries 1 to 2000 of 3000",
    ),
    (
        2,
        2_002,
        501,
        "#501 p, activated by entry 2001",
        "entries 2 to 2001 of 3000",
    ),
    (
        1_001,
        3_000,
        1_500,
        "#1500 p, activated by entry 3000",
        "entries 1001 to 3000 of 3000",
    ),
    (
        1_001,
        2_999,
        1_499,
        "#1499 p, activated by entry 2999",
        "entries 1001 to 2999 of 3000",
    ),
];

/// A rule that keeps five constraints and removes one, and one that removes one.
const PROGRAM: &[u8] = b"p, p, p, p, p \\ p <=> true.\np <=> true.\n";

/// How many tickets are posted, and then activated, in a log that goes on with firings of both rules.
const HEADS: u32 = 10_001;

/// How many firings of the first rule there are: each has six labels of its own.
const FIRINGS: u32 = 1_666;

/// All entries that fire.
const FIRED: Range = Range {
    from: 20_003,
    to: 21_673,
};

/// Adds posts of so many tickets.
fn add_posts(alloc: Global, log: &mut String, tickets: u32) -> Result<(), AllocError> {
    for before in 0..tickets {
        let line = format!(in alloc; "P {} p\n", before + 1)?;
        log.push_str(line.as_str())?;
    }
    Ok(())
}

/// Adds activations of so many tickets, whose labels are as their numbers.
fn add_activations(alloc: Global, log: &mut String, tickets: u32) -> Result<(), AllocError> {
    for before in 0..tickets {
        let label = before + 1;
        let line = format!(in alloc; "A {label} {label}\n")?;
        log.push_str(line.as_str())?;
    }
    Ok(())
}

/// A log in which so many tickets are posted, and then activated.
fn activated_log(alloc: Global, tickets: u32) -> Result<String, AllocError> {
    let mut log = String::new(alloc);
    log.push_str("chr-log 2\n")?;
    add_posts(alloc, &mut log, tickets)?;
    add_activations(alloc, &mut log, tickets)?;
    Ok(log)
}

/// Adds firings of the first rule, of six labels each.
fn add_firings(alloc: Global, log: &mut String, firings: u32) -> Result<(), AllocError> {
    for before in 0..firings {
        let a = 6 * u64::from(before) + 1;
        let (b, c, d, e, f) = (a + 1, a + 2, a + 3, a + 4, a + 5);
        let line = format!(in alloc; "F {f} 1 {a},{b},{c},{d},{e}\\{f}\n")?;
        log.push_str(line.as_str())?;
    }
    Ok(())
}

/// Adds firings of the second rule, of so many labels after these.
fn add_single(alloc: Global, log: &mut String, after: u16, firings: u16) -> Result<(), AllocError> {
    for before in 0..firings {
        let label = u32::from(after) + u32::from(before) + 1;
        let line = format!(in alloc; "F {label} 2 \\{label}\n")?;
        log.push_str(line.as_str())?;
    }
    Ok(())
}

/// A log in which 10,001 tickets are posted and activated, and are then heads of firings, each of one.
fn fired_log(alloc: Global) -> Result<String, AllocError> {
    let mut log = activated_log(alloc, HEADS)?;
    add_firings(alloc, &mut log, FIRINGS)?;
    add_single(alloc, &mut log, 9_996, 5)?;
    Ok(log)
}

/// Whether a picture has so many titles, with this one and this caption.
fn is_cut(alloc: Global, picture: &[u8], titles: usize, last: &str, caption: &str) -> bool {
    count(picture, b"<title>") == titles
        && has_title(alloc, picture, last)
        && count(picture, caption.as_bytes()) == 1
}

#[test]
fn two_thousand_entries_are_drawn(rt: HostRuntime) -> Result<(), Fail> {
    let log = activated_log(rt.alloc(), TICKETS)?;
    for (from, to, titles, last, caption) in &CUTS {
        let range = Range {
            from: *from,
            to: *to,
        };
        let is_right = match draw_text(rt.alloc(), b"", log.as_bytes(), range) {
            Ok(drawn) => is_cut(rt.alloc(), &drawn, *titles, last, caption),
            Err(_) => false,
        };
        assert!(rt; is_right, "{caption}");
    }
    Ok(())
}

#[test]
fn more_than_ten_thousand_rows(rt: HostRuntime) -> Result<(), Fail> {
    let log = fired_log(rt.alloc())?;
    let drawn = draw_text(rt.alloc(), PROGRAM, log.as_bytes(), FIRED);
    assert!(rt; matches!(drawn, Err(PictureFault::TooManyRows)));
    Ok(())
}
