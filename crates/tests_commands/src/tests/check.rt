//! What is told of refused entries.
use chr_check_text::{check_parts, check_text};
use chr_commands::check::{check, told};
use chr_commands::{Detail, Status};
use std::alloc::{AllocError, Global};
use std::test::*;
use std::{fs, io};

#[test]
fn a_file_that_is_not_there(rt: HostRuntime) {
    let path = "there-is-no-such-file";
    let status = check(&rt, Detail::Line, path, path, &[], path);
    assert!(rt; status == Status::Usage);
}

const GCD: &[u8] =
    b"gcd(0) <=> true.\ngcd(N) \\ gcd(M) <=> 0 < N, N =< M | L is M mod N, gcd(L).\n";

/// What is told of the first fault of a log that leaves no store.
fn told_of(alloc: Global, log: &[u8]) -> Option<String> {
    match check_text(alloc, GCD, log, b"") {
        Ok(checked) => told(alloc, GCD, &[log], checked.answer.err()?),
        Err(_) => None,
    }
}

/// The entries after the header, and what is told of the first that is refused.
static TOLD: [(&str, &str); 16] = [
    ("P 2 gcd(9)\n", "The next one is 1."),
    (
        "P 1 gcd(9)\nP 2 gcd(6)\nA 1 1\nD 1\nA 2 2\nF 2 2 2\\1\nP 3 gcd(1)\n",
        "The next one is 4.",
    ),
    (
        "P 1 gcd(9)\nA 3 1\n",
        "Ticket 3 has not been given: the next one is 2.",
    ),
    (
        "P 1 gcd(9)\nA 1 1\nA 1 2\n",
        "Goal 1 was activated in line 3.",
    ),
    ("P 1 gcd(9)\nF 1 1 \\1\n", "Goal 1 has not been activated."),
    (
        "P 1 gcd(9)\nA 1 1\nD 1\nD 1\n",
        "Goal 1 was dropped in line 4.",
    ),
    (
        "P 1 gcd(0)\nA 1 1\nF 1 1 \\1\nF 1 1 \\1\n",
        "Goal 1 ended in line 4.",
    ),
    ("P 1 gcd(9)\nA 1 2\n", "The next one is 1."),
    (
        "P 1 gcd(9)\nA 1 1\nF 1 2 1\\7\n",
        "Label 7 has not been given: the next one is 2.",
    ),
    (
        "P 1 gcd(9)\nP 2 gcd(6)\nA 1 1\nD 1\nA 2 2\nF 2 2 2\\1\nF 2 2 2\\1\n",
        "Label 1 was removed in line 7.",
    ),
    (
        "P 1 gcd(9)\nA 1 1\nF 1 9 1\\1\n",
        "The last rule of the program is rule 2.",
    ),
    (
        "P 1 gcd(9)\nA 1 1\nF 1 1 1\\1\n",
        "Rule 1 keeps 0 and removes 1.",
    ),
    (
        "P 1 gcd(9)\nP 2 gcd(0)\nA 1 1\nA 2 2\nF 1 1 \\2\n",
        "The goal's own label is 1.",
    ),
    (
        "P 1 gcd(9)\nA 1 1\nF 1 2 1\\1\n",
        "One label stands at two heads.",
    ),
    (
        "P 1 gcd(9)\nA 1 1\nF 1 1 \\1\n",
        "The constraints don't match the heads of rule 1, or its guard doesn't hold, or its body has no value.",
    ),
    ("P 1 gcd(0)\nA 1 1\nD 1\n", "It stands under label 1."),
];

/// Whether this is told of a log of these entries.
fn tells(alloc: Global, entries: &str, wanted: Option<&str>) -> Result<bool, AllocError> {
    let log = format!(in alloc; "chr-log 1\n{entries}")?;
    Ok(told_of(alloc, log.as_bytes()).as_deref() == wanted)
}

#[test]
fn what_is_told_of_refused_entries(rt: HostRuntime) -> Result<(), Fail> {
    for (i, (entries, wanted)) in TOLD.iter().enumerate() {
        assert!(rt; tells(rt.alloc(), entries, Some(*wanted))?, "row {i}");
    }
    let stays = "P 1 gcd(9)\nA 1 1\nD 1\n";
    assert!(rt; tells(rt.alloc(), stays, None)?, "a fault in the store");
    Ok(())
}

/// What is told of the first fault of a log in two parts that leaves no store.
fn told_of_parts(alloc: Global, first: &[u8], more: &[u8]) -> Option<String> {
    match check_parts(alloc, GCD, first, &[more], b"") {
        Ok(checked) => told(alloc, GCD, &[first, more], checked.answer.err()?),
        Err(_) => None,
    }
}

#[test]
fn what_is_told_of_an_entry_of_a_further_part(rt: HostRuntime) {
    let told = told_of_parts(rt.alloc(), b"chr-log 1\nP 1 gcd(9)\nA 1 1\n", b"A 1 2\n");
    assert!(rt; told.as_deref() == Some("Goal 1 was activated in line 3."));
}

/// A log in two parts and a store, written to files, and how the check of them ends.
type PartsRow = (&'static str, &'static str, &'static str, Status);

static PARTS: [PartsRow; 7] = [
    (
        "chr-log 1\nP 1 gcd(9)\n",
        "A 1 1\nD 1\n",
        "#1 gcd(9)\n",
        Status::Done,
    ),
    (
        "chr-log 1\nP 1 gcd(9)\nA 1 1\nD 1\n",
        "",
        "#1 gcd(9)\n",
        Status::Done,
    ),
    (
        "chr-log 1\n",
        "P 1 gcd(9)\nA 1 1\nD 1\n",
        "#1 gcd(9)\n",
        Status::Done,
    ),
    (
        "chr-log 1\nP 1 gcd(9)\n",
        "chr-log 1\nA 1 1\nD 1\n",
        "#1 gcd(9)\n",
        Status::Fault,
    ),
    ("P 1 gcd(9)\n", "A 1 1\nD 1\n", "#1 gcd(9)\n", Status::Fault),
    (
        "chr-log 1\nP 1 gcd(9)",
        "\nA 1 1\nD 1\n",
        "#1 gcd(9)\n",
        Status::Fault,
    ),
    (
        "chr-log 1\nP 1 gcd(9)\n",
        "A 1 1\nD 1\nD 1\n",
        "#1 gcd(9)\n",
        Status::Fault,
    ),
];

/// Whether the check of a log in two parts ends as its row has it.
fn ends(rt: &HostRuntime, row: &PartsRow) -> io::Result<bool> {
    let (first, more, store, wanted) = *row;
    fs::write(rt, "rules.chr", GCD)?;
    fs::write(rt, "first.txt", first.as_bytes())?;
    fs::write(rt, "more.txt", more.as_bytes())?;
    fs::write(rt, "store.txt", store.as_bytes())?;
    let status = check(
        rt,
        Detail::Line,
        "rules.chr",
        "first.txt",
        &["more.txt"],
        "store.txt",
    );
    Ok(status == wanted)
}

#[test]
fn ends_of_checks_of_parts(rt: HostRuntime) -> Result<(), Fail> {
    for (i, row) in PARTS.iter().enumerate() {
        assert!(rt; ends(&rt, row)?, "row {i}");
    }
    Ok(())
}
