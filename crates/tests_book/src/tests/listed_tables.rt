//! Tables of calls, each as one list.
use crate::tests::lists::{Calls, Memory, list_of};
use crate::tests::rows::{Row, answer};
use crate::tests::script::{Script, has_lines, is_text, open};
use crate::tests::tables::{ALONE, OLDER_GOAL_IS_DROPPED, OWN_WORDS, Table, tables};
use chr_book::Book;
use chr_log::write_entries;
use chr_run_calls::Answer;
use std::alloc::Global;

/// Makes all calls of rows. The same calls as one list, with the judgements that the script has made of them.
fn listed(alloc: Global, script: &mut Script<Global>, rows: &[Row]) -> Option<Calls<Global>> {
    for row in rows {
        let _answer = answer(script, row)?;
    }
    list_of(alloc, script, rows)
}

/// The calls of a table as one list.
fn calls_of(alloc: Global, table: &Table) -> Option<Calls<Global>> {
    let mut script = Script::open(alloc, alloc, table.opening)?;
    listed(alloc, &mut script, table.rows)
}

/// How many answers are those of their rows before the first that isn't.
fn rows_right(alloc: Global, rows: &[Row], answers: &[Answer<Global>]) -> usize {
    let memory = Memory::new(alloc, alloc);
    for (i, answer) in answers.iter().enumerate() {
        let is_right = match rows.get(i) {
            Some((_, _, expected, _)) => is_text(memory.answer_text(answer), expected),
            None => false,
        };
        if !is_right {
            return i;
        }
    }
    answers.len()
}

/// Makes the calls of a table's list on its book. How many are answered as expected.
fn run(alloc: Global, book: &mut Book<Global>, table: &Table) -> Option<usize> {
    let calls = calls_of(alloc, table)?;
    let answers = calls.answers(alloc, book).ok()?;
    Some(rows_right(alloc, table.rows, answers.as_slice()))
}

/// How many calls of a table's list are answered as expected, and whether it ends in the table's lines.
fn end(alloc: Global, table: &Table) -> Option<(usize, bool)> {
    let mut book = open(alloc, table.opening)?;
    let right = run(alloc, &mut book, table);
    let ends = has_lines(alloc, &book, table.lines.as_bytes());
    Some((right?, ends))
}

/// Adds the entries of a book's strict log, line by line.
fn add_strict_lines(text: &mut Vec<u8>, book: &Book<Global>) -> Option<()> {
    let log = book.strict_log().ok()??;
    write_entries(text, book.names(), log.entries()).ok()
}

/// Adds the entries of the strict log that a table's list leaves, line by line.
fn add_strict_end(alloc: Global, text: &mut Vec<u8>, table: &Table) -> Option<()> {
    let mut book = open(alloc, table.opening)?;
    let right = run(alloc, &mut book, table);
    right.and(add_strict_lines(text, &book))
}

/// Whether each of these tables is answered as a list as it is expected, row by row and to its lines. The name of the first
/// that isn't.
fn first_wrong(alloc: Global, tables: &[&'static Table<'static>]) -> Option<&'static str> {
    for table in tables {
        if end(alloc, table) != Some((table.rows.len(), true)) {
            return Some(table.name);
        }
    }
    None
}

#[test]
fn tables_as_lists(rt: HostRuntime) {
    assert_eq!(rt; first_wrong(rt.alloc(), &tables()), None);
    assert_eq!(rt; first_wrong(rt.alloc(), &[&ALONE, &OWN_WORDS]), None);
}

/// The strict log of the list in which an older goal is dropped.
const STRICT: &str = "P 1 n(1)\nP 2 t\nA 1 1\nA 2 2\nF 2 1 2\\1\nA 3 3\nD 1\nD 2\nD 3\n";

#[test]
fn strict_log_of_a_list(rt: HostRuntime) {
    let mut text = Vec::new(rt.alloc());
    let added = add_strict_end(rt.alloc(), &mut text, &OLDER_GOAL_IS_DROPPED);
    assert!(rt; added.is_some() && text.as_slice() == STRICT.as_bytes());
}
