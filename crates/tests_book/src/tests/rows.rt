//! Rows of worked tables, and the tables row by row.
use crate::tests::script::{Call, Script};
use crate::tests::tables::{Table, tables};
use std::alloc::Global;

/// A row of a table: a seat, its call, the answer, and a letter for the state of each ticket after the call: W where it waits,
/// R where it rests, E where it has ended, and else the number of the seat that holds it.
pub type Row<'t> = (u32, Call<'t>, &'t str, &'t str);

/// What a row's call answers. None where memory ran out.
pub fn answer(script: &mut Script<Global>, row: &Row) -> Option<String> {
    let (seat, call, _, _) = *row;
    let atoms = script.posted(script.texts(), call)?;
    script.make(seat, call, &atoms).ok()
}

/// Whether a row's call answers as expected, with the expected states after it.
fn is_right(script: &mut Script<Global>, row: &Row) -> bool {
    match answer(script, row) {
        Some(answer) => answer.as_str() == row.2 && script.has_states(row.3),
        None => false,
    }
}

/// Makes the calls of rows. How many are as expected before the first that isn't.
pub fn rows_right(script: &mut Script<Global>, rows: &[Row]) -> usize {
    for (i, row) in rows.iter().enumerate() {
        if !is_right(script, row) {
            return i;
        }
    }
    rows.len()
}

/// How many rows of a table are as expected, and whether it ends in its lines.
fn end(alloc: Global, table: &Table) -> Option<(usize, bool)> {
    let mut script = Script::open(alloc, alloc, table.opening)?;
    let right = rows_right(&mut script, table.rows);
    Some((right, script.has_lines(table.lines.as_bytes())))
}

#[test]
fn worked_tables(rt: HostRuntime) {
    for table in tables() {
        let end = end(rt.alloc(), table);
        assert_eq!(rt; end, Some((table.rows.len(), true)), "{}", table.name);
    }
}
