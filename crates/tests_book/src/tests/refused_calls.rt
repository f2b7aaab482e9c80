//! Tables of calls, with a request of each call refused.
use crate::tests::plays::{Play, Played, play_each};
use crate::tests::rows::Row;
use crate::tests::script::{Call, Script, is_text};
use crate::tests::tables::{Table, tables};
use chr_value::Atom;
use std::alloc::Allocator;

/// Whether a row's call takes no memory.
fn takes_none(row: &Row) -> bool {
    let (_, call, answer, _) = row;
    answer.starts_with("Err")
        || *answer == "Ok(Missed)"
        || matches!(
            call,
            Call::Report(_)
                | Call::ReportOf(_, _)
                | Call::PutDown(_)
                | Call::MarkStray(_)
                | Call::TakeStray
        )
}

/// The states of a script's tickets and its lines, before a row's call.
type Before<'b> = (&'b str, &'b [u8]);

/// What a refused request belonged to.
#[derive(Clone, Copy, PartialEq, Eq)]
enum Refused {
    /// No request was refused.
    Nothing,
    /// The call answered E01.
    Call,
    /// The judging of the whole trial that the call gave, which does without.
    Judging,
}

/// Makes a row's call with a request refused. None where the answer is neither E01 nor that of the row.
fn meets<A: Allocator + Copy>(
    script: &mut Script<A>,
    play: &Play<A>,
    row: &Row,
    atoms: &[Atom<A>],
) -> Option<Refused> {
    play.memory.refuse(play.n);
    let given = script.make(row.0, row.1, atoms).ok();
    let refused = play.memory.was_refused();
    play.memory.refuse(0);
    let text = given?;
    match refused {
        false => (text.as_str() == row.2).then_some(Refused::Nothing),
        true if text.as_str() == "Err(NoMemory)" => Some(Refused::Call),
        true => (row.2.ends_with("Whole") && text.as_str() == row.2).then_some(Refused::Judging),
    }
}

/// Makes a row's call again after it was refused. Whether it may have been, has left the script as before, and now answers as
/// expected.
fn is_made_again<A: Allocator + Copy>(
    script: &mut Script<A>,
    row: &Row,
    atoms: &[Atom<A>],
    before: Before,
) -> bool {
    !takes_none(row)
        && script.has_states(before.0)
        && script.has_lines(before.1)
        && is_text(script.make(row.0, row.1, atoms), row.2)
}

/// Makes a row's call with a request refused, and again where it was. Whether it was refused; None where an answer or the
/// book after it isn't the expected one.
fn is_refused<A: Allocator + Copy>(
    script: &mut Script<A>,
    play: &Play<A>,
    row: &Row,
    atoms: &[Atom<A>],
    before: Before,
) -> Option<bool> {
    let refused = meets(script, play, row, atoms)?;
    let is_right = refused != Refused::Call || is_made_again(script, row, atoms, before);
    (is_right && script.has_states(row.3)).then_some(refused != Refused::Nothing)
}

/// The same after a row that has left these states.
fn is_refused_after<A: Allocator + Copy>(
    script: &mut Script<A>,
    play: &Play<A>,
    row: &Row,
    states: &str,
) -> Option<bool> {
    match (script.posted(play.alloc, row.1), script.lines()) {
        (Some(atoms), Ok(lines)) => is_refused(script, play, row, &atoms, (states, &lines)),
        _ => None,
    }
}

/// Makes the calls of a table with a request of each refused. Whether one was; None where a row isn't as expected, or where
/// the table doesn't end as it should.
fn play_on<A: Allocator + Copy>(
    script: &mut Script<A>,
    play: &Play<A>,
    table: &Table,
) -> Option<bool> {
    let mut refused = false;
    let mut states = "";
    for row in table.rows {
        refused = is_refused_after(script, play, row, states)? || refused;
        states = row.3;
    }
    let lines = table.lines.as_bytes();
    script.has_lines(lines).then_some(refused)
}

impl Played for Table<'_> {
    fn is_refused<A: Allocator + Copy>(&self, play: &Play<A>) -> Option<bool> {
        let mut script = Script::open(play.alloc, play.texts, self.opening)?;
        play_on(&mut script, play, self)
    }
}

#[test]
fn each_request_of_a_call_is_refused(rt: HostRuntime) {
    for table in tables() {
        let (is_right, n) = play_each(rt.alloc(), table);
        assert!(rt; is_right, "request {n} of {}", table.name);
    }
}
