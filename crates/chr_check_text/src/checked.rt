//! From the bytes of three texts to the line of an answer.
ghost use Rattle.std.specs.Prelude.{◌≡◌, ℕ, List, [], map, Ok, IfOk};
ghost use Rattle.chr_value.specs.Naming.{Table};
ghost use Rattle.chr_log.specs.Events.{events_of};
ghost use Rattle.chr_log_text.specs.Parts.{IsLogInParts};
ghost use Rattle.chr_model.specs.Programs.{Instances};
ghost use Rattle.chr_text.specs.Reading.{program_of};
ghost use Rattle.chr_check_text.specs.CheckTexts.{check_of, IsTold, IsCheckText};
ghost use Rattle.chr_check_text.specs.CheckParts.{IsCheckParts, log_fault, store_fault, whole_fault};

use crate::writing::written;
use chr_check::fault::{CheckError, CheckFault};
use chr_check::{Verdict, watched_check};
use chr_lex::fault::{ReadError, ReadFault};
use chr_log::{Event, Label, Version};
use chr_log_text::fault::{PartFault, TextFault};
use chr_log_text::{LogText, read_log_in_parts, read_store};
use chr_rule::Program;
use chr_text::read_program;
use chr_value::{Atom, Names};
use chr_watch::{Unwatched, Watch};
use std::alloc::{AllocError, Allocator};

/// What a check gives.
#[derive(Drop)]
pub struct Checked<A: Allocator> {
    /// `run final`, `run`, or a refusal as `refused E16 log 14 BadTicket`, ended by LF.
    pub line: Vec<u8, A>,
    /// The same: what the log is, or E16, its first fault.
    pub answer: Result<Verdict, CheckFault>,
}

/// Why nothing was checked.
#[derive(Clone, Copy, Debug, PartialEq, Eq)]
pub enum CheckTextFault {
    /// A fault in the text of rules.
    Program(ReadFault),
    /// A fault in the text of the log. It is never want of memory.
    Log(TextFault),
    /// A fault in the text of the store. It is never want of memory.
    Store(TextFault),
    /// E01: a growth was refused.
    Memory,
}

/// Why nothing of a log in parts was checked.
#[derive(Clone, Copy, Debug, PartialEq, Eq)]
pub enum CheckPartsFault {
    /// A fault in the text of rules.
    Program(ReadFault),
    /// A fault in the text of a part of the log. It is never want of memory.
    Log(PartFault),
    /// A fault in the text of the store. It is never want of memory.
    Store(TextFault),
    /// E01: a growth was refused.
    Memory,
}

/// The fault of a log in parts.
fn log_fault(part_fault: PartFault) -> CheckPartsFault
    ensures { result ≡ log_fault part_fault }
{
    match part_fault.fault {
        TextFault::NoMemory => CheckPartsFault::Memory,
        TextFault::NamesFull { .. } | TextFault::TooLong | TextFault::BadEntry { .. } => {
            CheckPartsFault::Log(part_fault)
        }
    }
}

/// The fault of a store's text.
fn store_fault(fault: TextFault) -> CheckPartsFault
    ensures { result ≡ store_fault fault }
{
    match fault {
        TextFault::NoMemory => CheckPartsFault::Memory,
        TextFault::NamesFull { .. } | TextFault::TooLong | TextFault::BadEntry { .. } => {
            CheckPartsFault::Store(fault)
        }
    }
}

/// The same fault where the log is one text.
fn whole_fault(fault: CheckPartsFault) -> CheckTextFault
    ensures { result ≡ whole_fault fault }
{
    match fault {
        CheckPartsFault::Program(fault) => CheckTextFault::Program(fault),
        CheckPartsFault::Log(part_fault) => CheckTextFault::Log(part_fault.fault),
        CheckPartsFault::Store(fault) => CheckTextFault::Store(fault),
        CheckPartsFault::Memory => CheckTextFault::Memory,
    }
}

/// What a check answered. An `Err` is E01.
fn answer_of(
    checked: Result<Verdict, CheckError>,
) -> Result<Result<Verdict, CheckFault>, AllocError>
    ensures { IfOk result (λ answer. checked ≡ check_of answer) }
{
    match checked {
        Ok(verdict) => Ok(Ok(verdict)),
        Err(CheckError::NotARun(fault)) => Ok(Err(fault)),
        Err(CheckError::NoMemory) => Err(AllocError),
    }
}

/// What the check of a log answers, with its line. An `Err` is E01.
fn told<A: Allocator + Copy, W: Watch>(
    alloc: A,
    program: &Program<A>,
    version: Version,
    events: &[Event<A>],
    store: &[(Label, Atom<A>)],
    watch: &mut W,
) -> Result<Checked<A>, AllocError>
    ensures { IfOk result (IsTold version (Instances program.now) (events_of events.now) store.now) }
{
    let answer = answer_of(watched_check(alloc, program, version, events, store, watch))?;
    let line = written(alloc, answer)?;
    Ok(Checked { line, answer })
}

/// Reads a text of a store by the table of names so far, and tells what the check of a log and this store answers.
fn check_store<A: Allocator + Copy, W: Watch>(
    alloc: A,
    program: &Program<A>,
    names: &mut Names<A>,
    log: &LogText<A>,
    store: &[u8],
    watch: &mut W,
) -> Result<Checked<A>, CheckPartsFault>
    ensures { (rules first : List ℕ) (more : List (List ℕ)) (table : Table) → program_of [] rules ≡ Ok (program.now, table) → IsLogInParts table first more log.now.version (events_of log.now.events.items) names.old → IsCheckParts rules first more store.now result }
{
    match read_store(alloc, store, names) {
        Ok(store) => match told(alloc, program, log.version, &log.events, &store, watch) {
            Ok(checked) => Ok(checked),
            Err(_) => Err(CheckPartsFault::Memory),
        },
        Err(fault) => Err(store_fault(fault)),
    }
}

/// Reads a log in parts and a text of a store by the table of names of the rules, and tells what the check answers.
fn check_log<A: Allocator + Copy, W: Watch>(
    alloc: A,
    program: &Program<A>,
    names: &mut Names<A>,
    first: &[u8],
    more: &[&[u8]],
    store: &[u8],
    watch: &mut W,
) -> Result<Checked<A>, CheckPartsFault>
    ensures { (rules : List ℕ) → program_of [] rules ≡ Ok (program.now, names.old) → IsCheckParts rules first.now (map (λ text. text.now) more.now) store.now result }
{
    match read_log_in_parts(alloc, first, more, names) {
        Ok(read) => check_store(alloc, program, names, &read, store, watch),
        Err(fault) => Err(log_fault(fault)),
    }
}

/// Reads a text of rules, a text of a log and a text of a store, in this order and with one table of names, and checks
/// by the version of the log's header whether the log is a run of the rules that ends in the store.
///
/// An `Err` is the fault of the first text that can't be read, or E01. A log that is no such run is an `Ok`: its line
/// tells E16 with the first fault.
pub fn check_text<A: Allocator + Copy>(
    alloc: A,
    program: &[u8],
    log: &[u8],
    store: &[u8],
) -> Result<Checked<A>, CheckTextFault>
    ensures { IsCheckText program.now log.now store.now result }
{
    watched_check_text(alloc, program, log, store, &mut Unwatched)
}

/// The same, and before each entry of the log `watch` is told how many have been checked.
pub fn watched_check_text<A: Allocator + Copy, W: Watch>(
    alloc: A,
    program: &[u8],
    log: &[u8],
    store: &[u8],
    watch: &mut W,
) -> Result<Checked<A>, CheckTextFault>
    ensures { IsCheckText program.now log.now store.now result }
{
    match watched_check_parts(alloc, program, log, &[], store, watch) {
        Ok(checked) => Ok(checked),
        Err(fault) => Err(whole_fault(fault)),
    }
}

/// The check of a log that comes in parts: `first` is as [`check_text`] takes a log, with its header, and each text of
/// `more` goes on with entries alone. Each part keeps the limit on length by itself. The parts are checked as one log,
/// whose lines are counted through all of them: the answer is that of the log that they make.
///
/// An `Err` is the fault of the first text that can't be read, by the part for a log, or E01.
pub fn check_parts<A: Allocator + Copy>(
    alloc: A,
    program: &[u8],
    first: &[u8],
    more: &[&[u8]],
    store: &[u8],
) -> Result<Checked<A>, CheckPartsFault>
    ensures { IsCheckParts program.now first.now (map (λ text. text.now) more.now) store.now result }
{
    watched_check_parts(alloc, program, first, more, store, &mut Unwatched)
}

/// The same, and before each entry of the log `watch` is told how many have been checked.
pub fn watched_check_parts<A: Allocator + Copy, W: Watch>(
    alloc: A,
    program: &[u8],
    first: &[u8],
    more: &[&[u8]],
    store: &[u8],
    watch: &mut W,
) -> Result<Checked<A>, CheckPartsFault>
    ensures { IsCheckParts program.now first.now (map (λ text. text.now) more.now) store.now result }
{
    let mut names = Names::new(alloc);
    match read_program(alloc, program, &mut names) {
        Ok(rules) => check_log(alloc, &rules, &mut names, first, more, store, watch),
        Err(ReadError::Fault(fault)) => Err(CheckPartsFault::Program(fault)),
        Err(ReadError::Memory) => Err(CheckPartsFault::Memory),
    }
}
