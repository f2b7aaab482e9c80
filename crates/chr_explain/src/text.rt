//! From the bytes of a program and of a log to the bytes of an explanation.
ghost use Rattle.std.specs.Prelude.{◌≡◌, ◌≤◌, ℕ, List, [], length, Ok, IfOk};
ghost use Rattle.chr_value.specs.Bounds.{most_text_bytes};
ghost use Rattle.chr_log.specs.Events.{events_of};
ghost use Rattle.chr_model.specs.Programs.{Instances};
ghost use Rattle.chr_text.specs.Reading.{program_of};
ghost use Rattle.chr_explain.specs.ExplainTexts.{IsLogAnswer, fault_of_log, IsAnswer, IsExplainText, bytes_of};

use crate::explanation::{Question, explanation};
use chr_check::fault::{CheckError, CheckFault, Place};
use chr_check::watched_check;
use chr_lex::fault::{ReadError, ReadFault};
use chr_log::{Event, Version};
use chr_log_text::fault::TextFault;
use chr_log_text::read_log;
use chr_rule::Program;
use chr_text::read_program;
use chr_value::Names;
use chr_watch::{Unwatched, Watch};
use std::alloc::{AllocError, Allocator};

/// Why nothing was explained.
#[derive(Clone, Copy, Debug, PartialEq, Eq)]
pub enum ExplainFault {
    /// A fault in the text of rules.
    Program(ReadFault),
    /// A fault in the text of the log. It is never want of memory.
    Log(TextFault),
    /// E16: the log is no run of the rules, by its first fault.
    Refused(CheckFault),
    /// The log doesn't give the label.
    NotGiven,
    /// E01: a growth was refused.
    Memory,
}

/// A fault, if it is one of the log.
fn of_log(fault: CheckFault) -> Option<CheckFault>
    ensures { result ≡ fault_of_log fault }
{
    match fault.place {
        Place::Log => Some(fault),
        Place::Store => None,
    }
}

/// The first fault of a log, if it has one. A log's fault comes before that of a store, so what a check answers for the
/// empty store tells it. An `Err` is E01.
fn fault_of<A: Allocator + Copy, W: Watch>(
    alloc: A,
    program: &Program<A>,
    version: Version,
    events: &[Event<A>],
    watch: &mut W,
) -> Result<Option<CheckFault>, AllocError>
    ensures { IfOk result (IsLogAnswer version (Instances program.now) (events_of events.now)) }
{
    let store = Vec::new(alloc);
    match watched_check(alloc, program, version, events, &store, watch) {
        Ok(_) => Ok(None),
        Err(CheckError::NotARun(fault)) => Ok(of_log(fault)),
        Err(CheckError::NoMemory) => Err(AllocError),
    }
}

/// Explains by the events of a log, if it is a run of the rules.
fn explain_events<A: Allocator + Copy, W: Watch>(
    alloc: A,
    text: &[u8],
    program: &Program<A>,
    names: &Names<A>,
    version: Version,
    events: &[Event<A>],
    question: Question,
    watch: &mut W,
) -> Result<Vec<u8, A>, ExplainFault>
    requires { length text.now ≤ most_text_bytes }
    ensures { IsAnswer text.now program.now names.now version (events_of events.now) question (bytes_of (λ out. out.items) result) }
{
    match fault_of(alloc, program, version, events, watch) {
        Ok(None) => {}
        Ok(Some(fault)) => return Err(ExplainFault::Refused(fault)),
        Err(AllocError) => return Err(ExplainFault::Memory),
    }
    match explanation(alloc, program, text, names, events, question) {
        Ok(Some(out)) => Ok(out),
        Ok(None) => Err(ExplainFault::NotGiven),
        Err(AllocError) => Err(ExplainFault::Memory),
    }
}

/// Reads a text of a log by the table of names of the rules, and explains.
fn explain_log<A: Allocator + Copy, W: Watch>(
    alloc: A,
    text: &[u8],
    program: &Program<A>,
    names: &mut Names<A>,
    log: &[u8],
    question: Question,
    watch: &mut W,
) -> Result<Vec<u8, A>, ExplainFault>
    requires { length text.now ≤ most_text_bytes }
    ensures { program_of [] text.now ≡ Ok (program.now, names.old) → IsExplainText text.now log.now question (bytes_of (λ out. out.items) result) }
{
    match read_log(alloc, log, names) {
        Ok(log) => explain_events(
            alloc,
            text,
            program,
            names,
            log.version,
            &log.events,
            question,
            watch,
        ),
        Err(fault) => match fault {
            TextFault::NoMemory => Err(ExplainFault::Memory),
            _ => Err(ExplainFault::Log(fault)),
        },
    }
}

/// Reads a text of rules and a text of a log, checks that the log is a run of the rules, and explains how the constraint of
/// a label came to be.
///
/// An `Err` is the fault of the first text that can't be read; else E16, the first fault of the log; else that the log
/// doesn't give the label; or E01.
pub fn explain_text<A: Allocator + Copy>(
    alloc: A,
    program: &[u8],
    log: &[u8],
    question: Question,
) -> Result<Vec<u8, A>, ExplainFault>
    ensures { IsExplainText program.now log.now question (bytes_of (λ out. out.items) result) }
{
    watched_explain_text(alloc, program, log, question, &mut Unwatched)
}

/// The same, and before each entry of the log `watch` is told how many have been checked.
pub fn watched_explain_text<A: Allocator + Copy, W: Watch>(
    alloc: A,
    program: &[u8],
    log: &[u8],
    question: Question,
    watch: &mut W,
) -> Result<Vec<u8, A>, ExplainFault>
    ensures { IsExplainText program.now log.now question (bytes_of (λ out. out.items) result) }
{
    let mut names = Names::new(alloc);
    match read_program(alloc, program, &mut names) {
        Ok(rules) => explain_log(alloc, program, &rules, &mut names, log, question, watch),
        Err(ReadError::Fault(fault)) => Err(ExplainFault::Program(fault)),
        Err(ReadError::Memory) => Err(ExplainFault::Memory),
    }
}
