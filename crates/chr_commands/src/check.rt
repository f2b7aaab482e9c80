//! `chr check`.
ghost use Rattle.std.specs.Prelude.{◌≡◌, ◌≢◌, ◌⊎◌, map, IsOk, IsErr};
ghost use Rattle.chr_commands.specs.Checks.{IsLawful, IsRefused};

use crate::ending::Status;
use crate::message::{Detail, Fault, Source, Text, part_message, refusal_message};
use crate::parts::{part_with, texts};
use crate::progress::Progress;
use crate::refused;
use crate::report::{print, report_fault, report_no_memory};
use crate::task::{Task, read_and_carry_out};
use chr_check::fault::{CheckFault, Place};
use chr_check_text::{CheckPartsFault, Checked, watched_check_parts};
use chr_log_text::read_log_in_parts;
use chr_text::read_program;
use chr_value::Names;
use std::alloc::{AllocError, Allocator, Global};
use std::rt::{Clock, Files};

/// The texts of the log, which may come in parts, their bytes, and the text of the store.
#[derive(Clone, Copy)]
struct Recorded<'a> {
    log: &'a [Source<'a>],
    parts: &'a [&'a [u8]],
    store: Source<'a>,
}

/// Returns what the entries before a refused one tell of it, read from the texts of the rules and of the parts of the log.
/// None where they tell nothing more, one of the texts can't be read, or memory is refused.
pub fn told(alloc: Global, program: &[u8], log: &[&[u8]], fault: CheckFault) -> Option<String> {
    let [first, more @ ..] = log else {
        return None;
    };
    let mut names = Names::new(alloc);
    let program = read_program(alloc, program, &mut names);
    let log = read_log_in_parts(alloc, first, more, &mut names);
    match (&program, &log) {
        (Ok(program), Ok(log)) => refused::told(alloc, program, &log.events, fault),
        _ => None,
    }
}

/// Returns what standard error says of a refusal: with [`Detail::Explained`] what it means, and else the file of the entry
/// where the log comes in parts.
pub fn refusal_text(
    alloc: Global,
    detail: Detail,
    program: &[u8],
    log: &[&[u8]],
    source: Source<'_>,
    fault: CheckFault,
) -> Result<Option<String>, AllocError> {
    match (detail, source.part) {
        (Detail::Explained, _) => {
            let told = told(alloc, program, log, fault);
            refusal_message(alloc, source, fault, told.as_deref()).map(Some)
        }
        (Detail::Line, Some(_)) => part_message(alloc, source, fault).map(Some),
        (Detail::Line, None) => Ok(None),
    }
}

/// Writes to standard error what is to be said of a refusal, as far as there is memory for it.
fn tell_refusal(
    rt: &(impl Eprint + AllocGlobal),
    detail: Detail,
    program: &[u8],
    recorded: Recorded<'_>,
    fault: CheckFault,
) {
    let source = match fault.place {
        Place::Log => part_with(recorded.log, fault.line),
        Place::Store => Some(recorded.store),
    };
    let Some(source) = source else {
        return;
    };
    let text = refusal_text(rt.alloc(), detail, program, recorded.parts, source, fault);
    if let Ok(Some(text)) = &text {
        let _ = eprint!(rt; "{text}");
    }
}

/// Writes the line of a refusal to standard output, and to standard error what is to be said of it.
fn print_refusal(
    rt: &(impl Print + Eprint + AllocGlobal),
    detail: Detail,
    line: &[u8],
    program: &[u8],
    recorded: Recorded<'_>,
    fault: CheckFault,
) -> Status
    ensures { (result ≡ Status.Fault) ⊎ (result ≡ Status.Usage) ⊎ (result ≡ Status.NoMemory) }
{
    let status = print(rt, detail, line);
    if status != Status::Done {
        return status;
    }
    tell_refusal(rt, detail, program, recorded, fault);
    Status::Fault
}

/// Writes the line of a log that is refused to standard output, as `chr check` does, and to standard error what is to be
/// said of the refusal.
pub(crate) fn report_refusal(
    rt: &(impl Print + Eprint + AllocGlobal),
    detail: Detail,
    program: &[u8],
    log: Source<'_>,
    fault: CheckFault,
) -> Status
    ensures { (result ≡ Status.Fault) ⊎ (result ≡ Status.Usage) ⊎ (result ≡ Status.NoMemory) }
{
    let Ok(line) = format!(in rt.alloc(); "refused {fault}\n") else {
        return report_no_memory(rt, detail);
    };
    let recorded = Recorded {
        log: &[log],
        parts: &[log.bytes],
        store: log,
    };
    print_refusal(rt, detail, line.as_bytes(), program, recorded, fault)
}

/// Writes the line of a check to standard output, and to standard error what is to be said of a refusal.
fn print_checked<A: Allocator>(
    rt: &(impl Print + Eprint + AllocGlobal),
    detail: Detail,
    program: &[u8],
    recorded: Recorded<'_>,
    checked: &Checked<A>,
) -> Status
    ensures run { result ≡ Status.Done → IsOk checked.now.answer }
    ensures refused { result ≡ Status.Fault → IsErr checked.now.answer }
    ensures closed { result ≢ Status.Open }
{
    match checked.answer {
        Ok(_) => print(rt, detail, &checked.line),
        Err(fault) => print_refusal(rt, detail, &checked.line, program, recorded, fault),
    }
}

/// Writes to standard error why nothing was checked.
fn report_parts_fault<R: Eprint + AllocGlobal>(
    rt: &R,
    detail: Detail,
    program: Source<'_>,
    recorded: Recorded<'_>,
    fault: CheckPartsFault,
) -> Status
    ensures says { (result ≡ Status.Fault) ⊎ (result ≡ Status.NoMemory) }
    ensures fault { result ≡ Status.Fault → fault ≢ CheckPartsFault.Memory }
{
    match fault {
        CheckPartsFault::Program(fault) => report_fault(rt, detail, program, Fault::Read(fault)),
        CheckPartsFault::Log(fault) => match recorded.log.get(fault.part) {
            Some(source) => report_fault(rt, detail, *source, Fault::Text(fault.fault)),
            None => Status::Fault,
        },
        CheckPartsFault::Store(fault) => {
            report_fault(rt, detail, recorded.store, Fault::Text(fault))
        }
        CheckPartsFault::Memory => report_no_memory(rt, detail),
    }
}

/// Checks the log of some texts, and writes the answer to standard output. After a fault in one of the texts nothing is
/// written there.
#[tactic(auto, using(crate::proofs::Lawful::lawful_with, crate::proofs::Lawful::refused_with, crate::proofs::Lawful::unread_with))]
pub(crate) fn check_sources<'s, R: Clock + Print + Eprint + AllocGlobal>(
    rt: &R,
    detail: Detail,
    program: Source<'_>,
    log: &'s [Source<'s>],
    store: Source<'s>,
) -> Status
    ensures run { result ≡ Status.Done → IsLawful program.entry.bytes.now (map (λ text. text.bytes.now) log.now) store.entry.bytes.now }
    ensures refused { result ≡ Status.Fault → IsRefused program.entry.bytes.now (map (λ text. text.bytes.now) log.now) store.entry.bytes.now }
    ensures closed { result ≢ Status.Open }
{
    let Ok(parts) = texts(rt.alloc(), log) else {
        return report_no_memory(rt, detail);
    };
    let [first, more @ ..] = parts.as_slice() else {
        return Status::Usage;
    };
    let recorded = Recorded {
        log,
        parts: &parts,
        store,
    };
    let mut progress = Progress::new(rt, detail, "entries checked");
    let checked = watched_check_parts(
        rt.alloc(),
        program.bytes,
        first,
        more,
        store.bytes,
        &mut progress,
    );
    match &checked {
        Ok(checked) => print_checked(rt, detail, program.bytes, recorded, checked),
        Err(fault) => report_parts_fault(rt, detail, program, recorded, *fault),
    }
}

/// Checks whether the log of the file `log`, which goes on in the files of `more`, is one of a run of the rules of the file
/// `file` that ends in the store of the file `store`, and writes the answer to standard output. All files are read first.
/// After a fault in one of the texts nothing is written there.
pub fn check<R: Files + Clock + Input + Print + Eprint + AllocGlobal>(
    rt: &R,
    detail: Detail,
    file: &str,
    log: &str,
    more: &[&str],
    store: &str,
) -> Status {
    let paths = [
        (Text::Program, file),
        (Text::Store, store),
        (Text::Log, log),
    ];
    read_and_carry_out(rt, detail, Task::Check, &paths, Text::Log, more)
}
