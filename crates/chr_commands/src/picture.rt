//! `chr picture`.
ghost use Rattle.std.specs.Prelude.{◌≡◌, ◌≢◌};
ghost use Rattle.chr_commands.specs.Checks.{IsDrawn, IsUndrawn};

use crate::check::report_refusal;
use crate::ending::Status;
use crate::message::{Detail, Fault, Source, Text};
use crate::progress::Progress;
use crate::report::{print, report_fault, report_no_memory};
use crate::task::{Task, read_and_carry_out};
use chr_picture::{PictureFault, Range, watched_draw_text};
use std::rt::{Clock, Files};

/// Writes to standard error that nothing is drawn, and why.
fn report(rt: &impl Eprint, why: &str) -> Status
    ensures { result ≡ Status.Fault }
{
    let _ = eprintln!(rt; "chr: nothing is drawn: {why}");
    Status::Fault
}

/// Draws the entries of a range of a log that was read, as [`picture`] does.
#[tactic(auto, using(crate::proofs::Told::drawn, crate::proofs::Told::undrawn))]
pub(crate) fn draw<R: Clock + Print + Eprint + AllocGlobal>(
    rt: &R,
    detail: Detail,
    program: Source<'_>,
    log: Source<'_>,
    range: Range,
) -> Status
    ensures drawn { result ≡ Status.Done → IsDrawn program.entry.bytes.now log.entry.bytes.now range }
    ensures undrawn { result ≡ Status.Fault → IsUndrawn program.entry.bytes.now log.entry.bytes.now range }
    ensures closed { result ≢ Status.Open }
{
    let mut progress = Progress::new(rt, detail, "entries checked");
    match watched_draw_text(rt.alloc(), program.bytes, log.bytes, range, &mut progress) {
        Ok(text) => print(rt, detail, &text),
        Err(PictureFault::Program(fault)) => report_fault(rt, detail, program, Fault::Read(fault)),
        Err(PictureFault::Log(fault)) => report_fault(rt, detail, log, Fault::Text(fault)),
        Err(PictureFault::Refused(fault)) => {
            report_refusal(rt, detail, program.bytes, log, fault)
        },
        Err(PictureFault::NoEntry(_)) => report(rt, "the log has no entry in this range"),
        Err(PictureFault::TooManyRows) => {
            report(rt, "these entries have more than 10,000 constraints")
        }
        Err(PictureFault::Memory) => report_no_memory(rt, detail),
    }
}

/// Checks whether the log of the file `log` is that of a run of the rules of the file `file`, and writes a picture of the
/// entries of a range to standard output. Where the log is refused its line, as `chr check` prints it, is written there.
/// After another fault nothing is.
pub fn picture<R: Files + Clock + Input + Print + Eprint + AllocGlobal>(
    rt: &R,
    detail: Detail,
    file: &str,
    log: &str,
    range: Range,
) -> Status {
    let paths = [(Text::Program, file), (Text::Log, log)];
    read_and_carry_out(rt, detail, Task::Draw(range), &paths, Text::Log, &[])
}
