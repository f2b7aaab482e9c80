//! `chr explain`.
ghost use Rattle.std.specs.Prelude.{◌≡◌, ◌≢◌};
ghost use Rattle.chr_commands.specs.Checks.{IsExplained, IsUnexplained};

use crate::check::report_refusal;
use crate::ending::Status;
use crate::message::{Detail, Fault, Source, Text};
use crate::progress::Progress;
use crate::report::{print, report_fault, report_no_memory};
use crate::task::{Task, read_and_carry_out};
use chr_command_line::Masked;
use chr_explain::{ExplainFault, Question, watched_explain_text};
use chr_log::Label;
use std::rt::{Clock, Files};

/// Writes to standard error that a log doesn't give a label.
fn not_given(rt: &impl Eprint, log: Source<'_>, label: Label) -> Status
    ensures { result ≡ Status.Fault }
{
    let _ = eprintln!(rt; "chr: {}: the log gives no label {label}", Masked(log.path));
    Status::Fault
}

/// Explains by texts how the constraint of a label came to be, and writes the explanation to standard output.
#[tactic(auto, using(crate::proofs::Told::explained, crate::proofs::Told::unexplained))]
pub fn explain_sources<R: Clock + Print + Eprint + AllocGlobal>(
    rt: &R,
    detail: Detail,
    program: Source<'_>,
    log: Source<'_>,
    question: Question,
) -> Status
    ensures told { result ≡ Status.Done → IsExplained program.entry.bytes.now log.entry.bytes.now question }
    ensures untold { result ≡ Status.Fault → IsUnexplained program.entry.bytes.now log.entry.bytes.now question }
    ensures closed { result ≢ Status.Open }
{
    let alloc = rt.alloc();
    let mut progress = Progress::new(rt, detail, "entries checked");
    match watched_explain_text(alloc, program.bytes, log.bytes, question, &mut progress) {
        Ok(out) => print(rt, detail, &out),
        Err(ExplainFault::Program(fault)) => report_fault(rt, detail, program, Fault::Read(fault)),
        Err(ExplainFault::Log(fault)) => report_fault(rt, detail, log, Fault::Text(fault)),
        Err(ExplainFault::Refused(fault)) => {
            report_refusal(rt, detail, program.bytes, log, fault)
        },
        Err(ExplainFault::NotGiven) => not_given(rt, log, question.label),
        Err(ExplainFault::Memory) => report_no_memory(rt, detail),
    }
}

/// Explains by the rules of the file `file` and the log of the file `log` how the constraint of a label came to be, and
/// writes the explanation to standard output. After a fault in one of the texts, and where the log doesn't give the label,
/// nothing is written there; of a log that is refused the line of `chr check` is.
pub fn explain<R: Files + Clock + Input + Print + Eprint + AllocGlobal>(
    rt: &R,
    detail: Detail,
    file: &str,
    log: &str,
    question: Question,
) -> Status {
    let paths = [(Text::Program, file), (Text::Log, log)];
    read_and_carry_out(rt, detail, Task::Explain(question), &paths, Text::Log, &[])
}
