//! The explanation of a label of a lawful log.
ghost use Rattle.std.specs.Prelude.{◌≡◌, ◌++◌, ◌∷◌, ◌≤◌, [], length, map, flat_map, IfOk, OnOk, MatchOption};
ghost use Rattle.chr_value.specs.Bounds.{most_text_bytes};
ghost use Rattle.chr_log.specs.Events.{events_of};
ghost use Rattle.std.specs.List.{AllByRecursion};
ghost use Rattle.chr_causes.specs.Origins.{IsLawful, IsOrigin, Gives};
ghost use Rattle.chr_explain.specs.Atoms.{AreAtoms};
ghost use Rattle.chr_explain.specs.Headings.{headings_of};
ghost use Rattle.chr_explain.specs.Reasons.{reason_of, HasRemovals};
ghost use Rattle.chr_explain.specs.Lines.{recorded_view, cause_line};
ghost use Rattle.chr_explain.specs.Graphs.{node};
ghost use Rattle.chr_explain.specs.Explanations.{explanation_text, IsExplanation};

use crate::atoms::atoms;
use crate::dot::put_node;
use crate::headings::headings;
use crate::reasons::{Reason, reasons};
use crate::removals::removals;
use crate::writing::{Recorded, put_cause};
use chr_causes::causes::{Cause, causes};
use chr_lex::plain_text;
use chr_log::{Event, Label};
use chr_rule::Program;
use chr_value::{Atom, Names};
use std::alloc::{AllocError, Allocator};

/// How an explanation is written.
#[derive(Clone, Copy, Debug, PartialEq, Eq)]
pub enum Form {
    /// A line for each cause.
    Text,
    /// A graph in the language of Graphviz.
    Dot,
}

/// What is asked of a log.
#[derive(Clone, Copy, Debug, PartialEq, Eq)]
pub struct Question {
    /// Of which constraint the causes are shown.
    pub label: Label,
    /// Whether it is told which firing removed each.
    pub gone: bool,
    pub form: Form,
}

/// Lines of causes.
fn put_lines<A: Allocator + Copy>(
    out: &mut Vec<u8, A>,
    recorded: &Recorded<A>,
    reasons: &[Reason<A>],
) -> Result<(), AllocError>
    ensures { OnOk result (out.new.items ≡ out.old.items ++ flat_map (λ reason. cause_line (recorded_view recorded.now) reason ++ 10 ∷ []) (map reason_of reasons.now)) }
{
    for reason in reasons {
        put_cause(out, recorded, reason)?;
        out.push(b'\n')?;
    }
    Ok(())
}

/// Nodes of causes.
fn put_nodes<A: Allocator + Copy>(
    alloc: A,
    out: &mut Vec<u8, A>,
    recorded: &Recorded<A>,
    reasons: &[Reason<A>],
) -> Result<(), AllocError>
    ensures { OnOk result (out.new.items ≡ out.old.items ++ flat_map (node (recorded_view recorded.now)) (map reason_of reasons.now)) }
{
    let mut line = Vec::new(alloc);
    for reason in reasons {
        put_node(out, &mut line, recorded, reason)?;
    }
    Ok(())
}

/// The text of an explanation. An `Err` is E01.
#[tactic(auto, using(crate::proofs::Grouped::grouping))]
fn written<A: Allocator + Copy>(
    alloc: A,
    recorded: &Recorded<A>,
    form: Form,
    reasons: &[Reason<A>],
) -> Result<Vec<u8, A>, AllocError>
    ensures { IfOk result (λ out. out.items ≡ explanation_text form (recorded_view recorded.now) (map reason_of reasons.now)) }
{
    let mut out = Vec::new(alloc);
    match form {
        Form::Text => put_lines(&mut out, recorded, reasons)?,
        Form::Dot => {
            out.extend_from_slice(b"digraph causes {\n  node [shape=box];\n")?;
            put_nodes(alloc, &mut out, recorded, reasons)?;
            out.extend_from_slice(b"}\n")?;
        }
    }
    Ok(out)
}

/// The removals of causes, where they are asked for.
fn asked_removals<A: Allocator + Copy>(
    alloc: A,
    program: &Program<A>,
    events: &[Event<A>],
    atoms: &[Atom<A>],
    gone: bool,
    causes: &[Cause],
) -> Result<Vec<Option<usize>, A>, AllocError>
    requires atoms { AreAtoms program.now (events_of events.now) atoms.now }
    requires origins { AllByRecursion (λ c. IsOrigin program.now (events_of events.now) c.label c.origin) causes.now }
    ensures { IfOk result (λ list. HasRemovals gone (events_of events.now) causes.now list.items) }
{
    let _rules = program.len();
    let _causes = causes.len();
    if gone {
        removals(alloc, events, atoms.len())
    } else {
        Ok(Vec::new(alloc))
    }
}

/// How the constraint of a label came to be, by the text of the rules, the names, and the events of a lawful log. None where
/// the log doesn't give the label. An `Err` is E01.
pub fn explanation<A: Allocator + Copy>(
    alloc: A,
    program: &Program<A>,
    text: &[u8],
    names: &Names<A>,
    events: &[Event<A>],
    question: Question,
) -> Result<Option<Vec<u8, A>>, AllocError>
    requires lawful { IsLawful program.now (events_of events.now) }
    requires short { length text.now ≤ most_text_bytes }
    ensures { IfOk result (λ found. MatchOption found (¬ Gives (events_of events.now) question.label)
        (λ out. IsExplanation program.now (record { names = names.now; headings = headings_of text.now; log = events_of events.now }) question out.items)) }
{
    let Some(list) = causes(alloc, program, events, question.label)? else {
        return Ok(None);
    };
    let atoms = atoms(alloc, program, events)?;
    let removals = asked_removals(alloc, program, events, &atoms, question.gone, &list)?;
    let reasons = reasons(alloc, program, events, &atoms, &removals, &list)?;
    let plain = plain_text(alloc, text)?;
    let headings = headings(alloc, &plain)?;
    let recorded = Recorded {
        names,
        headings: &headings,
        events,
    };
    let out = written(alloc, &recorded, question.form, &reasons)?;
    Ok(Some(out))
}
