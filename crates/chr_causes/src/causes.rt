//! The causes of a label.
ghost use Rattle.std.specs.Prelude.{◌≡◌, ◌↔◌, ◌<◌, ◌≤◌, ◌+◌, ◌||◌, ◌++◌, ℕ, true, false, length, slice_index_or, IfOk, MatchOption};
ghost use Rattle.chr_log.specs.Events.{event_of, events_of};
ghost use Rattle.chr_model.specs.Stores.{among};
ghost use Rattle.chr_causes.specs.Origins.{IsLawful, AreOrigins, Gives};
ghost use Rattle.chr_causes.specs.Causes.{heads_of, IsCause, AreCauses};
ghost use Rattle.chr_causes.specs.Marks.{AreWithin, Adds, AreMarks};

use crate::origins::{Origin, origins};
use chr_log::{Event, Label};
use chr_rule::Program;
use std::alloc::{AllocError, Allocator};

/// One of the constraints from which another was derived.
#[derive(Clone, Copy, Debug, PartialEq, Eq)]
pub struct Cause {
    pub label: Label,
    pub origin: Origin,
}

/// Marks labels, from label 1 on.
fn mark_labels(marks: &mut [bool], labels: &[Label])
    requires { AreWithin (length marks.old) labels.now }
    ensures { Adds labels.now marks.old marks.new }
{
    for label in labels {
        marks[*label as usize - 1] = true;
    }
}

/// Marks the heads of a firing.
fn mark_heads<A: Allocator>(marks: &mut [bool], event: &Event<A>)
    requires { AreWithin (length marks.old) (heads_of (event_of event.now)) }
    ensures { Adds (heads_of (event_of event.now)) marks.old marks.new }
{
    if let Event::Fire { kept, removed, .. } = event {
        mark_labels(marks, kept.as_slice());
        mark_labels(marks, removed.as_slice());
    }
}

/// Which of the labels up to one are its causes.
fn mark_causes<A: Allocator + Copy>(
    alloc: A,
    program: &Program<A>,
    events: &[Event<A>],
    origins: &[Origin],
    label: usize,
) -> Result<Vec<bool, A>, AllocError>
    requires lawful { IsLawful program.now (events_of events.now) }
    requires origins { AreOrigins program.now (events_of events.now) origins.now }
    requires label { (0 < label) × (label ≤ length origins.now) }
    ensures { IfOk result (λ marks. AreMarks program.now (events_of events.now) label marks.items) }
{
    let mut marks = vec![in alloc; false; label]?;
    marks[label - 1] = true;
    for place in (0..label).rev() {
        if marks[place] {
            mark_heads(&mut marks, &events[origins[place].made]);
        }
    }
    Ok(marks)
}

/// The causes of a label of a lawful log, by rising label. None where the log doesn't give the label. An `Err` is E01.
pub fn causes<A: Allocator + Copy>(
    alloc: A,
    program: &Program<A>,
    events: &[Event<A>],
    label: Label,
) -> Result<Option<Vec<Cause, A>>, AllocError>
    requires { IsLawful program.now (events_of events.now) }
    ensures { IfOk result (λ found. MatchOption found (¬ Gives (events_of events.now) label) (λ list. AreCauses program.now (events_of events.now) label list.items)) }
{
    let origins = origins(alloc, program, events)?;
    if label == 0 || label > origins.len() as u64 {
        return Ok(None);
    }
    let marks = mark_causes(alloc, program, events, &origins, label as usize)?;
    let mut list = Vec::new(alloc);
    for (place, is_cause) in marks.iter().enumerate() {
        if *is_cause {
            list.push(Cause {
                label: place as u64 + 1,
                origin: origins[place],
            })?;
        }
    }
    Ok(Some(list))
}
