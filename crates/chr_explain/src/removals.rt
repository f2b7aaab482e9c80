//! Which firing removed each label.
ghost use Rattle.std.specs.Prelude.{IfOk};
ghost use Rattle.chr_log.specs.Events.{event_of, events_of};
ghost use Rattle.chr_explain.specs.Reasons.{removed_of, AreRemovals, Marks};

use chr_log::{Event, Label};
use std::alloc::{AllocError, Allocator};

/// Marks labels, from label 1 on, as removed at a place.
fn mark_labels(list: &mut [Option<usize>], labels: &[Label], place: usize)
    ensures { Marks labels.now place list.old list.new }
{
    for label in labels {
        if *label > 0 && *label <= list.len() as u64 {
            list[*label as usize - 1] = Some(place);
        }
    }
}

/// Marks the labels that an event removes.
fn mark_removed<A: Allocator>(list: &mut [Option<usize>], event: &Event<A>, place: usize)
    ensures { Marks (removed_of (event_of event.now)) place list.old list.new }
{
    if let Event::Fire { removed, .. } = event {
        mark_labels(list, removed.as_slice(), place);
    }
}

/// For each label from 1 on, as far as labels go, the place of the entry that removed it, if one did. An `Err` is E01.
pub fn removals<A: Allocator + Copy>(
    alloc: A,
    events: &[Event<A>],
    labels: usize,
) -> Result<Vec<Option<usize>, A>, AllocError>
    ensures { IfOk result (λ list. AreRemovals (events_of events.now) labels list.items) }
{
    let mut list = vec![in alloc; None; labels]?;
    for (place, event) in events.iter().enumerate() {
        mark_removed(&mut list, event, place);
    }
    Ok(list)
}
