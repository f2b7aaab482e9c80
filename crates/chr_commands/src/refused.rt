//! What the entries before a refused one tell of its ticket and its labels.
//!
//! A check names the first fault of a log by its line and kind. The entries before that line are steps of a run, so they
//! tell which ticket and which label come next, and where a goal ended or a constraint was removed.
use chr_check::fault::{CheckFault, Kind, Place};
use chr_log::{Event, Label};
use chr_rule::{BodyItem, Program};
use std::alloc::{AllocError, Global};

/// A sentence on a refused entry.
#[derive(Clone, Copy)]
enum Remark {
    Plain(&'static str),
    /// What stands before and after a number, as in `Goal 3 has ended.`
    Number(&'static str, u64, &'static str),
    /// What stands before each of two numbers, as in `Goal 3 was dropped in line 5.`
    Numbers(&'static str, u64, &'static str, u64),
    /// How many heads a rule keeps and removes.
    Heads {
        rule: u16,
        keeps: usize,
        removes: usize,
    },
}

/// Returns the text of a sentence.
fn sentence(alloc: Global, remark: Remark) -> Result<String, AllocError> {
    match remark {
        Remark::Plain(words) => format!(in alloc; "{words}"),
        Remark::Number(before, number, after) => format!(in alloc; "{before}{number}{after}"),
        Remark::Numbers(before, number, between, other) => {
            format!(in alloc; "{before}{number}{between}{other}.")
        }
        Remark::Heads {
            rule,
            keeps,
            removes,
        } => { format!(in alloc; "Rule {rule} keeps {keeps} and removes {removes}.") }
    }
}

/// The entries before a refused one, with the rules whose log they are.
#[derive(Drop)]
struct History<'l> {
    program: &'l Program<Global>,
    entries: &'l [Event<Global>],
}

/// The line of an entry by its place in the log, from 0: the header of a log is line 1.
fn line_at(place: usize) -> u64 {
    (place as u64).saturating_add(2)
}

impl History<'_> {
    /// How many goals an entry adds.
    fn added(&self, entry: &Event<Global>) -> u64 {
        match entry {
            Event::Post { .. } => 1,
            Event::Fire { rule, .. } => match self.program.rule(*rule as usize) {
                Some(rule) => {
                    let items = rule.body().iter();
                    items
                        .filter(|item| matches!(item, BodyItem::Add(_)))
                        .count() as u64
                }
                None => 0,
            },
            _ => 0,
        }
    }

    /// The next ticket.
    fn next_ticket(&self) -> u64 {
        let mut next = 1u64;
        for entry in self.entries {
            next = next.saturating_add(self.added(entry));
        }
        next
    }

    /// The next label.
    fn next_label(&self) -> u64 {
        let activations = self
            .entries
            .iter()
            .filter(|entry| matches!(entry, Event::Activate { .. }));
        (activations.count() as u64).saturating_add(1)
    }

    /// The place of the entry that activated a goal, and the goal's label.
    fn activation(&self, of: u64) -> Option<(usize, Label)> {
        for (place, entry) in self.entries.iter().enumerate() {
            if let Event::Activate { ticket, label } = entry {
                if *ticket == of {
                    return Some((place, *label));
                }
            }
        }
        None
    }

    /// The place of the entry that dropped a goal.
    fn drop_of(&self, of: u64) -> Option<usize> {
        self.entries.iter().position(|entry| match entry {
            Event::Drop { ticket } => *ticket == of,
            _ => false,
        })
    }

    /// The place of the entry whose firing removed a label.
    fn removal(&self, label: Label) -> Option<usize> {
        self.entries.iter().position(|entry| match entry {
            Event::Fire { removed, .. } => removed.as_slice().contains(&label),
            _ => false,
        })
    }

    /// The first of these labels that is not in the store.
    fn absent(&self, labels: &[Label]) -> Option<Label> {
        let next = self.next_label();
        for label in labels {
            if next <= *label || self.removal(*label).is_some() {
                return Some(*label);
            }
        }
        None
    }
}

/// What is wrong with the ticket of an entry.
fn ticket_remark(history: &History<'_>, entry: &Event<Global>) -> Remark {
    let next = history.next_ticket();
    let (ticket, activates) = match entry {
        Event::Post { .. } => return Remark::Number("The next one is ", next, "."),
        Event::Activate { ticket, .. } => (*ticket, true),
        Event::Fire { ticket, .. } | Event::Drop { ticket } => (*ticket, false),
    };
    if next <= ticket {
        let words = " has not been given: the next one is ";
        return Remark::Numbers("Ticket ", ticket, words, next);
    }
    let Some((place, label)) = history.activation(ticket) else {
        return Remark::Number("Goal ", ticket, " has not been activated.");
    };
    if activates {
        return Remark::Numbers("Goal ", ticket, " was activated in line ", line_at(place));
    }
    if let Some(place) = history.drop_of(ticket) {
        return Remark::Numbers("Goal ", ticket, " was dropped in line ", line_at(place));
    }
    match history.removal(label) {
        Some(place) => Remark::Numbers("Goal ", ticket, " ended in line ", line_at(place)),
        None => Remark::Number("Goal ", ticket, " has ended."),
    }
}

/// What is wrong with the label of an activation, or with the first label of a firing that is not in the store.
fn label_remark(history: &History<'_>, entry: &Event<Global>) -> Option<Remark> {
    let next = history.next_label();
    let Event::Fire { kept, removed, .. } = entry else {
        return Some(Remark::Number("The next one is ", next, "."));
    };
    let absent = history.absent(kept.as_slice());
    let label = absent.or(history.absent(removed.as_slice()))?;
    let (words, number) = match history.removal(label) {
        Some(place) => (" was removed in line ", line_at(place)),
        None => (" has not been given: the next one is ", next),
    };
    Some(Remark::Numbers("Label ", label, words, number))
}

/// How often a label stands among labels.
fn times(labels: &[Label], label: Label) -> usize {
    labels.iter().filter(|other| **other == label).count()
}

/// Whether one label stands at two heads.
fn is_repeated(kept: &[Label], removed: &[Label]) -> bool {
    kept.iter()
        .any(|label| 1 < times(kept, *label) || removed.contains(label))
        || removed.iter().any(|label| 1 < times(removed, *label))
}

/// Why the labels of a firing are no instance.
fn firing_remark(history: &History<'_>, entry: &Event<Global>) -> Option<Remark> {
    let Event::Fire {
        ticket,
        rule: number,
        kept,
        removed,
    } = entry
    else {
        return None;
    };
    let (_, own) = history.activation(*ticket)?;
    let (kept, removed) = (kept.as_slice(), removed.as_slice());
    let Some(rule) = history.program.rule(*number as usize) else {
        let rules = history.program.len() as u64;
        return Some(Remark::Number("The last rule of the program is rule ", rules, "."));
    };
    let (keeps, removes) = (rule.kept().len(), rule.removed().len());
    Some(if keeps != kept.len() || removes != removed.len() {
        Remark::Heads {
            rule: *number,
            keeps,
            removes,
        }
    } else if !kept.contains(&own) && !removed.contains(&own) {
        Remark::Number("The goal's own label is ", own, ".")
    } else if is_repeated(kept, removed) {
        Remark::Plain("One label stands at two heads.")
    } else {
        Remark::Number(
            "The constraints don't match the heads of rule ",
            u64::from(*number),
            ", or its guard doesn't hold, or its body has no value.",
        )
    })
}

/// Why a goal can't be dropped.
fn drop_remark(history: &History<'_>, entry: &Event<Global>) -> Option<Remark> {
    let Event::Drop { ticket } = entry else {
        return None;
    };
    let (_, own) = history.activation(*ticket)?;
    Some(Remark::Number("It stands under label ", own, "."))
}

/// What is wrong with an entry, by its kind of fault.
fn entry_remark(history: &History<'_>, kind: Kind, entry: &Event<Global>) -> Option<Remark> {
    match kind {
        Kind::BadTicket => Some(ticket_remark(history, entry)),
        Kind::BadLabel => label_remark(history, entry),
        Kind::NoInstance => firing_remark(history, entry),
        Kind::StillApplies => drop_remark(history, entry),
        Kind::StoreDiffers => None,
    }
}

/// What the entries before a refused one tell of it.
fn remark_on(
    program: &Program<Global>,
    events: &[Event<Global>],
    fault: CheckFault,
) -> Option<Remark> {
    if fault.place == Place::Store || fault.line < 2 {
        return None;
    }
    let place = (fault.line - 2) as usize;
    let entry = events.get(place)?;
    let history = History {
        program,
        entries: &events[..place],
    };
    entry_remark(&history, fault.kind, entry)
}

/// Returns which ticket or label of a refused entry is wrong, and what would be right or why, as a sentence. None where
/// the fault is in the store, the entries before the refused one tell no more than its kind, or memory is refused.
pub fn told(
    alloc: Global,
    program: &Program<Global>,
    events: &[Event<Global>],
    fault: CheckFault,
) -> Option<String> {
    sentence(alloc, remark_on(program, events, fault)?).ok()
}
