//! The line of a cause. Each call writes after the bytes that are there. An `Err` is E01, and part of the text may follow
//! those bytes.
ghost use Rattle.std.specs.Prelude.{◌≡◌, ◌++◌, ◌∷◌, ◌≤◌, [], length, map, Some, OnOk, codes, slice_get};
ghost use Rattle.std.specs.Option.{option_map};
ghost use Rattle.std.specs.Fmt.{decimal};
ghost use Rattle.chr_value.specs.Atoms.{by_texts, said};
ghost use Rattle.chr_value.specs.Bounds.{most_variables};
ghost use Rattle.chr_value.specs.Spelling.{spell};
ghost use Rattle.chr_limits.specs.Variables.{is_blank};
ghost use Rattle.chr_limits.specs.Views.{names as texts};
ghost use Rattle.chr_log.specs.Events.{event_of, events_of};
ghost use Rattle.chr_explain.specs.Headings.{heading_view};
ghost use Rattle.chr_explain.specs.Reasons.{reason_of};
ghost use Rattle.chr_explain.specs.Lines.{recorded_view, entry_words, head_words, heads_words, heading_at, line_words, rule_words, variable_words, values_from, values_words, all_heads_words, firing_words, post_words, origin_words, by_words, removal_words, given_words, cause_line};

use crate::headings::Heading;
use crate::reasons::Reason;
use chr_guard::Binding;
use chr_log::{Event, Label};
use chr_value::{Names, ValueRef, put_number, write_atom, write_value};
use std::alloc::{AllocError, Allocator};

/// What lines are written from: the names, the rules' headings, and the log.
#[derive(Drop)]
pub struct Recorded<'a, A: Allocator> {
    pub names: &'a Names<A>,
    pub headings: &'a [Heading<'a>],
    pub events: &'a [Event<A>],
}

/// The line of an entry in the text of the log, by its place from 0. No memory holds an entry whose line is above the
/// greatest number.
fn put_entry<C: Allocator>(out: &mut Vec<u8, C>, place: usize) -> Result<(), AllocError>
    ensures { OnOk result (out.new.items ≡ out.old.items ++ entry_words place) }
{
    let Some(line) = (place as u64).checked_add(2) else {
        return Err(AllocError);
    };
    out.extend_from_slice(b"log ")?;
    put_number(out, line)
}

/// A head, by its label.
fn put_head<C: Allocator>(out: &mut Vec<u8, C>, label: Label) -> Result<(), AllocError>
    ensures { OnOk result (out.new.items ≡ out.old.items ++ head_words label) }
{
    out.extend_from_slice(b" #")?;
    put_number(out, label)
}

/// Heads, by their labels.
fn put_heads<C: Allocator>(out: &mut Vec<u8, C>, labels: &[Label]) -> Result<(), AllocError>
    ensures { OnOk result (out.new.items ≡ out.old.items ++ heads_words labels.now) }
{
    for label in labels {
        put_head(out, *label)?;
    }
    Ok(())
}

/// The heading of a rule, by its number from 1.
fn heading_of<'b, 'a>(headings: &'b [Heading<'a>], rule: u16) -> Option<&'b Heading<'a>>
    ensures { option_map (λ h. heading_view h.now) result ≡ heading_at (map heading_view headings.now) rule }
{
    if rule == 0 {
        return None;
    }
    headings.get(usize::from(rule) - 1)
}

/// The line of a heading, if there is one.
fn put_line<C: Allocator>(out: &mut Vec<u8, C>, heading: Option<&Heading>) -> Result<(), AllocError>
    ensures { OnOk result (out.new.items ≡ out.old.items ++ line_words (option_map (λ h. heading_view h.now) heading.entry)) }
{
    if let Some(heading) = heading {
        out.extend_from_slice(b" (program ")?;
        put_number(out, u64::from(heading.line))?;
        out.push(b')')?;
    }
    Ok(())
}

/// A rule by its number, with its line in the program.
#[tactic(auto, using(crate::proofs::Grouped::grouping))]
fn put_rule<C: Allocator>(
    out: &mut Vec<u8, C>,
    headings: &[Heading],
    rule: u16,
) -> Result<(), AllocError>
    ensures { OnOk result (out.new.items ≡ out.old.items ++ rule_words (map heading_view headings.now) rule) }
{
    out.extend_from_slice(b"rule ")?;
    put_number(out, u64::from(rule))?;
    put_line(out, heading_of(headings, rule))
}

/// The rule that did something.
#[tactic(auto, using(crate::proofs::Grouped::grouping))]
fn put_by<C: Allocator>(
    out: &mut Vec<u8, C>,
    headings: &[Heading],
    rule: u16,
) -> Result<(), AllocError>
    ensures { OnOk result (out.new.items ≡ out.old.items ++ (codes " by " ++ rule_words (map heading_view headings.now) rule)) }
{
    out.extend_from_slice(b" by ")?;
    put_rule(out, headings, rule)
}

/// What a variable is bound to, by its name; nothing for `_` and for a free one.
#[tactic(auto, using(crate::proofs::Grouped::grouping))]
fn put_variable<A: Allocator + Copy, C: Allocator>(
    out: &mut Vec<u8, C>,
    names: &Names<A>,
    name: &[u8],
    bound: Option<ValueRef<'_, A>>,
) -> Result<(), AllocError>
    ensures { OnOk result (out.new.items ≡ out.old.items ++ variable_words names.now name.now (option_map said bound.entry)) }
{
    let Some(value) = bound else {
        return Ok(());
    };
    if name == b"_".as_slice() {
        return Ok(());
    }
    out.extend_from_slice(b", ")?;
    out.extend_from_slice(name)?;
    out.extend_from_slice(b" = ")?;
    write_value(out, names, &value)
}

/// What variables are bound to, by their names. A rule has at most 24.
fn put_variables<A: Allocator + Copy, C: Allocator>(
    out: &mut Vec<u8, C>,
    names: &Names<A>,
    variables: &[&[u8]],
    values: &Binding<'_, A>,
) -> Result<(), AllocError>
    requires { length variables.now ≤ most_variables }
    ensures { OnOk result (out.new.items ≡ out.old.items ++ values_from names.now values.now 0 (texts variables.now)) }
{
    for (number, name) in variables.iter().enumerate() {
        put_variable(out, names, *name, values.at(number as u8))?;
    }
    Ok(())
}

/// The values of a rule's variables, where its heading and they are known.
fn put_values<A: Allocator + Copy, C: Allocator>(
    out: &mut Vec<u8, C>,
    names: &Names<A>,
    heading: Option<&Heading>,
    values: Option<&Binding<'_, A>>,
) -> Result<(), AllocError>
    ensures { OnOk result (out.new.items ≡ out.old.items ++ values_words names.now (option_map (λ h. heading_view h.now) heading.entry) (option_map (λ v. v.now) values.entry)) }
{
    let Some(heading) = heading else {
        return Ok(());
    };
    let Some(values) = values else {
        return Ok(());
    };
    put_variables(out, names, &heading.variables, values)
}

/// The labels of the heads of a firing.
#[tactic(auto, using(crate::proofs::Grouped::grouping))]
fn put_all_heads<C: Allocator>(
    out: &mut Vec<u8, C>,
    kept: &[Label],
    removed: &[Label],
) -> Result<(), AllocError>
    ensures { OnOk result (out.new.items ≡ out.old.items ++ all_heads_words kept.now removed.now) }
{
    out.extend_from_slice(b" on")?;
    put_heads(out, kept)?;
    out.extend_from_slice(b" \\")?;
    put_heads(out, removed)
}

/// The rule, the place, the heads and the values of a firing.
#[tactic(auto, using(crate::proofs::Grouped::grouping))]
fn put_firing<A: Allocator + Copy, C: Allocator>(
    out: &mut Vec<u8, C>,
    recorded: &Recorded<A>,
    made: usize,
    rule: u16,
    kept: &[Label],
    removed: &[Label],
    values: Option<&Binding<'_, A>>,
) -> Result<(), AllocError>
    ensures { OnOk result (out.new.items ≡ out.old.items ++ firing_words (recorded_view recorded.now) made rule kept.now removed.now (option_map (λ v. v.now) values.entry)) }
{
    put_rule(out, recorded.headings, rule)?;
    out.extend_from_slice(b" fired at ")?;
    put_entry(out, made)?;
    put_all_heads(out, kept, removed)?;
    put_values(
        out,
        recorded.names,
        heading_of(recorded.headings, rule),
        values,
    )
}

/// The place of a post.
#[tactic(auto, using(crate::proofs::Grouped::grouping))]
fn put_post<C: Allocator>(out: &mut Vec<u8, C>, made: usize) -> Result<(), AllocError>
    ensures { OnOk result (out.new.items ≡ out.old.items ++ post_words made) }
{
    out.extend_from_slice(b"posted at ")?;
    put_entry(out, made)
}

/// The event at a place.
pub(crate) fn event_at<A: Allocator>(events: &[Event<A>], place: usize) -> Option<&Event<A>>
    ensures { option_map (λ e. event_of e.now) result ≡ slice_get (events_of events.now) place }
{
    events.get(place)
}

/// Where a cause comes from.
fn put_origin<A: Allocator + Copy, C: Allocator>(
    out: &mut Vec<u8, C>,
    recorded: &Recorded<A>,
    made: usize,
    values: Option<&Binding<'_, A>>,
) -> Result<(), AllocError>
    ensures { OnOk result (out.new.items ≡ out.old.items ++ origin_words (recorded_view recorded.now) made (option_map (λ v. v.now) values.entry) (slice_get (events_of recorded.now.events.now) made)) }
{
    match event_at(recorded.events, made) {
        Some(
            Event::Fire {
                rule,
                kept,
                removed,
                ..
            },
        ) => put_firing(
            out,
            recorded,
            made,
            *rule,
            kept.as_slice(),
            removed.as_slice(),
            values,
        ),
        Some(Event::Post { .. }) => put_post(out, made),
        Some(Event::Activate { .. }) => put_post(out, made),
        Some(Event::Drop { .. }) => put_post(out, made),
        None => put_post(out, made),
    }
}

/// The rule of the firing at a place.
fn put_firing_rule<A: Allocator + Copy, C: Allocator>(
    out: &mut Vec<u8, C>,
    recorded: &Recorded<A>,
    place: usize,
) -> Result<(), AllocError>
    ensures { OnOk result (out.new.items ≡ out.old.items ++ by_words (recorded_view recorded.now) (slice_get (events_of recorded.now.events.now) place)) }
{
    match event_at(recorded.events, place) {
        Some(Event::Fire { rule, .. }) => put_by(out, recorded.headings, *rule),
        Some(Event::Post { .. }) => Ok(()),
        Some(Event::Activate { .. }) => Ok(()),
        Some(Event::Drop { .. }) => Ok(()),
        None => Ok(()),
    }
}

/// The firing that removed a cause, if one is told.
#[tactic(auto, using(crate::proofs::Grouped::grouping))]
fn put_removal<A: Allocator + Copy, C: Allocator>(
    out: &mut Vec<u8, C>,
    recorded: &Recorded<A>,
    removed: Option<usize>,
) -> Result<(), AllocError>
    ensures { OnOk result (out.new.items ≡ out.old.items ++ removal_words (recorded_view recorded.now) removed) }
{
    let Some(place) = removed else {
        return Ok(());
    };
    out.extend_from_slice(b"; removed at ")?;
    put_entry(out, place)?;
    put_firing_rule(out, recorded, place)
}

/// The label of a cause, its atom, and the line that gave the label.
#[tactic(auto, using(crate::proofs::Grouped::grouping))]
fn put_given<A: Allocator + Copy, C: Allocator>(
    out: &mut Vec<u8, C>,
    names: &Names<A>,
    reason: &Reason<A>,
) -> Result<(), AllocError>
    ensures { OnOk result (out.new.items ≡ out.old.items ++ given_words names.now (reason_of reason.now)) }
{
    out.push(b'#')?;
    put_number(out, reason.cause.label)?;
    out.push(b' ')?;
    write_atom(out, names, reason.atom)?;
    out.extend_from_slice(b" at ")?;
    put_entry(out, reason.cause.origin.activated)
}

/// The line of a cause, without its end.
#[tactic(auto, using(crate::proofs::Grouped::grouping))]
pub fn put_cause<A: Allocator + Copy, C: Allocator>(
    out: &mut Vec<u8, C>,
    recorded: &Recorded<A>,
    reason: &Reason<A>,
) -> Result<(), AllocError>
    ensures { OnOk result (out.new.items ≡ out.old.items ++ cause_line (recorded_view recorded.now) (reason_of reason.now)) }
{
    put_given(out, recorded.names, reason)?;
    out.extend_from_slice(b": ")?;
    put_origin(
        out,
        recorded,
        reason.cause.origin.made,
        reason.values.as_ref(),
    )?;
    put_removal(out, recorded, reason.removed)
}
