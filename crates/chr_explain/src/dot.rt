//! Causes as nodes of a graph in the language of Graphviz. Each call writes after the bytes that are there. An `Err` is
//! E01, and part of the text may follow those bytes.
ghost use Rattle.std.specs.Prelude.{◌≡◌, ◌++◌, ◌∷◌, [], flat_map, slice_get, OnOk};
ghost use Rattle.chr_log.specs.Events.{events_of};
ghost use Rattle.chr_explain.specs.Reasons.{reason_of};
ghost use Rattle.chr_explain.specs.Lines.{recorded_view};
ghost use Rattle.chr_explain.specs.Graphs.{escaped, quoted, arrow, firing_arrows, arrows, node};

use crate::reasons::Reason;
use crate::writing::{Recorded, event_at, put_cause};
use chr_log::{Event, Label};
use chr_value::put_number;
use std::alloc::{AllocError, Allocator};

/// A byte, with a backslash before it where it is a quote or a backslash.
fn put_escaped<C: Allocator>(out: &mut Vec<u8, C>, byte: u8) -> Result<(), AllocError>
    ensures { OnOk result (out.new.items ≡ out.old.items ++ escaped byte) }
{
    if byte == b'"' || byte == b'\\' {
        out.push(b'\\')?;
    }
    out.push(byte)?;
    Ok(())
}

/// Bytes as they are written between quotes.
fn put_all_escaped<C: Allocator>(out: &mut Vec<u8, C>, bytes: &[u8]) -> Result<(), AllocError>
    ensures { OnOk result (out.new.items ≡ out.old.items ++ flat_map escaped bytes.now) }
{
    for byte in bytes {
        put_escaped(out, *byte)?;
    }
    Ok(())
}

/// Bytes between quotes.
#[tactic(auto, using(crate::proofs::Grouped::grouping))]
fn put_quoted<C: Allocator>(out: &mut Vec<u8, C>, bytes: &[u8]) -> Result<(), AllocError>
    ensures { OnOk result (out.new.items ≡ out.old.items ++ quoted bytes.now) }
{
    out.push(b'"')?;
    put_all_escaped(out, bytes)?;
    out.push(b'"')?;
    Ok(())
}

/// The arrow from a label to another, with what follows it.
#[tactic(auto, using(crate::proofs::Grouped::grouping))]
fn put_arrow<C: Allocator>(
    out: &mut Vec<u8, C>,
    from: Label,
    to: Label,
    end: &[u8],
) -> Result<(), AllocError>
    ensures { OnOk result (out.new.items ≡ out.old.items ++ arrow to end.now from) }
{
    out.extend_from_slice(b"  ")?;
    put_number(out, from)?;
    out.extend_from_slice(b" -> ")?;
    put_number(out, to)?;
    out.extend_from_slice(end)
}

/// The arrows from labels to a label, each with what follows it.
fn put_arrows<C: Allocator>(
    out: &mut Vec<u8, C>,
    from: &[Label],
    to: Label,
    end: &[u8],
) -> Result<(), AllocError>
    ensures { OnOk result (out.new.items ≡ out.old.items ++ flat_map (arrow to end.now) from.now) }
{
    for label in from {
        put_arrow(out, *label, to, end)?;
    }
    Ok(())
}

/// The arrows to a label from kept heads and from removed heads: dashed from a kept one.
#[tactic(auto, using(crate::proofs::Grouped::grouping))]
fn put_firing_arrows<C: Allocator>(
    out: &mut Vec<u8, C>,
    kept: &[Label],
    removed: &[Label],
    to: Label,
) -> Result<(), AllocError>
    ensures { OnOk result (out.new.items ≡ out.old.items ++ firing_arrows to kept.now removed.now) }
{
    put_arrows(out, kept, to, b" [style=dashed];\n")?;
    put_arrows(out, removed, to, b";\n")
}

/// The arrows to a label from the heads of the firing at a place.
fn put_head_arrows<A: Allocator, C: Allocator>(
    out: &mut Vec<u8, C>,
    events: &[Event<A>],
    place: usize,
    to: Label,
) -> Result<(), AllocError>
    ensures { OnOk result (out.new.items ≡ out.old.items ++ arrows to (slice_get (events_of events.now) place)) }
{
    match event_at(events, place) {
        Some(Event::Fire { kept, removed, .. }) => {
            put_firing_arrows(out, kept.as_slice(), removed.as_slice(), to)
        }
        Some(Event::Post { .. }) => Ok(()),
        Some(Event::Activate { .. }) => Ok(()),
        Some(Event::Drop { .. }) => Ok(()),
        None => Ok(()),
    }
}

/// A cause as a node with its line as label, and the arrows from the heads of its firing. `line` is written anew.
#[tactic(auto, using(crate::proofs::Grouped::grouping))]
pub fn put_node<A: Allocator + Copy, C: Allocator>(
    out: &mut Vec<u8, C>,
    line: &mut Vec<u8, C>,
    recorded: &Recorded<A>,
    reason: &Reason<A>,
) -> Result<(), AllocError>
    ensures { OnOk result (out.new.items ≡ out.old.items ++ node (recorded_view recorded.now) (reason_of reason.now)) }
{
    line.clear();
    put_cause(line, recorded, reason)?;
    out.extend_from_slice(b"  ")?;
    put_number(out, reason.cause.label)?;
    out.extend_from_slice(b" [label=")?;
    put_quoted(out, line)?;
    out.extend_from_slice(b"];\n")?;
    put_head_arrows(
        out,
        recorded.events,
        reason.cause.origin.made,
        reason.cause.label,
    )
}
