//! The text of a picture. Each call writes after the bytes that are there. An `Err` is E01, and part of the text may
//! follow them.
ghost use Rattle.std.specs.Prelude.{◌≡◌, ◌++◌, ◌+◌, ◌<◌, ◌≤◌, length, OnOk};
ghost use Rattle.std.specs.Fmt.{decimal};
ghost use Rattle.chr_value.specs.Atoms.{text_of};
ghost use Rattle.chr_picture.specs.Layouts.{pair_of, pairs_of, label_text};
ghost use Rattle.chr_picture.specs.Svg.{tick, tick_or_none, ticks, since_words, until_words, row_title, row_name, bar, row_text, rows_text, point, points, mark, marks, names, heads, firing_title, firing_line, firing_text, firings_text, head_text, caption, key_mark, key, swatch, legend_text, legend_line, legend};
ghost use Rattle.chr_picture.specs.Words.{words};

use crate::layout::{Layout, colour, index_of, y_of};
use crate::picture::{Firing, Row, place_of, removal};
use crate::words::Words;
use chr_log::Label;
use chr_value::{Name, Names, Pred, put_number, write_atom};
use std::alloc::{AllocError, Allocator};

/// A piece that is always the same.
pub fn put_words<C: Allocator>(out: &mut Vec<u8, C>, piece: Words) -> Result<(), AllocError>
    ensures { OnOk result (out.new.items ≡ out.old.items ++ words piece) }
{
    out.extend_from_slice(piece.text())
}

/// A number after such a piece.
fn put<C: Allocator>(out: &mut Vec<u8, C>, piece: Words, n: u64) -> Result<(), AllocError>
    ensures { OnOk result (out.new.items ≡ out.old.items ++ (words piece ++ decimal n)) }
{
    put_words(out, piece)?;
    put_number(out, n)
}

/// The line of a column, with its number.
#[tactic(auto, using(crate::proofs::Texts::grouping))]
fn put_tick<C: Allocator>(
    out: &mut Vec<u8, C>,
    layout: &Layout,
    bottom: u64,
    column: u32,
) -> Result<(), AllocError>
    requires { bottom ≤ 1_000_000 }
    ensures { OnOk result (out.new.items ≡ out.old.items ++ tick layout.now bottom column) }
{
    let x = layout.x_of(column);
    put(out, Words::TickLine, x)?;
    put(out, Words::TickDown, bottom)?;
    put(out, Words::TickNumber, x)?;
    put(out, Words::AtY, bottom + 12)?;
    put(out, Words::Inside, layout.entry_at(column))?;
    put_words(out, Words::TextLineEnd)
}

/// The line of a column, where the number of its entry is a multiple of `every`.
fn put_tick_or_none<C: Allocator>(
    out: &mut Vec<u8, C>,
    layout: &Layout,
    every: u64,
    bottom: u64,
    column: u32,
) -> Result<(), AllocError>
    requires every { 0 < every }
    requires bottom { bottom ≤ 1_000_000 }
    ensures { OnOk result (out.new.items ≡ out.old.items ++ tick_or_none layout.now every bottom column) }
{
    if layout.entry_at(column) % every == 0 {
        put_tick(out, layout, bottom, column)?;
    }
    Ok(())
}

/// The lines of all columns whose entries' numbers are multiples of `every`.
pub fn put_ticks<C: Allocator>(
    out: &mut Vec<u8, C>,
    layout: &Layout,
    every: u64,
    bottom: u64,
) -> Result<(), AllocError>
    requires every { 0 < every }
    requires bottom { bottom ≤ 1_000_000 }
    ensures { OnOk result (out.new.items ≡ out.old.items ++ ticks layout.now every bottom 0 layout.now.count) }
{
    for column in 0..layout.count {
        put_tick_or_none(out, layout, every, bottom, column)?;
    }
    Ok(())
}

/// A label with its atom.
#[tactic(auto, using(crate::proofs::Texts::grouping))]
pub fn put_label<A: Allocator + Copy, C: Allocator>(
    out: &mut Vec<u8, C>,
    names: &Names<A>,
    row: &Row<A>,
) -> Result<(), AllocError>
    ensures { OnOk result (out.new.items ≡ out.old.items ++ label_text names.now row.now) }
{
    put(out, Words::Hash, row.label)?;
    put_words(out, Words::Blank)?;
    write_atom(out, names, &row.atom)
}

/// From which entry on a constraint is there.
fn put_since<C: Allocator>(
    out: &mut Vec<u8, C>,
    layout: &Layout,
    since: Option<u32>,
) -> Result<(), AllocError>
    ensures { OnOk result (out.new.items ≡ out.old.items ++ since_words layout.now since) }
{
    match since {
        Some(column) => put(out, Words::ActivatedBy, layout.entry_at(column)),
        None => put(out, Words::InStoreBefore, layout.entry_at(0)),
    }
}

/// Up to which entry a constraint is there; nothing where none removes it.
fn put_until<C: Allocator>(
    out: &mut Vec<u8, C>,
    layout: &Layout,
    until: Option<u32>,
) -> Result<(), AllocError>
    ensures { OnOk result (out.new.items ≡ out.old.items ++ until_words layout.now until) }
{
    match until {
        Some(column) => put(out, Words::RemovedBy, layout.entry_at(column)),
        None => Ok(()),
    }
}

/// A constraint's name before its bar, which begins at `from`.
#[tactic(auto, using(crate::proofs::Texts::grouping))]
fn put_row_name<A: Allocator + Copy, C: Allocator>(
    out: &mut Vec<u8, C>,
    names: &Names<A>,
    from: u64,
    place: usize,
    row: &Row<A>,
) -> Result<(), AllocError>
    ensures { OnOk result (out.new.items ≡ out.old.items ++ row_name from place (label_text names.now row.now)) }
{
    put(out, Words::RowName, from.saturating_sub(6))?;
    put(out, Words::AtY, y_of(place) + 4)?;
    put_words(out, Words::Inside)?;
    put_label(out, names, row)?;
    put_words(out, Words::TextEnd)
}

/// A constraint's bar.
#[tactic(auto, using(crate::proofs::Texts::grouping))]
fn put_bar<C: Allocator>(
    out: &mut Vec<u8, C>,
    from: u64,
    to: u64,
    place: usize,
    fill: Words,
) -> Result<(), AllocError>
    ensures { OnOk result (out.new.items ≡ out.old.items ++ bar from to place fill) }
{
    put(out, Words::Bar, from)?;
    put(out, Words::AtY, y_of(place) - 4)?;
    put(out, Words::Wide, to.saturating_sub(from))?;
    put_words(out, Words::Filled)?;
    put_words(out, fill)?;
    put_words(out, Words::Inside)
}

/// The title of a constraint's bar: its label, its atom, and from which entry to which it is there.
#[tactic(auto, using(crate::proofs::Texts::grouping))]
fn put_row_title<A: Allocator + Copy, C: Allocator>(
    out: &mut Vec<u8, C>,
    names: &Names<A>,
    layout: &Layout,
    until: Option<u32>,
    row: &Row<A>,
) -> Result<(), AllocError>
    ensures { OnOk result (out.new.items ≡ out.old.items ++ row_title layout.now (label_text names.now row.now) row.now.since until) }
{
    put_words(out, Words::Title)?;
    put_label(out, names, row)?;
    put_since(out, layout, row.since)?;
    put_until(out, layout, until)?;
    put_words(out, Words::BarEnd)
}

/// A constraint's row: its name and its bar, whose title says what it is.
#[tactic(auto, using(crate::proofs::Texts::grouping))]
fn put_row<A: Allocator + Copy, C: Allocator>(
    out: &mut Vec<u8, C>,
    names: &Names<A>,
    layout: &Layout,
    preds: &[Pred],
    firings: &[Firing],
    place: usize,
    row: &Row<A>,
) -> Result<(), AllocError>
    ensures { OnOk result (out.new.items ≡ out.old.items ++ row_text names.now layout.now (pairs_of preds.now) firings.now place row.now) }
{
    let until = removal(firings, row.label);
    let fill = colour(index_of(preds, row.atom.pred()) % 8);
    let from = layout.begin_of(row.since);
    let to = layout.end_of(until);
    put_row_name(out, names, from, place, row)?;
    put_bar(out, from, to, place, fill)?;
    put_row_title(out, names, layout, until, row)
}

/// The rows of constraints.
pub fn put_rows<A: Allocator + Copy, C: Allocator>(
    out: &mut Vec<u8, C>,
    names: &Names<A>,
    layout: &Layout,
    preds: &[Pred],
    firings: &[Firing],
    rows: &[Row<A>],
) -> Result<(), AllocError>
    ensures { OnOk result (out.new.items ≡ out.old.items ++ rows_text names.now layout.now (pairs_of preds.now) firings.now 0 rows.now) }
{
    for (place, row) in rows.iter().enumerate() {
        put_row(out, names, layout, preds, firings, place, row)?;
    }
    Ok(())
}

/// The point of a firing's line in the row of a label.
#[tactic(auto, using(crate::proofs::Texts::grouping))]
fn put_point<A: Allocator, C: Allocator>(
    out: &mut Vec<u8, C>,
    rows: &[Row<A>],
    x: u64,
    label: Label,
) -> Result<(), AllocError>
    ensures { OnOk result (out.new.items ≡ out.old.items ++ point rows.now x label) }
{
    let y = y_of(place_of(rows, label));
    put_number(out, x)?;
    put(out, Words::Comma, y)?;
    put_words(out, Words::Blank)?;
    Ok(())
}

/// The points of a firing's line in the rows of labels.
fn put_points<A: Allocator, C: Allocator>(
    out: &mut Vec<u8, C>,
    rows: &[Row<A>],
    x: u64,
    labels: &[Label],
) -> Result<(), AllocError>
    ensures { OnOk result (out.new.items ≡ out.old.items ++ points rows.now x labels.now) }
{
    for label in labels {
        put_point(out, rows, x, *label)?;
    }
    Ok(())
}

/// The mark of a firing in the row of a label.
#[tactic(auto, using(crate::proofs::Texts::grouping))]
fn put_mark<A: Allocator, C: Allocator>(
    out: &mut Vec<u8, C>,
    rows: &[Row<A>],
    fill: Words,
    x: u64,
    label: Label,
) -> Result<(), AllocError>
    ensures { OnOk result (out.new.items ≡ out.old.items ++ mark rows.now fill x label) }
{
    let y = y_of(place_of(rows, label));
    put_words(out, Words::Mark)?;
    put_words(out, fill)?;
    put(out, Words::CentreX, x)?;
    put(out, Words::CentreY, y)?;
    put_words(out, Words::End)
}

/// The marks of a firing in the rows of labels.
fn put_marks<A: Allocator, C: Allocator>(
    out: &mut Vec<u8, C>,
    rows: &[Row<A>],
    fill: Words,
    x: u64,
    labels: &[Label],
) -> Result<(), AllocError>
    ensures { OnOk result (out.new.items ≡ out.old.items ++ marks rows.now fill x labels.now) }
{
    for label in labels {
        put_mark(out, rows, fill, x, *label)?;
    }
    Ok(())
}

/// Labels, each after a blank.
fn put_names<C: Allocator>(out: &mut Vec<u8, C>, labels: &[Label]) -> Result<(), AllocError>
    ensures { OnOk result (out.new.items ≡ out.old.items ++ names labels.now) }
{
    for label in labels {
        put(out, Words::NextLabel, *label)?;
    }
    Ok(())
}

/// The labels of a firing's heads.
#[tactic(auto, using(crate::proofs::Texts::grouping))]
fn put_heads<C: Allocator>(out: &mut Vec<u8, C>, firing: &Firing) -> Result<(), AllocError>
    ensures { OnOk result (out.new.items ≡ out.old.items ++ heads firing.now) }
{
    put_words(out, Words::KeptHeads)?;
    put_names(out, firing.kept.as_slice())?;
    put_words(out, Words::RemovedHeads)?;
    put_names(out, firing.removed.as_slice())
}

/// A firing's group as far as its title.
#[tactic(auto, using(crate::proofs::Texts::grouping))]
fn put_firing_title<C: Allocator>(
    out: &mut Vec<u8, C>,
    layout: &Layout,
    firing: &Firing,
) -> Result<(), AllocError>
    ensures { OnOk result (out.new.items ≡ out.old.items ++ firing_title layout.now firing.now) }
{
    put(out, Words::FiringTitle, layout.entry_at(firing.column))?;
    put(out, Words::ByRule, u64::from(firing.rule))?;
    put_heads(out, firing)?;
    put_words(out, Words::TitleEnd)
}

/// A firing: a line through the rows of its heads, and a mark in each.
#[tactic(auto, using(crate::proofs::Texts::grouping))]
fn put_firing<A: Allocator, C: Allocator>(
    out: &mut Vec<u8, C>,
    rows: &[Row<A>],
    layout: &Layout,
    firing: &Firing,
) -> Result<(), AllocError>
    ensures { OnOk result (out.new.items ≡ out.old.items ++ firing_text rows.now layout.now firing.now) }
{
    let x = layout.x_of(firing.column);
    put_firing_title(out, layout, firing)?;
    put_words(out, Words::FiringLine)?;
    put_points(out, rows, x, firing.kept.as_slice())?;
    put_points(out, rows, x, firing.removed.as_slice())?;
    put_words(out, Words::End)?;
    put_marks(out, rows, Words::White, x, firing.kept.as_slice())?;
    put_marks(out, rows, Words::Black, x, firing.removed.as_slice())?;
    put_words(out, Words::FiringEnd)
}

/// All firings.
pub fn put_firings<A: Allocator, C: Allocator>(
    out: &mut Vec<u8, C>,
    rows: &[Row<A>],
    layout: &Layout,
    firings: &[Firing],
) -> Result<(), AllocError>
    ensures { OnOk result (out.new.items ≡ out.old.items ++ firings_text rows.now layout.now firings.now) }
{
    for firing in firings {
        put_firing(out, rows, layout, firing)?;
    }
    Ok(())
}

/// What comes before all else.
#[tactic(auto, using(crate::proofs::Texts::grouping))]
pub fn put_head<C: Allocator>(
    out: &mut Vec<u8, C>,
    width: u64,
    height: u64,
) -> Result<(), AllocError>
    ensures { OnOk result (out.new.items ≡ out.old.items ++ head_text width height) }
{
    put(out, Words::Head, width)?;
    put(out, Words::High, height)?;
    put(out, Words::ViewBox, width)?;
    put(out, Words::Blank, height)?;
    put_words(out, Words::HeadEnd)
}

/// Which entries are drawn, of how many.
#[tactic(auto, using(crate::proofs::Texts::grouping))]
pub fn put_caption<C: Allocator>(
    out: &mut Vec<u8, C>,
    layout: &Layout,
    total: u64,
    place: usize,
) -> Result<(), AllocError>
    ensures { OnOk result (out.new.items ≡ out.old.items ++ caption layout.now total place) }
{
    put(out, Words::Line, u64::from(layout.left))?;
    put(out, Words::AtY, y_of(place) + 4)?;
    put(out, Words::Entries, layout.entry_at(0))?;
    put(out, Words::UpTo, layout.last_entry())?;
    put(out, Words::OfAll, total)?;
    put_words(out, Words::TextLineEnd)
}

/// A mark in the legend, up to where it is.
#[tactic(auto, using(crate::proofs::Texts::grouping))]
fn put_key_mark<C: Allocator>(
    out: &mut Vec<u8, C>,
    layout: &Layout,
    place: usize,
    fill: Words,
) -> Result<(), AllocError>
    ensures { OnOk result (out.new.items ≡ out.old.items ++ key_mark layout.now place fill) }
{
    put_words(out, Words::Key)?;
    put_words(out, fill)?;
    put(out, Words::CentreX, layout.inset(8))?;
    put(out, Words::CentreY, y_of(place))
}

/// What a mark stands for.
#[tactic(auto, using(crate::proofs::Texts::grouping))]
pub fn put_key<C: Allocator>(
    out: &mut Vec<u8, C>,
    layout: &Layout,
    place: usize,
    fill: Words,
    piece: Words,
) -> Result<(), AllocError>
    ensures { OnOk result (out.new.items ≡ out.old.items ++ key layout.now place fill piece) }
{
    put_key_mark(out, layout, place, fill)?;
    put(out, Words::KeyLine, layout.inset(24))?;
    put(out, Words::AtY, y_of(place) + 4)?;
    put_words(out, Words::Inside)?;
    put_words(out, piece)?;
    put_words(out, Words::TextLineEnd)
}

/// A predicate's colour.
#[tactic(auto, using(crate::proofs::Texts::grouping))]
fn put_swatch<C: Allocator>(
    out: &mut Vec<u8, C>,
    layout: &Layout,
    y: u64,
    fill: Words,
) -> Result<(), AllocError>
    requires { 4 ≤ y }
    ensures { OnOk result (out.new.items ≡ out.old.items ++ swatch layout.now y fill) }
{
    put(out, Words::Swatch, u64::from(layout.left))?;
    put(out, Words::AtY, y - 4)?;
    put_words(out, Words::Filled)?;
    put_words(out, fill)?;
    put_words(out, Words::End)
}

/// A predicate's name with how many arguments it has.
#[tactic(auto, using(crate::proofs::Texts::grouping))]
fn put_legend_text<A: Allocator + Copy, C: Allocator>(
    out: &mut Vec<u8, C>,
    names: &Names<A>,
    x: u64,
    y: u64,
    pred: Pred,
) -> Result<(), AllocError>
    ensures { OnOk result (out.new.items ≡ out.old.items ++ legend_text names.now x y (pair_of pred)) }
{
    put(out, Words::Line, x)?;
    put(out, Words::AtY, y)?;
    put_words(out, Words::Inside)?;
    put_name(out, names, pred.name)?;
    put(out, Words::Arity, u64::from(pred.arity))?;
    put_words(out, Words::TextLineEnd)
}

/// A predicate's line in the legend.
#[tactic(auto, using(crate::proofs::Texts::grouping))]
fn put_legend_line<A: Allocator + Copy, C: Allocator>(
    out: &mut Vec<u8, C>,
    names: &Names<A>,
    layout: &Layout,
    top: usize,
    place: usize,
    pred: Pred,
) -> Result<(), AllocError>
    requires { (top ≤ 20_000) × (place ≤ 20_000) }
    ensures { OnOk result (out.new.items ≡ out.old.items ++ legend_line names.now layout.now top place (pair_of pred)) }
{
    let y = y_of(top + place);
    put_swatch(out, layout, y, colour(place % 8))?;
    put_legend_text(out, names, layout.inset(24), y + 4, pred)
}

/// The predicates with their colours.
pub fn put_legend<A: Allocator + Copy, C: Allocator>(
    out: &mut Vec<u8, C>,
    names: &Names<A>,
    layout: &Layout,
    top: usize,
    preds: &[Pred],
) -> Result<(), AllocError>
    requires { (top ≤ 20_000) × (length preds.now ≤ 20_000) }
    ensures { OnOk result (out.new.items ≡ out.old.items ++ legend names.now layout.now top 0 (pairs_of preds.now)) }
{
    for (place, pred) in preds.iter().enumerate() {
        put_legend_line(out, names, layout, top, place, *pred)?;
    }
    Ok(())
}

/// A name's text; nothing for a number outside the table.
fn put_name<A: Allocator + Copy, C: Allocator>(
    out: &mut Vec<u8, C>,
    names: &Names<A>,
    name: Name,
) -> Result<(), AllocError>
    ensures { OnOk result (out.new.items ≡ out.old.items ++ text_of names.now name.number) }
{
    if let Some(text) = names.text(name) {
        out.extend_from_slice(text.as_bytes())?;
    }
    Ok(())
}
