//! The whole text of a picture.
ghost use Rattle.std.specs.Prelude.{◌≡◌, ◌++◌, ◌≤◌, ◌+◌, [], length, IfOk, OnOk};
ghost use Rattle.chr_picture.specs.Layouts.{pair_of, pairs_of, label_text, room, most_room, most_rows};
ghost use Rattle.chr_picture.specs.Svg.{with_predicate, predicates_of, layout_of, width_of, below, laid_out, picture_text};

use crate::layout::{Layout, MOST_LETTERS, every_of, index_of, step_of, y_of};
use crate::picture::{Picture, Row};
use crate::svg::{
    put_caption, put_firings, put_head, put_key, put_label, put_legend, put_rows, put_ticks,
    put_words,
};
use crate::words::Words;
use chr_value::{Names, Pred};
use std::alloc::{AllocError, Allocator};

/// How far to the left of where the columns begin so many letters before a bar go, by the column that gives its
/// constraint.
fn room(letters: usize, step: u8, since: Option<u32>) -> u16
    ensures room { result ≡ room letters step since }
    ensures few { result ≤ 4_480 }
{
    let width = 7 * letters.min(MOST_LETTERS) as u64;
    let offset = match since {
        Some(column) => (u64::from(column) + 1) * u64::from(step),
        None => 0,
    };
    width.saturating_sub(offset) as u16
}

/// What the name of a row needs to the left of where the columns begin. An `Err` is E01.
fn room_of<A: Allocator + Copy>(
    alloc: A,
    names: &Names<A>,
    step: u8,
    row: &Row<A>,
) -> Result<u16, AllocError>
    ensures room { IfOk result (λ needed. needed ≡ room (length (label_text names.now row.now)) step row.now.since) }
    ensures few { IfOk result (λ needed. needed ≤ 4_480) }
{
    let mut text = Vec::new(alloc);
    put_label(&mut text, names, row)?;
    Ok(room(text.len(), step, row.since))
}

/// The most that the names of rows need to the left of where the columns begin. An `Err` is E01.
fn most_room<A: Allocator + Copy>(
    alloc: A,
    names: &Names<A>,
    step: u8,
    rows: &[Row<A>],
) -> Result<u16, AllocError>
    ensures room { IfOk result (λ most. most ≡ most_room names.now step 0 rows.now) }
    ensures few { IfOk result (λ most. most ≤ 4_480) }
{
    let mut most = 0;
    for row in rows {
        most = room_of(alloc, names, step, row)?.max(most);
    }
    Ok(most)
}

/// Adds a predicate after others, if it isn't among them. An `Err` is E01.
fn push_predicate<A: Allocator>(preds: &mut Vec<Pred, A>, pred: Pred) -> Result<(), AllocError>
    ensures with { OnOk result (pairs_of preds.new.items ≡ with_predicate (pairs_of preds.old.items) (pair_of pred)) }
    ensures few { length preds.new.items ≤ length preds.old.items + 1 }
{
    if index_of(preds, pred) == preds.len() {
        preds.push(pred)?;
    }
    Ok(())
}

/// The predicates of rows, each once, in the order in which they come first. An `Err` is E01.
fn predicates<A: Allocator + Copy>(alloc: A, rows: &[Row<A>]) -> Result<Vec<Pred, A>, AllocError>
    ensures preds { IfOk result (λ preds. pairs_of preds.items ≡ predicates_of [] rows.now) }
    ensures few { IfOk result (λ preds. length preds.items ≤ length rows.now) }
{
    let mut preds = Vec::new(alloc);
    for row in rows {
        push_predicate(&mut preds, row.atom.pred())?;
    }
    Ok(preds)
}

/// How wide a picture is.
fn width_of(layout: &Layout) -> u64
    ensures { result ≡ width_of layout.now }
{
    let columns = (u64::from(layout.count) + 1) * u64::from(layout.step);
    u64::from(layout.left) + columns.max(320) + 16
}

/// Where the columns of a picture are. An `Err` is E01.
fn layout_of<A: Allocator + Copy>(
    alloc: A,
    names: &Names<A>,
    picture: &Picture<A>,
) -> Result<Layout, AllocError>
    ensures { IfOk result (λ made. made ≡ layout_of names.now picture.now) }
{
    let step = step_of(picture.count);
    let room = most_room(alloc, names, step, &picture.rows)?;
    Ok(Layout {
        left: 16 + room,
        step,
        count: picture.count,
        before: picture.before,
    })
}

/// The caption and the legend, below so many rows.
#[tactic(auto, using(crate::proofs::Texts::grouping))]
fn put_below<A: Allocator + Copy>(
    out: &mut Vec<u8, A>,
    names: &Names<A>,
    layout: &Layout,
    preds: &[Pred],
    total: u64,
    rows: usize,
) -> Result<(), AllocError>
    requires { (rows ≤ most_rows) × (length preds.now ≤ most_rows) }
    ensures { OnOk result (out.new.items ≡ out.old.items ++ below names.now layout.now (pairs_of preds.now) total rows) }
{
    let end = rows + preds.len();
    put_caption(out, layout, total, rows + 1)?;
    put_legend(out, names, layout, rows + 2, preds)?;
    put_key(out, layout, end + 2, Words::White, Words::Kept)?;
    put_key(out, layout, end + 3, Words::Black, Words::Removed)?;
    put_words(out, Words::PictureEnd)
}

/// The text of a picture by its layout, with the predicates of its rows.
#[tactic(auto, using(crate::proofs::Texts::grouping))]
fn put_laid_out<A: Allocator + Copy>(
    out: &mut Vec<u8, A>,
    names: &Names<A>,
    layout: &Layout,
    preds: &[Pred],
    picture: &Picture<A>,
) -> Result<(), AllocError>
    requires rows { length picture.now.rows.items ≤ most_rows }
    requires preds { length preds.now ≤ most_rows }
    ensures { OnOk result (out.new.items ≡ out.old.items ++ laid_out names.now layout.now (pairs_of preds.now) picture.now) }
{
    let rows = picture.rows.len();
    put_head(out, width_of(layout), y_of(rows + preds.len() + 4))?;
    put_ticks(out, layout, every_of(layout.count), y_of(rows) - 8)?;
    put_rows(out, names, layout, preds, &picture.firings, &picture.rows)?;
    put_firings(out, &picture.rows, layout, &picture.firings)?;
    put_below(out, names, layout, preds, picture.total, rows)
}

/// Writes the text of a picture after the bytes that are there. An `Err` is E01, and part of the text may follow them.
pub fn write_picture<A: Allocator + Copy>(
    alloc: A,
    out: &mut Vec<u8, A>,
    names: &Names<A>,
    picture: &Picture<A>,
) -> Result<(), AllocError>
    requires { length picture.now.rows.items ≤ most_rows }
    ensures { OnOk result (out.new.items ≡ out.old.items ++ picture_text names.now picture.now) }
{
    let layout = layout_of(alloc, names, picture)?;
    let preds = predicates(alloc, &picture.rows)?;
    put_laid_out(out, names, &layout, &preds, picture)
}
