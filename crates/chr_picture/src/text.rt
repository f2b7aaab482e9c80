//! From the bytes of two texts to the bytes of a picture.
ghost use Rattle.std.specs.Prelude.{◌≡◌, ◌+◌, ◌-◌, ◌≤◌, ◌<◌, ℕ, List, [], Ok};
ghost use Rattle.chr_log.specs.Events.{events_of};
ghost use Rattle.chr_model.specs.Programs.{Instances};
ghost use Rattle.chr_text.specs.Reading.{program_of};
ghost use Rattle.chr_picture.specs.Texts.{drawn, IsDrawn, IsDrawText};

use crate::drawing::write_picture;
use crate::gathering::{MOST_COLUMNS, gather};
use crate::layout::MOST_ROWS;
use chr_check::fault::{CheckError, CheckFault};
use chr_lex::fault::{ReadError, ReadFault};
use chr_log_text::fault::TextFault;
use chr_log_text::{LogText, read_log};
use chr_rule::Program;
use chr_text::read_program;
use chr_value::Names;
use chr_watch::{Unwatched, Watch};
use std::alloc::{AllocError, Allocator};

/// Which entries of a log are drawn, by their numbers from 1.
#[derive(Clone, Copy, Debug, PartialEq, Eq)]
pub struct Range {
    pub from: u32,
    /// The last, as far as there is one, and no further than the 2,000th from the first.
    pub to: u32,
}

/// Why nothing was drawn.
#[derive(Clone, Copy, Debug, PartialEq, Eq)]
pub enum PictureFault {
    /// A fault in the text of rules.
    Program(ReadFault),
    /// A fault in the text of the log. It is never want of memory.
    Log(TextFault),
    /// E16: the log isn't that of a run of the rules.
    Refused(CheckFault),
    /// The log has no entry of the range: how many it has.
    NoEntry(u64),
    /// The entries of the range have more than 10,000 constraints.
    TooManyRows,
    /// E01: a growth was refused.
    Memory,
}

/// How many entries of a log of `len` entries come before those of a range that are drawn, and how many these are.
fn part_of(range: Range, len: usize) -> (u32, u32)
    ensures within { result.0 + result.1 ≤ len }
    ensures few { result.1 ≤ 2_000 }
    ensures count { result.1 ≡ drawn range len }
    ensures before { 0 < result.1 → result.0 ≡ range.from - 1 }
{
    let before = range.from.saturating_sub(1);
    let end = len.min(range.to as usize);
    let count = end
        .saturating_sub(before as usize)
        .min(MOST_COLUMNS as usize);
    if count == 0 {
        return (0, 0);
    }
    (before, count as u32)
}

/// Draws a part of a log that is read.
fn draw_log<A: Allocator + Copy, W: Watch>(
    alloc: A,
    program: &Program<A>,
    names: &Names<A>,
    log: &LogText<A>,
    range: Range,
    watch: &mut W,
) -> Result<Vec<u8, A>, PictureFault>
    ensures { IsDrawn log.now.version (Instances program.now) (events_of log.now.events.items) names.now range result }
{
    let (before, count) = part_of(range, log.events.len());
    let picture = match gather(
        alloc,
        program,
        log.version,
        &log.events,
        before,
        count,
        watch,
    ) {
        Ok(picture) => picture,
        Err(CheckError::NotARun(fault)) => return Err(PictureFault::Refused(fault)),
        Err(CheckError::NoMemory) => return Err(PictureFault::Memory),
    };
    if count == 0 {
        return Err(PictureFault::NoEntry(picture.total));
    }
    if MOST_ROWS < picture.rows.len() {
        return Err(PictureFault::TooManyRows);
    }
    let mut out = Vec::new(alloc);
    match write_picture(alloc, &mut out, names, &picture) {
        Ok(()) => Ok(out),
        Err(AllocError) => Err(PictureFault::Memory),
    }
}

/// Reads a text of a log by the table of names of the rules, and draws a part of it.
fn draw_read<A: Allocator + Copy, W: Watch>(
    alloc: A,
    program: &Program<A>,
    names: &mut Names<A>,
    log: &[u8],
    range: Range,
    watch: &mut W,
) -> Result<Vec<u8, A>, PictureFault>
    ensures { (rules : List ℕ) → program_of [] rules ≡ Ok (program.now, names.old) → IsDrawText rules log.now range result }
{
    match read_log(alloc, log, names) {
        Ok(read) => draw_log(alloc, program, names, &read, range, watch),
        Err(fault) => match fault {
            TextFault::NoMemory => Err(PictureFault::Memory),
            _ => Err(PictureFault::Log(fault)),
        },
    }
}

/// Reads a text of rules and a text of a log, in this order and with one table of names, checks that the log is that of a
/// run of the rules, and draws the entries of a range.
pub fn draw_text<A: Allocator + Copy>(
    alloc: A,
    program: &[u8],
    log: &[u8],
    range: Range,
) -> Result<Vec<u8, A>, PictureFault>
    ensures { IsDrawText program.now log.now range result }
{
    watched_draw_text(alloc, program, log, range, &mut Unwatched)
}

/// The same, and before each entry of the log `watch` is told how many have been replayed.
pub fn watched_draw_text<A: Allocator + Copy, W: Watch>(
    alloc: A,
    program: &[u8],
    log: &[u8],
    range: Range,
    watch: &mut W,
) -> Result<Vec<u8, A>, PictureFault>
    ensures { IsDrawText program.now log.now range result }
{
    let mut names = Names::new(alloc);
    match read_program(alloc, program, &mut names) {
        Ok(rules) => draw_read(alloc, &rules, &mut names, log, range, watch),
        Err(ReadError::Fault(fault)) => Err(PictureFault::Program(fault)),
        Err(ReadError::Memory) => Err(PictureFault::Memory),
    }
}
