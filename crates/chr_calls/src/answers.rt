//! What the calls of a book answer.
use chr_search::Trial;
use chr_sheet::Trials;
use std::alloc::Allocator;

/// What a seat is told of a ticket.
#[derive(Clone, Copy, Debug, PartialEq, Eq)]
pub enum TicketState {
    /// No such ticket was given.
    Unknown,
    /// Its atom waits outside the store.
    Waiting,
    /// Its goal is active, and the seat of this number holds it.
    Held(u32),
    /// Its goal is active, and no seat holds it.
    Resting,
    /// Its goal has ended.
    Ended,
}

/// Why atoms were not posted.
#[derive(Clone, Copy, Debug, PartialEq, Eq)]
pub enum PostFault {
    /// E01: a growth was refused.
    NoMemory,
    /// E17: the number of a name is outside the book's table.
    UnknownName,
}

/// Why a ticket was not claimed.
#[derive(Clone, Copy, Debug, PartialEq, Eq)]
pub enum ClaimFault {
    /// E01: a growth was refused.
    NoMemory,
    /// E12: the ticket is neither Waiting nor Resting.
    NotWaiting(TicketState),
    /// E10: the next label is above the book's limit.
    LabelsSpent,
}

/// What comes next for a goal.
#[derive(Drop)]
pub enum Turn<A: Allocator> {
    /// Its next trial.
    Trial(Trial<A>),
    /// No trial is left.
    Done,
    /// Its label has left the store.
    Gone,
}

/// The next trials of a goal.
#[derive(Drop)]
pub enum Batch<A: Allocator> {
    /// Its next trial and those after it that were asked for, in order.
    Trials(Vec<Trial<A>, A>),
    /// No trial is left.
    Done,
    /// Its label has left the store.
    Gone,
}

/// What became of the judgements of a batch.
#[derive(Drop)]
pub struct BatchReport<A: Allocator> {
    /// How many were reported.
    pub reported: usize,
    /// What comes next for the goal.
    pub next: Result<Turn<A>, TurnFault>,
}

/// Why no turn was given.
#[derive(Clone, Copy, Debug, PartialEq, Eq)]
pub enum TurnFault {
    /// E01: a growth was refused.
    NoMemory,
    /// E13: the seat doesn't hold the ticket.
    NotHeld,
}

/// Why a judgement was not taken.
#[derive(Clone, Copy, Debug, PartialEq, Eq)]
pub enum ReportFault {
    /// E13: the seat doesn't hold the ticket.
    NotHeld,
    /// E14: the judged trial isn't the ticket's candidate.
    Stale,
    /// E19: the verdict is Whole.
    IsWhole,
}

/// What a firing did.
#[derive(Clone, Copy, Debug, PartialEq, Eq)]
pub enum Firing {
    /// The removed labels have left the store.
    Fired(Fired),
    /// A label of the trial had left the store already, and nothing was removed.
    Missed,
}

/// A firing that was made.
#[derive(Clone, Copy, Debug, PartialEq, Eq)]
pub struct Fired {
    /// The ticket of the body's first atom.
    pub first: u64,
    /// How many atoms the body has.
    pub count: usize,
    /// Whether the active label is still in the store.
    pub active_lives: bool,
}

/// Why nothing was fired.
#[derive(Clone, Copy, Debug, PartialEq, Eq)]
pub enum FireFault {
    /// E01: a growth was refused.
    NoMemory,
    /// E13: the seat doesn't hold the ticket.
    NotHeld,
    /// E14: the judged trial isn't the ticket's candidate.
    Stale,
    /// E15: the verdict isn't Whole.
    NotWhole,
}

/// What became of a goal that was to be dropped.
#[derive(Clone, Copy, Debug, PartialEq, Eq)]
pub enum Dropping {
    /// It has ended.
    Dropped,
    /// A trial is left.
    Unfinished,
}

/// Why a goal was not dropped.
#[derive(Clone, Copy, Debug, PartialEq, Eq)]
pub enum DropFault {
    /// E01: a growth was refused.
    NoMemory,
    /// E13: the seat doesn't hold the ticket.
    NotHeld,
}

/// Why a ticket was not put down.
#[derive(Clone, Copy, Debug, PartialEq, Eq)]
pub enum PutDownFault {
    /// E13: the seat doesn't hold the ticket.
    NotHeld,
}

/// Why a ticket was not marked.
#[derive(Clone, Copy, Debug, PartialEq, Eq)]
pub enum MarkFault {
    /// E12: the ticket is neither Waiting nor Resting.
    NotWaiting(TicketState),
}

/// The next trials of a goal, across labels, heads and rules.
#[derive(Drop)]
pub enum Sheet<A: Allocator> {
    /// Its next trial and those after it that were asked for, in order.
    Trials(Vec<Trials<A>, A>),
    /// No trial is left.
    Done,
    /// Its label has left the store.
    Gone,
}

/// The call that follows a report of judgements, with its answer.
#[derive(Drop)]
pub enum Following<A: Allocator> {
    /// The last judged trial came next, and it is whole: it was to be fired.
    Fire(Result<Firing, FireFault>),
    /// No trial was left, or the goal's label had left the store: the goal was to be dropped.
    Drop(Result<Dropping, DropFault>),
    /// Another trial came next: it was to be given with those after it.
    Sheet(Result<Sheet<A>, TurnFault>),
    /// No call, since no trial could be asked for.
    Nothing(TurnFault),
}

/// What became of the judgements of a sheet.
#[derive(Drop)]
pub struct SheetReport<A: Allocator> {
    /// How many were reported.
    pub reported: usize,
    /// The call that followed.
    pub following: Following<A>,
}
