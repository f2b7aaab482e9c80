//! Calls with their seats, and their answers.
use chr_book::Posted;
use chr_calls::{
    Batch, BatchReport, ClaimFault, DropFault, Dropping, FireFault, Firing, MarkFault, PostFault,
    PutDownFault, ReportFault, Turn, TurnFault,
};
use chr_lex::fault::ReadError;
use chr_search::Judged;
use chr_store::Label;
use chr_value::Atom;
use std::alloc::Allocator;

/// The judgement that a call goes by.
#[derive(Drop)]
pub enum Word<A: Allocator> {
    /// This one.
    Given(Judged<A>),
    /// The seat's own: that of the last trial that the seat was told for the ticket, as the next trial of its goal or as
    /// the first of a batch.
    Own,
}

/// The judgements that a report of a batch goes by.
#[derive(Drop)]
pub enum Words<A: Allocator> {
    /// These, in order.
    Given(Vec<Judged<A>, A>),
    /// The seat's own: those of the last batch that the seat was told for the ticket, in order; none where there was none.
    Own,
}

/// A call of a book. Tickets are named by their numbers.
#[derive(Drop)]
pub enum Call<A: Allocator> {
    /// Posts these atoms, in order.
    Post(Vec<Atom<A>, A>),
    /// Posts the atoms of a text.
    PostText(Vec<u8, A>),
    /// Claims a ticket.
    Claim(u64),
    /// Asks for a ticket's next trial.
    Trial(u64),
    /// Reports a judgement of a ticket's candidate.
    Report(u64, Word<A>),
    /// Fires a ticket's candidate.
    Fire(u64, Word<A>),
    /// Drops a ticket's goal.
    DropGoal(u64),
    /// Puts a ticket down.
    PutDown(u64),
    /// Marks a ticket stray.
    MarkStray(u64),
    /// Takes the least ticket that is marked stray.
    TakeStray,
    /// Asks for a ticket's next trials, at most sixteen.
    Batch(u64),
    /// Reports judgements of a ticket's next trials.
    ReportBatch(u64, Words<A>),
}

/// A call by the seat of this number.
#[derive(Drop)]
pub struct SeatCall<A: Allocator> {
    pub seat: u32,
    pub call: Call<A>,
}

/// The answer to a call, by the call's name.
#[derive(Drop)]
pub enum Answer<A: Allocator> {
    /// The first ticket.
    Post(Result<u64, PostFault>),
    /// The tickets of the text's atoms.
    PostText(Result<Posted, ReadError>),
    /// The goal's label.
    Claim(Result<Label, ClaimFault>),
    /// What comes next for the goal.
    Trial(Result<Turn<A>, TurnFault>),
    /// The search has gone on.
    Report(Result<(), ReportFault>),
    /// What the firing did.
    Fire(Result<Firing, FireFault>),
    /// What became of the goal.
    DropGoal(Result<Dropping, DropFault>),
    /// The ticket rests, marked stray.
    PutDown(Result<(), PutDownFault>),
    /// The ticket is marked stray.
    MarkStray(Result<(), MarkFault>),
    /// The ticket, where one was marked stray.
    TakeStray(Option<u64>),
    /// The next trials of the goal.
    Batch(Result<Batch<A>, TurnFault>),
    /// How many judgements were reported, and what comes next for the goal.
    ReportBatch(BatchReport<A>),
    /// E01: a growth was refused as the seat's own judgement was made, and the call was not made.
    NoMemory,
}
