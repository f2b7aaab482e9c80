//! Lists of calls for a book, and answers in words.
use crate::tests::rows::Row;
use crate::tests::script::{Call as ScriptCall, Script, debug_text, fault_text, trial_text};
use chr_book::Book;
use chr_calls::{Batch, BatchReport, Turn, TurnFault};
use chr_run_calls::{Answer, Call, SeatCall, Word, Words, run_calls};
use chr_search::{Judged, Trial, judge};
use std::alloc::{AllocError, Allocator, Global};

/// What is done with a ticket, by the seat's own judgement where by one.
#[derive(Clone, Copy)]
pub enum Does {
    Claim,
    Trial,
    Report,
    Fire,
    DropGoal,
    PutDown,
    MarkStray,
    TakeStray,
    Batch,
    ReportBatch,
}

/// The call that does this with a ticket.
fn call_of<A: Allocator>(does: Does, ticket: u64) -> Call<A> {
    match does {
        Does::Claim => Call::Claim(ticket),
        Does::Trial => Call::Trial(ticket),
        Does::Report => Call::Report(ticket, Word::Own),
        Does::Fire => Call::Fire(ticket, Word::Own),
        Does::DropGoal => Call::DropGoal(ticket),
        Does::PutDown => Call::PutDown(ticket),
        Does::MarkStray => Call::MarkStray(ticket),
        Does::TakeStray => Call::TakeStray,
        Does::Batch => Call::Batch(ticket),
        Does::ReportBatch => Call::ReportBatch(ticket, Words::Own),
    }
}

/// The answers to a list of calls.
pub struct Answers<A: Allocator> {
    answers: Vec<Answer<A>, A>,
}

// Not derived: letting answers go is then one call, which is proved here once.
impl<A: Allocator> Drop for Answers<A> {
    fn drop(self) {
        let Answers { answers: _ } = self;
    }
}

impl<A: Allocator + Copy> Answers<A> {
    pub fn as_slice(&self) -> &[Answer<A>] {
        self.answers.as_slice()
    }

    /// The answers in words.
    pub fn text(&self, memory: &Memory<A>) -> Result<String, AllocError> {
        let mut text = String::new(memory.texts);
        for answer in &self.answers {
            add_made(&mut text, "; ", memory.answer_text(answer))?;
        }
        Ok(text)
    }
}

/// A list of calls.
pub struct Calls<A: Allocator> {
    calls: Vec<SeatCall<A>, A>,
}

// Not derived, for the same reason.
impl<A: Allocator> Drop for Calls<A> {
    fn drop(self) {
        let Calls { calls: _ } = self;
    }
}

impl<A: Allocator + Copy> Calls<A> {
    /// No calls.
    pub fn new(alloc: A) -> Calls<A> {
        Calls {
            calls: Vec::new(alloc),
        }
    }

    /// Adds a call by a seat.
    pub fn add(&mut self, seat: u32, call: Call<A>) -> Result<(), AllocError> {
        self.calls.push(SeatCall { seat, call })?;
        Ok(())
    }

    /// Adds the call by which a seat does this with a ticket.
    pub fn add_own(&mut self, seat: u32, does: Does, ticket: u64) -> Result<(), AllocError> {
        self.add(seat, call_of(does, ticket))
    }

    /// Adds the calls by which a seat does each of these with a ticket, in order.
    pub fn add_each(&mut self, seat: u32, list: &[Does], ticket: u64) -> Result<(), AllocError> {
        for does in list {
            self.add_own(seat, *does, ticket)?;
        }
        Ok(())
    }

    /// Adds a post of the atoms of a text.
    pub fn add_post(&mut self, alloc: A, seat: u32, text: &str) -> Result<(), AllocError> {
        let bytes = Vec::from_slice(alloc, text.as_bytes())?;
        self.add(seat, Call::PostText(bytes))
    }

    /// Moves the calls of another list to the end of this one.
    pub fn append(&mut self, other: &mut Calls<A>) -> Result<(), AllocError> {
        self.calls.append(&mut other.calls)
    }

    /// Keeps the first calls, so many.
    pub fn truncate(&mut self, count: usize) {
        self.calls.truncate(count);
    }

    /// Makes the calls on a book.
    pub fn answers(&self, alloc: A, book: &mut Book<A>) -> Result<Answers<A>, AllocError> {
        let answers = run_calls(alloc, book, &self.calls)?;
        Ok(Answers { answers })
    }

    /// Makes the calls on a book, whatever the answers. Whether there was memory for them.
    pub fn are_made(&self, alloc: A, book: &mut Book<A>) -> bool {
        self.answers(alloc, book).is_ok()
    }
}

/// The judgement of a copy of a trial.
pub fn judged_copy<A: Allocator + Copy>(
    alloc: A,
    trial: &Trial<A>,
) -> Result<Judged<A>, AllocError> {
    Ok(judge(trial.copy(alloc)?))
}

/// A judgement of a script, by its number.
fn given<A: Allocator + Copy>(alloc: A, script: &Script<A>, number: usize) -> Option<Word<A>> {
    let judged = script.judged(number)?;
    Some(Word::Given(judged_copy(alloc, judged.trial()).ok()?))
}

/// The call of a list that is this call of a script.
fn list_call<A: Allocator + Copy>(
    alloc: A,
    script: &Script<A>,
    call: ScriptCall,
) -> Option<Call<A>> {
    Some(match call {
        ScriptCall::Post(_) => Call::Post(script.posted(alloc, call)?),
        ScriptCall::Claim(ticket) => Call::Claim(ticket),
        ScriptCall::Trial(ticket) => Call::Trial(ticket),
        ScriptCall::Report(ticket) => Call::Report(ticket, Word::Own),
        ScriptCall::ReportOf(ticket, number) => {
            Call::Report(ticket, given(alloc, script, number)?)
        }
        ScriptCall::Fire(ticket) => Call::Fire(ticket, Word::Own),
        ScriptCall::FireOf(ticket, number) => Call::Fire(ticket, given(alloc, script, number)?),
        ScriptCall::DropGoal(ticket) => Call::DropGoal(ticket),
        ScriptCall::PutDown(ticket) => Call::PutDown(ticket),
        ScriptCall::MarkStray(ticket) => Call::MarkStray(ticket),
        ScriptCall::TakeStray => Call::TakeStray,
    })
}

/// The calls of a table's rows as one list, once a script has made them all.
pub fn list_of<A: Allocator + Copy>(
    alloc: A,
    script: &Script<A>,
    rows: &[Row],
) -> Option<Calls<A>> {
    let mut calls = Calls::new(alloc);
    for (seat, call, _, _) in rows {
        let call = list_call(alloc, script, *call)?;
        calls.add(*seat, call).ok()?;
    }
    Some(calls)
}

/// Adds a text to those before it, after a mark that parts them.
fn add_text(text: &mut String, mark: &str, one: &str) -> Result<(), AllocError> {
    if !text.is_empty() {
        text.push_str(mark)?;
    }
    text.push_str(one)
}

/// The same, where it was made.
pub fn add_made(
    text: &mut String,
    mark: &str,
    one: Result<String, AllocError>,
) -> Result<(), AllocError> {
    match one {
        Ok(one) => add_text(text, mark, one.as_str()),
        Err(error) => Err(error),
    }
}

/// The memory of a book, and that of texts about it.
#[derive(Drop)]
pub struct Memory<A> {
    pub book: A,
    pub texts: Global,
}

impl<A> Memory<A> {
    /// The memory of these allocators.
    pub fn new(book: A, texts: Global) -> Memory<A> {
        Memory { book, texts }
    }
}

impl<A: Allocator + Copy> Memory<A> {
    /// A trial with its verdict, in words.
    fn copy_text(&self, trial: &Trial<A>) -> Result<String, AllocError> {
        trial_text(self.texts, &judged_copy(self.book, trial)?)
    }

    /// What comes next, in words: a trial with its verdict.
    pub fn turn_text(&self, turn: &Result<Turn<A>, TurnFault>) -> Result<String, AllocError> {
        match turn {
            Ok(Turn::Trial(trial)) => self.copy_text(trial),
            Ok(Turn::Done) => "Done".to_string(self.texts),
            Ok(Turn::Gone) => "Gone".to_string(self.texts),
            Err(fault) => fault_text(self.texts, *fault),
        }
    }

    /// Some trials in words.
    fn trials_text(&self, trials: &[Trial<A>]) -> Result<String, AllocError> {
        let mut text = String::new(self.texts);
        for trial in trials {
            add_made(&mut text, ", ", self.copy_text(trial))?;
        }
        Ok(text)
    }

    /// A batch in words.
    fn batch_text(&self, batch: &Result<Batch<A>, TurnFault>) -> Result<String, AllocError> {
        match batch {
            Ok(Batch::Trials(trials)) => self.trials_text(trials),
            Ok(Batch::Done) => "Done".to_string(self.texts),
            Ok(Batch::Gone) => "Gone".to_string(self.texts),
            Err(fault) => fault_text(self.texts, *fault),
        }
    }

    /// The report of a batch in words.
    fn report_text(&self, report: &BatchReport<A>) -> Result<String, AllocError> {
        let next = self.turn_text(&report.next)?;
        format!(in self.texts; "{}, {next}", report.reported)
    }

    /// An answer in words.
    pub fn answer_text(&self, answer: &Answer<A>) -> Result<String, AllocError> {
        let texts = self.texts;
        match answer {
            Answer::Post(told) => debug_text(texts, told),
            Answer::PostText(told) => debug_text(texts, told),
            Answer::Claim(told) => debug_text(texts, told),
            Answer::Trial(turn) => self.turn_text(turn),
            Answer::Report(told) => debug_text(texts, told),
            Answer::Fire(told) => debug_text(texts, told),
            Answer::DropGoal(told) => debug_text(texts, told),
            Answer::PutDown(told) => debug_text(texts, told),
            Answer::MarkStray(told) => debug_text(texts, told),
            Answer::TakeStray(told) => debug_text(texts, told),
            Answer::Batch(batch) => self.batch_text(batch),
            Answer::ReportBatch(report) => self.report_text(report),
            Answer::NoMemory => "NoMemory".to_string(texts),
        }
    }
}
