//! Calls on a book, with their answers in words.
use chr_book::Book;
use chr_calls::{TicketState, Turn, TurnFault};
use chr_search::{Judged, Trial, judge};
use chr_text::{read_atoms, read_program};
use chr_value::{Atom, Names};
use std::alloc::{AllocError, Allocator, Global};
use std::fmt::Debug;

/// A call of a book. The judgements of a script are numbered from 1, in the order in which their trials were answered.
#[derive(Clone, Copy)]
pub enum Call<'t> {
    /// Posts the atoms of a text. A name that the book's table lacks has a number outside it.
    Post(&'t str),
    /// Claims a ticket.
    Claim(u64),
    /// Asks for the next trial of a ticket, and judges it.
    Trial(u64),
    /// Reports the judgement of the last trial that was answered to this seat for this ticket.
    Report(u64),
    /// Reports the judgement of this number for a ticket.
    ReportOf(u64, usize),
    /// Fires the judgement of the last trial that was answered to this seat for this ticket.
    Fire(u64),
    /// Fires the judgement of this number for a ticket.
    FireOf(u64, usize),
    /// Drops the goal of a ticket.
    DropGoal(u64),
    /// Puts a ticket down.
    PutDown(u64),
    /// Marks a ticket stray.
    MarkStray(u64),
    /// Takes a stray ticket.
    TakeStray,
}

/// What a book is opened with: a program, some posts, whose names are in its table too, and its label limit.
#[derive(Clone, Copy)]
pub struct Opening<'t> {
    pub program: &'t str,
    pub names: &'t str,
    pub limit: u64,
}

/// A judgement, with the seat and the ticket that its trial was answered to.
#[derive(Drop)]
struct Told<A: Allocator> {
    seat: u32,
    ticket: u64,
    judged: Judged<A>,
}

/// A book with the judgements of all trials that it has answered.
pub struct Script<A: Allocator> {
    book: Book<A>,
    told: Vec<Told<A>>,
}

// Not derived: letting a script go is then one call, which is proved here once.
impl<A: Allocator> Drop for Script<A> {
    fn drop(self) {
        let Script { book: _, told: _ } = self;
    }
}

/// Reads atoms, so that their names are in a table. Whether their text is read and memory was left.
pub fn adds_names<A: Allocator + Copy>(alloc: A, text: &str, names: &mut Names<A>) -> bool {
    read_atoms(alloc, text.as_bytes(), names).is_ok()
}

/// Opens a book. None where a text can't be read, or where memory ran out.
pub fn open<A: Allocator + Copy>(alloc: A, opening: Opening) -> Option<Book<A>> {
    if opening.limit > 4_294_967_295 {
        return None;
    }
    let mut names = Names::new(alloc);
    let program = read_program(alloc, opening.program.as_bytes(), &mut names).ok()?;
    if !adds_names(alloc, opening.names, &mut names) {
        return None;
    }
    Book::new(alloc, program, names, opening.limit).ok()
}

/// Adds to a text whether a book is quiet, the entries of its log, and the constraints of its store, a line for each.
fn add_lines<A: Allocator + Copy>(text: &mut Vec<u8>, book: &Book<A>) -> Result<(), AllocError> {
    let quiet: &[u8] = if book.quiet() { b"quiet\n" } else { b"open\n" };
    text.extend_from_slice(quiet)?;
    book.log_lines(text, 1)?;
    book.store_lines(text)
}

/// These lines alone.
pub fn lines<A: Allocator + Copy>(texts: Global, book: &Book<A>) -> Result<Vec<u8>, AllocError> {
    let mut text = Vec::new(texts);
    add_lines(&mut text, book)?;
    Ok(text)
}

/// Whether a book has these lines.
pub fn has_lines<A: Allocator + Copy>(texts: Global, book: &Book<A>, expected: &[u8]) -> bool {
    match lines(texts, book) {
        Ok(text) => text.as_slice() == expected,
        Err(_) => false,
    }
}

/// Whether a text was made, and is the expected one.
pub fn is_text(made: Result<String, AllocError>, expected: &str) -> bool {
    match made {
        Ok(text) => text.as_str() == expected,
        Err(_) => false,
    }
}

/// A value's text, as `{:?}` writes it.
pub fn debug_text<T: Debug>(texts: Global, value: &T) -> Result<String, AllocError> {
    format!(in texts; "{value:?}")
}

/// The text of a turn or a batch that isn't given.
pub fn fault_text(texts: Global, fault: TurnFault) -> Result<String, AllocError> {
    format!(in texts; "Err({fault:?})")
}

/// The labels of a trial.
fn labels_of<A: Allocator + Copy>(texts: Global, trial: &Trial<A>) -> Result<Vec<u64>, AllocError> {
    let mut labels = Vec::new(texts);
    for placed in trial.placed() {
        labels.push(placed.label)?;
    }
    Ok(labels)
}

/// A judgement in words: the rule, the head, the labels and the verdict.
pub fn trial_text<A: Allocator + Copy>(
    texts: Global,
    judged: &Judged<A>,
) -> Result<String, AllocError> {
    let trial = judged.trial();
    let (rule, head, verdict) = (trial.number(), trial.head(), judged.verdict());
    let labels = labels_of(texts, trial)?;
    format!(in texts; "{rule}.{head} {labels:?} {verdict:?}")
}

/// Adds a letter for the state of a ticket. Whether there is such a ticket.
fn add_state(text: &mut String, state: TicketState) -> Result<bool, AllocError> {
    match state {
        TicketState::Unknown => return Ok(false),
        TicketState::Waiting => text.push('W')?,
        TicketState::Held(seat) => write!(text, "{seat}")?,
        TicketState::Resting => text.push('R')?,
        TicketState::Ended => text.push('E')?,
    }
    Ok(true)
}

impl<A: Allocator + Copy> Script<A> {
    /// Opens a book. None where a text can't be read, or where memory ran out.
    pub fn open(alloc: A, texts: Global, opening: Opening) -> Option<Script<A>> {
        let book = open(alloc, opening)?;
        Some(Script {
            book,
            told: Vec::new(texts),
        })
    }

    /// The allocator of texts.
    pub fn texts(&self) -> Global {
        *self.told.allocator()
    }

    /// The atoms that a call posts. None where their text can't be read, or where memory ran out.
    pub fn posted(&self, alloc: A, call: Call) -> Option<Vec<Atom<A>, A>> {
        let mut names = self.book.names().copy(alloc).ok()?;
        let text = match call {
            Call::Post(text) => text,
            _ => "",
        };
        read_atoms(alloc, text.as_bytes(), &mut names).ok()
    }

    /// The judgement of a number.
    pub fn judged(&self, number: usize) -> Option<&Judged<A>> {
        let told = self.told.get(number.checked_sub(1)?)?;
        Some(&told.judged)
    }

    /// The number of the judgement of the last trial that was answered to a seat for a ticket, 0 where there is none.
    fn last(&self, seat: u32, ticket: u64) -> usize {
        let mut last = 0;
        for (i, told) in self.told.iter().enumerate() {
            if told.seat == seat && told.ticket == ticket {
                last = i.wrapping_add(1);
            }
        }
        last
    }

    /// Keeps a judgement, and tells it.
    fn keep(&mut self, told: Told<A>) -> Result<String, AllocError> {
        let text = trial_text(self.texts(), &told.judged);
        self.told.push(told)?;
        text
    }

    /// Asks for the next trial of a ticket, and keeps its judgement.
    fn trial(&mut self, seat: u32, ticket: u64) -> Result<String, AllocError> {
        match self.book.trial(seat, ticket) {
            Ok(Turn::Trial(trial)) => self.keep(Told {
                seat,
                ticket,
                judged: judge(trial),
            }),
            Ok(Turn::Done) => "Done".to_string(self.texts()),
            Ok(Turn::Gone) => "Gone".to_string(self.texts()),
            Err(fault) => fault_text(self.texts(), fault),
        }
    }

    /// Reports the judgement of a number.
    fn report(&mut self, seat: u32, ticket: u64, number: usize) -> Result<String, AllocError> {
        let texts = self.texts();
        match self.told.get(number.wrapping_sub(1)) {
            None => "no judgement".to_string(texts),
            Some(told) => debug_text(texts, &self.book.report(seat, ticket, &told.judged)),
        }
    }

    /// Fires the judgement of a number.
    fn fire(&mut self, seat: u32, ticket: u64, number: usize) -> Result<String, AllocError> {
        let texts = self.texts();
        match self.told.get(number.wrapping_sub(1)) {
            None => "no judgement".to_string(texts),
            Some(told) => debug_text(texts, &self.book.fire(seat, ticket, &told.judged)),
        }
    }

    /// Fires a judgement, which may be of another script.
    pub fn fire_judged(
        &mut self,
        seat: u32,
        ticket: u64,
        judged: &Judged<A>,
    ) -> Result<String, AllocError> {
        debug_text(self.texts(), &self.book.fire(seat, ticket, judged))
    }

    /// Makes rounds of calls for a ticket, at most so many, and tells the answer. Where `starts`, the call that makes them
    /// claims the ticket, which waits.
    pub fn make_rounds(
        &mut self,
        starts: bool,
        seat: u32,
        ticket: u64,
        most: u64,
    ) -> Result<String, AllocError> {
        if starts {
            return debug_text(self.texts(), &self.book.start(seat, ticket, most));
        }
        debug_text(self.texts(), &self.book.go_on(seat, ticket, most))
    }

    /// Makes a call, which posts these atoms where it is a post, and tells its answer.
    pub fn make(&mut self, seat: u32, call: Call, atoms: &[Atom<A>]) -> Result<String, AllocError> {
        let texts = self.texts();
        match call {
            Call::Post(_) => debug_text(texts, &self.book.post(seat, atoms)),
            Call::Claim(ticket) => debug_text(texts, &self.book.claim(seat, ticket)),
            Call::Trial(ticket) => self.trial(seat, ticket),
            Call::Report(ticket) => self.report(seat, ticket, self.last(seat, ticket)),
            Call::ReportOf(ticket, number) => self.report(seat, ticket, number),
            Call::Fire(ticket) => self.fire(seat, ticket, self.last(seat, ticket)),
            Call::FireOf(ticket, number) => self.fire(seat, ticket, number),
            Call::DropGoal(ticket) => debug_text(texts, &self.book.drop_goal(seat, ticket)),
            Call::PutDown(ticket) => debug_text(texts, &self.book.put_down(seat, ticket)),
            Call::MarkStray(ticket) => debug_text(texts, &self.book.mark_stray(ticket)),
            Call::TakeStray => debug_text(texts, &self.book.take_stray()),
        }
    }

    /// A letter for the state of each ticket, of the first hundred.
    fn states(&self) -> Result<String, AllocError> {
        let mut text = String::new(self.texts());
        for ticket in 1..101u64 {
            if !add_state(&mut text, self.book.state(ticket))? {
                break;
            }
        }
        Ok(text)
    }

    /// Whether these are the letters of its tickets.
    pub fn has_states(&self, expected: &str) -> bool {
        is_text(self.states(), expected)
    }

    /// Whether it is quiet, the entries of the log, and the constraints of the store, a line for each.
    pub fn lines(&self) -> Result<Vec<u8>, AllocError> {
        lines(self.texts(), &self.book)
    }

    /// Whether these are its lines.
    pub fn has_lines(&self, expected: &[u8]) -> bool {
        has_lines(self.texts(), &self.book, expected)
    }
}
