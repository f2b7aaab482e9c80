//! Trials that are given together: the next one of a goal, and those after it.
ghost use Rattle.std.specs.Prelude.{IfOk};
ghost use Rattle.chr_calls.specs.Batches.{AreTogether, Batches, IsNextBeside, NoneBeside, Sheets, batch_of, sheet_of};
ghost use Rattle.chr_calls.specs.Books.{space_of};

use crate::book::Book;
use chr_calls::{Batch, Sheet, Turn, TurnFault};
use chr_search::{Ask, Search, Trial};
use chr_sheet::read;
use std::alloc::{AllocError, Allocator};

/// How many trials a batch has at most.
pub const MOST_IN_BATCH: usize = 16;

impl<A: Allocator + Copy> Book<A> {
    /// A trial of a search with those behind it, sixteen at most. An `Err` is E01.
    fn with_those_behind(
        &self,
        search: &Search,
        first: Trial<A>,
    ) -> Result<Vec<Trial<A>, A>, AllocError>
        ensures { let s = space_of self.now search.now.label in IfOk result (λ trials. AreTogether (IsNextBeside s) (NoneBeside s) 15 first trials.items) }
    {
        let (program, plans, store) = (&self.program, &self.plans, &self.store);
        let mut trials = Vec::with_capacity(self.alloc, MOST_IN_BATCH)?;
        trials.push(first)?;
        while trials.len() < MOST_IN_BATCH {
            let last = &trials[trials.len() - 1];
            let Ask::Trial(next) = search.behind(self.alloc, last, program, plans, store)? else {
                break;
            };
            trials.push(next)?;
        }
        Ok(trials)
    }

    /// The next trial of the ticket's goal, which is then the ticket's candidate, and those after it with the same rule and
    /// head and the same labels but the last, at most sixteen together. Done where there is none, and Gone where the goal's
    /// label has left the store: then it has no candidate. E13 unless the seat holds the ticket; E01 where memory ran out:
    /// then nothing has changed.
    pub fn batch(&mut self, seat: u32, ticket: u64) -> Result<Batch<A>, TurnFault>
        ensures { Batches self.old seat ticket (batch_of result) self.new }
    {
        let first = match self.next_turn(seat, ticket)? {
            Turn::Trial(first) => first,
            Turn::Done => {
                self.forget_candidate(ticket);
                return Ok(Batch::Done);
            }
            Turn::Gone => {
                self.forget_candidate(ticket);
                return Ok(Batch::Gone);
            }
        };
        let Some(search) = self.tickets.search(ticket) else {
            unreachable!();
        };
        let Ok(candidate) = first.copy(self.alloc) else {
            return Err(TurnFault::NoMemory);
        };
        let Ok(trials) = self.with_those_behind(search, first) else {
            return Err(TurnFault::NoMemory);
        };
        self.set_candidate(ticket, candidate);
        Ok(Batch::Trials(trials))
    }

    /// The next trial of the ticket's goal, which is then the ticket's candidate, and those that come after it, across labels,
    /// heads and rules, read ahead without a verdict: at most so many together, but one at least. Done where there is none,
    /// and Gone where the goal's label has left the store: then it has no candidate. E13 unless the seat holds the ticket; E01
    /// where memory ran out: then nothing has changed.
    pub fn sheet(&mut self, seat: u32, ticket: u64, most: usize) -> Result<Sheet<A>, TurnFault>
        ensures { Sheets self.old seat ticket most (sheet_of result) self.new }
    {
        let Some(search) = self.live(seat, ticket)? else {
            self.forget_candidate(ticket);
            return Ok(Sheet::Gone);
        };
        let (program, plans, store) = (&self.program, &self.plans, &self.store);
        let Ok(trials) = read(self.alloc, search, most.max(1), program, plans, store) else {
            return Err(TurnFault::NoMemory);
        };
        let Some(first) = trials.first() else {
            self.forget_candidate(ticket);
            return Ok(Sheet::Done);
        };
        let Ok(candidate) = first.first(self.alloc) else {
            return Err(TurnFault::NoMemory);
        };
        // For the proof: what holds of every trial.
        let _placed = candidate.placed();
        self.set_candidate(ticket, candidate);
        Ok(Sheet::Trials(trials))
    }
}
