//! The calls that make several lines of the table at once.
ghost use Rattle.std.specs.Prelude.{◌≡◌, true, IfSome};
ghost use Rattle.std.specs.List.{AllByRecursion};
ghost use Rattle.chr_search.specs.Judged.{IsVerdict};
ghost use Rattle.chr_calls.specs.Batches.{ClaimsSheet, ReportsBatch, ReportsSheet, claimed_of, following_of, report_of};
ghost use Rattle.chr_sheet.specs.Rows.{judgements_of};
ghost use Rattle.chr_book.specs.Given.{AreNextIn, FollowsWith, GivesOrDrops, IsAskedNext, IsReported, MovesOver, TellsWhole};

use crate::book::Book;
use chr_calls::{BatchReport, ClaimFault, Firing, Following, Sheet, SheetReport, TurnFault};
use chr_rule::Program;
use chr_search::{Judged, Search, Trial, Verdict};
use chr_sheet::{Judgements, Reported, report, report_next};
use std::alloc::Allocator;

impl<A: Allocator + Copy> Book<A> {
    /// Whether a trial is the next one of a goal that the seat holds. None where no trial comes next. It takes no memory.
    fn is_next(&self, seat: u32, ticket: u64, trial: &Trial<A>) -> Option<bool>
        ensures { IsAskedNext self.now seat ticket trial.now result }
    {
        let search = self.held(seat, ticket)?;
        // For the proof: what holds of every trial.
        let _placed = trial.placed();
        search.is_next(trial, &self.program, &self.plans, &self.store)
    }

    /// For each judgement in order, asks for the ticket's next trial, and reports the judgement where it is of that trial. A
    /// judgement of another trial is passed over. It ends at a judgement of the next trial that is Whole, and where no trial
    /// comes next; else it asks for the next trial once more. E13 unless the seat holds the ticket; at E01 in asking for a
    /// trial it ends, and what was reported stands.
    pub fn report_batch(
        &mut self,
        seat: u32,
        ticket: u64,
        judgements: &[Judged<A>],
    ) -> BatchReport<A>
        ensures { ReportsBatch self.old seat ticket judgements.now (report_of result) self.new }
    {
        let mut reported = 0;
        for judged in judgements {
            // No trial is made for this: only the last one is handed out.
            let Some(is_next) = self.is_next(seat, ticket, judged.trial()) else {
                break;
            };
            if is_next {
                if let Verdict::Whole = judged.verdict() {
                    break;
                }
                self.move_on(ticket, judged);
                reported += 1;
            }
        }
        BatchReport {
            reported,
            next: self.trial(seat, ticket),
        }
    }

    /// Moves a search over judged trials in order, where each is the next one in its turn, which may be known of all. It takes no
    /// memory.
    fn move_search(
        &self,
        search: &mut Search,
        judgements: &Judgements<A>,
        are_next: bool,
    ) -> Reported
        requires { are_next ≡ true → AreNextIn self.now search.old (judgements_of judgements.now) }
        ensures moves { MovesOver self.now search.old search.new judgements.now result.count result.whole_is_next }
        ensures right { AllByRecursion (λ j. IsVerdict j.trial j.verdict) judgements.now.others }
    {
        // For the proof: what holds of every rule and label, and of what is whole.
        let program: &Program<A> = &self.program;
        let _rules = program.rules();
        let _label = self.store.next_label();
        let _whole = judgements.whole();
        if are_next {
            return report_next(search, judgements, program, &self.plans, &self.store);
        }
        report(search, judgements, program, &self.plans, &self.store)
    }

    /// Moves the ticket's search over judged trials as [`report_batch`](Book::report_batch) does, but doesn't ask for the next one.
    /// Where they are known to come next in a search, and that is the ticket's, none is looked for. It takes no memory.
    fn move_over(
        &mut self,
        seat: u32,
        ticket: u64,
        judgements: &Judgements<A>,
        known: Option<&Search>,
    ) -> Reported
        requires { IfSome known (λ search. AreNextIn self.old search.now (judgements_of judgements.now)) }
        ensures { IsReported self.old seat ticket judgements.now result.count result.whole_is_next self.new }
    {
        let Some(held) = self.held(seat, ticket) else {
            return Reported {
                count: 0,
                whole_is_next: false,
            };
        };
        let are_next = match known {
            Some(known) => held.is_same(known),
            None => false,
        };
        let mut search = held.copy();
        let reported = self.move_search(&mut search, judgements, are_next);
        if reported.count == 0 {
            return reported;
        }
        self.tickets.go_to(ticket, search);
        reported
    }

    /// Reports the judgements of a sheet as [`report_batch`](Book::report_batch) does.
    pub fn report_all(
        &mut self,
        seat: u32,
        ticket: u64,
        judgements: &Judgements<A>,
    ) -> BatchReport<A>
        ensures { ReportsBatch self.old seat ticket (judgements_of judgements.now) (report_of result) self.new }
    {
        let reported = self.move_over(seat, ticket, judgements, None).count;
        BatchReport {
            reported,
            next: self.trial(seat, ticket),
        }
    }

    /// Claims a ticket as [`claim`](Book::claim) does, and gives its first trials as [`sheet`](Book::sheet) does.
    pub fn claim_sheet(
        &mut self,
        seat: u32,
        ticket: u64,
        most: usize,
    ) -> Result<Result<Sheet<A>, TurnFault>, ClaimFault>
        ensures { ClaimsSheet self.old seat ticket most (claimed_of result) self.new }
    {
        self.claim(seat, ticket)?;
        Ok(self.sheet(seat, ticket, most))
    }

    /// The call that follows a report where no trial that comes next is known to be whole.
    fn give_or_drop(&mut self, seat: u32, ticket: u64, most: usize) -> Following<A>
        ensures { GivesOrDrops self.old seat ticket most (following_of result) self.new }
    {
        let sheet = match self.sheet(seat, ticket, most) {
            Ok(sheet) => sheet,
            Err(fault) => return Following::Nothing(fault),
        };
        let Sheet::Trials(trials) = sheet else {
            return Following::Drop(self.drop_goal(seat, ticket));
        };
        Following::Sheet(Ok(Sheet::Trials(trials)))
    }

    /// The call that follows a report of these judgements.
    fn follow(
        &mut self,
        seat: u32,
        ticket: u64,
        most: usize,
        judgements: &Judgements<A>,
        whole_is_next: bool,
    ) -> Following<A>
        requires { TellsWhole self.old seat ticket judgements.now whole_is_next }
        ensures { FollowsWith self.old seat ticket most (judgements_of judgements.now) (following_of result) self.new }
    {
        let Some(whole) = judgements.whole() else {
            return self.give_or_drop(seat, ticket, most);
        };
        if !whole_is_next {
            return self.give_or_drop(seat, ticket, most);
        }
        match self.fire_next(seat, ticket, whole) {
            Ok(fired) => Following::Fire(Ok(Firing::Fired(fired))),
            Err(_) => Following::Nothing(TurnFault::NoMemory),
        }
    }

    /// Reports judgements as [`report_all`](Book::report_all) does, and makes the call that follows for what comes next: the last
    /// judged trial, where it is whole, is fired; another trial is given with those after it, at most so many together; and where
    /// none is left, or the goal's label has left the store, the goal is dropped. A search may be known in which their trials come
    /// next one after another: where that is the ticket's, none of them is looked for.
    pub fn report_sheet(
        &mut self,
        seat: u32,
        ticket: u64,
        judgements: &Judgements<A>,
        known: Option<&Search>,
        most: usize,
    ) -> SheetReport<A>
        requires { IfSome known (λ search. AreNextIn self.old search.now (judgements_of judgements.now)) }
        ensures { ReportsSheet self.old seat ticket most (judgements_of judgements.now) result.reported (following_of result.following) self.new }
    {
        let Reported {
            count,
            whole_is_next,
        } = self.move_over(seat, ticket, judgements, known);
        SheetReport {
            reported: count,
            following: self.follow(seat, ticket, most, judgements, whole_is_next),
        }
    }
}
