//! The laws of calls. Each is the contract of a function that does nothing.
ghost use Rattle.std.specs.Prelude.{◌≡◌, ℕ, ◌≤◌, true, List, Option, Result, Ok};
ghost use Rattle.chr_value.specs.Atoms.{Atom};
ghost use Rattle.chr_rule.specs.Rules.{Simpagation};
ghost use Rattle.chr_model.specs.Logs.{posted_by};
ghost use Rattle.chr_plan.specs.Plans.{PlanList, ArePlans};
ghost use Rattle.chr_search.specs.Judged.{Judgement, IsVerdict};
ghost use Rattle.chr_calls.specs.declared.answers.PostFault.{PostFault};
ghost use Rattle.chr_calls.specs.declared.answers.ClaimFault.{ClaimFault};
ghost use Rattle.chr_calls.specs.declared.answers.TurnFault.{TurnFault};
ghost use Rattle.chr_calls.specs.declared.answers.ReportFault.{ReportFault};
ghost use Rattle.chr_calls.specs.declared.answers.Firing.{Firing};
ghost use Rattle.chr_calls.specs.declared.answers.Firing.TheVariants as firing;
ghost use Rattle.chr_calls.specs.declared.answers.Fired.{Fired};
ghost use Rattle.chr_calls.specs.declared.answers.FireFault.{FireFault};
ghost use Rattle.chr_calls.specs.declared.answers.Dropping.{Dropping};
ghost use Rattle.chr_calls.specs.declared.answers.DropFault.{DropFault};
ghost use Rattle.chr_calls.specs.declared.answers.PutDownFault.{PutDownFault};
ghost use Rattle.chr_calls.specs.declared.answers.MarkFault.{MarkFault};
ghost use Rattle.chr_calls.specs.Turns.{Turn};
ghost use Rattle.chr_calls.specs.Books.{BookState, opened, events};
ghost use Rattle.chr_calls.specs.Calls.{Posts, Claims, Turns, Reports, FiresOrMisses, Drops, PutsDown, Marks, TakesStray};
ghost use Rattle.chr_calls.specs.Batches.{Batch, BatchReport, Batches, ReportsBatch, AreRight};
ghost use Rattle.chr_calls.specs.Runs.{Call, Run, all_posts};
ghost use Rattle.chr_calls.specs.Headline.{Headline, IsKept};
ghost use Rattle.chr_calls.specs.Moves.{NoneMovesBack, MovesOn};

/// A book as it is opened is kept.
pub fn opened_books_are_kept()
    ensures { (rules : List (Simpagation ℕ)) (plans : PlanList) (names : List (List ℕ)) (limit : ℕ) → ArePlans rules plans → IsKept (opened rules plans names limit) }
{}

/// Posts and claims keep what a book keeps.
#[tactic(auto, using(crate::proofs::Posting::posts_keep, crate::proofs::Claiming::claims_keep))]
pub fn posts_and_claims_keep()
    ensures posts { (b n : BookState) (seat : ℕ) (atoms : List (Atom ℕ)) (answer : Result ℕ PostFault) → Posts b seat atoms answer n → IsKept b → IsKept n }
    ensures claims { (b n : BookState) (seat t : ℕ) (answer : Result ℕ ClaimFault) → Claims b seat t answer n → IsKept b → IsKept n }
{}

/// So do trials, reports, firings and drops.
#[tactic(auto, using(crate::proofs::Turning::turns_keep, crate::proofs::Turning::reports_keep, crate::proofs::Fires::fires_keep, crate::proofs::Drops::drops_keep))]
pub fn searches_keep()
    ensures turns { (b n : BookState) (seat t : ℕ) (answer : Result Turn TurnFault) → Turns b seat t answer n → IsKept b → IsKept n }
    ensures reports { (b n : BookState) (seat t : ℕ) (j : Judgement) (answer : Result (Unit {0}) ReportFault) → IsVerdict j.trial j.verdict → Reports b seat t j answer n → IsKept b → IsKept n }
    ensures fires { (b n : BookState) (seat t : ℕ) (j : Judgement) (answer : Result Firing FireFault) → IsVerdict j.trial j.verdict → FiresOrMisses b seat t j answer n → IsKept b → IsKept n }
    ensures drops { (b n : BookState) (seat t : ℕ) (answer : Result Dropping DropFault) → Drops b seat t answer n → IsKept b → IsKept n }
{}

/// So do batches, and reports of batches.
#[tactic(auto, using(crate::proofs::Batching::batches_keep, crate::proofs::Batching::batch_reports_keep))]
pub fn batches_keep()
    ensures batches { (b n : BookState) (seat t : ℕ) (answer : Result Batch TurnFault) → Batches b seat t answer n → IsKept b → IsKept n }
    ensures reports { (b n : BookState) (seat t : ℕ) (js : List Judgement) (answer : BatchReport) → AreRight js → ReportsBatch b seat t js answer n → IsKept b → IsKept n }
{}

/// So do tickets that are put down, and stray marks.
#[tactic(auto, using(crate::proofs::Marking::put_downs_keep, crate::proofs::Marking::marks_keep))]
pub fn marks_keep()
    ensures put_downs { (b n : BookState) (seat t : ℕ) (answer : Result (Unit {0}) PutDownFault) → PutsDown b seat t answer n → IsKept b → IsKept n }
    ensures marks { (b n : BookState) (t : ℕ) (answer : Result (Unit {0}) MarkFault) → Marks b t answer n → IsKept b → IsKept n }
    ensures strays { (b n : BookState) (answer : Option ℕ) → TakesStray b answer n → IsKept b → IsKept n }
{}

/// No call moves a search back, and no run does: a goal that stays numbered is searched from where it was or from further on.
pub fn no_search_moves_back()
    ensures calls { (b n : BookState) (seat : ℕ) → Call b seat n → IsKept b → NoneMovesBack b n }
    ensures runs { (b n : BookState) (posts : List (List (Atom ℕ))) → Run b posts n → IsKept b → NoneMovesBack b n }
{}

/// A report that is taken moves the search on, alone or in a batch; so does a trial that is missed, and one that fires
/// where its goal lives on.
#[tactic(auto, using(crate::proofs::Batching::report_batch_moves, crate::proofs::Fires::missed_moves))]
pub fn searches_move_on()
    ensures reports { (b n : BookState) (seat t : ℕ) (j : Judgement) (done : Unit {0}) → Reports b seat t j (Ok done) n → IsKept b → MovesOn b t n }
    ensures batches { (b n : BookState) (seat t : ℕ) (js : List Judgement) (answer : BatchReport) → AreRight js → ReportsBatch b seat t js answer n → 1 ≤ answer.reported → IsKept b → MovesOn b t n }
    ensures missed { (b n : BookState) (seat t : ℕ) (j : Judgement) → FiresOrMisses b seat t j (Ok firing.Missed) n → IsKept b → MovesOn b t n }
    ensures fired { (b n : BookState) (seat t : ℕ) (j : Judgement) (f : Fired) → FiresOrMisses b seat t j (Ok (firing.Fired f)) n → f.active_lives ≡ true → IsKept b → MovesOn b t n }
{}

/// What a book keeps gives the headline, for what its log posts.
#[tactic(auto, using(crate::proofs::Headlines::kept_headline))]
pub fn kept_books_have_the_headline()
    ensures { (b : BookState) → IsKept b → Headline b (posted_by (events b)) }
{}

/// The headline: it holds after any run from a book as it is opened, for the atoms that the run posts.
#[tactic(auto, using(crate::proofs::Headlines::run_headline))]
pub fn runs_have_the_headline()
    ensures { (rules : List (Simpagation ℕ)) (plans : PlanList) (names : List (List ℕ)) (limit : ℕ) (posts : List (List (Atom ℕ))) (n : BookState)
        → ArePlans rules plans → Run (opened rules plans names limit) posts n → Headline n (all_posts posts) }
{}
