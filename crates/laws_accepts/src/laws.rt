//! The laws. Each is the contract of a function that does nothing.
ghost use Rattle.std.specs.Prelude.{◌≡◌, ◌↔◌, ◌≤◌, ℕ, List, Result, Ok, length};
ghost use Rattle.std.specs.List.{AllByRecursion};
ghost use Rattle.chr_value.specs.Atoms.{Atom};
ghost use Rattle.chr_value.specs.Bounds.{greatest_label};
ghost use Rattle.chr_rule.specs.Scope.{IsRule};
ghost use Rattle.chr_log.specs.Events.{labelled_atoms};
ghost use Rattle.chr_log.specs.declared.events.Version.TheVariants.{One, Two};
ghost use Rattle.chr_log_text.specs.Writable.{most_bytes};
ghost use Rattle.chr_log_text.specs.Texts.{IsLogText, IsStoreText};
ghost use Rattle.chr_model.specs.Logs.{strict};
ghost use Rattle.chr_model.specs.Programs.{Instances};
ghost use Rattle.chr_calls.specs.Tickets.{AreQuiet};
ghost use Rattle.chr_calls.specs.Books.{BookState, events};
ghost use Rattle.chr_calls.specs.Headline.{Headline};
ghost use Rattle.chr_solo.specs.declared.solo.End.{End};
ghost use Rattle.chr_solo.specs.declared.solo.End.TheVariants.{Quiet};
ghost use Rattle.chr_check.specs.declared.checking.Verdict.{Verdict};
ghost use Rattle.chr_check.specs.declared.checking.Verdict.TheVariants.{RunAndFinal};
ghost use Rattle.chr_check.specs.declared.fault.CheckFault.{CheckFault};
ghost use Rattle.chr_check.specs.Faults.{IsRun, IsFinalRun};
ghost use Rattle.chr_run_text.specs.Output.{shown};
ghost use Rattle.chr_run_text.specs.RunText.{IsRunText};
ghost use Rattle.chr_run_text.specs.RunTexts.{IsRunTexts};
ghost use Rattle.chr_run_text.specs.declared.output.Show.TheVariants as show;
ghost use Rattle.chr_check_text.specs.CheckTexts.{IsAnswer, IsCheckText};
ghost use Rattle.laws_accepts.specs.Accepted.{IsTextRun, IsOfTexts, verdict_of, IsAnswered};

use chr_check_text::{CheckTextFault, Checked};
use chr_run_text::{Ran, RunOut};
use std::alloc::Allocator;

/// Whatever seats have called, the events of a book and its store are a run for the checker, by version two, which is final
/// exactly where no ticket is open. Where none is, its strict log is a final run by version one.
pub fn books_are_runs_for_the_checker()
    ensures run { (b : BookState) (posts : List (Atom ℕ))
        → Headline b posts → IsRun Two (Instances b.rules) (events b) b.store }
    ensures final_run { (b : BookState) (posts : List (Atom ℕ))
        → AllByRecursion IsRule b.rules → Headline b posts
        → IsFinalRun Two (Instances b.rules) (events b) b.store ↔ AreQuiet b.tickets }
    ensures strict_run { (b : BookState) (posts : List (Atom ℕ))
        → Headline b posts → AreQuiet b.tickets → IsFinalRun One (Instances b.rules) (strict (events b)) b.store }
{}

/// So where the checker answers, it answers the end of a run of one seat, by the rules of its text; of a strict log, that it is
/// a run and final.
pub fn runs_are_answered_so()
    ensures whole_log { (program posts : List ℕ) (steps limit : ℕ) (end : End) (b : BookState) (answer : Result Verdict CheckFault)
        → (run : IsTextRun program posts steps limit end b)
        → IsAnswer Two (Instances run.read.rules) (events b) b.store answer → answer ≡ Ok (verdict_of end) }
    ensures strict_log { (program posts : List ℕ) (steps limit : ℕ) (b : BookState) (answer : Result Verdict CheckFault)
        → (run : IsTextRun program posts steps limit Quiet b)
        → IsAnswer One (Instances run.read.rules) (strict (events b)) b.store answer → answer ≡ Ok RunAndFinal }
{}

/// The texts of the log and of the store of a run are read back, with the names of the program alone, as its events and its
/// store, as long as they keep the limit on length; and so is its strict log. Labels have 32 bits.
pub fn texts_of_runs_are_read_back()
    ensures log { (program posts : List ℕ) (steps limit : ℕ) (end : End) (b : BookState)
        → limit ≤ greatest_label → (run : IsTextRun program posts steps limit end b) → length (shown show.Log end b) ≤ most_bytes
        → IsLogText run.read.table (shown show.Log end b) Two (events b) b.names }
    ensures strict_log { (program posts : List ℕ) (steps limit : ℕ) (b : BookState)
        → limit ≤ greatest_label → (run : IsTextRun program posts steps limit Quiet b) → length (shown show.Strict Quiet b) ≤ most_bytes
        → IsLogText run.read.table (shown show.Strict Quiet b) One (strict (events b)) b.names }
    ensures store { (program posts : List ℕ) (steps limit : ℕ) (end : End) (b : BookState)
        → limit ≤ greatest_label → (run : IsTextRun program posts steps limit end b) → length (shown show.Store end b) ≤ most_bytes
        → IsStoreText b.names (shown show.Store end b) (labelled_atoms b.store) b.names }
{}

/// So of a book to which any seats have posted texts, one after another, with any calls between: the texts of its log and of
/// its store are read back with the names of the program alone, and the check answers `run final` where no ticket is open, else
/// `run`; of its strict log, `run final`. Only want of memory can come between.
pub fn what_seats_write_is_accepted<A: Allocator>(answer: &Result<Checked<A>, CheckTextFault>)
    ensures whole_log { (program : List ℕ) (limit : ℕ) (end : End) (b : BookState)
        → limit ≤ greatest_label → IsOfTexts program limit b → ((end ≡ Quiet) ↔ AreQuiet b.tickets)
        → length (shown show.Log end b) ≤ most_bytes → length (shown show.Store end b) ≤ most_bytes
        → IsCheckText program (shown show.Log end b) (shown show.Store end b) answer.now → IsAnswered (verdict_of end) answer.now }
    ensures strict_log { (program : List ℕ) (limit : ℕ) (b : BookState)
        → limit ≤ greatest_label → IsOfTexts program limit b → AreQuiet b.tickets
        → length (shown show.Strict Quiet b) ≤ most_bytes → length (shown show.Store Quiet b) ≤ most_bytes
        → IsCheckText program (shown show.Strict Quiet b) (shown show.Store Quiet b) answer.now → IsAnswered RunAndFinal answer.now }
{}

/// What a run writes, the checker accepts. Where two calls of one run, of the same texts, steps and label limit, give the text
/// of its log and that of its store, and both keep the limit on length, the check of these texts answers `run final` where the
/// run ended quiet, else `run`; it refuses neither, and only want of memory can come between. Of the strict log of a run that
/// ended quiet it answers `run final`.
pub fn what_a_run_writes_is_accepted<A: Allocator>(
    log: &RunOut<A>,
    store: &RunOut<A>,
    answer: &Result<Checked<A>, CheckTextFault>,
)
    ensures whole_log { (program posts : List ℕ) (steps limit : ℕ)
        → limit ≤ greatest_label
        → IsRunText program posts steps limit show.Log (Ok log.now) → IsRunText program posts steps limit show.Store (Ok store.now)
        → length log.now.bytes.items ≤ most_bytes → length store.now.bytes.items ≤ most_bytes
        → IsCheckText program log.now.bytes.items store.now.bytes.items answer.now → IsAnswered (verdict_of log.now.end) answer.now }
    ensures strict_log { (program posts : List ℕ) (steps limit : ℕ)
        → limit ≤ greatest_label
        → IsRunText program posts steps limit show.Strict (Ok log.now) → IsRunText program posts steps limit show.Store (Ok store.now)
        → log.now.end ≡ Quiet → length log.now.bytes.items ≤ most_bytes → length store.now.bytes.items ≤ most_bytes
        → IsCheckText program log.now.bytes.items store.now.bytes.items answer.now → IsAnswered RunAndFinal answer.now }
{}

/// The same of a run of several texts of posts, whose log and store are shown of one run.
pub fn what_a_run_of_texts_writes_is_accepted<A: Allocator>(
    ran: &Ran<A>,
    answer: &Result<Checked<A>, CheckTextFault>,
)
    ensures whole_log { (program : List ℕ) (posts : List (List ℕ)) (steps limit : ℕ)
        → limit ≤ greatest_label → IsRunTexts program posts steps limit (Ok ran.now)
        → length (shown show.Log ran.now.end ran.now.book) ≤ most_bytes → length (shown show.Store ran.now.end ran.now.book) ≤ most_bytes
        → IsCheckText program (shown show.Log ran.now.end ran.now.book) (shown show.Store ran.now.end ran.now.book) answer.now
        → IsAnswered (verdict_of ran.now.end) answer.now }
    ensures strict_log { (program : List ℕ) (posts : List (List ℕ)) (steps limit : ℕ)
        → limit ≤ greatest_label → IsRunTexts program posts steps limit (Ok ran.now) → ran.now.end ≡ Quiet
        → length (shown show.Strict ran.now.end ran.now.book) ≤ most_bytes → length (shown show.Store ran.now.end ran.now.book) ≤ most_bytes
        → IsCheckText program (shown show.Strict ran.now.end ran.now.book) (shown show.Store ran.now.end ran.now.book) answer.now
        → IsAnswered RunAndFinal answer.now }
{}
