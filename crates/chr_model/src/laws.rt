//! The laws of runs. Each is the contract of a function that does nothing.
ghost use Rattle.std.specs.Prelude.{◌≡◌, ◌<◌, ◌≤◌, ◌+◌, ℕ, List, [], ◌∷◌, ◌++◌, Some, length, true};
ghost use Rattle.chr_value.specs.Atoms.{Atom};
ghost use Rattle.chr_rule.specs.Rules.{Simpagation};
ghost use Rattle.chr_log.specs.Events.{Event, Entry};
ghost use Rattle.chr_log.specs.declared.events.Version.{Version};
ghost use Rattle.chr_log.specs.declared.events.Version.TheVariants.{One, Two};
ghost use Rattle.chr_model.specs.Abstract.{Firing, AbstractStep, AbstractRun};
ghost use Rattle.chr_model.specs.Stores.{Final, Labelled, among, atom_at, labels};
ghost use Rattle.chr_model.specs.Goals.{State, Quiet, IsNumbered, start, erase};
ghost use Rattle.chr_model.specs.Steps.{MayDrop, Simplify, Propagate, Step, Run};
ghost use Rattle.chr_model.specs.Logs.{Lawful, times, removed_by, given_by, posted_by, up_from, firings, strict};
ghost use Rattle.chr_model.specs.GoalRuns.{GoalRun, opening, unposted};
ghost use Rattle.chr_model.specs.PostsFirst.{LawfulPostsFirst, all_posted, none_left, firings_among};
ghost use Rattle.chr_model.specs.Programs.{Instances};
ghost use Rattle.chr_model.specs.Searches.{AllBelow, NoneBelow, NoneYoungest, YoungestAreGoals};
ghost use Rattle.chr_model.specs.Seats.{made};

use chr_rule::Program;
use std::alloc::Allocator;

/// Where a lawful log leaves no goal open, no rule applies to the store.
pub fn quiet_is_final()
    ensures { (v : Version) (rules : List (Simpagation ℕ)) (log : List (Event ℕ)) (last : State)
        → Lawful v (Instances rules) log last → Quiet last → Final (Instances rules) last.store }
{}

/// With labels forgotten, the firings of a lawful log are an abstract run from the atoms posted to the erasure of the
/// last state.
#[tactic(auto, using(crate::proofs::Erasure::erasing))]
pub fn firings_are_a_run()
    ensures { (v : Version) (rules : List (Simpagation ℕ)) (log : List (Event ℕ)) (last : State)
        → (run : Lawful v (Instances rules) log last)
        → AbstractRun (Instances rules) (posted_by log) (firings v (Instances rules) log start last run) (erase last) }
{}

/// A lawful log removes each label at most once.
#[tactic(auto, using(crate::proofs::Once::removed_once))]
pub fn removed_at_most_once()
    ensures { (v : Version) (rules : List (Simpagation ℕ)) (log : List (Event ℕ)) (last : State)
        → Lawful v (Instances rules) log last → (l : ℕ) → times l (removed_by log) ≤ 1 }
{}

/// A lawful log gives the labels 1, 2, .. in order.
#[tactic(auto, using(crate::proofs::Once::given_rising))]
pub fn given_in_order()
    ensures { (v : Version) (rules : List (Simpagation ℕ)) (log : List (Event ℕ)) (last : State)
        → Lawful v (Instances rules) log last → given_by log ≡ up_from 1 (length (given_by log)) }
{}

/// The store after a lawful log has each label at most once, and only labels that the log has given, which are those from
/// 1 to before the next one.
pub fn stores_have_given_labels()
    ensures once { (v : Version) (rules : List (Simpagation ℕ)) (log : List (Event ℕ)) (last : State)
        → Lawful v (Instances rules) log last → (l : ℕ) → times l (labels last.store) ≤ 1 }
    ensures given { (v : Version) (rules : List (Simpagation ℕ)) (log : List (Event ℕ)) (last : State)
        → Lawful v (Instances rules) log last → (l : ℕ) (a : Atom ℕ) → atom_at last.store l ≡ Some a
        → among (given_by log) l ≡ true }
    ensures below { (v : Version) (rules : List (Simpagation ℕ)) (log : List (Event ℕ)) (last : State)
        → Lawful v (Instances rules) log last → (l : ℕ) (a : Atom ℕ) → atom_at last.store l ≡ Some a
        → (1 ≤ l) × (l < last.next) }
{}

/// A log that is lawful for a program has one last state.
pub fn last_is_fixed<A: Allocator + Copy>(program: &Program<A>)
    ensures { (v : Version) (log : List (Event ℕ)) (last other : State)
        → Lawful v (Instances program.now) log last → Lawful v (Instances program.now) log other → last ≡ other }
{
    // for its clause: each rule is in scope
    let _rules = program.rules();
}

/// A lawful log and a step from its last state are a lawful log.
#[tactic(auto, using(crate::proofs::Strict::pushing))]
pub fn one_event_more()
    ensures { (v : Version) (rules : List (Simpagation ℕ)) (log : List (Event ℕ)) (event : Event ℕ) (last new : State)
        → Lawful v (Instances rules) log last → Step v (Instances rules) last event new
        → Lawful v (Instances rules) (log ++ event ∷ []) new }
{}

/// The same logs are lawful where all posted atoms are plain goals from the start, and their firings are an abstract run
/// from these atoms.
#[tactic(auto, using(crate::proofs::GoalRuns::posts_to_front, crate::proofs::GoalRuns::posts_to_places, crate::proofs::GoalRuns::posts_erased))]
pub fn posts_may_come_first()
    ensures front { (v : Version) (rules : List (Simpagation ℕ)) (log : List (Event ℕ)) (last : State)
        → Lawful v (Instances rules) log last → LawfulPostsFirst v (Instances rules) log last }
    ensures places { (v : Version) (rules : List (Simpagation ℕ)) (log : List (Event ℕ)) (last : State)
        → LawfulPostsFirst v (Instances rules) log last → Lawful v (Instances rules) log last }
    ensures run { (v : Version) (rules : List (Simpagation ℕ)) (log : List (Event ℕ)) (last : State)
        → (run : LawfulPostsFirst v (Instances rules) log last)
        → AbstractRun (Instances rules) (posted_by log)
        (firings_among v (Instances rules) log (all_posted log) (none_left last) run) (erase last) }
{}

/// With its posts moved to the front, a lawful log is a goal-based run from all that it posts to its last state.
#[tactic(auto, using(crate::proofs::GoalRuns::goal_run))]
pub fn log_is_a_goal_run()
    ensures { (v : Version) (rules : List (Simpagation ℕ)) (log : List (Event ℕ)) (last : State)
        → Lawful v (Instances rules) log last
        → GoalRun v (Instances rules) (opening (posted_by log)) (unposted log) last }
{}

/// A step, and a run, may be made beside any further atoms.
#[tactic(auto, using(crate::proofs::Erasure::frames))]
pub fn step_beside()
    ensures step { (rules : List (Simpagation ℕ)) (firing : Firing) (old new more : List (Atom ℕ))
        → AbstractStep (Instances rules) firing old new
        → AbstractStep (Instances rules) firing (old ++ more) (new ++ more) }
    ensures run { (rules : List (Simpagation ℕ)) (firings : List Firing) (old new more : List (Atom ℕ))
        → AbstractRun (Instances rules) old firings new
        → AbstractRun (Instances rules) (old ++ more) firings (new ++ more) }
{}

/// A firing does not both simplify and propagate.
pub fn firing_is_one_of_two()
    ensures { (rules : List (Simpagation ℕ)) (s : State) (t r : ℕ) (kept removed : List ℕ) (new other : State)
        → Simplify (Instances rules) s t r kept removed new → Propagate (Instances rules) s t r kept removed other → ⊥ }
{}

/// After a lawful log each labelled instance over the store has a label that is a numbered goal.
pub fn some_label_is_a_goal()
    ensures { (v : Version) (rules : List (Simpagation ℕ)) (log : List (Event ℕ)) (last : State)
        → Lawful v (Instances rules) log last
        → (r : ℕ) (kept removed : List ℕ) (body : List (Atom ℕ))
        → Labelled (Instances rules) last.store r kept removed body
        → (l : ℕ) × (among (kept ++ removed) l ≡ true) × IsNumbered last l }
{}

/// A run neither adds nor revives an instance of labels that were given before it.
#[tactic(auto, using(crate::proofs::Older::older_runs))]
pub fn older_instances_were_there()
    ensures { (v : Version) (rules : List (Simpagation ℕ)) (events : List (Event ℕ)) (s new : State)
        → Run v (Instances rules) s events new
        → (r : ℕ) (kept removed : List ℕ) (body : List (Atom ℕ)) → AllBelow s.next (kept ++ removed)
        → Labelled (Instances rules) new.store r kept removed body
        → Labelled (Instances rules) s.store r kept removed body }
{}

/// What a search found none of, there is none of later, if only labels are looked at that had been given then. A goal may
/// be dropped by version one where there is no instance with its label among all labels that were given.
pub fn search_allows_a_drop()
    ensures later { (v : Version) (rules : List (Simpagation ℕ)) (events : List (Event ℕ)) (s new : State)
        → Run v (Instances rules) s events new
        → (bound l : ℕ) → bound ≤ s.next → NoneBelow (Instances rules) s.store bound l
        → NoneBelow (Instances rules) new.store bound l }
    ensures drop { (v : Version) (rules : List (Simpagation ℕ)) (log : List (Event ℕ)) (last : State)
        → Lawful v (Instances rules) log last
        → (l : ℕ) → NoneBelow (Instances rules) last.store last.next l → MayDrop One (Instances rules) last l }
{}

/// A goal may be dropped by version two where the youngest label of each instance is a numbered goal, and no instance has
/// the goal's label as its youngest.
pub fn older_search_allows_a_drop()
    ensures { (rules : List (Simpagation ℕ)) (s : State) (l : ℕ)
        → YoungestAreGoals (Instances rules) s → NoneYoungest (Instances rules) s.store l
        → MayDrop Two (Instances rules) s l }
{}

/// Where a lawful log leaves no goal open, its strict log is lawful by version one, and ends in the same state.
#[tactic(auto, using(crate::proofs::Strict::strict_lawful, crate::proofs::Programs::program_removes))]
pub fn strict_is_lawful()
    ensures { (v : Version) (rules : List (Simpagation ℕ)) (log : List (Event ℕ)) (last : State)
        → Lawful v (Instances rules) log last → Quiet last → Lawful One (Instances rules) (strict log) last }
{}

/// What a seat has made in a log and in what follows adds up.
#[tactic(auto, using(crate::proofs::Seats::sums))]
pub fn accounts_add_up()
    ensures posts { (log more : List (Entry ℕ)) (seat : ℕ)
        → (made (log ++ more) seat).posts ≡ (made log seat).posts + (made more seat).posts }
    ensures others { (log more : List (Entry ℕ)) (seat : ℕ)
        → (made (log ++ more) seat).others ≡ (made log seat).others + (made more seat).others }
{}
