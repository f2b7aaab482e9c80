//! The laws of searches. Each is the contract of a function that does nothing.
ghost use Rattle.std.specs.Prelude.{◌≡◌, ◌≢◌, ℕ, List, [], ◌∷◌, ◌++◌, ◌<◌, ◌≤◌, ◌↔◌, true, false, Option, Some, None, length};
ghost use Rattle.chr_value.specs.Atoms.{Atom};
ghost use Rattle.std.specs.List.{AllByRecursion};
ghost use Rattle.chr_rule.specs.Rules.{Simpagation, rule_at};
ghost use Rattle.chr_model.specs.Stores.{Store, Labelled, among, atom_at, drop_label};
ghost use Rattle.chr_model.specs.Searches.{IsYoungest, NoneYoungest};
ghost use Rattle.chr_model.specs.Programs.{Instances};
ghost use Rattle.chr_plan.specs.Plans.{PlanList, ArePlans, plan_at};
ghost use Rattle.chr_plan.specs.declared.order.Step.{Step as PlanStep};
ghost use Rattle.chr_search.specs.Positions.{at_or_after, begins, beginning, just_after, past};
ghost use Rattle.chr_search.specs.Trials.{Space, older, IsTrial, IsNext, NoneLeft};
ghost use Rattle.chr_search.specs.Verdicts.{Trial as PlainTrial, labels, position, kept_labels, removed_labels, IsFormed, IsPart, IsWhole, IsTrialOf, WasTrialOf};
ghost use Rattle.chr_search.specs.Admissible.{IsAdmissible};
ghost use Rattle.chr_search.specs.Reach.{label_of, labels_in, Reach, HasNoMore, over, Searching};

/// A labelled instance over the store whose youngest label is the active one is in the reach by each head at which that
/// label stands.
pub fn youngest_instances_are_reached()
    ensures { (rules : List (Simpagation ℕ)) (plans : PlanList) → ArePlans rules plans → (store : Store) (label r h : ℕ) (kept removed : List ℕ) (body : List (Atom ℕ))
        → Labelled (Instances rules) store r kept removed body → IsYoungest (kept ++ removed) label
        → 1 ≤ h → h ≤ length (kept ++ removed) → label_of (kept ++ removed) h ≡ label
        → (order : List PlanStep) → plan_at plans r h ≡ Some order
        → Reach (older rules plans store label) (r ∷ h ∷ labels_in (kept ++ removed) order) }
{}

/// The reach has a labelled instance once.
pub fn reached_once()
    ensures { (s : Space) → ArePlans s.rules s.plans → (t u : List ℕ) → (x : Reach s t) → (y : Reach s u) → x.rule ≡ y.rule → x.kept ++ x.removed ≡ y.kept ++ y.removed → t ≡ u }
{}

/// A store that has no more of the labels that trials may have gives no more trials, and no more in the reach. Nothing
/// comes by removing a label, or by inserting a later one.
pub fn stores_with_no_more_reach_no_more()
    ensures trials { (s : Space) (store : Store) → HasNoMore s store → (t : List ℕ) → IsTrial (over s store) t → IsTrial s t }
    ensures reach { (s : Space) → ArePlans s.rules s.plans → (store : Store) → HasNoMore s store → (t : List ℕ) → Reach (over s store) t → Reach s t }
    ensures removing { (s : Space) (l : ℕ) → HasNoMore s (drop_label l s.store) }
    ensures inserting { (s : Space) (l : ℕ) (a : Atom ℕ) → s.active < l → s.bound ≤ l → HasNoMore s (s.store ++ (l, a) ∷ []) }
{}

/// What a search keeps holds at its beginning, through a trial that is answered and one that is forgotten, and whatever
/// others remove or insert.
pub fn searches_are_kept()
    ensures begun { (s : Space) → Searching s beginning None }
    ensures asked { (s : Space) (place : List ℕ) (candidate : Option (List ℕ)) (t : List ℕ) → Searching s place candidate → IsNext s place t → Searching s place (Some t) }
    ensures forgotten { (s : Space) (place : List ℕ) (candidate : Option (List ℕ)) → Searching s place candidate → Searching s place None }
    ensures others { (s : Space) → ArePlans s.rules s.plans → (store : Store) → HasNoMore s store → (place : List ℕ) (candidate : Option (List ℕ)) → Searching s place candidate → Searching (over s store) place candidate }
{}

/// It holds just after a candidate that isn't in the reach, and past one that begins nothing in the reach.
pub fn searches_move_on()
    ensures after { (s : Space) (place t : List ℕ) → Searching s place (Some t) → (Reach s t → ⊥) → Searching s (just_after t) None }
    ensures past { (s : Space) (place t : List ℕ) → Searching s place (Some t) → ((u : List ℕ) → Reach s u → begins t u ≡ true → ⊥) → Searching s (past t) None }
{}

/// Just after a trial at or after a position, and past it, is strictly after that position.
pub fn positions_move_on()
    ensures after { (place t : List ℕ) → at_or_after place t ≡ true → (at_or_after place (just_after t) ≡ true) × (at_or_after (just_after t) place ≡ false) }
    ensures past { (place t : List ℕ) → t ≢ [] → at_or_after place t ≡ true → (at_or_after place (past t) ≡ true) × (at_or_after (past t) place ≡ false) }
{}

/// Where a search has no trial left, no labelled instance over the store has the active label as its youngest.
pub fn no_trial_left_no_instance()
    ensures { (rules : List (Simpagation ℕ)) (plans : PlanList) → ArePlans rules plans → (store : Store) (label : ℕ) (place : List ℕ) (candidate : Option (List ℕ))
        → Searching (older rules plans store label) place candidate → NoneLeft (older rules plans store label) place → NoneYoungest (Instances rules) store label }
{}

/// What a verdict says of the reach, where each label of the trial has its atom in the store or has left it. A part isn't
/// in the reach; a misfit begins nothing in it, nor does a trial of which a label has left the store.
pub fn verdicts_tell_of_the_reach()
    ensures was { (s : Space) (t : PlainTrial) → IsTrialOf s.rules s.plans s.store t → WasTrialOf s.rules s.plans s.store t }
    ensures part { (s : Space) (t : PlainTrial) → ArePlans s.rules s.plans → WasTrialOf s.rules s.plans s.store t → IsPart t → Reach s (position t) → ⊥ }
    ensures misfit { (s : Space) (t : PlainTrial) → ArePlans s.rules s.plans → WasTrialOf s.rules s.plans s.store t → IsFormed t → (IsWhole t → ⊥) → (IsPart t → ⊥) → (u : List ℕ) → Reach s u → begins (position t) u ≡ true → ⊥ }
    ensures gone { (s : Space) (t : PlainTrial) (l : ℕ) → among (labels t) l ≡ true → atom_at s.store l ≡ None → (u : List ℕ) → Reach s u → begins (position t) u ≡ true → ⊥ }
{}

/// A whole trial is a labelled instance over each store that has its labels with their atoms.
pub fn whole_trials_are_labelled_instances()
    ensures { (rules : List (Simpagation ℕ)) (store : Store) (t : PlainTrial) → IsFormed t → rule_at rules t.number ≡ Some t.rule
        → AllByRecursion (λ p. atom_at store p.label ≡ Some p.atom) t.placed
        → (w : IsWhole t) → Labelled (Instances rules) store t.number (kept_labels t) (removed_labels t) w.body }
{}

/// Admissible in plain words is what trials that grow label by label are: all labels are live, each with its head's
/// predicate; the others lie below the active one's bound; those before the last are distinct and fit; and the last has
/// its plan's key value under that fit.
pub fn admissible_trials_grow()
    ensures { (s : Space) → ArePlans s.rules s.plans → (r h : ℕ) (labels : List ℕ) → IsAdmissible s r h labels ↔ IsTrial s (r ∷ h ∷ labels) }
{}
