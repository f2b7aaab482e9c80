//! Laws of causes. Each is the contract of a function that does nothing.
ghost use Rattle.std.specs.Prelude.{◌≡◌, ◌<◌, ◌++◌, ℕ, List, Some, slice_get, take, true};
ghost use Rattle.chr_value.specs.Atoms.{Atom};
ghost use Rattle.chr_rule.specs.Rules.{Simpagation};
ghost use Rattle.chr_log.specs.Events.{Event, Post, Fire};
ghost use Rattle.chr_log.specs.declared.events.Version.{Version};
ghost use Rattle.chr_model.specs.Stores.{among, atom_at};
ghost use Rattle.chr_model.specs.Goals.{State};
ghost use Rattle.chr_model.specs.Logs.{Lawful};
ghost use Rattle.chr_model.specs.Programs.{Instances};
ghost use Rattle.chr_causes.specs.declared.origins.Origin.{Origin};
ghost use Rattle.chr_causes.specs.Origins.{IsLawful, IsOrigin};
ghost use Rattle.chr_causes.specs.Causes.{IsHeadFor};

/// A label of a lawful log has one origin.
pub fn label_has_one_origin()
    ensures { (rules : List (Simpagation ℕ)) (log : List (Event ℕ)) → IsLawful rules log
        → (label : ℕ) (a b : Origin) → IsOrigin rules log label a → IsOrigin rules log label b → a ≡ b }
{}

/// The heads of the firing that gave a label have lower labels.
pub fn heads_have_lower_labels()
    ensures { (rules : List (Simpagation ℕ)) (log : List (Event ℕ)) → IsLawful rules log
        → (label head : ℕ) → IsHeadFor rules log label head → (0 < head) × (head < label) }
{}

/// All heads of a firing are in the store after the events before it.
#[tactic(auto, using(crate::proofs::OneOrigin::heads_there))]
pub fn heads_were_there()
    ensures { (v : Version) (rules : List (Simpagation ℕ)) (log : List (Event ℕ)) (last : State)
        → Lawful v (Instances rules) log last
        → (place t r : ℕ) (kept removed : List ℕ) → slice_get log place ≡ Some (Fire t r kept removed)
        → (s : State) × Lawful v (Instances rules) (take place log) s
        × ((head : ℕ) → among (kept ++ removed) head ≡ true → (a : Atom ℕ) × (atom_at s.store head ≡ Some a)) }
{}

/// A label for which there is no head was posted.
pub fn leaves_were_posted()
    ensures { (rules : List (Simpagation ℕ)) (log : List (Event ℕ)) → IsLawful rules log
        → (label : ℕ) (origin : Origin) → IsOrigin rules log label origin
        → ((head : ℕ) → IsHeadFor rules log label head → ⊥)
        → (t : ℕ) × (a : Atom ℕ) × (slice_get log origin.made ≡ Some (Post t a)) }
{}
