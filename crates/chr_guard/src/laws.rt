//! What holds of every rule.
ghost use Rattle.std.specs.Prelude.{◌≡◌, ℕ, List};
ghost use Rattle.chr_value.specs.Atoms.{Atom};
ghost use Rattle.chr_rule.specs.Rules.{Simpagation};
ghost use Rattle.chr_rule.specs.Scope.{IsRule};
ghost use Rattle.chr_guard.specs.Instances.{Instance};

/// An instance's body is fixed by its heads.
pub fn the_heads_fix_the_body()
    ensures { (rule : Simpagation ℕ) → IsRule rule → (kept removed body other : List (Atom ℕ)) → Instance rule kept removed body → Instance rule kept removed other → body ≡ other }
{}
