//! The laws of faults. Each is the contract of a function that does nothing.
ghost use Rattle.std.specs.Prelude.{◌≡◌, List, ℕ};
ghost use Rattle.chr_log.specs.Events.{Event};
ghost use Rattle.chr_log.specs.declared.events.Version.{Version};
ghost use Rattle.chr_model.specs.Stores.{Store};
ghost use Rattle.chr_model.specs.Programs.{Instances};
ghost use Rattle.chr_check.specs.declared.fault.CheckFault.{CheckFault};
ghost use Rattle.chr_check.specs.Faults.{IsRun, IsFirstFault};

use chr_rule::Program;
use std::alloc::Allocator;

/// A log has a first fault or is a run: never both, and never neither. It has one first fault at most.
pub fn fault_or_run<A: Allocator + Copy>(program: &Program<A>)
    ensures never_both { (v : Version) (log : List (Event ℕ)) (store : Store) (f : CheckFault)
        → IsFirstFault v (Instances program.now) log store f → IsRun v (Instances program.now) log store → ⊥ }
    ensures one_of_them { (v : Version) (log : List (Event ℕ)) (store : Store)
        → ((f : CheckFault) → IsFirstFault v (Instances program.now) log store f → ⊥)
        → (IsRun v (Instances program.now) log store → ⊥) → ⊥ }
    ensures one_fault { (v : Version) (log : List (Event ℕ)) (store : Store) (f g : CheckFault)
        → IsFirstFault v (Instances program.now) log store f → IsFirstFault v (Instances program.now) log store g → f ≡ g }
{
    // For the proof: the rules of a program are in scope, so a log has one last state.
    let _rules = program.rules();
}
