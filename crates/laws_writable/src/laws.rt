//! The laws. Each is the contract of a function that does nothing.
ghost use Rattle.std.specs.Prelude.{◌≡◌, ◌≤◌, ℕ, List, Ok, map, length, take};
ghost use Rattle.std.specs.List.{AllByRecursion};
ghost use Rattle.chr_value.specs.Atoms.{Atom};
ghost use Rattle.chr_value.specs.Bounds.{most_rules};
ghost use Rattle.chr_value.specs.Naming.{Table};
ghost use Rattle.chr_rule.specs.Scope.{IsRule};
ghost use Rattle.chr_rule.specs.Rules.{Simpagation};
ghost use Rattle.chr_log.specs.Events.{Event, event_by_texts, labelled_by_texts, labelled_atoms};
ghost use Rattle.chr_log.specs.LogText.{log_text, store_lines};
ghost use Rattle.chr_log.specs.declared.events.Version.{Version};
ghost use Rattle.chr_log_text.specs.Writable.{IsWritable, IsWritableStore, most_bytes};
ghost use Rattle.chr_model.specs.Goals.{State};
ghost use Rattle.chr_model.specs.Logs.{Lawful, posted_by};
ghost use Rattle.chr_model.specs.Programs.{Instances};
ghost use Rattle.chr_text.specs.Reading.{Program, program_of};
ghost use Rattle.chr_text.specs.Writable.{AreWritable};

/// The rules that are read are at most 256, and each is in scope and within the limits.
pub fn what_is_read_are_rules()
    ensures rules { (table : Table) (bytes : List ℕ) (p : Program) → program_of table bytes ≡ Ok p → AllByRecursion IsRule p.0 }
    ensures few { (table : Table) (bytes : List ℕ) (p : Program) → program_of table bytes ≡ Ok p → length p.0 ≤ most_rules }
{}

/// An instance of a rule that is read, over atoms that a log can hold, adds atoms that a log can hold. The table may have
/// further names by then.
pub fn instances_add_what_can_be_written()
    ensures { (before names : Table) (bytes : List ℕ) (p : Program) (r : ℕ) (kept removed body : List (Atom ℕ))
        → program_of before bytes ≡ Ok p → take (length p.1) names ≡ p.1
        → Instances p.0 r kept removed body → AreWritable names kept → AreWritable names removed → AreWritable names body }
{}

/// A log can be written that is lawful for a program that is read and posts atoms that a log can hold, and so can the store
/// after it, as long as labels have 32 bits and the texts keep the limit on length. Tickets and rules need no limit of their
/// own. The table may have further names than the program's.
pub fn lawful_logs_can_be_written()
    ensures log { (before table names : Table) (program : List ℕ) (rules : List (Simpagation ℕ)) (v w : Version) (log : List (Event ℕ)) (last : State)
        → program_of before program ≡ Ok (rules, table) → take (length table) names ≡ table
        → AreWritable names (posted_by log) → Lawful v (Instances rules) log last → last.next ≤ 4294967296
        → length (log_text w (map (event_by_texts names) log)) ≤ most_bytes → IsWritable w (map (event_by_texts names) log) }
    ensures store { (before table names : Table) (program : List ℕ) (rules : List (Simpagation ℕ)) (v : Version) (log : List (Event ℕ)) (last : State)
        → program_of before program ≡ Ok (rules, table) → take (length table) names ≡ table
        → AreWritable names (posted_by log) → Lawful v (Instances rules) log last → last.next ≤ 4294967296
        → length (store_lines names last.store) ≤ most_bytes
        → IsWritableStore (map (labelled_by_texts names) (labelled_atoms last.store)) }
{}
