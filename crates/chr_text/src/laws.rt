//! Laws of the definitions: what is read of a text is what the text is by the grammar, so it is one program at most, and
//! where it is none the fault is its first.

ghost use Rattle.std.specs.Prelude.{◌≡◌, ◌↔◌, ◌++◌, ℕ, true, false, List, Some, Ok, Err, length, take, slice_get};
ghost use Rattle.std.specs.List.{AllByRecursion};
ghost use Rattle.chr_lex.specs.declared.fault.ReadFault.{ReadFault};
ghost use Rattle.chr_value.specs.Atoms.{AtomIsNamed};
ghost use Rattle.chr_value.specs.Naming.{Table};
ghost use Rattle.chr_rule.specs.Scope.{variable_count};
ghost use Rattle.chr_grammar.specs.Parsed.{ParsedTerm, ParsedRule};
ghost use Rattle.chr_grammar.specs.Spelling.{IsParsedTerm, IsParsedRule};
ghost use Rattle.chr_limits.specs.Variables.{is_blank, variables_of};
ghost use Rattle.chr_limits.specs.Scope.{is_in_scope};
ghost use Rattle.chr_text.specs.Terms.{words_of};
ghost use Rattle.chr_text.specs.Variables.{Seen, in_turn, numbers};
ghost use Rattle.chr_text.specs.Translation.{placed_word, argument, rule};
ghost use Rattle.chr_text.specs.Places.{places};
ghost use Rattle.chr_text.specs.Reading.{Program, program_of, Posts, posts_of};
ghost use Rattle.chr_text.specs.Forms.{IsProgramText, ArePosts};
ghost use Rattle.chr_text.specs.Faults.{IsProgramFault, IsPostsFault};
ghost use Rattle.chr_text.specs.Writable.{AreWritable, HasWritable};
ghost use Rattle.chr_text.specs.Named.{RulesAreNamed};

/// What is read as a program is one by the grammar and the limits, and each such program is read. So a text is one
/// program at most over a table of names, and where the reader gives a fault it is none.
pub fn programs_by_their_forms()
    ensures found { (table : Table) (bytes : List ℕ) (p : Program) → program_of table bytes ≡ Ok p → IsProgramText table bytes p }
    ensures only { (table : Table) (bytes : List ℕ) (p : Program) → IsProgramText table bytes p → program_of table bytes ≡ Ok p }
    ensures one { (table : Table) (bytes : List ℕ) (p q : Program) → IsProgramText table bytes p → IsProgramText table bytes q → p ≡ q }
    ensures refused { (table : Table) (bytes : List ℕ) (f : ReadFault) → program_of table bytes ≡ Err f → (p : Program) → IsProgramText table bytes p → ⊥ }
{}

/// What is read as posts is written so and may be posted, and what is written so is read. So a text is one list of posts
/// at most over a table of names, and where the reader gives a fault it is none.
pub fn posts_by_their_forms()
    ensures found { (table : Table) (bytes : List ℕ) (p : Posts) → posts_of table bytes ≡ Ok p → ArePosts table bytes p }
    ensures only { (table : Table) (bytes : List ℕ) (p : Posts) → ArePosts table bytes p → posts_of table bytes ≡ Ok p }
    ensures one { (table : Table) (bytes : List ℕ) (p q : Posts) → ArePosts table bytes p → ArePosts table bytes q → p ≡ q }
    ensures refused { (table : Table) (bytes : List ℕ) (f : ReadFault) → posts_of table bytes ≡ Err f → (p : Posts) → ArePosts table bytes p → ⊥ }
{}

#[tactic(auto, using(crate::proofs::ProgramTexts::program_faults))]
/// Exactly the first fault of a text is given where the text is no program: a text that is too long has a fault in line 0;
/// else the items before the first faulty one are without fault, the line is that of the faulty item, and the kind is the
/// first in the order of the kinds that applies to it.
pub fn program_faults_by_their_forms()
    ensures found { (table : Table) (bytes : List ℕ) (f : ReadFault) → program_of table bytes ≡ Err f → IsProgramFault table bytes f }
    ensures only { (table : Table) (bytes : List ℕ) (f : ReadFault) → IsProgramFault table bytes f → program_of table bytes ≡ Err f }
{}

#[tactic(auto, using(crate::proofs::ProgramTexts::posts_faults))]
/// The same of a text of posts.
pub fn post_faults_by_their_forms()
    ensures found { (table : Table) (bytes : List ℕ) (f : ReadFault) → posts_of table bytes ≡ Err f → IsPostsFault table bytes f }
    ensures only { (table : Table) (bytes : List ℕ) (f : ReadFault) → IsPostsFault table bytes f → posts_of table bytes ≡ Err f }
{}

/// The variables of a rule have the numbers of their names at the places of its text. Two places have one number exactly
/// where they have one name and it is not `_`.
pub fn variables_by_their_names()
    ensures places { (r : ParsedRule) → IsParsedRule r → places (rule r) ≡ numbers (variables_of r) }
    ensures same { (names : List (List ℕ)) (i j : ℕ) (x y : List ℕ) (m n : ℕ) → (i ≡ j → ⊥) → slice_get names i ≡ Some x → slice_get names j ≡ Some y → slice_get (numbers names) i ≡ Some m → slice_get (numbers names) j ≡ Some n → (m ≡ n) ↔ ((x ≡ y) × (is_blank x ≡ false)) }
{}

#[tactic(auto, using(crate::proofs::Limited::term_words))]
/// The words of a term in text order, each with how many parentheses it stands in, are those of the text. So the arguments
/// of a functor are what is written behind it in its parentheses.
pub fn terms_by_their_words()
    ensures { (seen : Seen) (t : ParsedTerm) → IsParsedTerm t → words_of 0 (argument seen t).0 ≡ (in_turn placed_word seen t).0 }
{}

#[tactic(auto, using(crate::proofs::InScope::scope_counted))]
/// A rule is judged to be in scope exactly where the rule by numbers has as many variables as it says, each with a value
/// where it is used.
pub fn scope_by_numbers()
    ensures { (r : ParsedRule) → IsParsedRule r → (is_in_scope r ≡ true) ↔ (variable_count ((rule r).kept ++ (rule r).removed) (rule r).guard (rule r).body ≡ Some (rule r).variables) }
{}

#[tactic(auto, using(crate::proofs::Writable::posts_writable, crate::proofs::Writable::program_writable))]
/// A log can hold each atom of posts that are read, and each atom that a rule of a program that is read adds, where the
/// values of the rule's variables are such that atoms of a log can have them, and the arguments are within the limits.
pub fn what_is_read_can_be_written()
    ensures posts { (table : Table) (bytes : List ℕ) (p : Posts) → posts_of table bytes ≡ Ok p → AreWritable p.1 p.0 }
    ensures rules { (table : Table) (bytes : List ℕ) (p : Program) → program_of table bytes ≡ Ok p → HasWritable p.1 p.0 }
{}

#[tactic(auto, using(crate::proofs::Entered::program_named, crate::proofs::Entered::posts_named, crate::proofs::Entered::posts_kept))]
/// The table after a text that was read has all names of its rules, or of its atoms. After posts it begins with the names that
/// it had.
pub fn texts_enter_their_names()
    ensures programs { (table : Table) (bytes : List ℕ) (p : Program) → program_of table bytes ≡ Ok p → RulesAreNamed p.1 p.0 }
    ensures posts { (table : Table) (bytes : List ℕ) (p : Posts) → posts_of table bytes ≡ Ok p → AllByRecursion (AtomIsNamed (length p.1)) p.0 }
    ensures kept { (table : Table) (bytes : List ℕ) (p : Posts) → posts_of table bytes ≡ Ok p → take (length table) p.1 ≡ table }
{}
