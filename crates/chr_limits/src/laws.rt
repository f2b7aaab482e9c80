//! Laws of the definitions: what is judged without a fault is what may stand, E07 comes for a term just where it is past a
//! limit, and each variable is counted once.

ghost use Rattle.std.specs.Prelude.{◌≡◌, ◌≤◌, ◌↔◌, ℕ, Bool, false, List, Ok, bytes_eq, count_by};
ghost use Rattle.std.specs.List.{list_any};
ghost use Rattle.chr_value.specs.Atoms.{Value};
ghost use Rattle.chr_value.specs.Bounds.{most_depth, most_size};
ghost use Rattle.chr_value.specs.Limits.{depth, size};
ghost use Rattle.chr_lex.specs.Tokens.{Word};
ghost use Rattle.chr_grammar.specs.Parsed.{Declared, ParsedTerm, ParsedAtom, ParsedRule};
ghost use Rattle.chr_grammar.specs.Spelling.{IsParsedTerm};
ghost use Rattle.chr_limits.specs.Judging.{declaration_judged, rule_judged, post_judged};
ghost use Rattle.chr_limits.specs.Limits.{is_large_term};
ghost use Rattle.chr_limits.specs.Trees.{IsTree, nodes_of, HasNarrowFunctors};
ghost use Rattle.chr_limits.specs.Variables.{is_blank, seen};
ghost use Rattle.chr_limits.specs.Standing.{IsAllowedRule, AreAllowedDeclarations, AreAllowedPosts};

/// Exactly the rules that may stand are judged without a fault, where the program is not full.
pub fn rules_within_limits()
    ensures { (full : Bool) (r : ParsedRule) → (rule_judged full r ≡ Ok tt) ↔ ((full ≡ false) × IsAllowedRule r) }
{}

/// States that a term is refused as too large (E07) exactly where it is deeper or larger than the limits allow, or a
/// functor in it has more arguments than they allow. Each term that the grammar has is such a tree.
pub fn terms_within_limits()
    ensures trees { (ns : ParsedTerm) → IsParsedTerm ns → IsTree ns }
    ensures limits { (t : Value Word) → (is_large_term (nodes_of 0 t) ≡ false) ↔ ((depth t ≤ most_depth) × (size t ≤ most_size) × HasNarrowFunctors t) }
{}

#[tactic(auto, using(std::proofs::lemmas::Bool::Decides::nat_tests, crate::proofs::Standing::declares))]
/// Exactly the declarations that may stand are judged without a fault.
pub fn declarations_within_limits()
    ensures { (all : List Declared) → (declaration_judged all ≡ Ok tt) ↔ AreAllowedDeclarations all }
{}

#[tactic(auto, using(std::proofs::lemmas::Bool::Decides::nat_tests, crate::proofs::Standing::posts))]
/// Exactly the atoms that may be posted are judged without a fault.
pub fn atoms_that_may_be_posted()
    ensures { (atoms : List ParsedAtom) → (post_judged atoms ≡ Ok tt) ↔ AreAllowedPosts atoms }
{}

#[tactic(auto, using(crate::proofs::Meeting::same, crate::proofs::Meeting::once, crate::proofs::Meeting::blanks))]
/// The variables seen are those at the places, each once; but each `_` is one of its own.
pub fn variables_are_seen_once()
    ensures same { (names : List (List ℕ)) (x : List ℕ) → list_any (bytes_eq x) (seen names) ≡ list_any (bytes_eq x) names }
    ensures once { (names : List (List ℕ)) (x : List ℕ) → is_blank x ≡ false → count_by (bytes_eq x) (seen names) ≤ 1 }
    ensures blanks { (names : List (List ℕ)) → count_by is_blank (seen names) ≡ count_by is_blank names }
{}
