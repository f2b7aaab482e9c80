//! Laws of the definitions: what is read is what the grammar has, so each text has one form without
//! its comments, that form one list of items, and an item one list of tokens at most.

ghost use Rattle.std.specs.Prelude.{◌≡◌, ◌++◌, List, Some, None, Bool, true, false, ℕ, Ok, Err, length, zero};
ghost use Rattle.chr_lex.specs.declared.fault.Kind.{Kind};
ghost use Rattle.chr_lex.specs.declared.fault.Kind.TheVariants.{Syntax};
ghost use Rattle.chr_lex.specs.declared.plain.TheConstants.{BAD, COMMENT, UNCLOSED};
ghost use Rattle.chr_lex.specs.Plain.{is_text, as_text, plain_of};
ghost use Rattle.chr_lex.specs.Comments.{Plain};
ghost use Rattle.chr_lex.specs.Items.{Item, items, items_of};
ghost use Rattle.chr_lex.specs.Cutting.{Items, HasItems};
ghost use Rattle.chr_lex.specs.Tokens.{Lexeme, token_at, tokens_from};
ghost use Rattle.chr_lex.specs.Lexing.{Spells, Longest, Tokens};

#[tactic(auto, using(std::proofs::lemmas::Bool::Decides::nat_tests))]
/// No byte of a text is taken for a comment: what may be outside of comments stays as it is, and all else is BAD.
pub fn marks_are_no_text()
    ensures text { (b : ℕ) → is_text b ≡ true → as_text b ≡ b }
    ensures bad { (b : ℕ) → is_text b ≡ false → as_text b ≡ BAD }
    ensures apart { (b : ℕ) → as_text b ≡ BAD → is_text b ≡ false }
    ensures comment { (b : ℕ) → as_text b ≡ COMMENT → ⊥ }
    ensures unclosed { (b : ℕ) → as_text b ≡ UNCLOSED → ⊥ }
{}

#[tactic(auto, using(crate::proofs::Replaced::is_plain, crate::proofs::Replaced::are_plain))]
/// The text without its comments is that of the grammar.
pub fn comments_by_their_forms()
    ensures found { (bs out : List ℕ) → plain_of bs ≡ out → Plain bs out }
    ensures only { (bs out : List ℕ) → Plain bs out → plain_of bs ≡ out }
    ensures one { (bs out other : List ℕ) → Plain bs out → Plain bs other → out ≡ other }
{}

#[tactic(auto, using(crate::proofs::Cutting::are_items, crate::proofs::Cutting::are_read))]
/// The items that are read are those of the grammar, with their lines.
pub fn items_by_their_forms()
    ensures found { (line : ℕ) (bs : List ℕ) (es : List Item) → items zero line bs ≡ es → Items line bs es }
    ensures only { (line : ℕ) (bs : List ℕ) (es : List Item) → Items line bs es → items zero line bs ≡ es }
    ensures one { (line : ℕ) (bs : List ℕ) (es fs : List Item) → Items line bs es → Items line bs fs → es ≡ fs }
{}

#[tactic(auto, using(crate::proofs::Cutting::has_items, crate::proofs::Replaced::are_plain, crate::proofs::Cutting::are_read))]
/// The items that are read of a text, comments and all, are those of the grammar.
pub fn texts_by_their_forms()
    ensures found { (bs : List ℕ) (es : List Item) → items_of bs ≡ es → HasItems bs es }
    ensures only { (bs : List ℕ) (es : List Item) → HasItems bs es → items_of bs ≡ es }
    ensures one { (bs : List ℕ) (es fs : List Item) → HasItems bs es → HasItems bs fs → es ≡ fs }
{}

/// The token that is read at a place is the longest that is spelled there, and none is read only where none is spelled.
pub fn the_longest_token()
    ensures found { (op : Bool) (w rest : List ℕ) (t : Lexeme) → token_at op (w ++ rest) ≡ Some (t, length w) → Longest op t w rest }
    ensures only { (op : Bool) (w rest : List ℕ) (t : Lexeme) → Longest op t w rest → token_at op (w ++ rest) ≡ Some (t, length w) }
    ensures none { (op : Bool) (w rest : List ℕ) (t : Lexeme) → token_at op (w ++ rest) ≡ None → Spells op t w → ⊥ }
{}

#[tactic(auto, using(crate::proofs::Lexing::are_tokens, crate::proofs::Lexing::are_read, crate::proofs::Lexing::refused))]
/// The tokens that are read are those of the grammar, and the fault is a fault of syntax where there are none.
pub fn tokens_by_their_forms()
    ensures found { (op : Bool) (bs : List ℕ) (ts : List Lexeme) → tokens_from zero op bs ≡ Ok ts → Tokens op bs ts }
    ensures only { (op : Bool) (bs : List ℕ) (ts : List Lexeme) → Tokens op bs ts → tokens_from zero op bs ≡ Ok ts }
    ensures one { (op : Bool) (bs : List ℕ) (ts us : List Lexeme) → Tokens op bs ts → Tokens op bs us → ts ≡ us }
    ensures refused { (op : Bool) (bs : List ℕ) (k : Kind) → tokens_from zero op bs ≡ Err k → (k ≡ Syntax) × ((ts : List Lexeme) → Tokens op bs ts → ⊥) }
{}
