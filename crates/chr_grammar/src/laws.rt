//! Laws of the definitions: what is read is what the grammar has, so tokens have one reading at most.

ghost use Rattle.std.specs.Prelude.{◌≡◌, ◌++◌, List, Ok, Err};
ghost use Rattle.chr_lex.specs.declared.fault.Kind.{Kind};
ghost use Rattle.chr_lex.specs.declared.fault.Kind.TheVariants.{Syntax};
ghost use Rattle.chr_lex.specs.Tokens.{Lexeme};
ghost use Rattle.chr_grammar.specs.Parsed.{ParsedTerm, ParsedExpression, ParsedAtom, GuardMember, BodyMember, Statement};
ghost use Rattle.chr_grammar.specs.Parsing.{term_at, phrases_of, expression_at, tests_of, body_of, statement_of};
ghost use Rattle.chr_grammar.specs.Spelling.{term_spelled, IsParsedTerm, EndsTerm, AreParsedAtoms, AreGuardMembers, AreBodyMembers, formula_spelled, IsExpression, EndsExpression, AreStatement};

/// What is read as a term at the front is written there so, and what is written so before something else than `(` is read.
/// Where nothing is written so, the fault is a fault of syntax.
pub fn terms_by_their_forms()
    ensures found { (ts rest : List Lexeme) (t : ParsedTerm) → term_at ts ≡ Ok (t, rest) → IsParsedTerm t × (ts ≡ term_spelled t ++ rest) }
    ensures only { (t : ParsedTerm) (rest : List Lexeme) → IsParsedTerm t → EndsTerm rest → term_at (term_spelled t ++ rest) ≡ Ok (t, rest) }
    ensures refused { (ts : List Lexeme) (k : Kind) → term_at ts ≡ Err k → (k ≡ Syntax) × ((t : ParsedTerm) (rest : List Lexeme) → IsParsedTerm t → EndsTerm rest → ts ≡ term_spelled t ++ rest → ⊥) }
{}

/// What is read as atoms by commas is written so, and what is written so is read. Where the tokens are none, the fault is a
/// fault of syntax.
pub fn atoms_by_their_forms()
    ensures found { (ts : List Lexeme) (ps : List ParsedAtom) → phrases_of ts ≡ Ok ps → AreParsedAtoms ts ps }
    ensures only { (ts : List Lexeme) (ps : List ParsedAtom) → AreParsedAtoms ts ps → phrases_of ts ≡ Ok ps }
    ensures refused { (ts : List Lexeme) (k : Kind) → phrases_of ts ≡ Err k → (k ≡ Syntax) × ((ps : List ParsedAtom) → AreParsedAtoms ts ps → ⊥) }
{}

/// What is read as an expression at the front is written there so, with parentheses where they must stand and a depth of
/// 16 at most, and what is written so before something else than an operator is read. Where nothing is written so, the
/// fault is a fault of syntax.
pub fn expressions_by_their_forms()
    ensures found { (ts rest : List Lexeme) (f : ParsedExpression) → expression_at ts ≡ Ok (f, rest) → IsExpression f × (ts ≡ formula_spelled f ++ rest) }
    ensures only { (f : ParsedExpression) (rest : List Lexeme) → IsExpression f → EndsExpression rest → expression_at (formula_spelled f ++ rest) ≡ Ok (f, rest) }
    ensures refused { (ts : List Lexeme) (k : Kind) → expression_at ts ≡ Err k → (k ≡ Syntax) × ((f : ParsedExpression) (rest : List Lexeme) → IsExpression f → EndsExpression rest → ts ≡ formula_spelled f ++ rest → ⊥) }
{}

/// What is read as the guard of a rule is written so, and what is written so is read. Where the tokens are none, the fault
/// is a fault of syntax.
pub fn guards_by_their_forms()
    ensures found { (ts : List Lexeme) (xs : List GuardMember) → tests_of ts ≡ Ok xs → AreGuardMembers ts xs }
    ensures only { (ts : List Lexeme) (xs : List GuardMember) → AreGuardMembers ts xs → tests_of ts ≡ Ok xs }
    ensures refused { (ts : List Lexeme) (k : Kind) → tests_of ts ≡ Err k → (k ≡ Syntax) × ((xs : List GuardMember) → AreGuardMembers ts xs → ⊥) }
{}

/// What is read as the body of a rule is written so, and what is written so is read. Where the tokens are none, the fault
/// is a fault of syntax.
pub fn bodies_by_their_forms()
    ensures found { (ts : List Lexeme) (xs : List BodyMember) → body_of ts ≡ Ok xs → AreBodyMembers ts xs }
    ensures only { (ts : List Lexeme) (xs : List BodyMember) → AreBodyMembers ts xs → body_of ts ≡ Ok xs }
    ensures refused { (ts : List Lexeme) (k : Kind) → body_of ts ≡ Err k → (k ≡ Syntax) × ((xs : List BodyMember) → AreBodyMembers ts xs → ⊥) }
{}

/// What is read as a declaration or a rule is written so, and what is written so is read. So tokens are one statement at
/// most, and where they are none the fault is a fault of syntax.
pub fn statements_by_their_forms()
    ensures found { (ts : List Lexeme) (s : Statement) → statement_of ts ≡ Ok s → AreStatement ts s }
    ensures only { (ts : List Lexeme) (s : Statement) → AreStatement ts s → statement_of ts ≡ Ok s }
    ensures one { (ts : List Lexeme) (s t : Statement) → AreStatement ts s → AreStatement ts t → s ≡ t }
    ensures refused { (ts : List Lexeme) (k : Kind) → statement_of ts ≡ Err k → (k ≡ Syntax) × ((s : Statement) → AreStatement ts s → ⊥) }
{}
