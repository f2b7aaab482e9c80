//! The laws of lists of calls. Each is the contract of a function that does nothing.
ghost use Rattle.std.specs.Prelude.{◌≡◌, ◌+◌, ◌*◌, ◌++◌, ℕ, List, Result};
ghost use Rattle.chr_value.specs.Atoms.{Atom};
ghost use Rattle.chr_rule.specs.Rules.{Simpagation};
ghost use Rattle.chr_search.specs.Judged.{Judgement};
ghost use Rattle.chr_calls.specs.declared.answers.ClaimFault.{ClaimFault};
ghost use Rattle.chr_calls.specs.declared.answers.TurnFault.{TurnFault};
ghost use Rattle.chr_calls.specs.Batches.{Batch, AreRight, Sheets, ClaimsSheet, Following, ReportsSheet};
ghost use Rattle.chr_calls.specs.Books.{BookState};
ghost use Rattle.chr_calls.specs.Moves.{NoneMovesBack};
ghost use Rattle.chr_calls.specs.Runs.{Run, all_posts};
ghost use Rattle.chr_calls.specs.Headline.{Headline, IsKept};
ghost use Rattle.chr_book.specs.Books.{IsOpened};
ghost use Rattle.chr_book.specs.declared.rounds.Rounds.{Rounds};
ghost use Rattle.chr_book.specs.Passed.{rounds_in, MakesRounds, MakesFewer, StartsRounds, StartsFewer};
ghost use Rattle.chr_solo.specs.Solo.{IsSolo, IsCutShort};
ghost use Rattle.chr_run_calls.specs.Lists.{SeatCall, Answer, Said};
ghost use Rattle.chr_run_calls.specs.CallLists.{AnswersFrom, AnswersAre, atoms_posted};
ghost use Rattle.chr_run_calls.specs.Made.{IsCallFor, IsCallBy, AreCalls, AreFewer};

use chr_calls::laws::runs_have_the_headline;

/// Answers to a list of calls are a run of the book, which posts exactly the atoms of the posts that were answered with
/// tickets.
pub fn answers_are_runs()
    ensures { (b n : BookState) (calls : List SeatCall) (answers : List Answer) → (made : AnswersAre b calls answers n)
        → (posts : List (List (Atom ℕ))) × Run b posts n × (all_posts posts ≡ atoms_posted b n calls answers made) }
{}

/// The headline holds after any list of calls by any seats on a book as it is opened, for exactly the atoms that they
/// posted.
pub fn lists_of_calls_have_the_headline()
    ensures { (rules : List (Simpagation ℕ)) (names : List (List ℕ)) (limit : ℕ) (b n : BookState) (calls : List SeatCall) (answers : List Answer)
        → IsOpened rules names limit b → (made : AnswersAre b calls answers n) → Headline n (atoms_posted b n calls answers made) }
{
    runs_have_the_headline();
}

/// After any list of calls may come one that is made whatever was called before it, and both are one list.
pub fn lists_of_calls_go_on()
    ensures { (b m n : BookState) (calls more : List SeatCall) (answers others : List Answer)
        → AnswersAre b calls answers m → ((before : List Said) → AnswersFrom before m more others n) → AnswersAre b (calls ++ more) (answers ++ others) n }
{}

/// Rounds are a list of calls by the seat for the ticket, two a round, after the claim where the ticket is started; so are the
/// rounds that were made before memory was refused.
pub fn rounds_are_lists_of_calls()
    ensures makes { (seat t : ℕ) (r : Rounds) (b n : BookState) → MakesRounds seat t r b n → AreCalls (IsCallFor seat t) (2 * rounds_in r) b n }
    ensures starts { (seat t : ℕ) (r : Rounds) (b n : BookState) → StartsRounds seat t r b n → AreCalls (IsCallFor seat t) (1 + 2 * rounds_in r) b n }
    ensures makes_fewer { (seat t most : ℕ) (b n : BookState) → MakesFewer seat t most b n → AreFewer (IsCallFor seat t) (2 * most) b n }
    ensures starts_fewer { (seat t most : ℕ) (b n : BookState) → StartsFewer seat t most b n → AreFewer (IsCallFor seat t) (1 + 2 * most) b n }
{}

/// A sheet that is given, alone or to a seat that claims the ticket, and a report of one with the call that follows, are lists
/// of at most two calls by the seat for the ticket.
pub fn sheets_are_lists_of_calls()
    ensures sheets { (seat t most : ℕ) (answer : Result Batch TurnFault) (b n : BookState) → Sheets b seat t most answer n → AreCalls (IsCallFor seat t) 1 b n }
    ensures claims { (seat t most : ℕ) (answer : Result (Result Batch TurnFault) ClaimFault) (b n : BookState) → ClaimsSheet b seat t most answer n → AreFewer (IsCallFor seat t) 3 b n }
    ensures reports { (seat t most : ℕ) (js : List Judgement) (reported : ℕ) (following : Following) (b n : BookState)
        → AreRight js → ReportsSheet b seat t most js reported following n → AreFewer (IsCallFor seat t) 3 b n }
{}

/// A run of one seat is a list of calls by that seat, and so is what was made of it before memory was refused.
pub fn runs_of_one_seat_are_lists_of_calls()
    ensures whole { (seat most calls : ℕ) (b n : BookState) → (run : IsSolo seat most b calls n) → AreCalls (IsCallBy seat) run.made b n }
    ensures cut_short { (seat most : ℕ) (b n : BookState) → (run : IsCutShort seat most b n) → AreCalls (IsCallBy seat) run.made b n }
{}

/// No list of calls moves a search back.
pub fn no_list_moves_a_search_back()
    ensures { (b n : BookState) (calls : List SeatCall) (answers : List Answer) → AnswersAre b calls answers n → IsKept b → NoneMovesBack b n }
{}

/// So no round does.
pub fn no_round_moves_a_search_back()
    ensures makes { (seat t : ℕ) (r : Rounds) (b n : BookState) → MakesRounds seat t r b n → IsKept b → NoneMovesBack b n }
    ensures starts { (seat t : ℕ) (r : Rounds) (b n : BookState) → StartsRounds seat t r b n → IsKept b → NoneMovesBack b n }
    ensures makes_fewer { (seat t most : ℕ) (b n : BookState) → MakesFewer seat t most b n → IsKept b → NoneMovesBack b n }
    ensures starts_fewer { (seat t most : ℕ) (b n : BookState) → StartsFewer seat t most b n → IsKept b → NoneMovesBack b n }
{}

/// Nor does a sheet, as it is given or reported.
pub fn no_sheet_moves_a_search_back()
    ensures sheets { (seat t most : ℕ) (answer : Result Batch TurnFault) (b n : BookState) → Sheets b seat t most answer n → IsKept b → NoneMovesBack b n }
    ensures claims { (seat t most : ℕ) (answer : Result (Result Batch TurnFault) ClaimFault) (b n : BookState) → ClaimsSheet b seat t most answer n → IsKept b → NoneMovesBack b n }
    ensures reports { (seat t most : ℕ) (js : List Judgement) (reported : ℕ) (following : Following) (b n : BookState)
        → AreRight js → ReportsSheet b seat t most js reported following n → IsKept b → NoneMovesBack b n }
{}

/// Nor does a run of one seat.
pub fn no_run_of_one_seat_moves_a_search_back()
    ensures whole { (seat most calls : ℕ) (b n : BookState) → IsSolo seat most b calls n → IsKept b → NoneMovesBack b n }
    ensures cut_short { (seat most : ℕ) (b n : BookState) → IsCutShort seat most b n → IsKept b → NoneMovesBack b n }
{}
