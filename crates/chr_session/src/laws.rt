//! Laws of what a text spells.
ghost use Rattle.std.specs.Prelude.{◌≡◌, ◌≤◌, ◌++◌, [], ℕ, List, length, codes};
ghost use Rattle.chr_session.specs.declared.commands.Ended.{Ended};
ghost use Rattle.chr_session.specs.declared.commands.Ended.TheVariants as ended;
ghost use Rattle.chr_session.specs.Commands.{Spelled, Right, Load, Post, Wait, Store, Log};
ghost use Rattle.chr_session.specs.Layout.{IsLine, IsNumber, IsPlain};
ghost use Rattle.chr_session.specs.Spelling.{Spelling, Ending, Spells, next};

/// A text spells one list of things, and ends in one way.
pub fn spelled_once()
    ensures { (input : List ℕ) (spelled others : List Spelled) (how other : Ended) →
        Spells input spelled how → Spells input others other → (spelled ≡ others) × (how ≡ other) }
{}

/// Each text spells something.
#[tactic(auto, using(crate::proofs::FirstSpelled::each_spelled))]
pub fn each_spells()
    ensures { (input : List ℕ) → (spelled : List Spelled) × (how : Ended) × Spells input spelled how }
{}

/// A line of `load` and a number, and so many bytes after it, are the command to load these bytes, whatever follows.
#[tactic(auto, using(crate::proofs::LaidOut::load_read))]
pub fn load_is_read()
    ensures { (line digits text tail : List ℕ) → IsNumber digits (length text) → length text ≤ 65536 →
        IsLine (codes "load") digits line → next (line ++ (text ++ tail)) ≡ (Spelling (Right (Load text)), tail) }
{}

/// A line of `post` and a text is the command to post that text, whatever follows.
#[tactic(auto, using(crate::proofs::LaidOut::post_read))]
pub fn post_is_read()
    ensures { (line text tail : List ℕ) → IsPlain text →
        IsLine (codes "post") text line → next (line ++ tail) ≡ (Spelling (Right (Post text)), tail) }
{}

/// A line of `wait` and a number is the command to wait, whatever follows.
#[tactic(auto, using(crate::proofs::LaidOut::wait_read))]
pub fn wait_is_read()
    ensures { (line digits tail : List ℕ) (n : ℕ) → IsNumber digits n →
        IsLine (codes "wait") digits line → next (line ++ tail) ≡ (Spelling (Right (Wait n)), tail) }
{}

/// A line of `store` is the command to show the store, whatever follows.
#[tactic(auto, using(crate::proofs::LaidOut::store_read))]
pub fn store_is_read()
    ensures { (line tail : List ℕ) →
        IsLine (codes "store") [] line → next (line ++ tail) ≡ (Spelling (Right Store), tail) }
{}

/// A line of `log` and a number from 1 on is the command to show the log from that entry on, whatever follows.
pub fn log_is_read()
    ensures { (line digits tail : List ℕ) (n : ℕ) → IsNumber digits n → 1 ≤ n →
        IsLine (codes "log") digits line → next (line ++ tail) ≡ (Spelling (Right (Log n)), tail) }
{}

/// A line of `quit` ends the session, whatever follows.
#[tactic(auto, using(crate::proofs::LaidOut::quit_read))]
pub fn quit_is_read()
    ensures { (line tail : List ℕ) → IsLine (codes "quit") [] line → next (line ++ tail) ≡ (Ending ended.Quit, []) }
{}
