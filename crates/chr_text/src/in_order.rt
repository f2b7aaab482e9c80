//! The parts of a rule as they are written, one after another: names and variables get their numbers.
ghost use Rattle.std.specs.Prelude.{◌≡◌, ◌≤◌, ◌++◌, length, map, OnOk};
ghost use Rattle.std.specs.List.{AllByRecursion};
ghost use Rattle.std.specs.Option.{option_map};
ghost use Rattle.chr_value.specs.Bounds.{most_variables};
ghost use Rattle.chr_lex.specs.Reading.{Gives};
ghost use Rattle.chr_text.specs.Numbering.{or_full, each, maybe, put};
ghost use Rattle.chr_text.specs.Translation.{somes};
ghost use Rattle.chr_text.specs.Variables.{Seen, in_turn};
ghost use Rattle.chr_text.specs.Tables.{Table, Keeps};
ghost use Rattle.chr_text.specs.Ways.{Way};

use chr_lex::fault::ItemError;
use chr_value::Names;
use std::alloc::{AllocError, Allocator};

/// What a part stands for, which may be nothing.
pub(crate) type Made<R> = Result<Option<R>, ItemError>;

/// A part that stands for one of the rule, or for nothing.
pub(crate) trait Part<S, R: Drop, A: Allocator + Copy> {
    ghost before: { S → Seen };

    ghost way: { Way Self R };

    fn number(&self, alloc: A, names: &mut Names<A>, seen: &mut S) -> Made<R>
        requires fits { way.fits (way.said self.now) }
        requires room { length (way.raw (before seen.old) (way.said self.now)).1 ≤ most_variables }
        ensures gives { Gives (λ o. (option_map way.made o, names.new)) result (or_full (maybe way.numbered names.old (way.raw (before seen.old) (way.said self.now)).0)) }
        ensures seen { OnOk result (before seen.new ≡ (way.raw (before seen.old) (way.said self.now)).1) }
        ensures keeps { (t : Table) → Keeps t names.old → Keeps t names.new };
}

fn push_some<T: Drop, A: Allocator>(out: &mut Vec<T, A>, item: Option<T>) -> Result<(), AllocError>
    ensures { OnOk result (out.new.items ≡ out.old.items ++ put item) }
{
    if let Some(item) = item {
        out.push(item)?;
    }
    Ok(())
}

/// Parts from left to right.
pub(crate) fn number_parts<S, X: Part<S, R, A>, R: Drop, A: Allocator + Copy>(
    alloc: A,
    names: &mut Names<A>,
    seen: &mut S,
    parts: &[X],
) -> Result<Vec<R, A>, ItemError>
    requires grows { (before : Seen) (x : X.way.Said) → length before ≤ length (X.way.raw before x).1 }
    requires fits { AllByRecursion X.way.fits (map X.way.said parts.now) }
    requires room { length (in_turn X.way.raw (X.before seen.old) (map X.way.said parts.now)).1 ≤ most_variables }
    ensures gives { Gives (λ v. (map X.way.made v.items, names.new)) result (or_full (each X.way.numbered names.old (somes (in_turn X.way.raw (X.before seen.old) (map X.way.said parts.now)).0))) }
    ensures seen { OnOk result (X.before seen.new ≡ (in_turn X.way.raw (X.before seen.old) (map X.way.said parts.now)).1) }
    ensures keeps { (t : Table) → Keeps t names.old → Keeps t names.new }
{
    let mut made = Vec::new(alloc);
    for part in parts {
        let one = part.number(alloc, names, seen)?;
        push_some(&mut made, one)?;
    }
    Ok(made)
}
