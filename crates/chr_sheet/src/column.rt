//! Trials of the active label alone.
ghost use Rattle.std.specs.Prelude.{◌≡◌, ◌≤◌, ◌∷◌, [], length, map, IfOk};
ghost use Rattle.std.specs.Arc.{arc_value};
ghost use Rattle.chr_plan.specs.Orders.{heads_of};
ghost use Rattle.chr_search.specs.Verdicts.{IsFormed};
ghost use Rattle.chr_sheet.specs.Beside.{last_of};
ghost use Rattle.chr_sheet.specs.Columns.{at_head, column_trials, head_in, IsColumn};
ghost use Rattle.chr_sheet.specs.Rows.{IsSplitAt, kept_before};

use chr_rule::{Program, Rule};
use chr_search::{Placed, Trial};
use std::alloc::{AllocError, Allocator};
use std::marker::Model;
use std::sync::Arc;

/// The number of a rule of one head, and the head's.
#[derive(Clone, Copy)]
pub(crate) struct OneHead {
    pub(crate) number: u16,
    pub(crate) head: u8,
}

/// A trial of one label at a rule of one head, and more such rules of a program, at which its label is tried in turn. The
/// program is shared as a whole, not rule by rule: to share an `Arc` is to write its count, and processors that write the same
/// count wait for one another. Contracts see these trials.
#[derive(Drop)]
pub struct Column<A: Allocator> {
    first: Trial<A>,
    program: Arc<Program<A>, A>,
    more: Vec<OneHead, A>,
}

impl<A: Allocator> Model for Column<A> {
    ghost use Rattle.std.specs.Prelude.{map};
    ghost use Rattle.std.specs.Arc.{arc_value};
    ghost use Rattle.chr_rule.specs.Codes.{rule_codes};
    ghost use Rattle.chr_sheet.specs.Columns.{Column, head_in, IsColumn};

    ghost Value = { Column };

    ghost coded = { Prim.hlevel rule_codes };

    ghost view = { λ c. record { first = c.first; more = map (head_in (arc_value c.program)) c.more.items } };

    ghost invariant = { λ c. IsColumn (record { first = c.first; more = map (head_in (arc_value c.program)) c.more.items }) };
}

/// The rule of a head.
#[inline(always)]
pub(crate) fn rule_of<'p, A: Allocator + Copy>(
    program: &'p Program<A>,
    one: OneHead,
) -> &'p Arc<Rule<A>, A>
    requires { length (heads_of (head_in program.now one).rule) ≡ 1 }
    ensures { arc_value result.now ≡ (head_in program.now one).rule }
{
    let Some(rule) = program.rule(usize::from(one.number)) else {
        unreachable!();
    };
    rule
}

/// A trial of one label, at another head. An `Err` is E01.
fn at_other_head<A: Allocator + Copy>(
    alloc: A,
    first: &Trial<A>,
    program: &Program<A>,
    other: OneHead,
) -> Result<Trial<A>, AllocError>
    requires alone { length first.now.placed ≡ 1 }
    requires full { length (heads_of (head_in program.now other).rule) ≡ 1 }
    requires formed { IsFormed (at_head first.now (head_in program.now other)) }
    ensures { IfOk result (λ made. made ≡ at_head first.now (head_in program.now other)) }
{
    let one = &first.placed()[0];
    let placed = Placed {
        head: other.head,
        label: one.label,
        atom: one.atom.copy(alloc)?,
    };
    let rule = Arc::try_clone(rule_of(program, other))?;
    Trial::alone(alloc, rule, other.number, placed)
}

impl<A: Allocator + Copy> Column<A> {
    /// The column of a trial and heads of a program's rules.
    pub(crate) fn new(
        first: Trial<A>,
        program: Arc<Program<A>, A>,
        more: Vec<OneHead, A>,
    ) -> Column<A>
        requires { IsColumn (record { first = first; more = map (head_in (arc_value program)) more.items }) }
        ensures { result ≡ record { first = first; more = map (head_in (arc_value program)) more.items } }
    {
        Column {
            first,
            program,
            more,
        }
    }

    /// The first trial.
    pub fn first(&self) -> &Trial<A>
        ensures first { result.now ≡ self.now.first }
        ensures column { IsColumn self.now }
    {
        &self.first
    }

    /// The other heads, and the program of their rules.
    pub(crate) fn more(&self) -> (&Program<A>, &[OneHead])
        ensures more { map (head_in result.0.now) result.1.now ≡ self.now.more }
        ensures column { IsColumn self.now }
    {
        (&self.program, &self.more)
    }

    /// How many trials it has.
    pub(crate) fn len(&self) -> usize
        ensures { result ≡ length (column_trials self.now) }
    {
        self.more.len() + 1
    }

    /// The number of the last trial's rule, and its head's.
    pub(crate) fn last(&self) -> (u16, u8)
        ensures number { result.0 ≡ (last_of self.now.first (map (at_head self.now.first) self.now.more)).number }
        ensures head { result.1 ≡ (last_of self.now.first (map (at_head self.now.first) self.now.more)).head }
        ensures column { IsColumn self.now }
    {
        match self.more.last() {
            Some(last) => (last.number, last.head),
            None => (self.first.number(), self.first.head()),
        }
    }

    /// The trials before one of them, where there are any, and that one. An `Err` is E01.
    pub(crate) fn split_at(
        self,
        alloc: A,
        index: usize,
    ) -> Result<(Option<Column<A>>, Trial<A>), AllocError>
        requires { index ≤ length self.more }
        ensures { IfOk result (λ made. IsSplitAt (column_trials self) index (kept_before column_trials made.0) made.1) }
    {
        let Column {
            first,
            program,
            mut more,
        } = self;
        more.truncate(index);
        let Some(last) = more.pop() else {
            return Ok((None, first));
        };
        let trial = at_other_head(alloc, &first, &program, last)?;
        Ok((Some(Column::new(first, program, more)), trial))
    }
}
