//! Labels at the heads of a rule.
ghost use Rattle.std.specs.Prelude.{◌≡◌, ◌+◌, ◌≤◌, length};
ghost use Rattle.chr_value.specs.Bounds.{most_heads};
ghost use Rattle.chr_search.specs.Joined.{join_of};
ghost use Rattle.chr_search.specs.Passing.{IsTrialIn};
ghost use Rattle.chr_search.specs.PlanByPlan.{labels_at_heads};
ghost use Rattle.chr_search.specs.Verdicts.{Trial as TrialView};

use crate::join::Join;
use chr_log::Labels;
use chr_store::Label;
use std::alloc::Allocator;

/// Makes labels as many as a count. Which they are then is left open.
pub(crate) fn resize(labels: &mut Labels, count: usize)
    requires { count ≤ most_heads }
    ensures { length labels.new.items ≡ count }
{
    labels.truncate(count);
    while labels.len() < count {
        labels.push(0);
    }
}

/// Puts the labels of a trial, one for each head in the order of the plan, at their heads: the kept ones first.
pub(crate) fn put_at_heads<A: Allocator + Copy>(
    heads: &mut [Label],
    join: &Join<'_, A>,
    labels: &[Label],
)
    requires trial { (t : TrialView) × IsTrialIn (join_of join.now) labels.now t }
    requires full { length labels.now ≡ length join.now.rule.now.kept + length join.now.rule.now.removed }
    requires room { length heads.old ≡ length labels.now }
    ensures { heads.new ≡ labels_at_heads join.now.order.now labels.now 1 (length join.now.rule.now.kept + length join.now.rule.now.removed) }
{
    for i in 0..labels.len() {
        heads[usize::from(join.order[i].head) - 1] = labels[i];
    }
}
