//! What follows from the definition of a plan. These calls do nothing when they run.
ghost use Rattle.chr_plan.specs.Laws.{OnePlan, NamesEachHead, EachStepIsNext};

/// Each head of a rule has one plan.
pub fn one_plan()
    ensures { OnePlan }
{}

/// A plan names every head of its rule.
pub fn names_each_head()
    ensures { NamesEachHead }
{}

/// Each step of a plan after the first is the next after those before it, so none of them names its head, and its
/// key is the first place whose argument they bind.
pub fn each_step_is_next()
    ensures { EachStepIsNext }
{}
