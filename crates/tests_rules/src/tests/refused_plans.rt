//! A program and its plans. The allocator `alloc` hands on to `memory`, whose request number `n` is refused.
use crate::tests::texts::program_of;
use chr_plan::Plans;
use chr_rule::{Program, Rule};
use chr_value::Names;
use refusing::Refusing;
use std::alloc::{Allocator, Global};
use std::sync::Arc;

type SharedRule<A> = Arc<Rule<A>, A>;

/// The program of a text.
fn program_with<A: Allocator + Copy>(alloc: A, text: &str) -> Option<Program<A>> {
    let mut names = Names::new(alloc);
    program_of(alloc, text, &mut names)
}

/// A program of one rule.
const RULE: &str = "p(X,f(X,g(1))) <=> true.";

/// Adds a rule to fewer than 20. Whether there was memory for it. None where the rule can't be shared.
fn pushes<A: Allocator + Copy>(program: &mut Program<A>, rule: &SharedRule<A>) -> Option<bool> {
    if program.len() >= 20 {
        return Some(true);
    }
    let rule = Arc::try_clone(rule).ok()?;
    Some(program.push(rule).is_ok())
}

/// Adds a rule 20 times, each again where that fails.
fn push_all<A: Allocator + Copy>(
    memory: &Refusing<Global>,
    n: u64,
    rule: &SharedRule<A>,
    program: &mut Program<A>,
) -> Option<bool> {
    let mut fails = false;
    memory.refuse(n);
    for _ in 0..40u8 {
        if !pushes(program, rule)? {
            fails = true;
        }
    }
    if program.len() != 20 {
        return None;
    }
    memory.is_refused(fails)
}

pub fn push<A: Allocator + Copy>(alloc: A, memory: &Refusing<Global>, n: u64) -> Option<bool> {
    let rules = program_with(alloc, RULE)?;
    let mut program = Program::new(alloc);
    push_all(memory, n, rules.rule(1)?, &mut program)
}

/// Whether a program of one rule is copied.
fn is_copied<A: Allocator + Copy>(alloc: A, program: &Program<A>) -> bool {
    match program.copy(alloc) {
        Ok(copy) => copy.len() == 1,
        Err(_) => false,
    }
}

pub fn copy<A: Allocator + Copy>(alloc: A, memory: &Refusing<Global>, n: u64) -> Option<bool> {
    let program = program_with(alloc, RULE)?;
    memory.refuse(n);
    let refused = memory.is_refused(!is_copied(alloc, &program))?;
    is_copied(alloc, &program).then_some(refused)
}

pub fn make<A: Allocator + Copy>(alloc: A, memory: &Refusing<Global>, n: u64) -> Option<bool> {
    let program = program_with(alloc, RULE)?;
    memory.refuse(n);
    let refused = memory.is_refused(Plans::make(alloc, &program).is_err())?;
    Plans::make(alloc, &program).is_ok().then_some(refused)
}

/// Whether there is memory for the places that plans look up, of which there are two.
fn has_places<A: Allocator + Copy>(alloc: A, program: &Program<A>, plans: &Plans<A>) -> bool {
    match plans.places(alloc, program) {
        Ok(places) => places.len() == 2,
        Err(_) => false,
    }
}

pub fn places<A: Allocator + Copy>(alloc: A, memory: &Refusing<Global>, n: u64) -> Option<bool> {
    let program = program_with(alloc, "p(X), p(X), q(f(1)) <=> true.")?;
    let plans = Plans::make(alloc, &program).ok()?;
    memory.refuse(n);
    let refused = memory.is_refused(!has_places(alloc, &program, &plans))?;
    has_places(alloc, &program, &plans).then_some(refused)
}
