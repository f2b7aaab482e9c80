//! Each call, with each of its requests refused in turn.
use crate::tests::{refused_plans, refused_store};
use refusing::{Refusable, Refusing, refuse_each};
use std::alloc::Global;

/// The calls that may take memory.
#[derive(Clone, Copy, Debug)]
enum Call {
    PushRule,
    CopyProgram,
    MakePlans,
    Places,
    OpenIndexed,
    Insert,
    InsertIndexed,
    InsertCompound,
    CopyStore,
}

const CALLS: [Call; 9] = [
    Call::PushRule,
    Call::CopyProgram,
    Call::MakePlans,
    Call::Places,
    Call::OpenIndexed,
    Call::Insert,
    Call::InsertIndexed,
    Call::InsertCompound,
    Call::CopyStore,
];

impl Refusable for Call {
    fn is_made_again(&self, memory: &Refusing<Global>, n: u64) -> Option<bool> {
        match self {
            Call::PushRule => refused_plans::push(memory, memory, n),
            Call::CopyProgram => refused_plans::copy(memory, memory, n),
            Call::MakePlans => refused_plans::make(memory, memory, n),
            Call::Places => refused_plans::places(memory, memory, n),
            Call::OpenIndexed => refused_store::open(memory, memory, n),
            Call::Insert => refused_store::insert(memory, memory, n),
            Call::InsertIndexed => refused_store::insert_indexed(memory, memory, n),
            Call::InsertCompound => refused_store::insert_compound(memory, memory, n),
            Call::CopyStore => refused_store::copy(memory, memory, n),
        }
    }
}

#[test]
fn each_request_is_refused_in_turn(rt: HostRuntime) {
    for call in &CALLS {
        let refused = refuse_each(rt.alloc(), call);
        assert!(rt; matches!(refused, Ok(1..)), "{call:?}: {refused:?}");
    }
}
