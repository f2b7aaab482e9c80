//! Each call, with each of its requests refused in turn.
use crate::tests::refused_texts::{self, Text};
use crate::tests::{refused_logs, refused_names};
use refusing::{Refusable, Refusing, refuse_each};
use std::alloc::Global;

/// The calls that may take memory.
#[derive(Clone, Copy, Debug)]
enum Call {
    Intern,
    CopyNames,
    PushEntry,
    Reserve,
    CopyLog,
    WriteLog,
    WriteStore,
    /// The reader of a text, and how many entries, lines, rules or atoms it gives.
    Read(Text, usize),
}

const CALLS: [Call; 11] = [
    Call::Intern,
    Call::CopyNames,
    Call::PushEntry,
    Call::Reserve,
    Call::CopyLog,
    Call::WriteLog,
    Call::WriteStore,
    Call::Read(Text::Log, 7),
    Call::Read(Text::Store, 5),
    Call::Read(Text::Program, 3),
    Call::Read(Text::Posts, 3),
];

impl Refusable for Call {
    fn is_made_again(&self, memory: &Refusing<Global>, n: u64) -> Option<bool> {
        match self {
            Call::Intern => refused_names::intern(memory, n),
            Call::CopyNames => refused_names::copy(memory, n),
            Call::PushEntry => refused_logs::push(memory, n),
            Call::Reserve => refused_logs::reserve(memory, n),
            Call::CopyLog => refused_logs::copy(memory, n),
            Call::WriteLog => refused_logs::write_events_of_a_log(memory, n),
            Call::WriteStore => refused_logs::write_line_of_a_store(memory, n),
            Call::Read(text, count) => refused_texts::read(memory, n, *text, *count),
        }
    }
}

#[test]
fn each_request_is_refused_in_turn(rt: HostRuntime) {
    for call in &CALLS {
        let refused = refuse_each(rt.alloc(), call);
        assert!(rt; matches!(refused, Ok(1..)), "{call:?}: {refused:?}");
    }
}
