//! Opening a book.
use crate::tests::tables::GCD;
use chr_book::{Book, OpenFault};
use chr_calls::TicketState;
use chr_text::read_program;
use chr_value::Names;
use refusing::{Refusable, Refusing, refuse_each};
use std::alloc::{Allocator, Global};

/// Whether a book has no ticket.
fn is_new<A: Allocator + Copy>(book: &Book<A>) -> bool {
    book.quiet() && book.state(1) == TicketState::Unknown
}

/// Opens a book with request number `n` refused. The fault, where there is one. None where a text can't be read, where the
/// name of the program isn't in the table, or where a new book has a ticket.
fn opened<A: Allocator + Copy>(
    alloc: A,
    memory: &Refusing<Global>,
    n: u64,
) -> Option<Result<(), OpenFault>> {
    let mut names = Names::new(alloc);
    let program = read_program(alloc, GCD.program.as_bytes(), &mut names).ok()?;
    memory.refuse(n);
    match Book::new(alloc, program, names, 10) {
        Ok(book) => is_new(&book).then_some(Ok(())),
        Err(fault) => Some(Err(fault)),
    }
}

#[derive(Drop)]
struct Opening;

impl Refusable for Opening {
    fn is_made_again(&self, memory: &Refusing<Global>, n: u64) -> Option<bool> {
        let fails = opened(memory, memory, n)? == Err(OpenFault::NoMemory);
        let refused = memory.is_refused(fails)?;
        (opened(memory, memory, 0)? == Ok(())).then_some(refused)
    }
}

#[test]
fn opening_is_refused(rt: HostRuntime) {
    let refused = refuse_each(rt.alloc(), &Opening);
    assert!(rt; matches!(refused, Ok(1..)), "{refused:?}");
}
