//! What is kept of a book before a crew works on it.
ghost use Rattle.std.specs.Prelude.{◌≡◌, ◌↔◌, IfOk, IsTrue};
ghost use Rattle.std.specs.List.{AllByRecursion};
ghost use Rattle.chr_rule.specs.Scope.{IsRule};
ghost use Rattle.chr_calls.specs.Books.{BookState};
ghost use Rattle.chr_book.specs.Shots.{Continues};
ghost use Rattle.chr_seats.specs.Holds.{HasHeadline};
ghost use Rattle.chr_crew.specs.Runs.{IsKeptOf, IsWorkedOn};

use chr_book::{Book, Shot};
use chr_store::Label;
use chr_value::{Name, Names};
use std::alloc::{AllocError, Allocator};

/// A shot, the names and the limit of a book, in memory of their own.
#[derive(Drop)]
pub struct Before<A: Allocator> {
    pub(crate) shot: Shot<A>,
    pub(crate) names: Names<A>,
    pub(crate) limit: Label,
}

/// Shows that a book has the headline and valid rules, as the contracts of reading calls say.
fn read_headline<A: Allocator + Copy>(book: &Book<A>)
    ensures headline { HasHeadline book.now }
    ensures valid { AllByRecursion IsRule book.now.rules }
{
    let _ = book.quiet();
    let _ = book.program().rules();
}

/// Returns whether two tables have the same names under the same numbers.
fn same_names<A: Allocator + Copy>(names: &Names<A>, others: &Names<A>) -> bool
    ensures { IsTrue result ↔ (names.now ≡ others.now) }
{
    if names.len() != others.len() {
        return false;
    }
    for number in 0..names.len() {
        let name = Name {
            number: number as u32,
        };
        if names.text(name) != others.text(name) {
            return false;
        }
    }
    true
}

impl<A: Allocator + Copy> Before<A> {
    /// Keeps these of a book. An `Err` is E01.
    pub fn of(alloc: A, book: &Book<A>) -> Result<Before<A>, AllocError>
        ensures { IfOk result (IsKeptOf book.now) }
    {
        read_headline(book);
        let shot = book.shot()?;
        let names = book.names().copy(alloc)?;
        Ok(Before {
            shot,
            names,
            limit: book.limit(),
        })
    }

    /// Returns whether a book goes on from there by the work of seats from 1 to `workers`, and has the same names and limit.
    /// It takes no memory.
    pub fn leads_to(&self, book: &Book<A>, workers: u32) -> bool
        ensures same { IsTrue result ↔ (Continues book.now self.now.shot workers × (book.now.names ≡ self.now.names) × (book.now.limit ≡ self.now.limit)) }
        ensures worked_on { (b : BookState) → IsKeptOf b self.now → IsTrue result → IsWorkedOn workers b book.now }
    {
        read_headline(book);
        book.continues(&self.shot, workers)
            && same_names(book.names(), &self.names)
            && book.limit() == self.limit
    }
}
