//! A run that was made, and what is shown of it.
ghost use Rattle.std.specs.Prelude.{◌≡◌, IfOk};
ghost use Rattle.std.specs.Coded.{codes};
ghost use Rattle.chr_value.specs.Code.{value_code};
ghost use Rattle.chr_calls.specs.Tickets.{AreQuiet};
ghost use Rattle.chr_solo.specs.declared.solo.End.TheVariants.{Quiet};
ghost use Rattle.chr_run_text.specs.Output.{shown};

use crate::output::{Show, write_shown};
use chr_book::Book;
use chr_solo::End;
use std::alloc::{AllocError, Allocator};

/// The book after a run, and the run's end.
#[derive(Drop)]
pub struct Ran<A: Allocator> {
    pub book: Book<A>,
    pub end: End,
    // Where the run is called quiet no ticket is open.
    ghost quiet: { end ≡ Quiet → AreQuiet book.tickets } by { Prim.hlevel (codes, value_code) },
}

impl<A: Allocator + Copy> Ran<A> {
    /// The bytes that show the run. An `Err` is E01.
    pub fn shown(&self, alloc: A, show: Show) -> Result<Vec<u8, A>, AllocError>
        ensures { IfOk result (λ bytes. bytes.items ≡ shown show self.now.end self.now.book) }
    {
        let mut bytes = Vec::new(alloc);
        write_shown(&mut bytes, &self.book, self.end, show)?;
        Ok(bytes)
    }

    /// The same bytes, and the run is let go. Its log goes before they are made where they are those of the store alone, so
    /// that there is never memory for both at once. An `Err` is E01.
    pub fn into_shown(self, alloc: A, show: Show) -> Result<Vec<u8, A>, AllocError>
        ensures { IfOk result (λ bytes. bytes.items ≡ shown show self.end self.book) }
    {
        match show {
            Show::Store => {
                let Ran { book, end: _ } = self;
                book.into_store_lines(alloc)
            }
            Show::All | Show::Log | Show::Strict => self.shown(alloc, show),
        }
    }
}
