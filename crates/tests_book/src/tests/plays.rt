//! What is played over memory that refuses a request of each call.
use refusing::{Refusable, Refusing, refuse_each};
use std::alloc::{Allocator, Global};

/// A play: the allocator of a book, which hands on to `memory`, that of texts, and the number of the request that is refused.
#[derive(Drop)]
pub struct Play<'m, A> {
    pub alloc: A,
    pub memory: &'m Refusing<Global>,
    pub texts: Global,
    pub n: u64,
}

/// Calls on a book, each with the answer that is expected.
pub trait Played {
    /// Makes the calls with a request of each refused, and again where it was. Whether one was. None where a call doesn't fail
    /// exactly then, or where something isn't as expected.
    fn is_refused<A: Allocator + Copy>(&self, play: &Play<A>) -> Option<bool>;
}

/// What is played, and the allocator of texts.
#[derive(Drop)]
struct Over<'p, P> {
    played: &'p P,
    texts: Global,
}

impl<P: Played> Refusable for Over<'_, P> {
    fn is_made_again(&self, memory: &Refusing<Global>, n: u64) -> Option<bool> {
        self.played.is_refused(&Play {
            alloc: memory,
            memory,
            texts: self.texts,
            n,
        })
    }
}

/// Plays with the first request of each call refused, then with the second, and so on, until none is. Whether some were and all
/// was as expected, and the last number of a request with which a play was made.
pub fn play_each<P: Played>(texts: Global, played: &P) -> (bool, u64) {
    match refuse_each(texts, &Over { played, texts }) {
        Ok(refused) => (0 < refused, refused.saturating_add(1)),
        Err(n) => (false, n),
    }
}
