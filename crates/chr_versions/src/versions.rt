//! Versions.
ghost use Rattle.std.specs.Prelude.{◌≡◌, ◌↔◌, [], Some, None, IsTrue, MatchBool};
ghost use Rattle.chr_versions.specs.Kept.{head_of};

use logbook::{Gain, Offer, Plain, Play, Rule, Seen, Start, Word};
use std::marker::{Brand, Model, PhantomData};

/// The rule of the history: its length is in a word.
struct Law;

impl<E> Rule<E, u64> for Law {
    ghost use Rattle.std.specs.Prelude.{[]};
    ghost use base.Fml.{ftrue};
    ghost use Rattle.chr_versions.specs.Kept.{IsKept};

    ghost holds = { λ cells log. IsKept cells log };

    ghost first = { [] };

    ghost hinted = { λ n log. Unit {0} };

    ghost shows = { λ log. [] };

    ghost keeps = { λ names log. ftrue };

    ghost moves = { λ ask before after answer. Unit {0} };
}

/// A step that adds a version.
struct Add;

impl<E> Gain<E, u64> for Add {
    ghost use base.Fml.{ftrue};

    ghost after = { λ names about answer. ftrue };
}

impl<E> Play<E, u64> for Add {
    ghost use Rattle.chr_versions.specs.Kept.{Adds};

    ghost then = { Adds };
}

impl<E> Plain<E, E, u64> for Add {
    ghost use Rattle.std.specs.Prelude.{None};

    ghost ask = { λ value. value };

    ghost state = { λ value. None };
}

/// Which history it is. Each call of a program picks it.
pub trait Naming {
    ghost use Rattle.logbook.specs.Pages.{Book};

    ghost history: { Book };
}

impl Naming for Brand {
    ghost history = { record { number = 0; log_name = 0; cells_name = 0 } };
}

/// An empty history, which no type names yet.
#[derive(Drop)]
pub struct Opened<E> {
    head: Word<E, u64, Law>,
    seen: Seen<E, u64, Law>,
    pub ghost empty: { seen.log ≡ [] },
    pub ghost head_is: { head ≡ head_of seen.book },
}

impl<E> Opened<E> {
    pub fn new() -> Opened<E> {
        let (seen, mut first, _second) = Seen::open(Start::alone(), 0, 0);
        Opened {
            head: Word::tracked(0, &mut first),
            seen,
        }
    }
}

/// The versions of a value so far. Contracts see the last one, if there is one.
#[derive(Drop)]
pub struct Versions<J: Naming, E> {
    head: Word<E, u64, Law>,
    seen: Seen<E, u64, Law>,
    count: u64,
    of: PhantomData<J>,
}

impl<J: Naming, E> Model for Versions<J, E> {
    ghost use Rattle.std.specs.Prelude.{◌≡◌, Option, length};
    ghost use Rattle.std.specs.Coded.{coded_option};
    ghost use Rattle.chr_versions.specs.Kept.{head_of, last_of};

    ghost Value = { Option E };

    ghost coded = { coded_option E.code };

    ghost view = { λ v. last_of v.seen.log };

    ghost invariant = { λ v. (v.count ≡ length v.seen.log) × (v.seen.book ≡ J.history) × (v.head ≡ head_of J.history) };
}

/// What is known of one version, or of none. Contracts see that version.
pub struct Version<J: Naming, E> {
    seen: Seen<E, u64, Law>,
    number: u64,
    of: PhantomData<J>,
}

// Not derived, as for the versions.
impl<J: Naming, E> Drop for Version<J, E> {
    fn drop(self) {
        let Version {
            seen: _,
            number: _,
            of: _,
        } = self;
    }
}

impl<J: Naming, E> Model for Version<J, E> {
    ghost use Rattle.std.specs.Prelude.{◌≡◌, Option, length};
    ghost use Rattle.std.specs.Coded.{coded_option};
    ghost use Rattle.chr_versions.specs.Kept.{last_of};

    ghost Value = { Option E };

    ghost coded = { coded_option E.code };

    ghost view = { λ v. last_of v.seen.log };

    ghost invariant = { λ v. (v.number ≡ length v.seen.log) × (v.seen.book ≡ J.history) };
}

/// How many versions there are at most.
const MOST_VERSIONS: u64 = 1 << 62;

impl<J: Naming, E> Versions<J, E> {
    /// An empty history under a name.
    pub fn named(opened: Opened<E>) -> Versions<J, E>
        requires { opened.seen.book ≡ J.history }
        ensures { result ≡ None }
    {
        let Opened { head, seen } = opened;
        Versions {
            head,
            seen,
            count: 0,
            of: PhantomData,
        }
    }

    /// Whether there is no version yet.
    pub fn is_empty(&self) -> bool
        ensures { IsTrue result ↔ (self.now ≡ None) }
    {
        self.count == 0
    }

    /// Adds a version, unless 2^62 were added. Whether it did.
    pub fn add(&mut self, value: &E) -> bool
        ensures { MatchBool result (self.new ≡ Some value.now) (self.new ≡ self.old) }
    {
        let count = self.count;
        if count >= MOST_VERSIONS {
            return false;
        }
        let mut seen = self.seen.again();
        let mut offer: Offer<E, u64, Law, Add> = seen.plain::<Add, E, Add>(value);
        let mut pen = seen.no_pen();
        let found = self
            .head
            .compare_exchange::<Add, Add>(count, count + 1, &mut seen, &mut offer, &mut pen);
        if found != count {
            return false;
        }
        self.seen = seen;
        self.count = count + 1;
        true
    }

    /// What is known of the last version.
    pub fn last(&self) -> Version<J, E>
        ensures { result ≡ self.now }
    {
        Version {
            seen: self.seen.again(),
            number: self.count,
            of: PhantomData,
        }
    }

    /// Whether a version is the last one, by its number.
    pub fn is_last(&self, version: &Version<J, E>) -> bool
        ensures { IsTrue result → version.now ≡ self.now }
    {
        let mut both = self.seen.again();
        both.learn(&version.seen);
        version.number == self.count
    }
}
