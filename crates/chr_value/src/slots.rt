//! The slots in which an atom's arguments lie: some in the atom itself, and further ones beside it.
ghost use Rattle.std.specs.Prelude.{◌≡◌, ◌<◌, ◌≤◌, ◌+◌, ◌++◌, ◌∷◌, [], Some, length, slice_get, take};
ghost use Rattle.chr_value.specs.Bounds.{most_arguments};
ghost use Rattle.chr_value.specs.Slots.{kind_of, slot_of, slots_of, own_slots, those_of};

use crate::atom::MOST_ARGS;
use crate::names::Name;

/// An argument: a number, a symbol, or the place of a compound value beside the arguments.
#[derive(Clone, Copy, Debug)]
pub(crate) enum Slot {
    Int(i64),
    Sym(Name),
    Comp(u8),
}

/// What a word stands for.
#[derive(Clone, Copy, Debug)]
pub(crate) enum Kind {
    Int,
    Sym,
    Comp,
}

impl Default for Slot {
    fn default() -> Self {
        Slot::Int(0)
    }
}

/// The kind of a slot.
#[inline(always)]
fn kind_of(slot: Slot) -> Kind
    ensures { result ≡ kind_of slot }
{
    match slot {
        Slot::Int(_) => Kind::Int,
        Slot::Sym(_) => Kind::Sym,
        Slot::Comp(_) => Kind::Comp,
    }
}

/// The word of a slot, from which its kind gives the slot again.
#[inline(always)]
fn word_of(slot: Slot) -> u64
    ensures { slot_of (kind_of slot) result ≡ slot }
{
    match slot {
        Slot::Int(n) => n.cast_unsigned(),
        Slot::Sym(name) => u64::from(name.number),
        Slot::Comp(place) => u64::from(place),
    }
}

/// The slot of a kind and a word.
#[inline(always)]
fn slot_of(kind: Kind, word: u64) -> Slot
    ensures { result ≡ slot_of kind word }
{
    match kind {
        Kind::Int => Slot::Int(word.cast_signed()),
        Kind::Sym => Slot::Sym(Name {
            number: (word % 4_294_967_296) as u32,
        }),
        Kind::Comp => Slot::Comp((word % 256) as u8),
    }
}

/// The slot at an index, of kinds and words that lie apart.
#[inline(always)]
fn slot_at<const N: usize>(kinds: &[Kind; N], words: &[u64; N], index: usize) -> Slot
    requires { index < N }
    ensures { Some result ≡ slice_get (slots_of kinds.now words.now) index }
{
    slot_of(kinds[index], words[index])
}

/// Puts a slot at an index, after those before it.
#[inline(always)]
fn put_slot<const N: usize>(kinds: &mut [Kind; N], words: &mut [u64; N], index: usize, slot: Slot)
    requires { index < N }
    ensures { slots_of kinds.new (take (index + 1) words.new) ≡ slots_of kinds.old (take index words.old) ++ slot ∷ [] }
{
    kinds[index] = kind_of(slot);
    words[index] = word_of(slot);
}

/// How many slots lie in the atom itself.
pub(crate) const OWN_SLOTS: usize = 3;

/// How many slots may lie beside an atom.
const FURTHER_SLOTS: usize = MOST_ARGS - OWN_SLOTS;

/// What each atom has by itself: its name, how many arguments it has, and the slots of the first of them. Kinds and words
/// lie apart: so this takes 32 bytes, and is copied as a whole. What lies past the last slot says nothing.
#[derive(Clone, Copy)]
pub(crate) struct Front {
    words: [u64; OWN_SLOTS],
    pub(crate) name: Name,
    kinds: [Kind; OWN_SLOTS],
    pub(crate) arity: u8,
}

impl Front {
    /// A name without arguments.
    pub(crate) fn new(name: Name) -> Front
        ensures name { result.name ≡ name }
        ensures arity { result.arity ≡ 0 }
        ensures slots { own_slots result ≡ [] }
    {
        Front {
            words: [0; OWN_SLOTS],
            name,
            kinds: [Kind::Int; OWN_SLOTS],
            arity: 0,
        }
    }

    /// A slot, by its index.
    #[inline(always)]
    pub(crate) fn at(&self, index: usize) -> Slot
        requires own { index < 3 }
        requires within { index < self.now.arity }
        ensures { Some result ≡ slice_get (own_slots self.now) index }
    {
        slot_at(&self.kinds, &self.words, index)
    }

    /// Adds an argument, whose slot lies here after the others.
    #[inline(always)]
    pub(crate) fn push(&mut self, slot: Slot)
        requires { self.old.arity < 3 }
        ensures name { self.new.name ≡ self.old.name }
        ensures arity { self.new.arity ≡ self.old.arity + 1 }
        ensures slots { own_slots self.new ≡ own_slots self.old ++ slot ∷ [] }
    {
        let index = usize::from(self.arity);
        put_slot(&mut self.kinds, &mut self.words, index, slot);
        self.arity += 1;
    }

    /// Counts an argument whose slot lies elsewhere, since there is no room here.
    pub(crate) fn count_further(&mut self)
        requires full { 3 ≤ self.old.arity }
        requires few { self.old.arity < most_arguments }
        ensures name { self.new.name ≡ self.old.name }
        ensures arity { self.new.arity ≡ self.old.arity + 1 }
        ensures slots { own_slots self.new ≡ own_slots self.old }
    {
        self.arity += 1;
    }
}

/// The slots from the fourth on. Kinds and words lie apart, as in a [`Front`]. What lies past the last slot says nothing.
#[derive(Clone, Copy)]
pub(crate) struct Further {
    words: [u64; FURTHER_SLOTS],
    kinds: [Kind; FURTHER_SLOTS],
    count: u8,
}

impl Further {
    /// No slots.
    pub(crate) fn new() -> Further
        ensures { those_of result ≡ [] }
    {
        Further {
            words: [0; FURTHER_SLOTS],
            kinds: [Kind::Int; FURTHER_SLOTS],
            count: 0,
        }
    }

    /// A slot, by its index among those that lie here.
    #[inline(always)]
    pub(crate) fn at(&self, index: usize) -> Slot
        requires { index < length (those_of self.now) }
        ensures { Some result ≡ slice_get (those_of self.now) index }
    {
        slot_at(&self.kinds, &self.words, index)
    }

    /// Adds a slot after the others.
    pub(crate) fn push(&mut self, slot: Slot)
        requires { length (those_of self.old) < 5 }
        ensures { those_of self.new ≡ those_of self.old ++ slot ∷ [] }
    {
        let index = usize::from(self.count);
        put_slot(&mut self.kinds, &mut self.words, index, slot);
        self.count += 1;
    }
}
