//! The keys of atoms.
ghost use Rattle.std.specs.Prelude.{◌≡◌, ◌<◌, ◌≤◌, length, true};
ghost use Rattle.chr_value.specs.Atoms.{ground, ground_comp, said};
ghost use Rattle.chr_store.specs.Digests.{mixed, digest_after};
ghost use Rattle.chr_store.specs.Index.{IsKeyAt, is_constant, key_value, own_key, pred_of};
ghost use Rattle.chr_store.specs.KeyParts.{value_of};
ghost use Rattle.chr_store.specs.KeyLabels.{index_key, is_word, other_key};

use chr_index::{Key as IndexKey, Kind};
use chr_value::{Atom, Comp, Name, Pred, Value, ValueRef};
use std::alloc::Allocator;
use std::marker::Model;

/// By how much a digest is multiplied before the next word is added.
const FACTOR: u64 = 0x9e37_79b9_7f4a_7c15;

/// What atoms are found by: a predicate, and what stands for a value at a place. At the place 0 that is the number 0. The
/// value's word lies apart from its kind, so that a key takes 16 bytes. Contracts see what the two stand for.
#[derive(Clone, Copy, Drop)]
pub struct Key {
    word: u64,
    name: Name,
    arity: u8,
    place: u8,
    kind: Kind,
}

impl Model for Key {
    ghost use Rattle.std.specs.Prelude.{◌<◌, ◌^◌};
    ghost use Rattle.chr_store.specs.KeyParts.{Key as KeyParts, value_of, kind_of, word_of};

    ghost Value = { KeyParts };

    ghost view = { λ k. record { name = k.name; arity = k.arity; place = k.place; value = value_of k.kind k.word } };

    ghost invariant = { λ k. k.word < 2 ^ 64 };

    ghost inverse = { λ k. record { word = word_of k.value; name = k.name; arity = k.arity; place = k.place; kind = kind_of k.value } };
}

/// A digest with one word more.
#[inline(always)]
fn mixed(digest: u64, word: u64) -> u64
    ensures { result ≡ mixed digest word }
{
    digest.wrapping_mul(FACTOR).wrapping_add(word)
}

/// A digest with a value more: a symbol goes in as a functor without arguments.
#[cycle(digest)]
fn with_value<A: Allocator>(digest: u64, value: &Value<A>) -> u64
    ensures { result ≡ digest_after digest (ground value.now) }
{
    match value {
        Value::Int(n) => mixed(digest, n.cast_unsigned()),
        Value::Sym(name) => mixed(mixed(digest, u64::from(name.number)), 0),
        Value::Comp(comp) => with_comp(digest, comp),
    }
}

/// A digest with a compound value more: its functor, how many arguments there are, and these.
#[cycle(digest)]
fn with_comp<A: Allocator>(digest: u64, comp: &Comp<A>) -> u64
    ensures { result ≡ digest_after digest (ground_comp comp.now) }
{
    let functor = mixed(digest, u64::from(comp.functor.number));
    let mut all = mixed(functor, comp.args.len() as u64);
    for value in comp.args.iter() {
        all = with_value(all, value);
    }
    all
}

/// What a value's word is, and the word.
#[inline(always)]
fn parts_of<A: Allocator>(value: &ValueRef<'_, A>) -> (Kind, u64)
    ensures { value_of result.0 result.1 ≡ key_value (said value.now) }
{
    match value {
        ValueRef::Int(n) => (Kind::Int, n.cast_unsigned()),
        ValueRef::Sym(name) => (Kind::Sym, u64::from(name.number)),
        ValueRef::Comp(comp) => (Kind::Digest, with_comp(0, comp)),
    }
}

impl Key {
    /// The predicate.
    #[inline(always)]
    pub fn pred(&self) -> Pred
        ensures { result ≡ pred_of self.now }
    {
        Pred {
            name: self.name,
            arity: self.arity,
        }
    }

    /// The place.
    #[inline(always)]
    pub fn place(&self) -> u8
        ensures { result ≡ self.now.place }
    {
        self.place
    }

    /// What stands for the value in an index of the place.
    #[inline(always)]
    pub fn in_index(&self) -> IndexKey
        ensures key { result ≡ index_key self.now.value }
        ensures word { is_word self.now.value ≡ true }
    {
        IndexKey {
            word: self.word,
            kind: self.kind,
        }
    }
}

/// Whether a value has keys that no other value has: whether it is a number or a symbol.
#[inline(always)]
pub fn is_constant<A: Allocator>(value: &ValueRef<'_, A>) -> bool
    ensures { result ≡ is_constant (said value.now) }
{
    match value {
        ValueRef::Comp(_) => false,
        _ => true,
    }
}

/// The key of a predicate alone.
#[inline(always)]
pub fn own_key(pred: Pred) -> Key
    ensures { result ≡ own_key pred }
{
    Key {
        word: 0,
        name: pred.name,
        arity: pred.arity,
        place: 0,
        kind: Kind::Int,
    }
}

/// What stands for a predicate in an index of predicates.
#[inline(always)]
pub fn other_key(pred: Pred) -> IndexKey
    ensures key { result ≡ index_key (other_key pred) }
    ensures few { pred.arity < 256 }
{
    IndexKey {
        word: u64::from(pred.name.number) * 256 + u64::from(pred.arity),
        kind: Kind::Sym,
    }
}

/// The key of a value at a place of a predicate.
#[inline(always)]
pub fn value_key<A: Allocator>(pred: Pred, place: u8, value: &ValueRef<'_, A>) -> Key
    ensures { result ≡ record { name = pred.name; arity = pred.arity; place = place; value = key_value (said value.now) } }
{
    let (kind, word) = parts_of(value);
    Key {
        word,
        name: pred.name,
        arity: pred.arity,
        place,
        kind,
    }
}

/// The key of an atom at a place.
pub fn key_at<A: Allocator + Copy>(atom: &Atom<A>, place: u8) -> Key
    requires above { 0 < place }
    requires within { place ≤ length atom.now.args }
    ensures { IsKeyAt atom.now place result }
{
    let Some(value) = atom.arg(place as usize - 1) else {
        unreachable!();
    };
    value_key(atom.pred(), place, &value)
}
