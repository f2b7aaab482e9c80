//! Hashes of keys.
ghost use Rattle.std.specs.Prelude.{◌≡◌, ◌≤◌, length};
ghost use Rattle.chr_value.specs.Atoms.{ground, ground_comp, said};
ghost use Rattle.chr_partners.specs.Hashes.{mixed, plain_word, value_word, hash, atom_hash};

use chr_value::{Atom, Comp, Name, Value, ValueRef};
use std::alloc::Allocator;

/// By how much a word is multiplied before the next one is added.
const FACTOR: u64 = 0x9e37_79b9_7f4a_7c15;

/// Mixes a word with one more.
#[inline(always)]
fn mixed(word: u64, more: u64) -> u64
    ensures { result ≡ mixed word more }
{
    word.wrapping_mul(FACTOR).wrapping_add(more)
}

/// Makes a word of a value, by its functor alone where it has one.
fn plain_word<A: Allocator>(value: &Value<A>) -> u64
    ensures { result ≡ plain_word (ground value.now) }
{
    match value {
        Value::Int(n) => n.cast_unsigned(),
        Value::Sym(name) => u64::from(name.number),
        Value::Comp(comp) => u64::from(comp.functor.number),
    }
}

/// Makes a word of a compound value, by its functor and its arguments.
fn comp_word<A: Allocator>(comp: &Comp<A>) -> u64
    ensures { result ≡ value_word (ground_comp comp.now) }
{
    let mut word = u64::from(comp.functor.number);
    for value in comp.args.iter() {
        word = mixed(word, plain_word(value));
    }
    word
}

/// Makes a word of a value. Equal values have equal words.
#[inline(always)]
pub fn value_word<A: Allocator>(value: &ValueRef<'_, A>) -> u64
    ensures { result ≡ value_word (said value.now) }
{
    match value {
        ValueRef::Int(n) => n.cast_unsigned(),
        ValueRef::Sym(name) => u64::from(name.number),
        ValueRef::Comp(comp) => comp_word(comp),
    }
}

/// Makes the hash of a key: a predicate's name, a place, and the word of the value there.
#[inline(always)]
pub fn hash(name: Name, place: u8, word: u64) -> u64
    ensures { result ≡ hash name.number place word }
{
    let key = u64::from(name.number) * 256 + u64::from(place);
    mixed(mixed(key, word), 0) >> 32
}

/// Makes the hash of an atom's key of a place, which at the place 0 is the name alone.
pub fn atom_hash<A: Allocator + Copy>(atom: &Atom<A>, place: u8) -> u64
    requires { place ≤ length atom.now.args }
    ensures { result ≡ atom_hash atom.now place }
{
    if place == 0 {
        return hash(atom.name(), 0, 0);
    }
    let value = atom.arg_at(usize::from(place) - 1);
    hash(atom.name(), place, value_word(&value))
}
