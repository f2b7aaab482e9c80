//! A table of keys, and of where their labels are.
ghost use Rattle.std.specs.Prelude.{◌≡◌, ℕ, ◌*◌, ◌-◌, ◌/◌, ◌%◌, ◌^◌, ◌<◌, ◌≤◌, OnOk, OnErr, IfOk, if◌then◌else◌, filter, length, slice_index};
ghost use Rattle.chr_index.specs.declared.table.Key.{Key as AnyKey};
ghost use Rattle.chr_index.specs.declared.table.Link.TheVariants as links;
ghost use Rattle.chr_index.specs.Chains.{same_key, key_of, linked, has_labels, home, place_of, link_at, link_in, IsChained, HasSameLinks};

use std::alloc::{AllocError, Allocator};
use std::marker::Model;

/// By how much a word is multiplied for its hash, whose high bits are its home.
const FACTOR: u64 = 0x9e37_79b9_7f4a_7c15;

/// By how much a hash is shifted where there are the fewest homes, which are eight.
const GREATEST_SHIFT: u32 = 61;

/// The greatest place of an entry.
const GREATEST_PLACE: usize = u32::MAX as usize;

/// How many numbers a half of a word may be.
const HALF: u64 = 1 << 32;

/// What a key's word is: a number or a symbol, or the digest of a compound value, which others may have too.
#[derive(Clone, Copy, PartialEq, Eq)]
pub enum Kind {
    Int,
    Sym,
    Digest,
}

/// What labels are found by.
#[derive(Clone, Copy, Drop)]
pub struct Key {
    pub word: u64,
    pub kind: Kind,
}

/// What an entry's key has: no label, one, or a bucket.
#[derive(Clone, Copy, PartialEq, Eq)]
pub(crate) enum State {
    Bare,
    Alone,
    Bucket,
}

/// Where the labels of a key are: one may stand alone, and a bucket has a number.
#[derive(Clone, Copy, Drop)]
pub(crate) enum Link {
    Nowhere,
    Alone(u32),
    Bucket(u32),
}

/// A key with its link, and the place of the last entry before it that has the same home. The key's word stands in two
/// halves, since a `u64` would make an entry 24 bytes long.
#[derive(Clone, Copy, Drop)]
pub(crate) struct Entry {
    low: u32,
    high: u32,
    link: u32,
    next: u32,
    kind: Kind,
    state: State,
}

const _: () = prove!(size_of::<Entry>() == 20);

/// The low half of a word.
#[inline(always)]
fn low_half(word: u64) -> u32
    ensures { result ≡ word % 2 ^ 32 }
{
    (word % HALF) as u32
}

/// The high half of a word.
#[inline(always)]
fn high_half(word: u64) -> u32
    ensures { result ≡ word / 2 ^ 32 }
{
    (word / HALF) as u32
}

impl Entry {
    /// A key with its link, and the place of the next entry of its chain.
    fn new(key: Key, link: Link, next: u32) -> Entry
        ensures key { key_of result ≡ key }
        ensures link { linked result.state result.link ≡ link }
        ensures next { result.next ≡ next }
    {
        let (state, link) = match link {
            Link::Nowhere => (State::Bare, 0),
            Link::Alone(label) => (State::Alone, label),
            Link::Bucket(number) => (State::Bucket, number),
        };
        Entry {
            low: low_half(key.word),
            high: high_half(key.word),
            link,
            next,
            kind: key.kind,
            state,
        }
    }

    /// The key.
    fn key(&self) -> Key
        ensures { result ≡ key_of self.now }
    {
        Key {
            word: u64::from(self.high) * HALF + u64::from(self.low),
            kind: self.kind,
        }
    }

    /// Where the key's labels are.
    #[inline(always)]
    fn link(&self) -> Link
        ensures { result ≡ linked self.now.state self.now.link }
    {
        match self.state {
            State::Bare => Link::Nowhere,
            State::Alone => Link::Alone(self.link),
            State::Bucket => Link::Bucket(self.link),
        }
    }

    /// Whether the key has labels.
    #[inline(always)]
    fn has_labels(&self) -> bool
        ensures { result ≡ has_labels self.now }
    {
        self.state != State::Bare
    }

    /// Whether this is a key's entry.
    #[inline(always)]
    fn has_key(&self, key: Key) -> bool
        ensures { result ≡ same_key key (key_of self.now) }
    {
        low_half(key.word) == self.low && high_half(key.word) == self.high && key.kind == self.kind
    }
}

/// A key's home.
#[inline(always)]
fn home(shift: u32, key: Key) -> usize
    requires { shift < 64 }
    ensures { result ≡ home shift key }
{
    (key.word.wrapping_mul(FACTOR) >> shift) as usize
}

/// Where the chain of a home begins: the place of the last entry that has it.
#[inline(always)]
fn begin(chains: &[u32], home: usize) -> u32
    ensures { result ≡ slice_index chains.now home }
{
    match chains.get(home) {
        None => 0,
        Some(place) => *place,
    }
}

/// How many keys have labels.
fn count_used(entries: &[Entry]) -> usize
    ensures { result ≤ length entries.now }
{
    let mut used = 0;
    for entry in entries {
        if entry.has_labels() {
            used += 1;
        }
    }
    used
}

/// Takes the entries out whose keys have no labels.
fn keep_used<A: Allocator>(entries: &mut Vec<Entry, A>)
    ensures used { entries.new.items ≡ filter has_labels entries.old.items }
    ensures count { length entries.new.items ≤ length entries.old.items }
{
    entries.retain(|entry| entry.has_labels());
}

/// By how much hashes are shifted for so many keys with labels: there are twice as many homes or more.
fn shift_for(used: usize) -> u32
    requires { used < 2 ^ 32 }
    ensures some { 0 < result }
    ensures within { result < 64 }
    ensures room { 2 * used ≤ 2 ^ (64 - result) }
{
    (2 * used)
        .saturating_sub(1)
        .leading_zeros()
        .min(GREATEST_SHIFT)
}

/// The chains of homes that no entry has. E01 where memory ran out.
fn no_chains<A: Allocator + Copy>(alloc: A, shift: u32) -> Result<Vec<u32, A>, AllocError>
    requires some { 0 < shift }
    requires within { shift < 64 }
    ensures none { IfOk result (λ chains. (h : ℕ) → slice_index chains.items h ≡ 0) }
    ensures homes { IfOk result (λ chains. (k : AnyKey) → home shift k < length chains.items) }
{
    let mut chains = Vec::new(alloc);
    chains.resize(1 << (u64::BITS - shift), 0)?;
    Ok(chains)
}

/// Chains the entries, where no chain has any yet.
fn chain_all(chains: &mut [u32], entries: &mut [Entry], shift: u32)
    requires shift { shift < 64 }
    requires none { (h : ℕ) → slice_index chains.old h ≡ 0 }
    requires homes { (k : AnyKey) → home shift k < length chains.old }
    requires places { length entries.old < 2 ^ 32 }
    ensures count { length chains.new ≡ length chains.old }
    ensures entry_count { length entries.new ≡ length entries.old }
    ensures chained { IsChained shift chains.new entries.new }
    ensures same { HasSameLinks entries.old entries.new }
{
    for i in 0..entries.len() {
        let home = home(shift, entries[i].key());
        entries[i].next = chains[home];
        chains[home] = i as u32 + 1;
    }
}

/// Keys with their links. Contracts see where chains begin, the entries, and the shift that gives homes.
#[derive(Drop)]
pub(crate) struct Table<A: Allocator> {
    /// Where the chain of each home begins.
    chains: Vec<u32, A>,
    entries: Vec<Entry, A>,
    shift: u32,
}

impl<A: Allocator> Model for Table<A> {
    ghost use Rattle.chr_index.specs.Chains.{Chained, IsTable};

    ghost Value = { Chained };

    ghost view = { λ t. record { chains = t.chains.items; entries = t.entries.items; shift = t.shift } };

    ghost invariant = { λ t. IsTable (record { chains = t.chains.items; entries = t.entries.items; shift = t.shift }) };
}

impl<A: Allocator + Copy> Table<A> {
    /// No keys. Takes no memory.
    pub fn new(alloc: A) -> Table<A>
        ensures { (k : Key) → link_in result k ≡ links.Nowhere }
    {
        Table {
            chains: Vec::new(alloc),
            entries: Vec::new(alloc),
            shift: GREATEST_SHIFT,
        }
    }

    /// The place of a key's entry, 0 where it has none.
    #[inline(always)]
    pub fn place(&self, key: Key) -> u32
        ensures key { result ≡ place_of self.now key }
        ensures within { result ≤ length self.now.entries }
    {
        let mut place = begin(&self.chains, home(self.shift, key));
        while place != 0 {
            let entry = &self.entries[place as usize - 1];
            if entry.has_key(key) {
                return place;
            }
            place = entry.next;
        }
        0
    }

    /// Where the labels are of the key at a place.
    #[inline(always)]
    pub fn link_at(&self, place: u32) -> Link
        requires { place ≤ length self.now.entries }
        ensures { result ≡ link_at self.now.entries place }
    {
        if place == 0 {
            return Link::Nowhere;
        }
        self.entries[place as usize - 1].link()
    }

    /// Links a key anew, at the place of its entry. Takes no memory.
    pub fn write(&mut self, place: u32, key: Key, link: Link)
        requires key { place ≡ place_of self.old key }
        requires some { 0 < place }
        ensures { (k : Key) → link_in self.new k ≡ (if same_key key k then link else link_in self.old k) }
    {
        let index = place as usize - 1;
        self.entries[index] = Entry::new(key, link, self.entries[index].next);
    }

    /// Links a key that has no entry. E01 where one could not be added.
    fn enter(&mut self, key: Key, link: Link) -> Result<(), AllocError>
        requires key { place_of self.old key ≡ 0 }
        requires chains { 0 < length self.old.chains }
        ensures ok { OnOk result ((k : Key) → link_in self.new k ≡ (if same_key key k then link else link_in self.old k)) }
        ensures unchanged { OnErr result ((k : Key) → link_in self.new k ≡ link_in self.old k) }
    {
        if self.entries.len() >= GREATEST_PLACE {
            return Err(AllocError);
        }
        let home = home(self.shift, key);
        self.entries.push(Entry::new(key, link, self.chains[home]))?;
        self.chains[home] = self.entries.len() as u32;
        Ok(())
    }

    /// Takes the keys without labels out and makes the chains anew, where there are as many entries as chains. E01 where memory
    /// ran out.
    fn make_room(&mut self, alloc: A) -> Result<(), AllocError>
        ensures chains { OnOk result (0 < length self.new.chains) }
        ensures absent { (k : Key) → place_of self.old k ≡ 0 → place_of self.new k ≡ 0 }
        ensures links { (k : Key) → link_in self.new k ≡ link_in self.old k }
    {
        if self.entries.len() < self.chains.len() {
            return Ok(());
        }
        let shift = shift_for(count_used(&self.entries));
        let mut chains = no_chains(alloc, shift)?;
        keep_used(&mut self.entries);
        self.entries.shrink_to(chains.len());
        chain_all(&mut chains, &mut self.entries, shift);
        self.chains = chains;
        self.shift = shift;
        Ok(())
    }

    /// Links a key, at the place of its entry or in a new one. E01 where memory ran out.
    pub fn set(&mut self, alloc: A, place: u32, key: Key, link: Link) -> Result<(), AllocError>
        requires { place ≡ place_of self.old key }
        ensures ok { OnOk result ((k : Key) → link_in self.new k ≡ (if same_key key k then link else link_in self.old k)) }
        ensures unchanged { OnErr result ((k : Key) → link_in self.new k ≡ link_in self.old k) }
    {
        if place != 0 {
            self.write(place, key, link);
            return Ok(());
        }
        self.make_room(alloc)?;
        self.enter(key, link)
    }
}
