//! Atoms under labels that are given in order.
ghost use Rattle.std.specs.Prelude.{◌≡◌, ◌≢◌, ◌+◌, ◌*◌, ◌<◌, ◌≤◌, ◌++◌, ◌∷◌, [], ℕ, length, slice_index, slice_set, vec_len, vec_capacity, IfOk, OnOk, OnErr};
ghost use Rattle.std.specs.Option.{option_copied};
ghost use Rattle.std.specs.Iterator.{item_count};
ghost use Rattle.std.specs.Map.Iter.{TakesFirst};
ghost use Rattle.chr_value.specs.Bounds.{greatest_label};
ghost use Rattle.chr_value.specs.Stores.{atom_at, drop_label};
ghost use Rattle.chr_store.specs.Table.{Held, IsSlotOf, no_slot, atom_in, held_in, entries_from, shown};
ghost use Rattle.chr_store.specs.Blocks.{AreCounts, AreEmptyAtNone};

use chr_value::{Atom, Label, Name};
use std::alloc::{AllocError, Allocator};
use std::marker::Model;
use std::mem;

/// The slot of a label that has no atom. The last free slot is linked to it.
const NO_SLOT: u32 = u32::MAX;

/// How many labels, one after another, are counted together.
const BLOCK: usize = 64;

/// Atoms under labels, which are given from 1 on, each once. They lie in one vector, where the slot of an atom that is taken
/// out is given again; 4 bytes for its label stay. Contracts see the list of the labels with their atoms, which rises, and
/// the label that comes next.
#[derive(Drop)]
pub struct Atoms<A: Allocator> {
    /// The atoms, each in a slot of its own. A free slot has an atom without arguments, whose name is the number of the next
    /// free slot, or [`NO_SLOT`] in the last: so the free slots take no memory of their own.
    held: Vec<Atom<A>, A>,
    /// The first free slot, or [`NO_SLOT`].
    free: u32,
    /// How many atoms there are.
    len: usize,
    /// The slot of each label that was given, from 1 on, or [`NO_SLOT`].
    slots: Vec<u32, A>,
    /// How many atoms each block of labels has.
    counts: Vec<u32, A>,
}

impl<A: Allocator> Model for Atoms<A> {
    ghost use Rattle.std.specs.Prelude.{◌+◌, length};
    ghost use Rattle.chr_value.specs.Code.{value_codes};
    ghost use Rattle.chr_store.specs.Labels.{GivenAtoms};
    ghost use Rattle.chr_store.specs.Table.{entries_from, held_in, HasTable};
    ghost use Rattle.chr_store.specs.Blocks.{AreCounts};

    ghost Value = { GivenAtoms };

    ghost coded = { Prim.hlevel value_codes };

    ghost view = { λ a. record { entries = entries_from 1 (held_in a.held.items a.slots.items); next = length a.slots.items + 1 } };

    ghost invariant = { λ a. HasTable a.held.items a.free a.len a.slots.items × AreCounts (held_in a.held.items a.slots.items) a.counts.items };
}

/// The index of a label's slot. That of 0, which is no label, is above all others.
#[inline(always)]
fn index_of(label: Label) -> usize
    ensures { IsSlotOf label result }
{
    (label as usize).wrapping_sub(1)
}

/// The atom in a slot, if there is such a slot.
#[inline(always)]
fn atom_of_slot<A: Allocator>(held: &[Atom<A>], slot: u32) -> Option<&Atom<A>>
    ensures { option_copied result ≡ atom_in held.now slot }
{
    held.get(slot as usize)
}

/// Makes room for an atom, in one slot more where none is free. An `Err` is E01.
fn reserve_slot<A: Allocator>(held: &mut Vec<Atom<A>, A>, free: u32) -> Result<(), AllocError>
    ensures held { held.new.items ≡ held.old.items }
    ensures place { OnOk result (free ≡ no_slot → vec_len held.new < vec_capacity held.new) }
{
    if free != NO_SLOT {
        return Ok(());
    }
    held.reserve(1)
}

/// Puts an atom into the first free slot, or into one slot more where none is free, and tells which. There is room for it.
fn fill_slot<A: Allocator + Copy>(held: &mut Vec<Atom<A>, A>, free: &mut u32, atom: Atom<A>) -> u32
    requires there { free.old ≢ no_slot → free.old < length held.old.items }
    requires fits { length held.old.items ≤ no_slot }
    requires place { free.old ≡ no_slot → vec_len held.old < vec_capacity held.old }
    ensures again { free.old ≢ no_slot → (result ≡ free.old) × (held.new.items ≡ slice_set held.old.items result atom) }
    ensures next { (empty : Atom ℕ) → atom_in held.old.items free.old ≡ Some empty → free.new ≡ empty.name }
    ensures more { free.old ≡ no_slot → (free.new ≡ no_slot) × (result ≡ length held.old.items) × (held.new.items ≡ held.old.items ++ atom ∷ []) }
{
    if *free == NO_SLOT {
        let slot = held.len() as u32;
        held.push_reserved(atom);
        return slot;
    }
    let slot = *free;
    *free = held[slot as usize].name().number;
    held[slot as usize] = atom;
    slot
}

/// Makes room for one label more, and a count for its block. An `Err` is E01.
fn make_room<A: Allocator>(
    slots: &mut Vec<u32, A>,
    counts: &mut Vec<u32, A>,
) -> Result<(), AllocError>
    requires fits { length slots.old.items ≤ 4294967294 }
    requires begun { 1 ≤ length slots.old.items → length slots.old.items < 64 * length counts.old.items }
    ensures slots { slots.new.items ≡ slots.old.items }
    ensures counted { (held : Held) → AreCounts (held_in held slots.old.items) counts.old.items → AreCounts (held_in held slots.old.items) counts.new.items }
    ensures block { OnOk result (length slots.old.items + 1 < 64 * length counts.new.items) }
    ensures place { OnOk result (vec_len slots.new < vec_capacity slots.new) }
{
    slots.reserve(1)?;
    if (slots.len() + 1) / BLOCK == counts.len() {
        counts.push(0)?;
    }
    Ok(())
}

/// The first block from one on that has an atom, or one past all that are counted.
fn next_block(counts: &[u32], from: usize) -> usize
    ensures later { from ≤ result }
    ensures empty { (k : ℕ) → from ≤ k → k < result → (k < length counts.now) × (slice_index counts.now k ≡ 0) }
{
    let mut block = from;
    while block < counts.len() && counts[block] == 0 {
        block += 1;
    }
    block
}

/// The slots with the first one's label, but for those in front whose blocks have no atom.
fn past_empty<'s>(slots: &'s [u32], counts: &[u32], label: Label) -> (&'s [u32], Label)
    requires fits { label + length slots.now ≤ 4294967296 }
    ensures fits { result.1 + length result.0.now ≤ 4294967296 }
    ensures fewer { length result.0.now ≤ length slots.now }
    ensures empty { (held : Held) → AreEmptyAtNone label (held_in held slots.now) counts.now → AreEmptyAtNone result.1 (held_in held result.0.now) counts.now }
    ensures same { (held : Held) → AreEmptyAtNone label (held_in held slots.now) counts.now → entries_from result.1 (held_in held result.0.now) ≡ entries_from label (held_in held slots.now) }
{
    let block = next_block(counts, label as usize / BLOCK);
    let empty = block
        .saturating_mul(BLOCK)
        .saturating_sub(label as usize)
        .min(slots.len());
    (&slots[empty..], label + empty as u64)
}

impl<A: Allocator + Copy> Atoms<A> {
    /// No atoms. Takes no memory.
    pub fn new(alloc: A) -> Atoms<A>
        ensures { result ≡ record { entries = []; next = 1 } }
    {
        Atoms {
            held: Vec::new(alloc),
            free: NO_SLOT,
            len: 0,
            slots: Vec::new(alloc),
            counts: Vec::new(alloc),
        }
    }

    /// How many atoms there are.
    pub fn len(&self) -> usize
        ensures { result ≡ length self.now.entries }
    {
        self.len
    }

    /// The label that [`push_copy`](Atoms::push_copy) gives next.
    pub fn next_label(&self) -> Label
        ensures { result ≡ self.now.next }
    {
        self.slots.len() as u64 + 1
    }

    /// Puts a copy of an atom under the next label. E01 where there is no memory, and then nothing has changed.
    pub fn push_copy(&mut self, atom: &Atom<A>) -> Result<(), AllocError>
        requires { self.old.next ≤ greatest_label }
        ensures ok { OnOk result (self.new ≡ record { entries = self.old.entries ++ (self.old.next, atom.now) ∷ []; next = self.old.next + 1 }) }
        ensures unchanged { OnErr result (self.new ≡ self.old) }
    {
        make_room(&mut self.slots, &mut self.counts)?;
        reserve_slot(&mut self.held, self.free)?;
        let copied = atom.copy(*self.slots.allocator())?;
        // Where no slot is free, each has the atom of a label, so the number of the next is below NO_SLOT.
        let slot = fill_slot(&mut self.held, &mut self.free, copied);
        self.counts[(self.slots.len() + 1) / BLOCK] += 1;
        self.slots.push_reserved(slot);
        self.len += 1;
        Ok(())
    }

    /// Gives the next label to no atom. E01 where there is no memory, and then nothing has changed.
    pub fn skip(&mut self) -> Result<(), AllocError>
        requires { self.old.next ≤ greatest_label }
        ensures ok { OnOk result (self.new ≡ record { entries = self.old.entries; next = self.old.next + 1 }) }
        ensures unchanged { OnErr result (self.new ≡ self.old) }
    {
        make_room(&mut self.slots, &mut self.counts)?;
        self.slots.push_reserved(NO_SLOT);
        Ok(())
    }

    /// The atom under a label.
    #[inline(always)]
    pub fn get(&self, label: Label) -> Option<&Atom<A>>
        ensures { option_copied result ≡ atom_at self.now.entries label }
    {
        let Some(slot) = self.slots.get(index_of(label)) else {
            return None;
        };
        atom_of_slot(&self.held, *slot)
    }

    /// The atom under a label that is live.
    #[inline(always)]
    pub fn atom_of(&self, label: Label) -> &Atom<A>
        requires { (atom : Atom ℕ) × (atom_at self.now.entries label ≡ Some atom) }
        ensures { atom_at self.now.entries label ≡ Some result.now }
    {
        &self.held[self.slots[index_of(label)] as usize]
    }

    /// Takes the atom under a label out. Takes no memory.
    pub fn remove(&mut self, label: Label) -> Option<Atom<A>>
        ensures value { result ≡ atom_at self.old.entries label }
        ensures rest { self.new ≡ record { entries = drop_label label self.old.entries; next = self.old.next } }
    {
        let index = index_of(label);
        if self.slots.len() <= index {
            return None;
        }
        let slot = self.slots[index];
        if slot == NO_SLOT {
            return None;
        }
        let empty = Atom::new(*self.slots.allocator(), Name { number: self.free });
        let atom = mem::replace(&mut self.held[slot as usize], empty);
        self.free = slot;
        self.len -= 1;
        self.slots[index] = NO_SLOT;
        self.counts[(index + 1) / BLOCK] -= 1;
        Some(atom)
    }

    /// The atoms with their labels, which rise.
    pub fn iter(&self) -> Constraints<'_, A>
        ensures rest { result ≡ self.now.entries }
        ensures fits { length result ≤ greatest_label }
    {
        let (slots, label) = past_empty(&self.slots, &self.counts, 1);
        Constraints {
            held: &self.held,
            slots,
            counts: &self.counts,
            label,
        }
    }

    /// A copy of the atoms under the same labels.
    pub fn copy(&self, alloc: A) -> Result<Atoms<A>, AllocError>
        ensures { IfOk result (λ made. made ≡ self.now) }
    {
        let mut made = Atoms {
            held: Vec::with_capacity(alloc, self.len())?,
            free: NO_SLOT,
            len: 0,
            slots: Vec::with_capacity(alloc, self.slots.len())?,
            counts: Vec::with_capacity(alloc, self.counts.len())?,
        };
        for slot in &self.slots {
            match atom_of_slot(&self.held, *slot) {
                None => made.skip()?,
                Some(atom) => made.push_copy(atom)?,
            }
        }
        Ok(made)
    }
}

/// Constraints with their labels, which rise. Contracts see the list of those that are left.
#[derive(Drop)]
pub struct Constraints<'s, A: Allocator> {
    held: &'s [Atom<A>],
    /// The slots of the labels that are left.
    slots: &'s [u32],
    /// How many atoms each block has, also of the labels that have been passed.
    counts: &'s [u32],
    label: Label,
}

impl<'s, A: Allocator> Model for Constraints<'s, A> {
    ghost use Rattle.std.specs.Prelude.{◌+◌, ◌≤◌, length};
    ghost use Rattle.chr_value.specs.Stores.{Store};
    ghost use Rattle.chr_value.specs.Code.{value_codes};
    ghost use Rattle.chr_store.specs.Table.{entries_from, held_in};
    ghost use Rattle.chr_store.specs.Blocks.{AreEmptyAtNone};

    ghost Value = { Store };

    ghost coded = { Prim.hlevel value_codes };

    ghost view = { λ c. entries_from c.label (held_in c.held.now c.slots.now) };

    ghost invariant = { λ c. (c.label + length c.slots.now ≤ 4294967296) × AreEmptyAtNone c.label (held_in c.held.now c.slots.now) c.counts.now };
}

impl<'s, A: Allocator> Iterator for Constraints<'s, A> {
    type Item = (Label, &'s Atom<A>);

    ghost next_gives = { TakesFirst shown };

    ghost remaining = { item_count (λ left. left) };

    fn next(&mut self) -> Option<(Label, &'s Atom<A>)> {
        while let Some((slot, others)) = self.slots.split_first() {
            let label = self.label;
            let (slots, next) = past_empty(others, self.counts, label + 1);
            self.slots = slots;
            self.label = next;
            if let Some(atom) = atom_of_slot(self.held, *slot) {
                return Some((label, atom));
            }
        }
        None
    }
}
