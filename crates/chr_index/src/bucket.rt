//! The labels of one key, rising.
ghost use Rattle.std.specs.Prelude.{◌≡◌, ℕ, false, ◌+◌, ◌<◌, ◌≤◌, ◌++◌, ◌∷◌, ◌↔◌, [], IfOk, IfSome, OnOk, OnErr, IsTrue, length, take, drop, MatchOption, slice_get};
ghost use Rattle.std.specs.List.{AllByRecursion};
ghost use Rattle.chr_value.specs.Bounds.{greatest_label};
ghost use Rattle.chr_index.specs.Buckets.{jump_of, jump_at, JumpsAreDead, AreAlike, drop_number, IsLeastBetween, live_labels, live_slots, SlotsRise, IsLiveOrNone, HasLabelAt};

use std::alloc::{AllocError, Allocator};
use std::marker::Model;

/// From this on, the `run` of a slot tells how far before it a run of dead slots begins.
const BACK: u32 = 2_147_483_648;

/// The most dead slots that the `run` of a slot tells of.
const MOST_JUMP: u32 = BACK - 1;

/// A label that a bucket has, or had.
#[derive(Clone, Copy, Drop)]
pub struct Slot {
    pub label: u32,
    /// 0 while the bucket has the label. Then, below `BACK`, this many slots from this one on are dead: all of a run of
    /// dead slots in its first one, or `MOST_JUMP` where it has more, and perhaps fewer in the others. In the last slot
    /// of a run of two to `MOST_JUMP` slots it is `BACK` plus how far before it the run begins.
    pub run: u32,
}

impl Slot {
    /// How many slots from this one on are dead, as its `run` tells.
    #[inline(always)]
    fn jump(self) -> u32
        ensures is { result ≡ jump_of self }
        ensures short { result ≤ MOST_JUMP }
    {
        if self.run < BACK { self.run } else { 1 }
    }
}

/// Labels that rise. One that is taken out leaves a dead slot, and once more than half are dead they go, in place. A
/// search jumps over a run of dead slots. Contracts see the list of the live labels.
#[derive(Drop)]
pub struct Bucket<A: Allocator> {
    slots: Vec<Slot, A>,
    first: usize,
    dead: usize,
}

impl<A: Allocator> Model for Bucket<A> {
    ghost use Rattle.std.specs.Prelude.{ℕ, List};
    ghost use Rattle.chr_index.specs.Buckets.{live_labels, IsBucket};

    ghost Value = { List ℕ };

    ghost view = { λ b. live_labels b.slots.items };

    ghost invariant = { λ b. IsBucket b.slots.items b.first };
}

/// The place of the first slot whose label is above a label.
fn place_above(slots: &[Slot], label: u64) -> usize
    requires { SlotsRise slots.now }
    ensures within { result ≤ length slots.now }
    ensures front { AllByRecursion (λ s. s.label ≤ label) (take result slots.now) }
    ensures later { AllByRecursion (λ s. label < s.label) (drop result slots.now) }
{
    slots.partition_point(|slot| u64::from(slot.label) <= label)
}

/// The place of the first slot whose label is above a label. It takes no search where the slot at `near` has that label,
/// or is the first and above it.
#[inline(always)]
fn place_near(slots: &[Slot], near: usize, label: u64) -> usize
    requires { SlotsRise slots.now }
    ensures within { result ≤ length slots.now }
    ensures front { AllByRecursion (λ s. s.label ≤ label) (take result slots.now) }
    ensures later { AllByRecursion (λ s. label < s.label) (drop result slots.now) }
{
    let Some(slot) = slots.get(near) else {
        return place_above(slots, label);
    };
    let found = u64::from(slot.label);
    if found == label {
        return near + 1;
    }
    if near == 0 && label < found {
        return 0;
    }
    place_above(slots, label)
}

/// The place of a label's slot. It takes no search where that is at `near`.
fn find(slots: &[Slot], near: usize, label: u64) -> Option<usize>
    requires { SlotsRise slots.now }
    ensures { MatchOption result (AllByRecursion (λ s. s.label ≡ label → ⊥) slots.now) (λ i. HasLabelAt slots.now i label) }
{
    let above = place_near(slots, near, label);
    if above == 0 {
        return None;
    }
    if u64::from(slots[above - 1].label) != label {
        return None;
    }
    Some(above - 1)
}

/// The place of the first live slot from a place on, or the length.
#[inline(always)]
fn first_live(slots: &[Slot], from: usize) -> usize
    requires within { from ≤ length slots.now }
    requires jumps { JumpsAreDead slots.now }
    ensures within { result ≤ length slots.now }
    ensures rest { live_labels (drop from slots.now) ≡ live_labels (drop result slots.now) }
    ensures live { IsLiveOrNone (slice_get slots.now result) }
{
    let mut place = from;
    while place < slots.len() && slots[place].run != 0 {
        place += slots[place].jump() as usize;
    }
    place
}

/// The jump of a slot, 0 where there is none.
fn jump_at(slots: &[Slot], place: usize) -> u32
    ensures is { result ≡ jump_at slots.now place }
    ensures short { result ≤ MOST_JUMP }
{
    match slots.get(place) {
        None => 0,
        Some(slot) => slot.jump(),
    }
}

/// Where the dead slots begin that end before a place.
fn run_before(slots: &[Slot], place: usize) -> Option<usize>
    requires { place < length slots.now }
    ensures before { IfSome result (λ start. start < place) }
    ensures run { IfSome result (λ start. place ≡ start + jump_at slots.now start) }
{
    if place == 0 {
        return None;
    }
    let last = place - 1;
    let back = slots[last].run.saturating_sub(BACK);
    let start = last.saturating_sub(back as usize);
    if jump_at(slots, start) as usize != place - start {
        return None;
    }
    Some(start)
}

/// Notes in the last slot of a run of two or more where the run begins.
fn note_begin(slots: &mut [Slot], start: usize)
    requires within { start < length slots.old }
    requires jumps { JumpsAreDead slots.old }
    ensures same { AreAlike slots.old slots.new }
    ensures jumps { JumpsAreDead slots.new }
{
    let jump = jump_at(slots, start);
    if jump < 2 {
        return;
    }
    let last = start + jump as usize - 1;
    slots[last] = Slot {
        label: slots[last].label,
        run: BACK + (jump - 1),
    };
}

/// Makes one run of the dead slots before a place and those from it on.
fn join_runs(slots: &mut [Slot], place: usize)
    requires within { place < length slots.old }
    requires jumps { JumpsAreDead slots.old }
    ensures same { AreAlike slots.old slots.new }
    ensures jumps { JumpsAreDead slots.new }
{
    let Some(start) = run_before(slots, place) else {
        note_begin(slots, place);
        return;
    };
    let both = jump_at(slots, start) + jump_at(slots, place);
    slots[start] = Slot {
        label: slots[start].label,
        run: both.min(MOST_JUMP),
    };
    note_begin(slots, start);
}

/// Marks a slot as dead.
fn mark_dead(slots: &mut [Slot], place: usize)
    requires rising { SlotsRise slots.old }
    requires jumps { JumpsAreDead slots.old }
    requires within { place < length slots.old }
    ensures live_labels { (label : ℕ) → HasLabelAt slots.old place label → live_labels slots.new ≡ drop_number label (live_labels slots.old) }
    ensures rising { SlotsRise slots.new }
    ensures jumps { JumpsAreDead slots.new }
    ensures count { length slots.new ≡ length slots.old }
    ensures front { (f : ℕ) → live_labels (take f slots.old) ≡ [] → live_labels (take f slots.new) ≡ [] }
{
    let jump = jump_at(slots, place + 1) + 1;
    slots[place] = Slot {
        label: slots[place].label,
        run: jump.min(MOST_JUMP),
    };
    join_runs(slots, place);
}

/// Takes the dead slots out.
fn compact<A: Allocator>(slots: &mut Vec<Slot, A>)
    ensures { slots.new.items ≡ live_slots slots.old.items }
{
    slots.retain(|slot| slot.run == 0);
}

/// Whether each slot is below a label.
fn is_below(slots: &[Slot], label: u64) -> bool
    requires { SlotsRise slots.now }
    ensures { IsTrue result → AllByRecursion (λ s. s.label < label) slots.now }
{
    match slots.last() {
        None => true,
        Some(last) => u64::from(last.label) < label,
    }
}

/// The labels of a bucket, to go through. Contracts see the list of them.
#[derive(Drop)]
pub struct Run<'s> {
    slots: &'s [Slot],
    /// Where the label found last stands.
    near: usize,
}

impl<'s> Model for Run<'s> {
    ghost use Rattle.std.specs.Prelude.{ℕ, List};
    ghost use Rattle.chr_index.specs.Buckets.{live_labels, IsBucket};

    ghost Value = { List ℕ };

    ghost view = { λ r. live_labels r.slots.now };

    ghost invariant = { λ r. IsBucket r.slots.now 0 };
}

impl<'s> Run<'s> {
    /// No labels.
    pub fn none() -> Run<'s>
        ensures { result ≡ [] }
    {
        Run {
            slots: &[],
            near: 0,
        }
    }

    /// An upper bound on how many labels there are.
    pub fn most(&self) -> usize
        ensures { length self.now ≤ result }
    {
        self.slots.len()
    }

    /// The least label over `after` and under `below`. It takes no search where `after` is the one found last.
    #[inline(always)]
    pub fn next_at(&mut self, after: u64, below: u64) -> Option<u64>
        ensures least { IsLeastBetween self.old after below result }
        ensures same { self.new ≡ self.old }
    {
        let from = place_near(self.slots, self.near, after);
        let place = first_live(self.slots, from);
        let Some(slot) = self.slots.get(place) else {
            return None;
        };
        let label = u64::from(slot.label);
        if label < below {
            self.near = place;
            Some(label)
        } else {
            None
        }
    }
}

impl<A: Allocator + Copy> Bucket<A> {
    /// No labels. Takes no memory.
    pub fn new(alloc: A) -> Bucket<A>
        ensures { result ≡ [] }
    {
        Bucket {
            slots: Vec::new(alloc),
            first: 0,
            dead: 0,
        }
    }

    /// Whether there is no slot, dead or live.
    pub fn has_no_slots(&self) -> bool
        ensures { IsTrue result → self.now ≡ [] }
    {
        self.slots.is_empty()
    }

    /// One label more, above the others. E01 where the bucket could not grow, which is then unchanged.
    pub fn push(&mut self, label: u64) -> Result<(), AllocError>
        requires below { AllByRecursion (λ m. m < label) self.old }
        requires fits { label ≤ greatest_label }
        ensures ok { OnOk result (self.new ≡ self.old ++ label ∷ []) }
        ensures unchanged { OnErr result (self.new ≡ self.old) }
    {
        if !is_below(&self.slots, label) {
            compact(&mut self.slots);
            self.first = 0;
            self.dead = 0;
        }
        let Ok(()) = self.slots.push(Slot {
            label: label as u32,
            run: 0,
        })
        else {
            return Err(AllocError);
        };
        Ok(())
    }

    /// Takes the last slot out, where it is live and has a label. Tells whether it was so.
    fn pop(&mut self, label: u64) -> bool
        ensures gone { IsTrue result → self.new ≡ drop_number label self.old }
        ensures kept { result ≡ false → self.new ≡ self.old }
    {
        let Some(last) = self.slots.last() else {
            return false;
        };
        if u64::from(last.label) != label || last.run != 0 {
            return false;
        }
        let _ = self.slots.pop();
        true
    }

    /// Marks the slot of a label as dead, where there is one.
    fn strike(&mut self, label: u64)
        ensures { self.new ≡ drop_number label self.old }
    {
        let Some(place) = find(&self.slots, self.first, label) else {
            return;
        };
        mark_dead(&mut self.slots, place);
        self.dead = self.dead.saturating_add(1);
    }

    /// Takes the dead slots out once they are more than half, and else goes on to the first that lives.
    fn tidy(&mut self)
        ensures { self.new ≡ self.old }
    {
        if self.slots.len() / 2 < self.dead {
            compact(&mut self.slots);
            self.first = 0;
            self.dead = 0;
        } else {
            self.first = first_live(&self.slots, self.first);
        }
    }

    /// Takes a label out, where it is there. Takes no memory, and no search where it is the last or the first.
    pub fn remove(&mut self, label: u64)
        ensures { self.new ≡ drop_number label self.old }
    {
        if !self.pop(label) {
            self.strike(label);
        }
        self.tidy();
    }

    /// The labels, to go through.
    #[inline(always)]
    pub fn run(&self) -> Run<'_>
        ensures { result ≡ self.now }
    {
        Run {
            slots: &self.slots[self.first..],
            near: 0,
        }
    }
}
