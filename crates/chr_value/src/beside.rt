//! What lies beside an atom: its slots from the fourth on, and its compound values.
ghost use Rattle.std.specs.Prelude.{◌≡◌, ◌<◌, ◌++◌, ◌∷◌, [], Some, length, map, slice_get, IsSome, IfOk, OnOk, OnErr};
ghost use Rattle.chr_value.specs.Atoms.{ground_comp, said};
ghost use Rattle.chr_value.specs.Slots.{further_slots, comps_of, value_in, HasPlace};

use crate::slots::{Further, Slot};
use crate::value::{Comp, ValueRef};
use std::alloc::{AllocError, Allocator, Global};

/// The slots from the fourth on, and the compound values of all slots.
#[derive(Drop)]
pub(crate) struct Rest<A: Allocator> {
    slots: Further,
    comps: Vec<Comp<A>, A>,
}

// Each atom that has something beside it takes this much more.
const _: () = prove!(size_of::<Rest<Global>>() == 72);

/// What lies beside an atom. None takes no memory.
pub(crate) type Beside<A> = Option<Box<Rest<A>, A>>;

/// Makes room for what is to lie beside the atom. An `Err` is E01.
pub(crate) fn open<A: Allocator + Copy>(beside: &mut Beside<A>, alloc: A) -> Result<(), AllocError>
    ensures open { OnOk result (IsSome beside.new) }
    ensures slots { further_slots beside.new ≡ further_slots beside.old }
    ensures comps { comps_of beside.new ≡ comps_of beside.old }
{
    if beside.is_some() {
        return Ok(());
    }
    let rest = Rest {
        slots: Further::new(),
        comps: Vec::new(alloc),
    };
    *beside = Some(Box::new(alloc, rest)?);
    Ok(())
}

/// A slot, by its index among those that lie beside the atom.
#[inline(always)]
pub(crate) fn further_at<A: Allocator>(beside: &Beside<A>, index: usize) -> Slot
    requires { index < length (further_slots beside.now) }
    ensures { Some result ≡ slice_get (further_slots beside.now) index }
{
    let Some(rest) = beside else {
        unreachable!();
    };
    rest.slots.at(index)
}

/// Adds a slot after the others that lie beside the atom.
pub(crate) fn push_further<A: Allocator>(beside: &mut Beside<A>, slot: Slot)
    requires open { IsSome beside.old }
    requires room { length (further_slots beside.old) < 5 }
    ensures slots { further_slots beside.new ≡ further_slots beside.old ++ slot ∷ [] }
    ensures comps { comps_of beside.new ≡ comps_of beside.old }
{
    let Some(rest) = beside else {
        unreachable!();
    };
    rest.slots.push(slot);
}

/// How many compound values there are.
pub(crate) fn count_of<A: Allocator>(beside: &Beside<A>) -> usize
    ensures { result ≡ length (comps_of beside.now) }
{
    match beside {
        None => 0,
        Some(rest) => rest.comps.len(),
    }
}

/// Adds a compound value after the others. An `Err` is E01, and nothing has changed.
pub(crate) fn push_comp<A: Allocator + Copy>(
    beside: &mut Beside<A>,
    alloc: A,
    comp: Comp<A>,
) -> Result<(), AllocError>
    ensures open { OnOk result (IsSome beside.new) }
    ensures ok { OnOk result (comps_of beside.new ≡ comps_of beside.old ++ comp ∷ []) }
    ensures err { OnErr result (comps_of beside.new ≡ comps_of beside.old) }
    ensures slots { further_slots beside.new ≡ further_slots beside.old }
{
    open(beside, alloc)?;
    let Some(rest) = beside else {
        unreachable!();
    };
    rest.comps.reserve(1)?;
    rest.comps.push_reserved(comp);
    Ok(())
}

/// A copy of what lies beside an atom. An `Err` is E01.
pub(crate) fn copy_beside<A: Allocator + Copy>(
    beside: &Beside<A>,
    alloc: A,
) -> Result<Beside<A>, AllocError>
    ensures slots { IfOk result (λ made. further_slots made ≡ further_slots beside.now) }
    ensures comps { IfOk result (λ made. map ground_comp (comps_of made) ≡ map ground_comp (comps_of beside.now)) }
{
    let Some(rest) = beside else {
        return Ok(None);
    };
    let comps = copy_comps(&rest.comps, alloc)?;
    let slots = rest.slots;
    Ok(Some(Box::new(alloc, Rest { slots, comps })?))
}

/// Copies of compound values. An `Err` is E01.
fn copy_comps<A: Allocator + Copy>(
    comps: &Vec<Comp<A>, A>,
    alloc: A,
) -> Result<Vec<Comp<A>, A>, AllocError>
    ensures { IfOk result (λ made. map ground_comp made.items ≡ map ground_comp comps.now.items) }
{
    let mut copies = Vec::with_capacity(alloc, comps.len())?;
    for comp in comps.iter() {
        copies.push_reserved(comp.copy(alloc)?);
    }
    Ok(copies)
}

/// What a slot says, beside these compound values.
#[inline(always)]
pub(crate) fn value_at<A: Allocator>(slot: Slot, beside: &Beside<A>) -> ValueRef<'_, A>
    requires { HasPlace (comps_of beside.now) slot }
    ensures { said result ≡ value_in (comps_of beside.now) slot }
{
    match slot {
        Slot::Int(n) => ValueRef::Int(n),
        Slot::Sym(name) => ValueRef::Sym(name),
        Slot::Comp(place) => {
            let Some(rest) = beside else {
                unreachable!();
            };
            ValueRef::Comp(&rest.comps[usize::from(place)])
        }
    }
}
