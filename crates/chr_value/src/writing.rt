//! The text of values and atoms. Each call writes after the bytes that are there. An `Err` is E01, and those bytes stay.
ghost use Rattle.std.specs.Prelude.{◌≡◌, ◌++◌, ◌∷◌, [], length, take, OnOk, OnErr};
ghost use Rattle.std.specs.Fmt.{decimal, signed_decimal};
ghost use Rattle.chr_value.specs.Atoms.{ground_comp, said, renamed, text_of, by_texts};
ghost use Rattle.chr_value.specs.Spelling.{mark_before, mark_behind, spell_term, spell};

use crate::atom::Atom;
use crate::names::{Name, Names};
use crate::value::{Comp, ValueRef};
use itoa::Buffer;
use std::alloc::{AllocError, Allocator};

/// A number in decimal, without leading zeros. After an `Err` the bytes are as before.
pub fn put_number<C: Allocator>(out: &mut Vec<u8, C>, n: u64) -> Result<(), AllocError>
    ensures writes { OnOk result (out.new.items ≡ out.old.items ++ decimal n) }
    ensures unchanged { OnErr result (out.new.items ≡ out.old.items) }
{
    let mut buffer = Buffer::new();
    out.extend_from_slice(buffer.format(n).as_bytes())
}

/// A number in decimal, with `-` in front where it is below zero.
fn put_int<C: Allocator>(out: &mut Vec<u8, C>, n: i64) -> Result<(), AllocError>
    ensures writes { OnOk result (out.new.items ≡ out.old.items ++ signed_decimal n) }
    ensures keeps { take (length out.old.items) out.new.items ≡ out.old.items }
{
    let mut buffer = Buffer::new();
    out.extend_from_slice(buffer.format(n).as_bytes())
}

/// A name's text; nothing for a number outside the table.
fn put_name<A: Allocator + Copy, C: Allocator>(
    out: &mut Vec<u8, C>,
    names: &Names<A>,
    name: Name,
) -> Result<(), AllocError>
    ensures writes { OnOk result (out.new.items ≡ out.old.items ++ text_of names.now name.number) }
    ensures keeps { take (length out.old.items) out.new.items ≡ out.old.items }
{
    match names.text(name) {
        Some(text) => out.extend_from_slice(text.as_bytes()),
        None => Ok(()),
    }
}

/// What stands before the argument at an index: `(` before the first, and `,` before each further one.
fn put_before<C: Allocator>(out: &mut Vec<u8, C>, index: usize) -> Result<(), AllocError>
    ensures writes { OnOk result (out.new.items ≡ out.old.items ++ mark_before index ∷ []) }
    ensures keeps { take (length out.old.items) out.new.items ≡ out.old.items }
{
    out.push(if index == 0 { b'(' } else { b',' })?;
    Ok(())
}

/// What stands behind the arguments: `)`, and nothing where there are none.
fn put_behind<C: Allocator>(out: &mut Vec<u8, C>, count: usize) -> Result<(), AllocError>
    ensures writes { OnOk result (out.new.items ≡ out.old.items ++ mark_behind count) }
    ensures keeps { take (length out.old.items) out.new.items ≡ out.old.items }
{
    if count > 0 {
        out.push(b')')?;
    }
    Ok(())
}

#[cycle(put)]
fn put_comp<A: Allocator + Copy, C: Allocator>(
    out: &mut Vec<u8, C>,
    names: &Names<A>,
    comp: &Comp<A>,
) -> Result<(), AllocError>
    ensures writes { OnOk result (out.new.items ≡ out.old.items ++ spell_term (renamed (text_of names.now) (ground_comp comp.now))) }
    ensures keeps { take (length out.old.items) out.new.items ≡ out.old.items }
{
    put_name(out, names, comp.functor)?;
    for (i, value) in comp.args.iter().enumerate() {
        put_before(out, i)?;
        write_value(out, names, &value.as_ref())?;
    }
    put_behind(out, comp.args.len())
}

/// The bytes of a value: a number in decimal, with `-` in front where it is below zero; a symbol's text; or a functor's text
/// with the arguments between `(` and `)`, by `,` without blanks. An `Err` may leave part of them after the bytes that were
/// there.
#[cycle(put)]
pub fn write_value<A: Allocator + Copy, C: Allocator>(
    out: &mut Vec<u8, C>,
    names: &Names<A>,
    value: &ValueRef<'_, A>,
) -> Result<(), AllocError>
    ensures writes { OnOk result (out.new.items ≡ out.old.items ++ spell_term (renamed (text_of names.now) (said value.now))) }
    ensures keeps { take (length out.old.items) out.new.items ≡ out.old.items }
{
    match value {
        ValueRef::Int(n) => put_int(out, *n),
        ValueRef::Sym(name) => put_name(out, names, *name),
        ValueRef::Comp(comp) => put_comp(out, names, comp),
    }
}

/// The bytes of an atom: its name's text, and where it has arguments, these between `(` and `)`, by `,` without blanks. An
/// `Err` may leave part of them after the bytes that were there.
pub fn write_atom<A: Allocator + Copy, C: Allocator>(
    out: &mut Vec<u8, C>,
    names: &Names<A>,
    atom: &Atom<A>,
) -> Result<(), AllocError>
    ensures writes { OnOk result (out.new.items ≡ out.old.items ++ spell (by_texts names.now atom.now)) }
    ensures keeps { take (length out.old.items) out.new.items ≡ out.old.items }
{
    put_name(out, names, atom.name())?;
    let count = atom.arity();
    for i in 0..count {
        put_before(out, i)?;
        write_value(out, names, &atom.arg_at(i))?;
    }
    put_behind(out, count)
}
