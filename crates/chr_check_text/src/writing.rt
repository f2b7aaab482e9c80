//! The line that tells what a check answered.
ghost use Rattle.std.specs.Prelude.{◌≡◌, ◌++◌, OnOk, IfOk};
ghost use Rattle.chr_check_text.specs.Output.{place_word, kind_word, fault_line, answer_line};

use chr_check::Verdict;
use chr_check::fault::{CheckFault, Kind, Place};
use chr_value::put_number;
use std::alloc::{AllocError, Allocator};

/// The word for a text.
fn place_word(place: Place) -> &'static [u8]
    ensures { result.now ≡ place_word place }
{
    match place {
        Place::Log => b"log",
        Place::Store => b"store",
    }
}

/// The name of a kind of fault.
fn kind_word(kind: Kind) -> &'static [u8]
    ensures { result.now ≡ kind_word kind }
{
    match kind {
        Kind::BadTicket => b"BadTicket",
        Kind::BadLabel => b"BadLabel",
        Kind::NoInstance => b"NoInstance",
        Kind::StillApplies => b"StillApplies",
        Kind::StoreDiffers => b"StoreDiffers",
    }
}

/// A refusal's line, with its number, text, line and kind.
fn write_refusal<A: Allocator>(out: &mut Vec<u8, A>, fault: CheckFault) -> Result<(), AllocError>
    ensures { OnOk result (out.new.items ≡ out.old.items ++ fault_line fault) }
{
    out.extend_from_slice(b"refused E16 ")?;
    out.extend_from_slice(place_word(fault.place))?;
    out.push(b' ')?;
    put_number(out, fault.line)?;
    out.push(b' ')?;
    out.extend_from_slice(kind_word(fault.kind))?;
    out.push(b'\n')?;
    Ok(())
}

/// The line of an answer, ended by LF. An `Err` is E01.
pub fn written<A: Allocator + Copy>(
    alloc: A,
    answer: Result<Verdict, CheckFault>,
) -> Result<Vec<u8, A>, AllocError>
    ensures { IfOk result (λ out. out.items ≡ answer_line answer) }
{
    let mut out = Vec::new(alloc);
    match answer {
        Ok(Verdict::RunAndFinal) => out.extend_from_slice(b"run final\n")?,
        Ok(Verdict::Run) => out.extend_from_slice(b"run\n")?,
        Err(fault) => write_refusal(&mut out, fault)?,
    }
    Ok(out)
}
