//! Replies are written whole, or a beginning of them where the sink fails.
ghost use Rattle.std.specs.Prelude.{◌≡◌, ◌+◌, ◌≤◌, ◌++◌, length, OnOk, OnErr, vec_capacity, vec_len, codes, decimal};
ghost use Rattle.chr_session.specs.Devices.{HasCause};
ghost use Rattle.chr_session.specs.Commands.{answer_of, reply_of};
ghost use Rattle.chr_session.specs.Replies.{Wrote, Began, kind_text, fault_text, place_of, head_of, details_of, lines_of, reply_bytes, answer_bytes};

use crate::desk::{Fault, Reply};
use crate::devices::{Failed, Sink};
use crate::room::append;
use chr_lex::fault::Kind;
use itoa::Buffer as Digits;
use std::alloc::Allocator;

/// Writes all of these bytes.
#[tactic(auto, using(crate::proofs::Written::wrote_piece))]
fn write_all<W: Sink>(bytes: &[u8], sink: &mut W) -> Result<(), Failed>
    ensures whole { OnOk result (Wrote (W.taken sink.old) (W.taken sink.new) bytes.now) }
    ensures part { OnErr result (Began (W.taken sink.old) (W.taken sink.new) bytes.now) }
    ensures cause { HasCause (W.failures sink.old) (W.failures sink.new) result }
{
    let mut at = 0;
    while at < bytes.len() {
        let n = sink.write(&bytes[at..])?;
        at += n;
    }
    Ok(())
}

/// Adds a number in decimal.
fn append_number<A: Allocator>(out: &mut Vec<u8, A>, n: u64)
    requires { vec_len out.old + 40 ≤ vec_capacity out.old }
    ensures items { out.new.items ≡ out.old.items ++ decimal n }
    ensures len { vec_len out.new ≤ vec_len out.old + 40 }
    ensures room { vec_capacity out.old ≤ vec_capacity out.new }
{
    let mut digits = Digits::new();
    append(out, digits.format(n).as_bytes());
}

/// Number and name of a fault of reading.
fn kind_text(kind: Kind) -> &'static [u8]
    ensures text { result.now ≡ kind_text kind }
    ensures short { length result.now ≤ 40 }
{
    match kind {
        Kind::TooLong => b"E09 TooLong",
        Kind::BadByte => b"E03 BadByte",
        Kind::Syntax => b"E04 Syntax",
        Kind::Propagation => b"E05 Propagation",
        Kind::NumberRange => b"E06 NumberRange",
        Kind::TooMany => b"E07 TooMany",
        Kind::Binding => b"E08 Binding",
        Kind::NamesFull => b"E02 NamesFull",
    }
}

/// Number and name of a fault; of a fault of reading, those of its kind.
fn fault_name(fault: Fault) -> &'static [u8]
    ensures text { fault_text fault ≡ result.now ++ place_of fault }
    ensures short { length result.now ≤ 40 }
{
    match fault {
        Fault::NoMemory => b"E01 NoMemory",
        Fault::Reading(fault) => kind_text(fault.kind),
        Fault::AlreadyLoaded => b"E20 AlreadyLoaded",
        Fault::UnknownCommand => b"E21 UnknownCommand",
        Fault::LineTooLong => b"E22 LineTooLong",
        Fault::Cut => b"E23 Cut",
        Fault::NoProgram => b"E24 NoProgram",
        Fault::WrongSeat => b"E26 WrongSeat",
    }
}

/// Adds the text of a fault.
fn append_fault<A: Allocator>(out: &mut Vec<u8, A>, fault: Fault)
    requires { vec_len out.old + 100 ≤ vec_capacity out.old }
    ensures items { out.new.items ≡ out.old.items ++ fault_text fault }
    ensures len { vec_len out.new ≤ vec_len out.old + 90 }
    ensures room { vec_capacity out.old ≤ vec_capacity out.new }
{
    append(out, fault_name(fault));
    if let Fault::Reading(fault) = fault {
        append(out, b" ");
        append_number(out, u64::from(fault.line));
    }
}

/// The word with which a reply's first line begins, and the blank after it where more follows.
fn first_word<A: Allocator>(reply: &Reply<A>) -> &'static [u8]
    ensures word { head_of (reply_of reply.now) ≡ result.now ++ (details_of (reply_of reply.now) ++ codes "\n") }
    ensures short { length result.now ≤ 40 }
{
    match reply {
        Reply::Loaded(_) => b"loaded ",
        Reply::Posted(_, _) => b"posted ",
        Reply::Quiet => b"quiet",
        Reply::Open => b"open",
        Reply::Store(_, _) => b"store ",
        Reply::Log(_, _) => b"log ",
        Reply::Fault(_) => b"fault ",
        Reply::Bye => b"bye",
    }
}

/// Adds what a reply's first line has after its word.
fn append_details<A: Allocator>(out: &mut Vec<u8, A>, reply: &Reply<A>)
    requires { vec_len out.old + 100 ≤ vec_capacity out.old }
    ensures items { out.new.items ≡ out.old.items ++ details_of (reply_of reply.now) }
    ensures len { vec_len out.new ≤ vec_len out.old + 90 }
    ensures room { vec_capacity out.old ≤ vec_capacity out.new }
{
    match reply {
        Reply::Loaded(count) | Reply::Store(count, _) | Reply::Log(count, _) => {
            append_number(out, *count as u64);
        }
        Reply::Posted(first, count) => {
            append_number(out, *first);
            append(out, b" ");
            append_number(out, *count as u64);
        }
        Reply::Fault(fault) => append_fault(out, *fault),
        Reply::Quiet | Reply::Open | Reply::Bye => {}
    }
}

/// Writes a reply's first line into `head`.
#[tactic(auto, using(crate::proofs::Written::line_made))]
fn render<A: Allocator>(reply: &Reply<A>, head: &mut Vec<u8, A>)
    requires { 65536 ≤ vec_capacity head.old }
    ensures items { head.new.items ≡ head_of (reply_of reply.now) }
    ensures room { 65536 ≤ vec_capacity head.new }
{
    head.clear();
    append(head, first_word(reply));
    append_details(head, reply);
    append(head, b"\n");
}

/// The lines that follow a reply's first.
fn lines_of<A: Allocator>(reply: &Reply<A>) -> &[u8]
    ensures { result.now ≡ lines_of (reply_of reply.now) }
{
    match reply {
        Reply::Store(_, lines) | Reply::Log(_, lines) => lines,
        _ => &[],
    }
}

/// Writes a reply's bytes; its first line is made in `head`. An `Err` is E25: the sink failed, and took a beginning.
#[tactic(auto, using(crate::proofs::Causes::caused_later, crate::proofs::Written::wrote_both, crate::proofs::Written::began_first, crate::proofs::Written::began_second))]
pub fn write_reply<W: Sink, A: Allocator>(
    reply: &Reply<A>,
    head: &mut Vec<u8, A>,
    sink: &mut W,
) -> Result<(), Failed>
    requires { 65536 ≤ vec_capacity head.old }
    ensures whole { OnOk result (Wrote (W.taken sink.old) (W.taken sink.new) (reply_bytes (reply_of reply.now))) }
    ensures part { OnErr result (Began (W.taken sink.old) (W.taken sink.new) (reply_bytes (reply_of reply.now))) }
    ensures room { 65536 ≤ vec_capacity head.new }
    ensures cause { HasCause (W.failures sink.old) (W.failures sink.new) result }
{
    render(reply, head);
    write_all(head, sink)?;
    write_all(lines_of(reply), sink)
}

/// Writes a reply's bytes where there is one. An `Err` is E25: the sink failed, and took a beginning.
pub fn write_answer<W: Sink, A: Allocator>(
    answer: Option<Reply<A>>,
    head: &mut Vec<u8, A>,
    sink: &mut W,
) -> Result<(), Failed>
    requires { 65536 ≤ vec_capacity head.old }
    ensures whole { OnOk result (Wrote (W.taken sink.old) (W.taken sink.new) (answer_bytes (answer_of answer))) }
    ensures part { OnErr result (Began (W.taken sink.old) (W.taken sink.new) (answer_bytes (answer_of answer))) }
    ensures room { 65536 ≤ vec_capacity head.new }
    ensures cause { HasCause (W.failures sink.old) (W.failures sink.new) result }
{
    match &answer {
        Some(reply) => write_reply(reply, head, sink),
        None => Ok(()),
    }
}
