//! Commands, replies, and what carries commands out.
ghost use Rattle.chr_session.specs.Commands.{Command as PlainCommand, Reply as PlainReply, command_of, reply_of};

use chr_lex::fault::ReadFault;
use std::alloc::Allocator;

/// A right command.
#[derive(Drop)]
pub enum Command<'a> {
    /// A text of rules, at most 65,536 bytes.
    Load(&'a [u8]),
    /// A text of posts.
    Post(&'a [u8]),
    /// Wait until no ticket is open, for so long at most: so many calls, or so many looks at the book.
    Wait(u32),
    /// The lines of the store.
    Store,
    /// The lines of the log, from this entry on, counted from 1.
    Log(u32),
}

/// Why a command was not carried out.
#[derive(Clone, Copy, Debug, PartialEq, Eq)]
pub enum Fault {
    /// E01: a growth was refused.
    NoMemory,
    /// E02 to E09: a fault of a text, with its line.
    Reading(ReadFault),
    /// E20: a program stands already.
    AlreadyLoaded,
    /// E21: no such command, or its number is missing or outside, or more follows it.
    UnknownCommand,
    /// E22: a line of more than 4,096 bytes without its end.
    LineTooLong,
    /// E23: the input ended inside a command.
    Cut,
    /// E24: no program stands.
    NoProgram,
    /// E26: the counts of a shared desk's seat are not those of its lock.
    WrongSeat,
}

/// What a session replies to a command.
#[derive(Drop)]
pub enum Reply<A: Allocator> {
    /// How many rules were loaded.
    Loaded(usize),
    /// The first ticket of what was posted, and how many.
    Posted(u64, usize),
    /// No ticket is open.
    Quiet,
    /// A ticket is open.
    Open,
    /// How many constraints the store has, and their lines.
    Store(usize, Vec<u8, A>),
    /// How many entries of the log are shown, and their lines.
    Log(usize, Vec<u8, A>),
    /// The command was not carried out.
    Fault(Fault),
    /// The session ends.
    Bye,
}

/// What carries out the right commands of a session.
pub trait Desk<A: Allocator> {
    /// From a state a command may have this reply, and leave this state.
    ghost step: { Self → PlainCommand → PlainReply → Self → Type 0 };

    /// Carries out a command.
    fn ask(&mut self, command: Command<'_>) -> Reply<A>
        ensures { step self.old (command_of command.entry) (reply_of result) self.new };
}
