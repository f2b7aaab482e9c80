//! How a session waits until no ticket is open.
ghost use Rattle.std.specs.Prelude.{◌≡◌, ◌+◌, ◌≤◌};
ghost use Rattle.chr_session.specs.Commands.{reply_of};
ghost use Rattle.chr_shared_desk.specs.SharedReplies.{WaitReplies};

use crate::watching::Watch;
use chr_seats::PostLedger;
use chr_session::Reply;
use std::alloc::Allocator;
use std::sync::Wait;
use std::sync::ledger::Ledger;

/// What a session that waits asks between two looks.
pub trait Patience {
    /// Whether it goes on.
    fn goes_on(&mut self) -> bool;
}

/// A patience without end.
#[derive(Clone, Copy, Debug)]
pub(crate) struct Endless;

impl Patience for Endless {
    fn goes_on(&mut self) -> bool {
        true
    }
}

/// Looks at most `most + 1` times whether a ticket is open, until none is, or no worker is awake, or the patience ends.
/// Between two looks it sleeps while a worker is awake.
pub(crate) fn wait<R: Wait, L1: PostLedger, L2: Ledger, A: Allocator + Copy, P: Patience>(
    watch: &mut Watch<'_, R, L1, L2, A>,
    most: u32,
    patience: &mut P,
) -> Reply<A>
    requires { watch.old.1 ≡ 0 }
    ensures replies { WaitReplies watch.old.0 (reply_of result) }
    ensures looks { watch.new.1 ≤ most + 1 }
{
    for _look in 0..most {
        let reply = watch.look();
        if !matches!(reply, Reply::Open) || !patience.goes_on() {
            return reply;
        }
        if !watch.sleep() {
            break;
        }
    }
    watch.look()
}
