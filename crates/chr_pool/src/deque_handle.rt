//! A handle on a deque, by which a hand steals.
ghost use Rattle.std.specs.Prelude.{◌≡◌, ◌<◌, []};
ghost use Rattle.crossbeam_deque.specs.Handles.{view, IsPassOf, stealer_deque, stealer_flavor};

use crate::account::{Account, Numbered, TakenOnce, Took};
use crossbeam_deque::{Pass, Steal, Stealer};
use std::alloc::Global;
use std::sync::Wait;

/// A stealer of one deque, with the pass whose account has what was stolen by it.
#[derive(Drop)]
pub struct DequeHandle<T: Numbered> {
    pub(crate) stealer: Stealer<T, Global, Account, TakenOnce>,
    pub(crate) pass: Pass<T, Account>,
    ghost tied: { IsPassOf (stealer_deque stealer) pass },
    ghost fifo: { stealer_flavor stealer ≡ 0 },
    ghost some_part: { 0 < (view pass).parts },
    ghost only_taken: { (view pass).pushed ≡ [] },
}

impl<T: Numbered> DequeHandle<T> {
    ghost use Rattle.std.specs.Prelude.{MatchOption};
    ghost use Rattle.crossbeam_deque.specs.Steals.{MatchSteal};
    ghost use Rattle.chr_pool.specs.Accounts.{took};
    ghost use Rattle.chr_pool.specs.Handles.{handle_shape, handle_account};

    // Takes the task at the front, or says that another took it first.
    #[tactic(auto, using(crate::proofs::Rules::takes))]
    fn steal(&mut self) -> Steal<T>
        ensures same { handle_shape self.new ≡ handle_shape self.old }
        ensures rule { MatchSteal result (handle_account self.new ≡ handle_account self.old) (handle_account self.new ≡ handle_account self.old) (λ x. handle_account self.new ≡ took (T.number x) (handle_account self.old)) }
    {
        self.stealer.steal_as::<Took>(&mut self.pass)
    }

    /// Takes the task at the front, trying again where another took it first.
    pub(crate) fn take<R: Wait>(&mut self, rt: &R) -> Option<T>
        ensures same { handle_shape self.new ≡ handle_shape self.old }
        ensures rule { MatchOption result (handle_account self.new ≡ handle_account self.old) (λ x. handle_account self.new ≡ took (T.number x) (handle_account self.old)) }
    {
        for _ in rt.forever() {
            match self.steal() {
                Steal::Success(task) => return Some(task),
                Steal::Empty => return None,
                Steal::Retry => {}
            }
        }
        unreachable!()
    }
}
