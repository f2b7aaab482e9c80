//! What a worker asks of its surroundings.
ghost use Rattle.std.specs.Prelude.{◌≡◌, ◌↔◌, IsTrue};
ghost use Rattle.chr_crew.specs.Stops.{turns_taken, stop_after, IsOver};

/// What a worker calls while it doesn't have the lock.
pub trait Gate {
    /// Comes before each judgement of a trial of this ticket's goal.
    fn before_judging(&self, ticket: u64);
}

/// A gate that lets all pass.
#[derive(Clone, Copy, Debug)]
pub struct Open;

impl Gate for Open {
    fn before_judging(&self, _ticket: u64) {}
}

/// When a worker ends.
#[derive(Clone, Copy, Debug, PartialEq, Eq)]
pub enum Stop {
    /// After so many calls on goals, of which a claim with the first trials and a report with the call that follows are two
    /// each; before that where no worker finds a ticket to take, and after E01 and E10, but where it had looked first for
    /// what was posted or stray.
    Turns(u64),
    /// Once the crew is closed. After E01 and E10, with the same exception, and where there is no ticket to take, it sleeps until
    /// there may be one.
    Closed,
}

impl Stop {
    /// Takes so many turns, or fewer where no more are left; none where the crew is closed. Returns how many.
    pub(crate) fn spend(&mut self, turns: u64, closed: bool) -> u64
        ensures taken { result ≡ turns_taken self.old turns closed }
        ensures left { self.new ≡ stop_after self.old turns }
    {
        match self {
            Stop::Turns(left) => {
                let taken = turns.min(*left);
                *left -= taken;
                taken
            }
            Stop::Closed if closed => 0,
            Stop::Closed => turns,
        }
    }

    /// Returns whether a worker takes no ticket any more, of a crew that is closed or isn't.
    pub(crate) fn is_over(self, closed: bool) -> bool
        ensures { IsTrue result ↔ IsOver self closed }
    {
        match self {
            Stop::Turns(left) => left == 0,
            Stop::Closed => closed,
        }
    }
}
