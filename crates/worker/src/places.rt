// The places of a worker: which are free, which run, and whether a call can have given them.
ghost use Rattle.std.specs.Prelude.{◌≡◌, ◌<◌, not, position};
ghost use Rattle.worker.specs.Ring.{places};
ghost use Rattle.worker.specs.Place.{free_place, running, place_in_range, stored, worker_in_range, holds};
ghost use Rattle.worker.specs.Inner.{not_called, own_in_range};

use crate::{Called, Place, Reply, Worker};
use base::state;
use events::share::{SHARES, share_of};
use scan::Answer;
use scan::beginning::no_scan;

// As many as the event buffer has shares.
pub const PLACES: usize = SHARES;

// The most steps of a turn.
const LONGEST_TURN: usize = 4096;

// A free place holds always the same, so that a freed one is as a fresh one.
pub(crate) fn free_place() -> Place
    ensures { result ≡ free_place }
{
    Place {
        taken: false,
        at: 0,
        scan: no_scan(),
    }
}

// A page that neither asks nor has ended.
pub(crate) fn is_running(p: Place) -> bool
    ensures { result ≡ running p }
{
    p.taken && state::FIRST_RUNNING <= p.scan.tokenizer.state
}

// The scan is one that a call can have given, over a share of so many words.
#[tactic(auto, unfolding(crate::specs::Place::place_in_range))]
pub(crate) fn place_in_range(share: usize, p: Place) -> bool
    ensures { result ≡ place_in_range share p }
{
    p.scan.tokenizer.job.words == share && p.scan.in_range()
}

// The ranges of a worker's own numbers: the place last served, and the steps of a turn. A turn asks it of the two, so as not to copy the
// worker.
#[tactic(auto, unfolding(crate::specs::Inner::own_in_range))]
pub(crate) fn own_in_range(last: usize, q: usize) -> bool
    ensures { result ≡ own_in_range last q }
{
    last < PLACES && 1 <= q && q <= LONGEST_TURN
}

impl Worker {
    // Whether a call can have given this worker.
    #[tactic(auto, using(crate::proofs::Laws::range_of))]
    pub(crate) fn in_range(self) -> bool
        ensures { result ≡ worker_in_range self }
    {
        own_in_range(self.last, self.q)
    }

    // Whether there is a place i, with a page whose scan a call can have given. Only this place is looked at, so that a call costs the
    // same whatever the others hold.
    #[tactic(auto, using(base::proofs::Choice::picks, crate::proofs::Laws::holds_far, crate::proofs::Laws::holds_forged, crate::proofs::Laws::holds_by))]
    pub(crate) fn holds(self, i: usize) -> bool
        ensures { result ≡ holds i self }
    {
        if PLACES <= i || !self.in_range() {
            return false;
        }
        let p = self.places[i];
        p.taken && place_in_range(share_of(self.words), p)
    }

    // The lowest free place, if there is one.
    pub(crate) fn lowest(self) -> Option<usize>
        ensures { result ≡ position (λ p. not p.taken) self.places }
    {
        self.places.iter().position(|p| !p.taken)
    }

    // One place replaced.
    pub(crate) fn put(mut self, i: usize, p: Place) -> Worker
        requires { i < places }
        ensures { result ≡ stored self i p self.last }
    {
        self.places[i] = p;
        self
    }

    // The call is refused as one that should not have been made, and the worker is as it was.
    pub(crate) fn refuse(self) -> Called
        ensures { result ≡ not_called self }
    {
        Called {
            worker: self,
            reply: Reply::Answered(Answer::BadCall),
        }
    }
}
