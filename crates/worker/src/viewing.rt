// What a place waits for, and where in the lent memory what it has stands.
ghost use Rattle.std.specs.Prelude.{◌≡◌};
ghost use Rattle.worker.specs.View.{waits_for, nothing_seen, seen_of, view_of};

use crate::places::{PLACES, place_in_range};
use crate::{Place, Worker};
use base::state;
use events::share::share_of;
use mdx_collect::kind::kind_of;

// A place waits for a page, for a turn, for a verdict, or to be collected: numbers, since `View` crosses to C as it is.
pub const FREE: u8 = 0;

pub const RUNS: u8 = 1;

pub const ASKS: u8 = 2;

pub const ENDED: u8 = 3;

// What there is of a place. Its page is `length` bytes from `at` on of the lent bytes, its events begin at the word `first` of the event
// buffer, and `events` of them are written; `body` is the kind of body that it asks about. What there is not is 0.
#[repr(C)]
#[derive(Clone, Copy)]
pub struct View {
    pub at: usize,
    pub length: usize,
    pub first: usize,
    pub events: usize,
    pub waits: u8,
    pub body: u8,
}

// What the page of a place waits for, by the state of its scan.
#[tactic(auto, using(base::proofs::Choice::picks))]
fn waits_for(name: u8) -> u8
    ensures { result ≡ waits_for name }
{
    if state::FIRST_RUNNING <= name {
        return RUNS;
    }
    if name == state::ASKING {
        return ASKS;
    }
    ENDED
}

// Of a place that has no page, or of none.
pub fn nothing_seen(waits: u8) -> View
    ensures { result ≡ nothing_seen waits }
{
    View {
        at: 0,
        length: 0,
        first: 0,
        events: 0,
        waits,
        body: 0,
    }
}

// Of a place with a page, whose share begins at `first`.
fn seen(p: Place, first: usize) -> View
    ensures { result ≡ seen_of p first }
{
    View {
        at: p.at,
        length: p.scan.tokenizer.job.length,
        first,
        events: p.scan.used,
        waits: waits_for(p.scan.tokenizer.state),
        body: kind_of(p.scan),
    }
}

impl Worker {
    // What there is of place i. Where no call can be about it, be it that there is no such place or that no call gave it, it waits for 12.
    #[tactic(auto, using(crate::proofs::Views::view_far, crate::proofs::Views::view_forged, crate::proofs::Views::view_free, crate::proofs::Views::view_taken, crate::proofs::Views::view_made_up))]
    pub fn view(self, i: usize) -> View
        ensures { result ≡ view_of i self }
    {
        if PLACES <= i {
            return nothing_seen(state::BAD_CALL);
        }
        if !self.in_range() {
            return nothing_seen(state::BAD_CALL);
        }
        let p = self.places[i];
        if !p.taken {
            return nothing_seen(FREE);
        }
        if place_in_range(share_of(self.words), p) {
            return seen(p, self.share_start(i));
        }
        nothing_seen(state::BAD_CALL)
    }
}
