// A turn.
ghost use Rattle.std.specs.Prelude.{◌≡◌, ◌&&◌, eqb, length, ◌+◌, ◌<◌, ◌≤◌};
ghost use Rattle.scan.specs.Call.{run_of};
ghost use Rattle.worker.specs.Inner.{Turned, sought, own_in_range};
ghost use Rattle.worker.specs.Place.{next_in};
ghost use Rattle.worker.specs.Reply.{left_by};
ghost use Rattle.worker.specs.Ring.{places};
ghost use Rattle.worker.specs.Worker.{page_in, ready, turn_of};

use crate::places::{PLACES, is_running, own_in_range, place_in_range};
use crate::{Called, Place, Reply, Worker};
use events::share::share_of;
use scan::Answer;

// The page still lies inside the lent bytes, and a run takes its scan over a share of so many words.
fn is_ready(p: Place, lent: usize, share: usize) -> bool
    ensures { result ≡ ready p lent share }
{
    page::lies_inside(lent, p.at, p.scan.tokenizer.job.length) && place_in_range(share, p)
}

// The event buffer is as long as the worker's, and the worker's own numbers are in range.
fn can_turn(lent: usize, last: usize, q: usize, words: usize) -> bool
    ensures { result ≡ (eqb lent words && own_in_range last q) }
{
    lent == words && own_in_range(last, q)
}

// The next running place after the one last served, round the ring, if there is one.
#[tactic(auto, using(crate::proofs::Ring::seek_here, crate::proofs::Ring::seek_round, crate::proofs::Ring::seek_none, crate::proofs::Ring::sought_one, crate::proofs::Ring::sought_none))]
fn next_running(ring: &[Place; 16], last: usize) -> Option<usize>
    requires { last < places }
    ensures { result ≡ sought (next_in ring.now last) }
{
    for next in last + 1..last + 1 + PLACES {
        let j = next % PLACES;
        if is_running(ring[j]) {
            return Some(j);
        }
    }
    None
}

// The place after its turn, over its page and its share of the events.
#[tactic(auto, using(crate::proofs::Laws::turned_by))]
fn served(p: Place, bytes: &[u8], share: &mut [u32], q: usize) -> Place
    requires { p.at + p.scan.tokenizer.job.length ≤ length bytes.now }
    ensures { Turned p.at (run_of (page_in p bytes.now) q p.scan share.old) result share.new }
{
    let to = p.at + p.scan.tokenizer.job.length;
    let ran = p.scan.run(&bytes[p.at..to], share, q);
    Place {
        taken: true,
        at: p.at,
        scan: ran.scan,
    }
}

impl Worker {
    // One turn: the next running place after the one last served, round the ring, makes q steps, or fewer where its page asks or ends.
    // Every other way out, and every method that takes the worker, would copy all of its places once more: so there is one way out, the
    // ring is searched by a function that is lent them, and the worker is changed in place. The place is read again for its turn, which
    // was counted to be quicker.
    #[tactic(auto, using(crate::proofs::Laws::turn_ring, crate::proofs::Laws::found_near, crate::proofs::Laws::turn_fits, crate::proofs::Laws::ready_lies, crate::proofs::Laws::turn_refused, crate::proofs::Laws::turn_idle, crate::proofs::Laws::turn_unready, crate::proofs::Laws::turn_served))]
    pub fn turn(mut self, bytes: &[u8], events: &mut [u32]) -> Called
        ensures { left_by result events.new ≡ turn_of bytes.now self events.old }
    {
        let mut reply = Reply::Answered(Answer::BadCall);
        if can_turn(events.len(), self.last, self.q, self.words) {
            match next_running(&self.places, self.last) {
                None => reply = Reply::Idle,
                Some(found) => {
                    let p = self.places[found];
                    let share = share_of(self.words);
                    if is_ready(p, bytes.len(), share) {
                        let low = found * share;
                        let high = low + share;
                        let p = self.places[found];
                        let p = served(p, bytes, &mut events[low..high], self.q);
                        self.places[found] = p;
                        self.last = found;
                        reply = Reply::Served(found);
                    }
                }
            }
        }
        Called {
            worker: self,
            reply,
        }
    }
}
