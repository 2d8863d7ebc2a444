// The answer of a finished page.
ghost use Rattle.std.specs.Prelude.{◌≡◌, []};
ghost use Rattle.worker.specs.Place.{ended};
ghost use Rattle.worker.specs.Reply.{left_by};
ghost use Rattle.worker.specs.Worker.{collect_call};

use crate::places::free_place;
use crate::{Called, Place, Reply, Worker};
use base::state;

// The scan has ended: its state is its answer's number, below that of asking.
fn has_ended(p: Place) -> bool
    ensures { result ≡ ended p }
{
    p.scan.tokenizer.state < state::ASKING
}

impl Worker {
    // The answer of the finished page at place i, which is free again.
    #[tactic(auto, using(crate::proofs::Laws::held_near, crate::proofs::Laws::collect_none, crate::proofs::Laws::collect_unfinished, crate::proofs::Laws::collect_gives, crate::proofs::Laws::asked_is))]
    pub fn collect(self, i: usize) -> Called
        ensures { left_by result [] ≡ collect_call i self }
    {
        if !self.holds(i) {
            return self.refuse();
        }
        let p = self.places[i];
        if !has_ended(p) {
            return self.refuse();
        }
        Called {
            worker: self.put(i, free_place()),
            reply: Reply::Answered(p.scan.answer()),
        }
    }
}
