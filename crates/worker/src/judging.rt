// The verdict that a place asked for.
ghost use Rattle.std.specs.Prelude.{◌≡◌, []};
ghost use Rattle.worker.specs.Reply.{left_by};
ghost use Rattle.worker.specs.Worker.{verdict_of};

use crate::{Called, Place, Reply, Worker};
use base::Verdict;

impl Worker {
    // The verdict that place i asked for. It is kept, as the place's scan keeps it: the first step of the place's next turn applies it. A
    // scan that awaits none says 12, and is as it was.
    #[tactic(auto, using(crate::proofs::Laws::held_near, crate::proofs::Laws::held_taken, crate::proofs::Laws::verdict_none, crate::proofs::Laws::verdict_given))]
    pub fn verdict(self, i: usize, verdict: Verdict) -> Called
        ensures { left_by result [] ≡ verdict_of i verdict self }
    {
        if !self.holds(i) {
            return self.refuse();
        }
        let p = self.places[i];
        let given = p.scan.give(verdict);
        let p = Place {
            scan: given.scan,
            ..p
        };
        Called {
            worker: self.put(i, p),
            reply: Reply::Answered(given.answer),
        }
    }
}
