// A worker started, and a page admitted.
ghost use Rattle.std.specs.Prelude.{◌≡◌, [], ◌<◌};
ghost use Rattle.scan.specs.Call.{begun_by};
ghost use Rattle.worker.specs.Ring.{places};
ghost use Rattle.worker.specs.Reply.{left_by};
ghost use Rattle.worker.specs.Worker.{start_of, placed_by, admit_of};

use crate::places::{PLACES, free_place};
use crate::{Called, Place, Reply, Worker};
use events::room_in;
use events::share::share_of;
use room::longest_page;
use scan::beginning::numbers_listed;
use scan::{Answer, Request, Scan};

impl Worker {
    // A worker with turns of q steps, over an event buffer of so many words, and the longest page that cannot run full in it. Where q is
    // refused, so is every call on what is handed back.
    #[tactic(auto, using(crate::proofs::Laws::start_yes, crate::proofs::Laws::start_no))]
    pub fn new(q: usize, words: usize) -> Called
        ensures { left_by result [] ≡ start_of q words }
    {
        let worker = Worker {
            places: [free_place(); 16],
            last: PLACES - 1,
            q,
            words,
        };
        if worker.in_range() {
            let longest = longest_page(room_in(share_of(words)));
            return Called {
                worker,
                reply: Reply::Started(longest),
            };
        }
        worker.refuse()
    }

    // A page of the lent bytes, to be scanned from `start` on, is given the lowest free place. The numbers and the places are looked at
    // before the page's bytes are: a full worker reads none of them.
    #[tactic(auto, using(crate::proofs::Laws::admit_unlisted, crate::proofs::Laws::admit_forged, crate::proofs::Laws::admit_full, crate::proofs::Laws::admit_placed))]
    pub fn admit(self, bytes: &[u8], request: Request) -> Called
        ensures { left_by result [] ≡ admit_of bytes.now request.at request.length request.start request.construct request.kind request.flags self }
    {
        if !numbers_listed(request.construct, request.kind, request.flags) {
            return self.refuse();
        }
        if !self.in_range() {
            return self.refuse();
        }
        let Some(k) = self.lowest() else {
            return Called {
                worker: self,
                reply: Reply::NoPlace,
            };
        };
        let began = Scan::new(bytes, request, share_of(self.words));
        self.place(k, request.at, began)
    }

    // The new scan is given place k, or there is none.
    fn place(self, k: usize, at: usize, began: Result<Scan, Answer>) -> Called
        requires { k < places }
        ensures { left_by result [] ≡ placed_by (begun_by began) k at self }
    {
        match began {
            Ok(scan) => {
                let p = Place {
                    taken: true,
                    at,
                    scan,
                };
                Called {
                    worker: self.put(k, p),
                    reply: Reply::Placed(k),
                }
            }
            Err(answer) => Called {
                worker: self,
                reply: Reply::Answered(answer),
            },
        }
    }
}
