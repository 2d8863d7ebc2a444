// What a place has in the memory that its caller lends: its page, the body that it asks about, its share of the event buffer.
ghost use Rattle.std.specs.Prelude.{◌≡◌};
ghost use Rattle.mdx_collect.specs.Collect as mdx_collect;
ghost use Rattle.worker.specs.Reply.{said_by, left_by};
ghost use Rattle.worker.specs.Worker.{holds_page, body_call, page_at, start_at, share_at, events_at};

use crate::places::PLACES;
use crate::{Called, Reply, Worker};
use events::share::share_of;
use events::span::front;
use mdx_collect::{Body, collect, piece};
use scan::Answer;

// A single scan's answer about a body, as the worker's.
impl From<Option<Body>> for Reply {
    ghost from_gives = { λ body reply. said_by reply ≡ mdx_collect.said_by body };

    fn from(body: Option<Body>) -> Reply {
        match body {
            Some(Body::InPage { at, length }) => Reply::InPage { at, length },
            Some(Body::InScratch { length }) => Reply::InScratch { length },
            None => Reply::Answered(Answer::BadCall),
        }
    }
}

impl Worker {
    // Whether place i has a page, which lies inside so many lent bytes.
    #[tactic(auto, using(crate::proofs::Laws::held_near, crate::proofs::Laws::page_none, crate::proofs::Laws::page_by))]
    fn holds_page(self, i: usize, lent: usize) -> bool
        ensures { result ≡ holds_page i lent self }
    {
        if !self.holds(i) {
            return false;
        }
        let p = self.places[i];
        page::lies_inside(lent, p.at, p.scan.tokenizer.job.length)
    }

    // Where the body is that place i asks about: a part of its page, or the front of the scratch it was copied to.
    #[tactic(auto, using(crate::proofs::Laws::page_place, crate::proofs::Laws::page_lies, crate::proofs::Laws::body_none, crate::proofs::Laws::body_read))]
    pub fn body(self, bytes: &[u8], i: usize, scratch: &mut [u8]) -> Called
        ensures { left_by result scratch.new ≡ body_call bytes.now i self scratch.old }
    {
        if !self.holds_page(i, bytes.len()) {
            return self.refuse();
        }
        let p = self.places[i];
        let to = p.at + p.scan.tokenizer.job.length;
        let body = collect(p.scan, &bytes[p.at..to], scratch);
        Called {
            worker: self,
            reply: Reply::from(body),
        }
    }

    // The page of place i, of which `mdx_collect::part` reads the body; nothing, where the place has none.
    #[tactic(auto, using(crate::proofs::Laws::page_place, crate::proofs::Laws::piece_held, crate::proofs::Laws::piece_none))]
    pub fn page<'a>(self, bytes: &'a [u8], i: usize) -> &'a [u8]
        ensures { result.now ≡ page_at bytes.now i self }
    {
        if self.holds_page(i, bytes.len()) {
            let p = self.places[i];
            return piece(bytes, p.at, p.scan.tokenizer.job.length);
        }
        piece(bytes, 0, 0)
    }

    // Where the share of place i begins in the event buffer; 0, and no None, where there is no such place: `start_at` is cited by `view_of`,
    // whose number `View` hands to C.
    #[tactic(auto, using(crate::proofs::Laws::part_fits, crate::proofs::Laws::start_far, crate::proofs::Laws::start_near))]
    pub fn share_start(self, i: usize) -> usize
        ensures { result ≡ start_at i self }
    {
        if PLACES <= i {
            return 0;
        }
        i * share_of(self.words)
    }

    // The share of place i in the event buffer; nothing, where there is no such place, or of a buffer of another length.
    #[tactic(auto, using(crate::proofs::Laws::share_fits, crate::proofs::Laws::share_far, crate::proofs::Laws::share_length, crate::proofs::Laws::share_near))]
    pub fn share<'a>(self, events: &'a [u32], i: usize) -> &'a [u32]
        ensures { result.now ≡ share_at events.now i self }
    {
        if PLACES <= i {
            return &events[0..0];
        }
        if events.len() != self.words {
            return &events[0..0];
        }
        let low = self.share_start(i);
        let high = low + share_of(self.words);
        &events[low..high]
    }

    // The events that the page of place i has written, as words of its share; nothing, where the place has no page.
    #[tactic(auto, using(crate::proofs::Laws::held_near, crate::proofs::Laws::events_held, crate::proofs::Laws::events_none))]
    pub fn events<'a>(self, events: &'a [u32], i: usize) -> &'a [u32]
        ensures { result.now ≡ events_at events.now i self }
    {
        if self.holds(i) {
            let p = self.places[i];
            return front(self.share(events, i), p.scan.used);
        }
        &events[0..0]
    }
}
