// Sixteen pages at a time, a few steps of each in turn. Nothing of it is in the Rust: docs/SCOPE.md, 'The worker', is its definition.
//
// A worker is started and takes pages in `admitting`; `turning` serves them, `judging` hears a verdict, `collecting` gives an answer and
// frees a place, `reading` finds what a place has in the memory that its caller lends, and `viewing` says where that is and what the place
// waits for. `places` has what they share.
#![tactic(auto)]

use scan::{Answer, Scan};

pub mod admitting;
pub mod collecting;
pub mod judging;
pub mod places;
pub mod reading;
pub mod turning;
pub mod viewing;

// A place, taken or free. Its page begins at `at` of the lent bytes. A verdict that is kept is in the scan, which then runs again.
// `taken` is no Option of the two others: WorkerComesBack and WorkersNumbersComeBack of face_theorems speak of what a free place holds too.
#[derive(Clone, Copy)]
pub struct Place {
    pub taken: bool,
    pub at: usize,
    pub scan: Scan,
}

// `last` is the place last served, `q` the steps of a turn, `words` the length of the event buffer.
#[derive(Clone, Copy)]
pub struct Worker {
    pub places: [Place; 16],
    pub last: usize,
    pub q: usize,
    pub words: usize,
}

// What a call is answered. Its cases are told apart by number, and no number has two cases: what a single scan is answered too is
// `Answered`.
#[derive(Clone, Copy)]
pub enum Reply {
    // A worker is started; this is the longest page that cannot run full in any of its places, if there is one.
    Started(Option<usize>),
    // A page is admitted to this place.
    Placed(usize),
    // A turn went to this place.
    Served(usize),
    // No place runs.
    Idle,
    // The body that a place asks about is this part of its page, counted from the page's first byte.
    InPage { at: usize, length: usize },
    // It was copied to the front of the scratch.
    InScratch { length: usize },
    // All places are taken.
    NoPlace,
    // A finished page's answer, a verdict that is kept, or why a call was refused.
    Answered(Answer),
}

// The worker to go on with, beside the answer.
#[derive(Clone, Copy)]
pub struct Called {
    pub worker: Worker,
    pub reply: Reply,
}
