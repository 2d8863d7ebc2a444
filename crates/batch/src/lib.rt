// A page's openings in one call: a lent list of records, each answered in place, as single scans in list order are, each over the event
// room that the earlier ones left. The page's text is read once for the whole list.
//
// `fill` goes over the list; one record's turn is in `turns`, and how its answer is filled in, in `record`.
#![tactic(auto)]

ghost use Rattle.std.specs.Prelude.{◌≡◌};
ghost use Rattle.batch.specs.Batch.{batch, batch_of, answered};

use crate::turns::{all_counting, answer_one, begin, ends_list};
use base::state;

pub mod many;
mod record;
mod turns;

// One opening of a page: what a single scan of it names, and what it is answered, in the order of docs/NUMBERS.md. `place` is the end
// where the answer is Done, `site` the where-number, `first` the number of the event at which its own begin. What an answer does not
// carry is 0.
#[repr(C)]
#[derive(Clone, Copy)]
pub struct Opening {
    pub start: usize,
    pub construct: u8,
    pub kind: u8,
    pub flags: u8,
    pub answer: u8,
    pub place: usize,
    pub line: usize,
    pub column: usize,
    pub site: u8,
    pub note: u8,
    pub events: usize,
    pub steps: usize,
    pub first: usize,
}

// What became of a list: 0 where every record is filled; 10 where the last that is filled was answered 10, and those behind it are as
// lent; 12 where the list is refused, and nothing is touched. Beside it how many records are filled, and how many events stand in the
// buffer.
#[repr(C)]
#[derive(Clone, Copy)]
pub struct Filled {
    pub answer: u8,
    pub records: usize,
    pub events: usize,
}

// What became of a list, by the number of its answer, since it is handed to C.
fn outcome(answer: u8, records: usize, events: usize) -> Filled
    ensures { result ≡ answered answer records events }
{
    Filled {
        answer,
        records,
        events,
    }
}

// Every record of the list is answered by a single scan over the page, with steps enough, in list order. Full room ends the list.
#[tactic(auto, using(crate::proofs::Lists::all_refused))]
pub fn fill(page: &[u8], openings: &mut [Opening], events: &mut [u32]) -> Filled
    ensures { batch result openings.new events.new ≡ batch_of page.now openings.old events.old }
{
    if !all_counting(openings) {
        return outcome(state::BAD_CALL, 0, 0);
    }
    let mut run = begin(page);
    for (i, opening) in openings.iter_mut().enumerate() {
        run = answer_one(page, opening, events, run);
        if ends_list(opening) {
            return outcome(state::FULL, i + 1, run.used);
        }
    }
    outcome(state::DONE, openings.len(), run.used)
}
