// A list may have any number of jobs, and a call takes MANY: so a list is handed over in pieces, a call each. What comes out is what one
// call with the whole list would answer.
ghost use Rattle.std.specs.Prelude.{◌<◌, ◌≤◌, length, IfSome};

use crate::list_reading::{Jobs, read_jobs};
use base::state;
use batch::Filled;
use batch::many::{Many, fill_many};

// A list of which every job could be read: its text, where its jobs begin there, and whether one of them has it refused.
#[derive(Clone, Copy)]
pub(crate) struct List<'a> {
    pub text: &'a [u8],
    pub jobs: usize,
    pub refused: bool,
}

// How far a list has been run: where its next piece begins, how many events stand in the buffer, and whether a record was answered
// Full, behind which none is filled. The last is a bool of its own, since a list that is full still goes on, and both numbers still count.
#[derive(Clone, Copy)]
pub(crate) struct Front {
    pub at: usize,
    pub events: usize,
    pub full: bool,
}

// A piece with its answers, of whose records the first `count` are its own, and the front behind it. The records are a call's, all MANY of
// them, in fixed memory, so the count stands beside them.
#[derive(Clone, Copy)]
pub(crate) struct Piece {
    pub many: Many,
    pub count: usize,
    pub front: Front,
}

// All pieces are looked at, in order. None where a job can't be read.
pub(crate) fn judge(text: &[u8], jobs: usize) -> Option<List<'_>> {
    let mut refused = false;
    let mut at = jobs;
    // It goes on by a piece, and not by one.
    while at <= text.len() {
        let piece = read_jobs(text, at)?;
        refused = refused || is_refused(piece);
        at = piece.next;
    }
    Some(List {
        text,
        jobs,
        refused,
    })
}

// The call refuses a piece for its jobs alone, so it is asked on an empty page and without words, where there is next to nothing to run.
fn is_refused(jobs: Jobs) -> bool {
    let openings = jobs.openings;
    fill_many(b"", openings, &mut []).filled.answer == state::BAD_CALL
}

// Nothing is run yet.
pub(crate) fn first_front(list: List) -> Front {
    Front {
        at: list.jobs,
        events: 0,
        full: false,
    }
}

// The piece that begins at the front, if there is one. There are far fewer events than would make their count wrap.
pub(crate) fn run_piece(list: List, front: Front, page: &[u8], words: &mut [u32]) -> Option<Piece>
    ensures { IfSome result (λ piece. (front.at ≤ length list.entry.text.now) × (front.at < piece.front.at)) }
{
    if list.text.len() < front.at {
        return None;
    }
    let jobs = read_jobs(list.text, front.at)?;
    let many = run_jobs(jobs, front, page, words);
    Some(Piece {
        many,
        count: jobs.count,
        front: Front {
            at: jobs.next,
            events: front.events.wrapping_add(many.filled.events),
            full: many.filled.answer == state::FULL,
        },
    })
}

// The jobs of a piece over the words that the events before it left. Behind a record that was answered Full there is no call: none of
// these is filled, and the list stays full.
fn run_jobs(jobs: Jobs, front: Front, page: &[u8], words: &mut [u32]) -> Many {
    let openings = jobs.openings;
    if front.full {
        return Many {
            openings,
            filled: Filled {
                answer: state::FULL,
                records: 0,
                events: 0,
            },
        };
    }
    let used = events::room::words_for(front.events, words.len());
    fill_many(page, openings, &mut words[used..])
}
