// A list of jobs as it stands on a line, behind the page and the room for the events of all of them.
ghost use Rattle.std.specs.Prelude.{◌<◌, ◌≤◌, length, IfSome};

use crate::reading::read_room;
use batch::Opening;
use batch::many::MANY;

// A list up to its jobs: the page's length, how many events fit, and where the jobs begin on the line.
#[derive(Clone, Copy)]
pub(crate) struct Head {
    pub length: usize,
    pub room: usize,
    pub jobs: usize,
}

// The jobs of one piece as records with nothing answered yet, how many they are, and where the next piece begins. A call takes all MANY
// records, in fixed memory, so the count stands beside them.
#[derive(Clone, Copy)]
pub(crate) struct Jobs {
    pub openings: [Opening; MANY],
    pub count: usize,
    pub next: usize,
}

// The places past the name of a list, and past a job's two letters.
const AFTER_NAME: usize = 6;

const AFTER_LETTERS: usize = 4;

// A start past the end of every page. It is a number since the record that has it is laid out for C (`batch::Opening`).
const NOWHERE: usize = usize::MAX;

pub(crate) fn is_list(line: &[u8]) -> bool {
    line.starts_with(b"batch ")
}

// The page goes to the lent space.
pub(crate) fn read_head(line: &[u8], space: &mut [u8]) -> Option<Head> {
    let end = text::find(line, AFTER_NAME, b' ');
    let length = text::read_bytes(line, AFTER_NAME, end, space).ok()?;
    let room = read_room(line, end + 1)?;
    Some(Head {
        length,
        room: room.number,
        jobs: room.next,
    })
}

// The jobs from a place on, with one space between two, as many as one call takes; None where one of them can't be read. Behind the last
// stand records that start nowhere: such a job writes nothing and changes nothing for the others, so that a piece may be shorter than the
// call's list. The next piece begins past the line where there is none.
pub(crate) fn read_jobs(line: &[u8], from: usize) -> Option<Jobs>
    ensures { IfSome result (λ jobs. from ≤ length line.now → from < jobs.next) }
{
    let mut openings = [asked(NOWHERE, 0, 0, 0); MANY];
    let mut count = 0;
    let mut next = from;
    for (k, opening) in openings.iter_mut().enumerate() {
        if line.len() < next {
            break;
        }
        let end = text::find(line, next, b' ');
        *opening = read_job(&line[next..end])?;
        count = k + 1;
        next = end + 1;
    }
    Some(Jobs {
        openings,
        count,
        next,
    })
}

// `CONSTRUCT:KIND:FLAGS:START`
fn read_job(job: &[u8]) -> Option<Opening> {
    let construct = construct_of(job)?;
    let kind = kind_of(job)?;
    let mark = text::find(job, AFTER_LETTERS, b':');
    let flags = text::decimal(job, AFTER_LETTERS, mark)?;
    let start = text::decimal(job, mark + 1, job.len())?;
    Some(asked(start as usize, construct, kind, narrow(flags)))
}

fn construct_of(job: &[u8]) -> Option<u8> {
    match job.get(0..2)? {
        b"e:" => Some(tokenizer::EXPRESSION),
        b"t:" => Some(tokenizer::TAG),
        b"s:" => Some(tokenizer::ESM),
        _ => None,
    }
}

fn kind_of(job: &[u8]) -> Option<u8> {
    match job.get(2..AFTER_LETTERS)? {
        b"f:" => Some(tokenizer::FLOW),
        b"t:" => Some(tokenizer::TEXT),
        _ => None,
    }
}

// Flags that a byte has no room for are refused, and so are 255.
fn narrow(flags: u64) -> u8 {
    u8::try_from(flags).unwrap_or(255)
}

// A record with nothing answered.
fn asked(start: usize, construct: u8, kind: u8, flags: u8) -> Opening {
    Opening {
        start,
        construct,
        kind,
        flags,
        answer: 0,
        place: 0,
        line: 0,
        column: 0,
        site: 0,
        note: 0,
        events: 0,
        steps: 0,
        first: 0,
    }
}
