// Workers as numbers, and back.
ghost use Rattle.std.specs.Prelude.{◌≡◌};
ghost use Rattle.room.specs.Room.{longest_by};
ghost use Rattle.worker.specs.Reply.{said_by};
ghost use Rattle.crossing.specs.Listed.{if_listed};
ghost use Rattle.crossing.specs.Workers.{place_listed, place_in, place_out, worker_listed, worker_in, worker_out, called_out, called_refused, lengths_said, started_out};

use crate::answers::bare;
use crate::scans::{scan_in, scan_listed};
use crate::{
    AnswerNumbers, CalledNumbers, PlaceNumbers, ScanNumbers, StartedNumbers, Unlisted,
    WorkerNumbers,
};
use scan::beginning::no_scan;
use worker::{Called, Place, Reply, Worker};

// ---- places

// Whether the numbers stand for a place.
#[tactic(auto, using(base::proofs::Choice::picks), unfolding(crate::specs::Workers::place_listed))]
fn place_listed(numbers: PlaceNumbers) -> bool
    ensures { result ≡ place_listed numbers }
{
    numbers.taken <= 1 && scan_listed(numbers.scan)
}

#[tactic(auto, unfolding(crate::specs::Workers::place_in))]
fn place_in(numbers: PlaceNumbers) -> Place
    ensures { result ≡ place_in numbers }
{
    Place {
        taken: numbers.taken == 1,
        at: numbers.at,
        scan: scan_in(numbers.scan),
    }
}

impl From<Place> for PlaceNumbers {
    ghost from_gives = { λ p numbers. numbers ≡ place_out p };

    #[tactic(auto, using(base::proofs::Choice::picks), unfolding(crate::specs::Workers::place_out))]
    fn from(p: Place) -> PlaceNumbers {
        PlaceNumbers {
            scan: ScanNumbers::from(p.scan),
            at: p.at,
            taken: usize::from(p.taken),
        }
    }
}

// ---- workers

// worker_listed and worker_in stand beside the impl that tries, which calls them: they are promised never to fail (docs/PROMISES.md).

// Whether the numbers stand for a worker.
pub fn worker_listed(numbers: WorkerNumbers) -> bool
    ensures { result ≡ worker_listed numbers }
{
    for place in &numbers.places {
        if !place_listed(*place) {
            return false;
        }
    }
    true
}

// The worker that the numbers stand for.
#[tactic(auto, using(crate::proofs::Tables::begins, crate::proofs::Tables::goes_on_lem, crate::proofs::Tables::ends), unfolding(crate::specs::Workers::worker_in))]
pub fn worker_in(numbers: WorkerNumbers) -> Worker
    ensures { result ≡ worker_in numbers }
{
    let none = Place {
        taken: false,
        at: 0,
        scan: no_scan(),
    };
    let mut places = [none; 16];
    for (k, place) in numbers.places.iter().enumerate() {
        places[k] = place_in(*place);
    }
    Worker {
        places,
        last: numbers.last,
        q: numbers.q,
        words: numbers.words,
    }
}

// The same, where each of them stands for something.
impl TryFrom<WorkerNumbers> for Worker {
    type Error = Unlisted;

    ghost try_from_gives = { λ numbers result. result ≡ if_listed (worker_listed numbers) (worker_in numbers) };

    // A worker is some 3,000 bytes: were this not inlined, a call would clear and copy them once more, a fifth of what a turn takes.
    #[inline(always)]
    #[tactic(auto, using(base::proofs::Choice::picks))]
    fn try_from(numbers: WorkerNumbers) -> Result<Worker, Unlisted> {
        if worker_listed(numbers) {
            Ok(worker_in(numbers))
        } else {
            Err(Unlisted)
        }
    }
}

// The numbers that stand for a worker.
impl From<Worker> for WorkerNumbers {
    ghost from_gives = { λ worker numbers. numbers ≡ worker_out worker };

    #[tactic(auto, using(crate::proofs::Tables::begins, crate::proofs::Tables::goes_on_lem, crate::proofs::Tables::ends), unfolding(crate::specs::Workers::worker_out))]
    fn from(worker: Worker) -> WorkerNumbers {
        let none = PlaceNumbers {
            scan: ScanNumbers::from(no_scan()),
            at: 0,
            taken: 0,
        };
        let mut places = [none; 16];
        for (k, place) in worker.places.iter().enumerate() {
            places[k] = PlaceNumbers::from(*place);
        }
        WorkerNumbers {
            places,
            last: worker.last,
            q: worker.q,
            words: worker.words,
        }
    }
}

// ---- what a call on a worker hands back

impl From<Called> for CalledNumbers {
    ghost from_gives = { λ called numbers. numbers ≡ called_out called.worker (said_by called.reply) };

    fn from(called: Called) -> CalledNumbers {
        CalledNumbers {
            worker: WorkerNumbers::from(called.worker),
            answer: AnswerNumbers::from(called.reply),
        }
    }
}

// The numbers stand for no worker: they are handed back as they are, with 12.
#[tactic(auto, using(crate::proofs::Bodies::nothing_carried))]
pub fn called_refused(worker: WorkerNumbers) -> CalledNumbers
    ensures { result ≡ called_refused worker }
{
    CalledNumbers {
        worker,
        answer: bare(12),
    }
}

// The length of a longest page that an answer says: only a start says one.
#[tactic(auto, using(crate::proofs::Bodies::start_says, crate::proofs::Bodies::no_length))]
fn longest_in(reply: Reply) -> Option<usize>
    ensures { longest_by result ≡ lengths_said (said_by reply) }
{
    match reply {
        Reply::Started(longest) => longest,
        _ => None,
    }
}

// A start: 34 with the longest page, if there is one, or 12.
impl From<Called> for StartedNumbers {
    ghost from_gives = { λ called numbers. numbers ≡ started_out called.worker (said_by called.reply) };

    fn from(called: Called) -> StartedNumbers {
        let longest = longest_in(called.reply);
        StartedNumbers {
            worker: WorkerNumbers::from(called.worker),
            longest: longest.unwrap_or(0),
            number: AnswerNumbers::from(called.reply).number,
            fits: u8::from(longest.is_some()),
        }
    }
}
