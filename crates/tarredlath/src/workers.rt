// Workers. C hands a request over field by field, so `tarredlath_worker_admit` makes it, as two functions of `scans` do.
ghost use Rattle.std.specs.Prelude.{◌≡◌};
ghost use Rattle.tarredlath.specs.Face.{read, called, start_face, admit_face, turn_face, verdict_face, collect_face, place_body_face, view_face};

use crossing::answers::{body_numbers, reply_body_numbers};
use crossing::scans::try_verdict;
use crossing::workers::called_refused;
use crossing::{BodyNumbers, CalledNumbers, StartedNumbers, WorkerNumbers};
use scan::Request;
use worker::Worker;
use worker::viewing::{View, nothing_seen};

// A worker with turns of q steps, over an event buffer of so many words.
pub fn tarredlath_worker_start(q: usize, words: usize) -> StartedNumbers
    ensures { result ≡ start_face q words }
{
    StartedNumbers::from(Worker::new(q, words))
}

// A page of the lent bytes is given a place.
#[tactic(auto, using(base::proofs::Choice::if_yes, base::proofs::Choice::if_no, crossing::proofs::Listed::listed_is, crossing::proofs::Listed::unlisted_is), unfolding(crate::specs::Face::admit_face))]
pub fn tarredlath_worker_admit(
    worker: WorkerNumbers,
    bytes: &[u8],
    at: usize,
    length: usize,
    start: usize,
    construct: u8,
    kind: u8,
    flags: u8,
) -> CalledNumbers
    ensures { result ≡ admit_face bytes.now at length start construct kind flags worker }
{
    let Ok(inner) = Worker::try_from(worker) else {
        return called_refused(worker);
    };
    let request = Request {
        at,
        length,
        start,
        construct,
        kind,
        flags,
    };
    CalledNumbers::from(inner.admit(bytes, request))
}

// One turn.
#[tactic(auto, using(base::proofs::Choice::if_yes, base::proofs::Choice::if_no, crossing::proofs::Listed::listed_is, crossing::proofs::Listed::unlisted_is), unfolding(crate::specs::Face::turn_face))]
pub fn tarredlath_worker_turn(
    worker: WorkerNumbers,
    bytes: &[u8],
    events: &mut [u32],
) -> CalledNumbers
    ensures { called result events.new ≡ turn_face bytes.now worker events.old }
{
    let Ok(inner) = Worker::try_from(worker) else {
        return called_refused(worker);
    };
    CalledNumbers::from(inner.turn(bytes, events))
}

// The verdict that a place asked for.
#[tactic(auto, using(base::proofs::Choice::if_yes, base::proofs::Choice::if_no, crossing::proofs::Listed::listed_is, crossing::proofs::Listed::unlisted_is), unfolding(crate::specs::Face::verdict_face))]
pub fn tarredlath_worker_verdict(
    worker: WorkerNumbers,
    place: usize,
    verdict: u8,
    number: u32,
    offset: usize,
) -> CalledNumbers
    ensures { result ≡ verdict_face place verdict number offset worker }
{
    let Ok(verdict) = try_verdict(verdict, number, offset) else {
        return called_refused(worker);
    };
    let Ok(inner) = Worker::try_from(worker) else {
        return called_refused(worker);
    };
    CalledNumbers::from(inner.verdict(place, verdict))
}

// The answer of a finished page, whose place is free again.
#[tactic(auto, using(base::proofs::Choice::if_yes, base::proofs::Choice::if_no, crossing::proofs::Listed::listed_is, crossing::proofs::Listed::unlisted_is), unfolding(crate::specs::Face::collect_face))]
pub fn tarredlath_worker_collect(worker: WorkerNumbers, place: usize) -> CalledNumbers
    ensures { result ≡ collect_face place worker }
{
    let Ok(inner) = Worker::try_from(worker) else {
        return called_refused(worker);
    };
    CalledNumbers::from(inner.collect(place))
}

// Where the body is that a place asks about, and its kind.
#[tactic(auto, using(base::proofs::Choice::if_yes, base::proofs::Choice::if_no, crossing::proofs::Listed::listed_is, crossing::proofs::Listed::unlisted_is), unfolding(crate::specs::Face::place_body_face))]
pub fn tarredlath_worker_body(
    worker: WorkerNumbers,
    bytes: &[u8],
    place: usize,
    scratch: &mut [u8],
) -> BodyNumbers
    ensures { read result scratch.new ≡ place_body_face bytes.now place worker scratch.old }
{
    let Ok(inner) = Worker::try_from(worker) else {
        return body_numbers(None, 0);
    };
    let called = inner.body(bytes, place, scratch);
    reply_body_numbers(called.reply, inner.view(place).body)
}

// What there is of a place.
#[tactic(auto, using(base::proofs::Choice::if_yes, base::proofs::Choice::if_no, crossing::proofs::Listed::listed_is, crossing::proofs::Listed::unlisted_is), unfolding(crate::specs::Face::view_face))]
pub fn tarredlath_worker_view(worker: WorkerNumbers, place: usize) -> View
    ensures { result ≡ view_face place worker }
{
    let Ok(inner) = Worker::try_from(worker) else {
        return nothing_seen(12);
    };
    inner.view(place)
}
