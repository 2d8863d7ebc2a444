// The static library that C links: the functions of `include/tarredlath.h`, under their names, each as `tarredlath` has it.
#![tactic(auto)]

ghost use Rattle.batch.specs.Batch.{batch, batch_of};
ghost use Rattle.std.specs.Prelude.{◌≡◌};
ghost use Rattle.tarredlath.specs.Face.{called, ran, read, version, enough_face, once_face, new_face, run_face, give_face, answer_face, body_face, start_face, admit_face, turn_face, verdict_face, collect_face, place_body_face, view_face};

use batch::{Filled, Opening};
use crossing::{
    AnswerNumbers, BodyNumbers, CalledNumbers, EnoughNumbers, RanNumbers, ScanNumbers,
    StartedNumbers, WorkerNumbers,
};
use worker::viewing::View;

#[unsafe(no_mangle)]
pub extern "C" fn tarredlath_version() -> u32
    ensures { result ≡ version }
{
    tarredlath::tarredlath_version()
}

// Every record of the list is answered by a single scan over the page, with steps enough, in list order.
#[unsafe(no_mangle)]
pub extern "C" fn tarredlath_fill(
    page: &[u8],
    openings: &mut [Opening],
    events: &mut [u32],
) -> Filled
    ensures { batch result openings.new events.new ≡ batch_of page.now openings.old events.old }
{
    tarredlath::tarredlath_fill(page, openings, events)
}

// The words of an event buffer that no scan of a page of so many bytes fills.
#[unsafe(no_mangle)]
pub extern "C" fn tarredlath_words_enough(length: usize) -> EnoughNumbers
    ensures { result ≡ enough_face length }
{
    tarredlath::tarredlath_words_enough(length)
}

// A single scan in one call.
#[unsafe(no_mangle)]
pub extern "C" fn tarredlath_scan_once(
    bytes: &[u8],
    at: usize,
    length: usize,
    start: usize,
    construct: u8,
    kind: u8,
    flags: u8,
    allowance: usize,
    events: &mut [u32],
) -> RanNumbers
    ensures { ran result events.new ≡ once_face bytes.now at length start construct kind flags allowance events.old }
{
    tarredlath::tarredlath_scan_once(
        bytes, at, length, start, construct, kind, flags, allowance, events,
    )
}

// A new scan, which is paused at its start.
#[unsafe(no_mangle)]
pub extern "C" fn tarredlath_scan_new(
    bytes: &[u8],
    at: usize,
    length: usize,
    start: usize,
    construct: u8,
    kind: u8,
    flags: u8,
    words: usize,
) -> RanNumbers
    ensures { result ≡ new_face bytes.now at length start construct kind flags words }
{
    tarredlath::tarredlath_scan_new(bytes, at, length, start, construct, kind, flags, words)
}

// At most `allowance` steps of a scan.
#[unsafe(no_mangle)]
pub extern "C" fn tarredlath_scan_run(
    scan: ScanNumbers,
    page: &[u8],
    events: &mut [u32],
    allowance: usize,
) -> RanNumbers
    ensures { ran result events.new ≡ run_face page.now allowance scan events.old }
{
    tarredlath::tarredlath_scan_run(scan, page, events, allowance)
}

// The verdict that a scan asked for.
#[unsafe(no_mangle)]
pub extern "C" fn tarredlath_scan_give(
    scan: ScanNumbers,
    verdict: u8,
    number: u32,
    offset: usize,
) -> RanNumbers
    ensures { result ≡ give_face scan verdict number offset }
{
    tarredlath::tarredlath_scan_give(scan, verdict, number, offset)
}

// The answer of a scan as it stands.
#[unsafe(no_mangle)]
pub extern "C" fn tarredlath_scan_answer(scan: ScanNumbers) -> AnswerNumbers
    ensures { result ≡ answer_face scan }
{
    tarredlath::tarredlath_scan_answer(scan)
}

// Where the body is that a scan asks about, and its kind.
#[unsafe(no_mangle)]
pub extern "C" fn tarredlath_scan_body(
    scan: ScanNumbers,
    page: &[u8],
    scratch: &mut [u8],
) -> BodyNumbers
    ensures { read result scratch.new ≡ body_face page.now scan scratch.old }
{
    tarredlath::tarredlath_scan_body(scan, page, scratch)
}

// A worker with turns of q steps, over an event buffer of so many words.
#[unsafe(no_mangle)]
pub extern "C" fn tarredlath_worker_start(q: usize, words: usize) -> StartedNumbers
    ensures { result ≡ start_face q words }
{
    tarredlath::tarredlath_worker_start(q, words)
}

// A page of the lent bytes is given a place.
#[unsafe(no_mangle)]
pub extern "C" fn tarredlath_worker_admit(
    worker: WorkerNumbers,
    bytes: &[u8],
    at: usize,
    length: usize,
    start: usize,
    construct: u8,
    kind: u8,
    flags: u8,
) -> CalledNumbers
    ensures { result ≡ admit_face bytes.now at length start construct kind flags worker }
{
    tarredlath::tarredlath_worker_admit(worker, bytes, at, length, start, construct, kind, flags)
}

// One turn.
#[unsafe(no_mangle)]
pub extern "C" fn tarredlath_worker_turn(
    worker: WorkerNumbers,
    bytes: &[u8],
    events: &mut [u32],
) -> CalledNumbers
    ensures { called result events.new ≡ turn_face bytes.now worker events.old }
{
    tarredlath::tarredlath_worker_turn(worker, bytes, events)
}

// The verdict that a place asked for.
#[unsafe(no_mangle)]
pub extern "C" fn tarredlath_worker_verdict(
    worker: WorkerNumbers,
    place: usize,
    verdict: u8,
    number: u32,
    offset: usize,
) -> CalledNumbers
    ensures { result ≡ verdict_face place verdict number offset worker }
{
    tarredlath::tarredlath_worker_verdict(worker, place, verdict, number, offset)
}

// The answer of a finished page, whose place is free again.
#[unsafe(no_mangle)]
pub extern "C" fn tarredlath_worker_collect(worker: WorkerNumbers, place: usize) -> CalledNumbers
    ensures { result ≡ collect_face place worker }
{
    tarredlath::tarredlath_worker_collect(worker, place)
}

// Where the body is that a place asks about, and its kind.
#[unsafe(no_mangle)]
pub extern "C" fn tarredlath_worker_body(
    worker: WorkerNumbers,
    bytes: &[u8],
    place: usize,
    scratch: &mut [u8],
) -> BodyNumbers
    ensures { read result scratch.new ≡ place_body_face bytes.now place worker scratch.old }
{
    tarredlath::tarredlath_worker_body(worker, bytes, place, scratch)
}

// What there is of a place.
#[unsafe(no_mangle)]
pub extern "C" fn tarredlath_worker_view(worker: WorkerNumbers, place: usize) -> View
    ensures { result ≡ view_face place worker }
{
    tarredlath::tarredlath_worker_view(worker, place)
}
