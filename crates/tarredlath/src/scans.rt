// Single scans. C hands a request over field by field, so each function that takes one makes it: a function would take the same six.
ghost use Rattle.std.specs.Prelude.{◌≡◌};
ghost use Rattle.tarredlath.specs.Face.{ran, read, enough_face, once_face, new_face, run_face, give_face, answer_face, body_face};

use crossing::answers::{bare, body_numbers};
use crossing::scans::{ran_refused, try_verdict};
use crossing::{AnswerNumbers, BodyNumbers, EnoughNumbers, RanNumbers, ScanNumbers};
use mdx_collect::collect;
use mdx_collect::kind::kind_of;
use room::words_enough;
use scan::beginning::{no_scan, single};
use scan::{Ran, Request, Scan};

// The words of an event buffer that no scan of a page of so many bytes fills.
pub fn tarredlath_words_enough(length: usize) -> EnoughNumbers
    ensures { result ≡ enough_face length }
{
    EnoughNumbers::from(words_enough(length))
}

// A single scan in one call.
pub fn tarredlath_scan_once(
    bytes: &[u8],
    at: usize,
    length: usize,
    start: usize,
    construct: u8,
    kind: u8,
    flags: u8,
    allowance: usize,
    events: &mut [u32],
) -> RanNumbers
    ensures { ran result events.new ≡ once_face bytes.now at length start construct kind flags allowance events.old }
{
    let request = Request {
        at,
        length,
        start,
        construct,
        kind,
        flags,
    };
    RanNumbers::from(single(bytes, request, allowance, events))
}

// A new scan, which is paused at its start.
pub fn tarredlath_scan_new(
    bytes: &[u8],
    at: usize,
    length: usize,
    start: usize,
    construct: u8,
    kind: u8,
    flags: u8,
    words: usize,
) -> RanNumbers
    ensures { result ≡ new_face bytes.now at length start construct kind flags words }
{
    let request = Request {
        at,
        length,
        start,
        construct,
        kind,
        flags,
    };
    match Scan::new(bytes, request, words) {
        Ok(scan) => RanNumbers::from(Ran {
            scan,
            answer: scan.answer(),
        }),
        Err(answer) => RanNumbers::from(Ran {
            scan: no_scan(),
            answer,
        }),
    }
}

// At most `allowance` steps of a scan.
#[tactic(auto, using(base::proofs::Choice::if_yes, base::proofs::Choice::if_no, crossing::proofs::Listed::listed_is, crossing::proofs::Listed::unlisted_is), unfolding(crate::specs::Face::run_face))]
pub fn tarredlath_scan_run(
    scan: ScanNumbers,
    page: &[u8],
    events: &mut [u32],
    allowance: usize,
) -> RanNumbers
    ensures { ran result events.new ≡ run_face page.now allowance scan events.old }
{
    let Ok(inner) = Scan::try_from(scan) else {
        return ran_refused(scan);
    };
    RanNumbers::from(inner.run(page, events, allowance))
}

// The verdict that a scan asked for.
#[tactic(auto, using(base::proofs::Choice::if_yes, base::proofs::Choice::if_no, crossing::proofs::Listed::listed_is, crossing::proofs::Listed::unlisted_is), unfolding(crate::specs::Face::give_face))]
pub fn tarredlath_scan_give(
    scan: ScanNumbers,
    verdict: u8,
    number: u32,
    offset: usize,
) -> RanNumbers
    ensures { result ≡ give_face scan verdict number offset }
{
    let Ok(verdict) = try_verdict(verdict, number, offset) else {
        return ran_refused(scan);
    };
    let Ok(inner) = Scan::try_from(scan) else {
        return ran_refused(scan);
    };
    RanNumbers::from(inner.give(verdict))
}

// The answer of a scan as it stands.
#[tactic(auto, using(crossing::proofs::Bodies::nothing_carried, base::proofs::Choice::if_yes, base::proofs::Choice::if_no, crossing::proofs::Listed::listed_is, crossing::proofs::Listed::unlisted_is), unfolding(crate::specs::Face::answer_face))]
pub fn tarredlath_scan_answer(scan: ScanNumbers) -> AnswerNumbers
    ensures { result ≡ answer_face scan }
{
    let Ok(inner) = Scan::try_from(scan) else {
        return bare(12);
    };
    AnswerNumbers::from(inner.answer())
}

// Where the body is that a scan asks about, and its kind.
#[tactic(auto, using(base::proofs::Choice::if_yes, base::proofs::Choice::if_no, crossing::proofs::Listed::listed_is, crossing::proofs::Listed::unlisted_is), unfolding(crate::specs::Face::body_face))]
pub fn tarredlath_scan_body(scan: ScanNumbers, page: &[u8], scratch: &mut [u8]) -> BodyNumbers
    ensures { read result scratch.new ≡ body_face page.now scan scratch.old }
{
    let Ok(inner) = Scan::try_from(scan) else {
        return body_numbers(None, 0);
    };
    body_numbers(collect(inner, page, scratch), kind_of(inner))
}
