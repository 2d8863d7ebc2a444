// A reply as text.
use crate::body::{body_in, put_body_place};
use report::{Told, tell};
use worker::Reply;

// The numbers of the answers TooLong and NoPlace. `base::state` has the numbers of a scan's states, and these are none: where they are given,
// there is no scan.
const TOO_LONG: u8 = 2;

const NO_PLACE: u8 = 11;

// More than an answer's name and values take.
const ANSWER_ROOM: usize = 256;

// A collected page's events stand at the start of the lent part of the event buffer.
pub(crate) fn put_reply(
    rt: &impl Print,
    reply: Reply,
    events: &[u32],
    out: &mut [u8],
    used: usize,
) -> usize {
    match reply {
        Reply::Started(longest) => put_started(rt, longest, out, used),
        Reply::Placed(place) => put_numbered(rt, b"Place ", place, out, used),
        Reply::Served(place) => put_numbered(rt, b"Served ", place, out, used),
        Reply::Idle => report::put(rt, out, used, b"Idle"),
        Reply::InPage { .. } => put_body_place(rt, body_in(reply), out, used),
        Reply::InScratch { .. } => put_body_place(rt, body_in(reply), out, used),
        Reply::NoPlace => put_plain(rt, NO_PLACE, out, used),
        Reply::Answered(answer) => put_answered(rt, tell(answer), events, out, used),
    }
}

// The words that are enough for a page.
pub(crate) fn put_enough(
    rt: &impl Print,
    enough: Option<usize>,
    out: &mut [u8],
    used: usize,
) -> usize {
    match enough {
        Some(words) => put_numbered(rt, b"Words ", words, out, used),
        None => put_plain(rt, TOO_LONG, out, used),
    }
}

// The longest page that cannot run full.
fn put_started(rt: &impl Print, longest: Option<usize>, out: &mut [u8], used: usize) -> usize {
    match longest {
        Some(length) => put_numbered(rt, b"Started ", length, out, used),
        None => report::put(rt, out, used, b"Started none"),
    }
}

fn put_numbered(rt: &impl Print, name: &[u8], number: usize, out: &mut [u8], used: usize) -> usize {
    let used = report::put(rt, out, used, name);
    report::put_number(rt, out, used, number as u64)
}

// An answer that has a name and no values.
fn put_plain(rt: &impl Print, number: u8, out: &mut [u8], used: usize) -> usize {
    let at = report::make_room(rt, out, used, ANSWER_ROOM);
    report::answer_name(out, at, number)
}

fn put_answer(rt: &impl Print, told: Told, out: &mut [u8], used: usize) -> usize {
    let at = report::make_room(rt, out, used, ANSWER_ROOM);
    report::answer_text(out, at, told, b":")
}

// A finished page's answer carries its counts, and its events stand behind them; a verdict kept and a refusal carry none.
fn put_answered(rt: &impl Print, told: Told, events: &[u32], out: &mut [u8], used: usize) -> usize {
    let at = put_answer(rt, told, out, used);
    let Some(tally) = told.tally else {
        return at;
    };
    let at = report::put(rt, out, at, b" | steps ");
    let at = report::put_number(rt, out, at, tally.steps as u64);
    let at = report::put(rt, out, at, b" | events");
    report::put_marks(rt, out, at, events, tally.events)
}
