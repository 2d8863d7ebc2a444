// The body that the page at a place asks about.
use mdx_collect::Body;
use worker::{Reply, Worker};

// The reply to a call for the body at a place: where it stands, its length and its bytes. The script's parts are lent one by one: the proof
// has no rule for a `&` beside a `&mut` of one struct.
pub(crate) fn put_body(
    rt: &impl Print,
    worker: Worker,
    lent: &mut [u8],
    place: usize,
    scratch: &mut [u8],
    out: &mut [u8],
    used: usize,
) -> usize {
    let body = body_in(worker.body(lent, place, scratch).reply);
    let at = put_body_place(rt, body, out, used);
    if body.is_none() {
        return at;
    }
    let part = mdx_collect::part(worker.page(lent, place), scratch, body);
    let at = report::put(rt, out, at, b" ");
    report::put_hex(rt, out, at, part)
}

// Where the reply says that the body is; None where it is a refusal. Neither type is of this crate, so it can't be a `From`.
pub(crate) fn body_in(reply: Reply) -> Option<Body> {
    match reply {
        Reply::InPage { at, length } => Some(Body::InPage { at, length }),
        Reply::InScratch { length } => Some(Body::InScratch { length }),
        _ => None,
    }
}

// Where it is, and how long it is.
pub(crate) fn put_body_place(
    rt: &impl Print,
    body: Option<Body>,
    out: &mut [u8],
    used: usize,
) -> usize {
    match body {
        Some(Body::InPage { at, length }) => {
            let used = report::put(rt, out, used, b"Page ");
            let used = report::put_number(rt, out, used, at as u64);
            let used = report::put(rt, out, used, b" ");
            report::put_number(rt, out, used, length as u64)
        }
        Some(Body::InScratch { length }) => {
            let used = report::put(rt, out, used, b"Scratch ");
            report::put_number(rt, out, used, length as u64)
        }
        None => report::put(rt, out, used, b"BadCall"),
    }
}
