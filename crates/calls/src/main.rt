// Drives one worker by a script: each line of standard input is a call, and its reply is written behind it.
#![tactic(auto)]

mod body;
mod lines;
mod reading;
mod replying;
mod script;

use lines::serve_input;
use script::Script;
use std::io::Read;
use std::rt::Files;

// Room for the longest line, which lends bytes in hex; for those bytes; for the event buffer, with one word more, so that a buffer
// of another length than any worker's can be lent; for a copy of a body; and for what is about to be written, of which the longest
// piece is a body in hex.
const LINE_ROOM: usize = 131_072;

const LENT_ROOM: usize = 60_000;

const WORD_ROOM: usize = 65_537;

// A body may be half as long again as its page, since a tab that is split is spaces in it.
const SCRATCH_ROOM: usize = LENT_ROOM + LENT_ROOM / 2;

const TEXT_ROOM: usize = 196_608;

fn main(rt: HostRuntime) {
    let mut source = rt.stdin();
    let errors = rt.stderr();
    let mut buffer = [0u8; LINE_ROOM];
    let mut lent = [0u8; LENT_ROOM];
    let mut events = [0u32; WORD_ROOM];
    let mut scratch = [0u8; SCRATCH_ROOM];
    let mut out = [0u8; TEXT_ROOM];
    run_all(
        &rt,
        &mut source,
        &errors,
        &mut buffer,
        &mut lent,
        &mut events,
        &mut scratch,
        &mut out,
    );
}

// The arrays go on as slices from here, so that nothing is asked about so many elements.
fn run_all(
    rt: &(impl Files + Print),
    source: &mut impl Read,
    errors: &impl Print,
    buffer: &mut [u8; LINE_ROOM],
    lent: &mut [u8; LENT_ROOM],
    events: &mut [u32; WORD_ROOM],
    scratch: &mut [u8; SCRATCH_ROOM],
    out: &mut [u8; TEXT_ROOM],
) {
    let mut script = Script::new(lent, events, scratch, out);
    serve_input(rt, source, errors, buffer, &mut script);
}
