// Lists the scan of one page, which stands on standard input: the answer on the first line, with its values, steps and
// event count, then a line for each event. The status is 0 for Done, 1 for any other answer and 2 where there is none.
//
// `listing [START [f|t]]`: the scan starts at an offset of the page, 0 if it is left out, in flow or in text.
#![tactic(auto)]

mod arguments;
mod reading;
mod scanning;

use arguments::{Asked, read_arguments};
use reading::read_page;
use report::{Told, tell};
use scanning::answer_of;
use std::io::Read;
use std::rt::{Env, Files};

// The longest page, and room for one byte more, which shows that a page is longer.
const LONGEST: usize = 60_000;

const PAGE_ROOM: usize = 60_001;

// Words for six events for each byte and the page's end.
const WORD_ROOM: usize = room::AT_EACH_BYTE * PAGE_ROOM * events::WIDTH;

const TEXT_ROOM: usize = 65_536;

// Room for a page, the words of its events, and what is about to be written.
#[derive(Drop)]
struct Desk<'a> {
    page: &'a mut [u8],
    words: &'a mut [u32],
    out: &'a mut [u8],
}

fn main(rt: HostRuntime) {
    let mut source = rt.stdin();
    let errors = rt.stderr();
    let mut page = [0u8; PAGE_ROOM];
    let mut words = [0u32; WORD_ROOM];
    let mut out = [0u8; TEXT_ROOM];
    run(&rt, &mut source, &errors, &mut page, &mut words, &mut out);
}

// The arrays go on as slices from here, so that nothing is asked about so many elements.
fn run(
    rt: &(impl Env + Files + Print),
    source: &mut impl Read,
    errors: &impl Print,
    page: &mut [u8; PAGE_ROOM],
    words: &mut [u32; WORD_ROOM],
    out: &mut [u8; TEXT_ROOM],
) {
    let mut desk = Desk { page, words, out };
    list(rt, source, errors, &mut desk);
}

fn list(
    rt: &(impl Env + Files + Print),
    source: &mut impl Read,
    errors: &impl Print,
    desk: &mut Desk,
) {
    match read_arguments(rt) {
        Some(asked) => list_input(rt, source, errors, asked, desk),
        None => report::give_up(rt, errors, b"usage: listing [START [f|t]]\n"),
    }
}

fn list_input(
    rt: &(impl Files + Print),
    source: &mut impl Read,
    errors: &impl Print,
    asked: Asked,
    desk: &mut Desk,
) {
    match read_page(source, desk.page) {
        Ok(read) => {
            let count = read.min(desk.page.len());
            list_page(rt, asked, &mut desk.page[0..count], desk.words, desk.out)
        }
        Err(_) => report::give_up(rt, errors, b"listing: standard input can't be read\n"),
    }
}

fn list_page(
    rt: &(impl Files + Print),
    asked: Asked,
    page: &[u8],
    words: &mut [u32],
    out: &mut [u8],
) {
    if LONGEST < page.len() {
        report::flush(rt, b"toolong\n", 8);
        report::say_status(rt, 1);
        return;
    }
    let answer = answer_of(asked, page, words);
    list_answer(rt, tell(answer), words, out);
}

fn list_answer(rt: &(impl Files + Print), told: Told, words: &[u32], out: &mut [u8]) {
    let used = first_line(out, told);
    let used = match told.tally {
        Some(tally) => report::put_event_lines(rt, out, used, words, tally.events),
        None => used,
    };
    report::flush(rt, out, used);
    report::say_status(rt, if told.number == 0 { 0 } else { 1 });
}

// The answer in lower case, and its steps and event count where it carries them.
fn first_line(out: &mut [u8], told: Told) -> usize {
    let end = report::answer_text(out, 0, told, b" ");
    report::in_small(&mut out[0..end]);
    let at = report::value(out, end, told.tally.map(|tally| tally.steps));
    let at = report::value(out, at, told.tally.map(|tally| tally.events));
    report::text(out, at, b"\n")
}
