// Runs single scans and lists of them: each line of standard input is a case, or a list of jobs on one page. The answer is written
// behind it; where an answer is recorded on the line, it is compared, and both are written only if they differ.
#![tactic(auto)]

mod behind;
mod body;
mod case_lines;
mod comparing;
mod desk;
mod lines;
mod list_comparing;
mod list_lines;
mod list_pieces;
mod list_reading;
mod list_recorded;
mod list_telling;
mod list_writing;
mod reading;
mod recorded;
mod run;
mod running;

use desk::Desk;
use lines::run_input;
use run::Run;
use std::io::Read;
use std::rt::Files;

// Room for the longest line, a page, a body, the words of six events for each byte and the page's end, an answer with its body in
// hex, and what is about to be written.
const LINE_ROOM: usize = 1_572_864;

const PAGE_ROOM: usize = 60_000;

// A body may be half as long again as its page, since a tab that is split is spaces in it.
const SCRATCH_ROOM: usize = PAGE_ROOM + PAGE_ROOM / 2;

const WORD_ROOM: usize = room::AT_EACH_BYTE * (PAGE_ROOM + 1) * events::WIDTH;

const PIECE_ROOM: usize = 196_608;

const TEXT_ROOM: usize = 65_536;

fn main(rt: HostRuntime) {
    let mut source = rt.stdin();
    let errors = rt.stderr();
    let mut buffer = [0u8; LINE_ROOM];
    let mut page = [0u8; PAGE_ROOM];
    let mut words = [0u32; WORD_ROOM];
    let mut scratch = [0u8; SCRATCH_ROOM];
    let mut piece = [0u8; PIECE_ROOM];
    let mut out = [0u8; TEXT_ROOM];
    run_all(
        &rt,
        &mut source,
        &errors,
        &mut buffer,
        &mut page,
        &mut words,
        &mut scratch,
        &mut piece,
        &mut out,
    );
}

// The arrays go on as slices from here, so that nothing is asked about so many elements.
fn run_all(
    rt: &(impl Files + Print),
    source: &mut impl Read,
    errors: &impl Print,
    buffer: &mut [u8; LINE_ROOM],
    page: &mut [u8; PAGE_ROOM],
    words: &mut [u32; WORD_ROOM],
    scratch: &mut [u8; SCRATCH_ROOM],
    piece: &mut [u8; PIECE_ROOM],
    out: &mut [u8; TEXT_ROOM],
) {
    let mut desk = Desk {
        page,
        words,
        scratch,
        piece,
    };
    let mut run = Run::new(out);
    run_input(rt, source, errors, buffer, &mut desk, &mut run);
}
