// A line with a list of jobs.
use crate::behind::{Behind, Entry, begins_answer};
use crate::desk::Desk;
use crate::list_comparing::list_agrees;
use crate::list_pieces::{List, judge};
use crate::list_reading::read_head;
use crate::list_recorded::is_list_answer;
use crate::list_writing::put_list;
use crate::run::Run;

// The list is run on its page, with the words that its room says. Nothing is run before all of its jobs are looked at.
pub(crate) fn list_line(rt: &impl Print, entry: Entry, desk: &mut Desk, run: &mut Run) {
    let Some(head) = read_head(entry.case, desk.page) else {
        return run.bad_line(rt, b"");
    };
    let Some(list) = judge(entry.case, head.jobs) else {
        return run.bad_line(rt, b"");
    };
    let length = head.length.min(desk.page.len());
    let room = events::room::words_for(head.room, desk.words.len());
    answer_line(
        rt,
        entry,
        list,
        &mut desk.page[0..length],
        &mut desk.words[0..room],
        run,
    );
}

// The list with its answers, or both where they differ. It is run anew for each of comparing and writing, so that no more than a piece
// of it is kept. The desk's page and words come as they are cut for this list, and so one by one.
fn answer_line(
    rt: &impl Print,
    entry: Entry,
    list: List,
    page: &[u8],
    words: &mut [u32],
    run: &mut Run,
) {
    let behind = behind_list(entry, list, page, words);
    if begins_answer(rt, entry.line, behind, run) {
        put_list(rt, list, page, words, run);
    }
}

fn behind_list(entry: Entry, list: List, page: &[u8], words: &mut [u32]) -> Behind {
    match entry.recorded {
        None => Behind::Nothing,
        Some(recorded) if list_agrees(recorded, list, page, words) => Behind::Same,
        Some(recorded) if is_list_answer(recorded) => Behind::Other,
        Some(_) => Behind::NoAnswer,
    }
}
