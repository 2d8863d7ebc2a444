// A line with a single case.
use crate::behind::{Behind, Entry, begins_answer};
use crate::comparing::agrees;
use crate::desk::Desk;
use crate::reading::read_case;
use crate::recorded::is_answer;
use crate::run::Run;
use crate::running::{Outcome, run_case};

// The case is run on its page, with the words that its room says.
pub(crate) fn case_line(rt: &impl Print, entry: Entry, desk: &mut Desk, run: &mut Run) {
    let Some(case) = read_case(entry.case, desk.page) else {
        return run.bad_line(rt, b"");
    };
    let length = case.request.length.min(desk.page.len());
    let room = events::room::words_for(case.room, desk.words.len());
    let outcome = run_case(
        case,
        &mut desk.page[0..length],
        &mut desk.words[0..room],
        desk.scratch,
        desk.piece,
    );
    answer_line(
        rt,
        entry,
        outcome,
        &mut desk.piece[0..outcome.length],
        &mut desk.words[0..room],
        run,
    );
}

// The case with its answer, or both answers where they differ. The desk's answer and words come as they are cut for this case, and so one by
// one, here and below.
fn answer_line(
    rt: &impl Print,
    entry: Entry,
    outcome: Outcome,
    answer: &[u8],
    words: &[u32],
    run: &mut Run,
) {
    let behind = behind_case(entry, outcome, answer, words);
    if begins_answer(rt, entry.line, behind, run) {
        put_case(rt, entry.case, outcome, answer, words, run);
    }
}

fn behind_case(entry: Entry, outcome: Outcome, answer: &[u8], words: &[u32]) -> Behind {
    match entry.recorded {
        None => Behind::Nothing,
        Some(recorded) if agrees(recorded, outcome, answer, words) => Behind::Same,
        Some(recorded) if is_answer(recorded) => Behind::Other,
        Some(_) => Behind::NoAnswer,
    }
}

// The case with its answer, steps and events.
fn put_case(
    rt: &impl Print,
    case: &[u8],
    outcome: Outcome,
    answer: &[u8],
    words: &[u32],
    run: &mut Run,
) {
    run.put(rt, case);
    run.put(rt, b" => ");
    run.put(rt, answer);
    run.put(rt, b" | steps ");
    run.put_number(rt, outcome.made.steps as u64);
    run.put(rt, b" | events");
    run.put_marks(rt, words, outcome.made.events);
    run.put(rt, b"\n");
}
