// An answer that is recorded on a line, against the program's own. None says that something differs.
use crate::running::Outcome;
use base::state;

// Room for the text of one event, answer or number.
pub(crate) const PIECE_ROOM: usize = 256;

// Whether the parts that are recorded, behind the space that ends the arrow, are those of the answer. At Nok an empty list of events says
// nothing, since the crate takes its events back there.
pub(crate) fn agrees(recorded: &[u8], outcome: Outcome, answer: &[u8], words: &[u32]) -> bool {
    let mut piece = [0u8; PIECE_ROOM];
    let Some(at) = eat_answer(recorded, outcome, answer, &mut piece) else {
        return false;
    };
    if outcome.number == state::NOK && at == recorded.len() {
        return true;
    }
    eat_events(recorded, at, words, outcome.made.events, &mut piece) == Some(recorded.len())
}

// The place past the answer and its steps, where the events begin.
fn eat_answer(recorded: &[u8], outcome: Outcome, answer: &[u8], piece: &mut [u8]) -> Option<usize> {
    let at = eat(recorded, 1, answer)?;
    let at = eat_steps(recorded, at, b" | steps", outcome.made.steps, piece)?;
    eat(recorded, at, b" | events")
}

// The place past the word, if the word stands at this place.
pub(crate) fn eat(line: &[u8], from: usize, word: &[u8]) -> Option<usize> {
    if line.get(from..)?.starts_with(word) {
        Some(from + word.len())
    } else {
        None
    }
}

// The word and the steps behind it, which need not be recorded.
pub(crate) fn eat_steps(
    line: &[u8],
    from: usize,
    word: &[u8],
    steps: usize,
    piece: &mut [u8],
) -> Option<usize> {
    match eat(line, from, word) {
        Some(at) => eat_number(line, at, steps, piece),
        None => Some(from),
    }
}

// A space and the number.
pub(crate) fn eat_number(
    line: &[u8],
    from: usize,
    number: usize,
    piece: &mut [u8],
) -> Option<usize> {
    let count = report::spaced(piece, 0, number);
    eat(line, from, &piece[0..count])
}

pub(crate) fn eat_events(
    line: &[u8],
    from: usize,
    words: &[u32],
    count: usize,
    piece: &mut [u8],
) -> Option<usize> {
    let mut place = from;
    for k in 0..events::room::held(count, words.len()) {
        let end = report::event_mark(piece, 0, events::read(words, k));
        place = eat(line, place, &piece[0..end])?;
    }
    Some(place)
}
