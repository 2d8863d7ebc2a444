// A call as it stands on a line: its name and its fields, with one space between two.
use base::Verdict;
use scan::Request;

#[derive(Clone, Copy)]
pub(crate) enum Call {
    // Where the bytes in hex begin on the line.
    Lend(usize),
    Start { q: usize, words: usize },
    Admit(Request),
    // With the event buffer and the bytes that were lent.
    Turn,
    // With an event buffer of so many words.
    TurnOfWords(usize),
    // With the first so many of the lent bytes.
    TurnOfLent(usize),
    Tell { place: usize, verdict: Verdict },
    // With a scratch of so many bytes.
    Body { place: usize, scratch: usize },
    Collect(usize),
    // How many words are enough for a page of so many bytes.
    Words(usize),
}

// The bytes that the letters of an admission take, with their spaces.
const LETTERS_LENGTH: usize = 8;

// None where the line is no call.
pub(crate) fn read_call(line: &[u8]) -> Option<Call> {
    let end = text::find(line, 0, b' ');
    let from = end + 1;
    match &line[..end] {
        b"turn" => read_turn(line, from),
        b"verdict" => read_tell(line, from),
        b"admit" => read_admit(line, from),
        b"start" => read_start(line, from),
        b"body" => read_body(line, from),
        b"lend" if end < line.len() => Some(Call::Lend(from)),
        b"collect" => last_number(line, from).map(|place| Call::Collect(place)),
        b"words" => last_number(line, from).map(|length| Call::Words(length)),
        _ => None,
    }
}

// The last field of a line is a number.
fn last_number(line: &[u8], from: usize) -> Option<usize> {
    text::decimal(line, from, line.len()).map(|number| number as usize)
}

fn read_start(line: &[u8], from: usize) -> Option<Call> {
    let q = text::read_number(line, from)?;
    let words = last_number(line, q.next)?;
    Some(Call::Start { q: q.number, words })
}

fn read_admit(line: &[u8], from: usize) -> Option<Call> {
    let letters = text::read_letters(line, from)?;
    let start = text::read_number(line, from.wrapping_add(LETTERS_LENGTH))?;
    let at = text::read_number(line, start.next)?;
    let length = last_number(line, at.next)?;
    Some(Call::Admit(Request {
        at: at.number,
        length,
        start: start.number,
        construct: letters.construct,
        kind: letters.kind,
        flags: letters.flags,
    }))
}

// Alone, or with what is lent in place of the event buffer or of the bytes.
fn read_turn(line: &[u8], from: usize) -> Option<Call> {
    if line.len() < from {
        return Some(Call::Turn);
    }
    let mark = text::find(line, from, b'=');
    let number = last_number(line, mark + 1)?;
    match &line[from..mark] {
        b"words" => Some(Call::TurnOfWords(number)),
        b"lent" => Some(Call::TurnOfLent(number)),
        _ => None,
    }
}

fn read_tell(line: &[u8], from: usize) -> Option<Call> {
    let place = text::read_number(line, from)?;
    let verdict = text::read_verdict(line, place.next, line.len())?;
    Some(Call::Tell {
        place: place.number,
        verdict,
    })
}

fn read_body(line: &[u8], from: usize) -> Option<Call> {
    let place = text::read_number(line, from)?;
    let scratch = last_number(line, place.next)?;
    Some(Call::Body {
        place: place.number,
        scratch,
    })
}
