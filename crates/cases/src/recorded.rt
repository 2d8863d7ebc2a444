// Whether what is recorded behind a case is an answer that a scan could have: its name with its values, its steps or none, and its events.
// None says that it is none.
use crate::comparing::eat;
use text::HexFault;

// It stands behind the space that ends the arrow.
pub(crate) fn is_answer(recorded: &[u8]) -> bool {
    match after_answer(recorded, 1) {
        Some(at) => match after_steps(recorded, at, b"| steps ") {
            Some(at) => ends_in_events(recorded, at),
            None => false,
        },
        None => false,
    }
}

// The place past the word, the steps behind it and the space that follows; where the word does not stand there, the same place.
pub(crate) fn after_steps(line: &[u8], from: usize, word: &[u8]) -> Option<usize> {
    match eat(line, from, word) {
        Some(steps) => after_number(line, steps),
        None => Some(from),
    }
}

pub(crate) fn ends_in_events(line: &[u8], from: usize) -> bool {
    match eat(line, from, b"| events").and_then(|at| line.get(at..)) {
        Some(marks) => all_marks(marks),
        None => false,
    }
}

// The place past the answer and the space that follows it.
pub(crate) fn after_answer(line: &[u8], from: usize) -> Option<usize> {
    let end = text::find(line, from, b' ');
    let next = end + 1;
    match line.get(from..end)? {
        b"Nok" | b"TooLong" | b"BadStart" | b"BadCall" => Some(next),
        b"Done" => after_number(line, next),
        b"BadText" | b"NotAscii" | b"Full" => after_place(line, next),
        b"Eof" | b"VerdictError" | b"VerdictEof" => {
            let site = after_place(line, next)?;
            after_number(line, site)
        }
        b"Unexpected" => {
            let site = after_place(line, next)?;
            let note = after_number(line, site)?;
            after_number(line, note)
        }
        b"Asking" => {
            let body = after_place(line, next)?;
            after_bytes(line, body)
        }
        _ => None,
    }
}

// A place with its line and column.
fn after_place(line: &[u8], from: usize) -> Option<usize> {
    let end = text::find(line, from, b' ');
    if is_place(line, from, end) {
        Some(end + 1)
    } else {
        None
    }
}

// `PLACE:LINE:COLUMN`
fn is_place(line: &[u8], from: usize, to: usize) -> bool {
    let first = text::find(line, from, b':');
    let second = text::find(line, first + 1, b':');
    is_number(line, from, first)
        && is_number(line, first + 1, second)
        && is_number(line, second + 1, to)
}

fn is_number(line: &[u8], from: usize, to: usize) -> bool {
    text::decimal(line, from, to).is_some()
}

pub(crate) fn after_number(line: &[u8], from: usize) -> Option<usize> {
    text::read_number(line, from).map(|field| field.next)
}

// Whether the bytes have room anywhere does not matter here.
fn after_bytes(line: &[u8], from: usize) -> Option<usize> {
    let mut space = [0u8; 1];
    let end = text::find(line, from, b' ');
    match text::read_bytes(line, from, end, &mut space) {
        Ok(_) | Err(HexFault::NoRoom) => Some(end + 1),
        Err(HexFault::BadHex) => None,
    }
}

// Whether these are marks of events, each behind a space.
fn all_marks(marks: &[u8]) -> bool {
    match marks.split_first() {
        Some((b' ', rest)) => rest.split(|byte| *byte == b' ').all(|mark| is_mark(mark)),
        Some(_) => false,
        None => true,
    }
}

// `+` or `-`, a name, `@` and an offset with its line and column, and inside a tab how far.
fn is_mark(mark: &[u8]) -> bool {
    if !matches!(mark.first(), Some(b'+' | b'-')) {
        return false;
    }
    let name_end = text::find(mark, 1, b'@');
    name_end != 1 && is_place(mark, name_end + 1, place_end(mark))
}

// Where the place of a mark ends: before `~` and the columns of a tab that are passed, else where the mark does.
fn place_end(mark: &[u8]) -> usize {
    if mark.ends_with(b"~1") || mark.ends_with(b"~2") || mark.ends_with(b"~3") {
        mark.len() - 2
    } else {
        mark.len()
    }
}
