// A case as it stands on a line, its page in hex and its verdicts in a comma list.
use crate::comparing::eat;
use scan::Request;
use text::Field;

#[derive(Clone, Copy)]
pub(crate) struct Case<'a> {
    // Its page is all that is lent.
    pub request: Request,
    // The list of verdicts; empty where there is none.
    pub verdicts: &'a [u8],
    // How many events fit, and how many steps a call may make.
    pub room: usize,
    pub allowance: usize,
}

// The longest page.
const LONGEST: usize = 60_000;

// More steps than a run over the longest page takes.
const ALLOWANCE: usize = 480_016;

// The place of what follows the four letters.
const AFTER_LETTERS: usize = 8;

// The case on a line; its page goes to the lent space.
pub(crate) fn read_case<'a>(line: &'a [u8], space: &mut [u8]) -> Option<Case<'a>> {
    let letters = text::read_letters(line, 0)?;
    let start = text::read_number(line, AFTER_LETTERS)?;
    let end = text::find(line, start.next, b' ');
    let length = text::read_bytes(line, start.next, end, space).ok()?;
    if LONGEST < length {
        return None;
    }
    let list_end = text::find(line, end + 1, b' ');
    let verdicts = verdicts_in(line.get(end + 1..list_end)?)?;
    // Where the line does not say how many events fit, as many do as are enough for the page.
    let room = read_room(line, list_end + 1).unwrap_or(Field {
        number: events::room_in(room::words_enough(length)?),
        next: list_end + 1,
    });
    Some(Case {
        request: Request {
            at: 0,
            length,
            start: start.number,
            construct: letters.construct,
            kind: letters.kind,
            flags: letters.flags,
        },
        verdicts,
        room: room.number,
        allowance: read_allowance(line, room.next)?,
    })
}

// A comma list of verdicts, or `-` for none.
fn verdicts_in(list: &[u8]) -> Option<&[u8]> {
    match list {
        b"-" => Some(b""),
        _
            if list
                .split(|byte| *byte == b',')
                .all(|item| is_verdict(item)) => Some(list),
        _ => None,
    }
}

fn is_verdict(item: &[u8]) -> bool {
    text::read_verdict(item, 0, item.len()).is_some()
}

// `room=` and how many events fit.
pub(crate) fn read_room(line: &[u8], from: usize) -> Option<Field> {
    let at = eat(line, from, b"room=")?;
    text::read_number(line, at)
}

// The line may have ended before.
fn read_allowance(line: &[u8], from: usize) -> Option<usize> {
    if line.len() < from {
        return Some(ALLOWANCE);
    }
    let at = eat(line, from, b"allowance=")?;
    let allowance = text::decimal(line, at, line.len())?;
    Some(allowance as usize)
}
