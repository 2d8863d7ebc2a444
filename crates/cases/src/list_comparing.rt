// Answers to a list that are recorded on its line, against the program's own. None says that something differs.
use crate::comparing::{PIECE_ROOM, eat, eat_events, eat_number, eat_steps};
use crate::list_pieces::{List, Piece, first_front, run_piece};
use crate::list_telling::told_of;
use batch::Opening;

// The place past the parts of a list, and how many events the list wrote.
#[derive(Clone, Copy)]
struct Eaten {
    place: usize,
    events: usize,
}

// Whether the answers that are recorded behind a list, with the space before them, are those of its jobs.
pub(crate) fn list_agrees(recorded: &[u8], list: List, page: &[u8], words: &mut [u32]) -> bool {
    match eat_answer(recorded, list, page, words) {
        Some(eaten) => {
            let mut piece = [0u8; PIECE_ROOM];
            let end = eat_events(recorded, eaten.place, words, eaten.events, &mut piece);
            end == Some(recorded.len())
        }
        None => false,
    }
}

// The place where the events begin. A list that is refused has no part.
fn eat_answer(recorded: &[u8], list: List, page: &[u8], words: &mut [u32]) -> Option<Eaten> {
    let eaten = if list.refused {
        Eaten {
            place: eat(recorded, 0, b" BadCall")?,
            events: 0,
        }
    } else {
        eat_pieces(recorded, list, page, words)?
    };
    Some(Eaten {
        place: eat(recorded, eaten.place, b" | events")?,
        ..eaten
    })
}

// The list is run, and the parts of a piece are passed before the next is run.
fn eat_pieces(recorded: &[u8], list: List, page: &[u8], words: &mut [u32]) -> Option<Eaten> {
    let mut front = first_front(list);
    let mut place = 0;
    while let Some(piece) = run_piece(list, front, page, words) {
        place = eat_parts(recorded, place, piece, front.at == list.jobs)?;
        front = piece.front;
    }
    Some(Eaten {
        place,
        events: front.events,
    })
}

// `first` says that the piece is the list's first.
fn eat_parts(recorded: &[u8], from: usize, piece: Piece, first: bool) -> Option<usize> {
    let mut at = from;
    for (i, opening) in piece.many.openings.iter().take(piece.count).enumerate() {
        let place = eat_joint(recorded, at, first && i == 0)?;
        at = eat_part(recorded, place, *opening, i < piece.many.filled.records)?;
    }
    Some(at)
}

fn eat_joint(recorded: &[u8], from: usize, opens: bool) -> Option<usize> {
    if opens {
        return eat(recorded, from, b" ");
    }
    eat(recorded, from, b" ; ")
}

// The number of events is compared at Nok too: it is the product's own.
fn eat_part(recorded: &[u8], from: usize, opening: Opening, filled: bool) -> Option<usize> {
    if !filled {
        return eat(recorded, from, b"-");
    }
    let mut piece = [0u8; PIECE_ROOM];
    let length = report::answer_text(&mut piece, 0, told_of(opening), b":");
    let at = eat(recorded, from, &piece[0..length])?;
    let at = eat_steps(recorded, at, b" steps", opening.steps, &mut piece)?;
    let at = eat(recorded, at, b" events")?;
    eat_number(recorded, at, opening.events, &mut piece)
}
