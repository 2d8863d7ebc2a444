// A list with its answers.
use crate::comparing::PIECE_ROOM;
use crate::list_pieces::{List, Piece, first_front, run_piece};
use crate::list_telling::told_of;
use crate::run::Run;
use batch::Opening;

// The list as it stands on its line, a part for each job, and the events of all.
pub(crate) fn put_list(rt: &impl Print, list: List, page: &[u8], words: &mut [u32], run: &mut Run) {
    run.put(rt, list.text);
    run.put(rt, b" =>");
    if list.refused {
        return run.put(rt, b" BadCall | events\n");
    }
    let events = put_pieces(rt, list, page, words, run);
    run.put(rt, b" | events");
    run.put_marks(rt, words, events);
    run.put(rt, b"\n");
}

// The list is run, and the parts of a piece are put before the next is run: how many events the list wrote. A closure for what is done with
// a piece, here and in `eat_pieces`, would be no plainer: that one may end early.
fn put_pieces(rt: &impl Print, list: List, page: &[u8], words: &mut [u32], run: &mut Run) -> usize {
    let mut front = first_front(list);
    while let Some(piece) = run_piece(list, front, page, words) {
        put_parts(rt, piece, front.at == list.jobs, run);
        front = piece.front;
    }
    front.events
}

// `first` says that the piece is the list's first.
fn put_parts(rt: &impl Print, piece: Piece, first: bool, run: &mut Run) {
    for (i, opening) in piece.many.openings.iter().take(piece.count).enumerate() {
        put_joint(rt, first && i == 0, run);
        put_part(rt, *opening, i < piece.many.filled.records, run);
    }
}

// What stands before a part, of which one opens the answer.
fn put_joint(rt: &impl Print, opens: bool, run: &mut Run) {
    if opens {
        return run.put(rt, b" ");
    }
    run.put(rt, b" ; ");
}

// A record that was not filled is as it was lent.
fn put_part(rt: &impl Print, opening: Opening, filled: bool, run: &mut Run) {
    if !filled {
        return run.put(rt, b"-");
    }
    let mut piece = [0u8; PIECE_ROOM];
    let length = report::answer_text(&mut piece, 0, told_of(opening), b":");
    run.put(rt, &piece[0..length]);
    run.put(rt, b" steps ");
    run.put_number(rt, opening.steps as u64);
    run.put(rt, b" events ");
    run.put_number(rt, opening.events as u64);
}
