// For programs that write answers and events: bytes, numbers, hex digits, names, answers and events as text, put into a lent
// buffer; and such a buffer on its way to standard output.
//
// Each function puts its text at a place of the buffer and answers the place past it. A piece of text that does not fit is not
// put there at all, and the place stays. A place past the buffer's end counts as its end. `write!` into a lent slice would cut it.
//
// The buffer and the place stay two parameters: each public function takes them, and of a struct each clause would name the same two.
#![tactic(auto)]

mod answers;
mod kinds;
mod marks;
mod output;
mod pieces;
mod small;
mod wording;

pub use answers::{Told, tell};
pub use kinds::kind_name;
pub use marks::{event_line, event_mark};
pub use output::{
    flush, give_up, make_room, put, put_bad_line, put_bad_lines, put_event_lines, put_hex,
    put_marks, put_number, say_status,
};
pub use pieces::{hex, joined, number, spaced, text, value};
pub use small::in_small;
pub use wording::{answer_name, answer_text};
