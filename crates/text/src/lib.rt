// For programs that read lines of text: lines from standard input, what sort of line it is, the next place of a byte, a word, a
// decimal number, hex digits, the letters of a case and a verdict.
//
// A part of a line is given by the place of its first byte and the place past its last. No function asks anything of
// its caller: a part that does not lie in the line is no word, no number, no hex and no verdict. A slice could not say such a part,
// so the two places stay as docs/PROMISES.md has them.
#![tactic(auto)]

mod hexadecimal;
mod input;
mod letters;
mod numbers;
mod places;
mod sorts;
mod verdicts;
mod words;

pub use hexadecimal::{HexFault, decode_hex, hex_value, read_bytes};
pub use input::{Input, Line, Taken, fill, least, take_line, turns_left};
pub use letters::{Letters, read_letters};
pub use numbers::{Field, decimal, read_number};
pub use places::find;
pub use sorts::{Sort, sort_of};
pub use verdicts::read_verdict;
pub use words::is_word;
