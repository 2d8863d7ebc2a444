// Whether what is recorded behind a list has the form of answers to one: its parts, or none, and the events of all. None says that it has
// not.
use crate::comparing::eat;
use crate::recorded::{after_answer, after_number, after_steps, ends_in_events};

// It stands behind the space that ends the arrow.
pub(crate) fn is_list_answer(recorded: &[u8]) -> bool {
    match eat(recorded, 1, b"BadCall ").or_else(|| after_parts(recorded, 1)) {
        Some(at) => ends_in_events(recorded, at),
        None => false,
    }
}

// The place past the parts and the space that follows the last; where none stand there, the same place.
fn after_parts(line: &[u8], from: usize) -> Option<usize> {
    if eat(line, from, b"| ").is_some() {
        return Some(from);
    }
    let mut at = from;
    // It goes on by a part, and not by one.
    while at < line.len() {
        let past = after_part(line, at)?;
        match eat(line, past, b"; ") {
            Some(next) if at < next => at = next,
            // No other part follows.
            _ => return Some(past),
        }
    }
    None
}

// `-`, or an answer, its steps or none, and how many events it has, and the space that follows.
fn after_part(line: &[u8], from: usize) -> Option<usize> {
    if let Some(left) = eat(line, from, b"- ") {
        return Some(left);
    }
    let at = after_answer(line, from)?;
    let at = after_steps(line, at, b"steps ")?;
    let at = eat(line, at, b"events ")?;
    after_number(line, at)
}
