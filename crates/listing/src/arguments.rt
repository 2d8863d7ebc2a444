// What the program's arguments ask for.
use std::env::FillError;
use std::rt::Env;

// Where the scan starts, and in flow or in text, by the numbers of docs/NUMBERS.md.
#[derive(Clone, Copy)]
pub(crate) struct Asked {
    pub start: usize,
    pub kind: u8,
}

// More than the largest number has digits.
const WORD_ROOM: usize = 16;

// The first argument is the program's own name.
pub(crate) fn read_arguments(rt: &impl Env) -> Option<Asked> {
    let mut space = [0u8; WORD_ROOM];
    if word_in(rt, 3, &mut space).is_some() {
        return None;
    }
    let start = start_in(rt, &mut space)?;
    let kind = kind_in(rt, &mut space)?;
    Some(Asked { start, kind })
}

fn start_in(rt: &impl Env, space: &mut [u8]) -> Option<usize> {
    match word_in(rt, 1, space) {
        Some(length) => text::decimal(space, 0, length).map(|start| start as usize),
        None => Some(0),
    }
}

fn kind_in(rt: &impl Env, space: &mut [u8]) -> Option<u8> {
    match word_in(rt, 2, space) {
        Some(length) if text::is_word(space, 0, length, b"f") => Some(tokenizer::FLOW),
        Some(length) if text::is_word(space, 0, length, b"t") => Some(tokenizer::TEXT),
        Some(_) => None,
        None => Some(tokenizer::FLOW),
    }
}

// An argument is put at the space's start: its length, and 0 where the space has no room for it. None where it is left out. 0 needs no case
// of its own: no bytes are no number and no letter, so both callers that read the word refuse it as they do any other wrong one.
fn word_in(rt: &impl Env, number: usize, space: &mut [u8]) -> Option<usize> {
    match rt.arg(number, space) {
        Ok(length) => Some(length),
        Err(FillError::TooLong) => Some(0),
        Err(FillError::NotPresent) => None,
    }
}
