// A scan by value: the tokenizer, the lines of its places, how many events it has written to the lent words, and how many steps it has
// made. The Rust is `tokenizer.rs`; pausing, verdict numbers and the answers are ours.
//
// Its steps are in `stepping` and their short way in `gliding`, its lines in `lines`, its answers in `answering`, a new scan in
// `beginning`, and the calls of one that was begun in `calling`.
#![tactic(auto)]

use crate::lines::Lines;
use page::line::Spot;
use tokenizer::Tokenizer;

pub mod answering;
pub mod beginning;
pub mod calling;
pub mod gliding;
pub mod lines;
pub mod stepping;

#[derive(Clone, Copy)]
pub struct Scan {
    pub tokenizer: Tokenizer,
    pub lines: Lines,
    pub used: usize,
    pub steps: usize,
}

// What a new scan is asked to do: its page is the part of the lent bytes that begins at `at` and is `length` long, and it begins at `start`,
// counted from the page's first byte. Construct, kind and flags are numbered in docs/NUMBERS.md.
#[derive(Clone, Copy)]
pub struct Request {
    pub at: usize,
    pub length: usize,
    pub start: usize,
    pub construct: u8,
    pub kind: u8,
    pub flags: u8,
}

// What a scan has made so far: events written, and steps.
#[derive(Clone, Copy)]
pub struct Tally {
    pub events: usize,
    pub steps: usize,
}

// What a call is answered. Places count from the page's first byte, and each has its line and column; `site` is the where-number.
#[derive(Clone, Copy)]
pub enum Answer {
    Done {
        end: usize,
        tally: Tally,
    },
    Nok {
        tally: Tally,
    },
    TooLong,
    BadStart,
    BadText {
        spot: Spot,
    },
    NotAscii {
        spot: Spot,
        tally: Tally,
    },
    Eof {
        spot: Spot,
        site: u8,
        tally: Tally,
    },
    Unexpected {
        spot: Spot,
        site: u8,
        note: u8,
        tally: Tally,
    },
    VerdictError {
        spot: Spot,
        number: u32,
        tally: Tally,
    },
    VerdictEof {
        spot: Spot,
        number: u32,
        tally: Tally,
    },
    Full {
        spot: Spot,
        tally: Tally,
    },
    BadCall,
    // The scan waits for a verdict on its body.
    Asking {
        spot: Spot,
        tally: Tally,
    },
    // The allowance is spent.
    Paused {
        spot: Spot,
        tally: Tally,
    },
    // A verdict is kept; the next step applies it.
    Kept,
}

// The state to go on with, beside the answer.
#[derive(Clone, Copy)]
pub struct Ran {
    pub scan: Scan,
    pub answer: Answer,
}
