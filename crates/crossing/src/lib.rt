// Scans, workers, verdicts and answers as numbers, so that they can cross to another language and back. An enum or a bool has bit patterns
// that it may not have, and a caller in C can hand over any: so none of them crosses. A number stands for each. `From` makes numbers;
// `TryFrom` and `try_verdict` make what they stand for, and nothing of one that stands for nothing (`Unlisted`). `verdict_in`, `scan_in` and
// `worker_in` take every number.
//
// All other fields are as wide as those that they stand for, so that nothing is cut off and nothing else needs a test: what no call can have
// given is refused by the calls themselves. A scan's and a worker's numbers have no gap between them.
#![tactic(auto)]

pub mod answers;
pub mod scans;
pub mod workers;

// One of the numbers stands for nothing.
#[derive(Clone, Copy)]
pub struct Unlisted;

// What a call is answered: its number, and what it carries; what it does not carry is 0. `place` is the end for Done, and the number of a
// worker's place where a page was admitted or a turn was made.
#[repr(C)]
#[derive(Clone, Copy)]
pub struct AnswerNumbers {
    pub place: usize,
    pub line: usize,
    pub column: usize,
    pub events: usize,
    pub steps: usize,
    pub verdict: u32,
    pub number: u8,
    pub site: u8,
    pub note: u8,
}

// Where a body is: 38 for a part of the page, 39 for the front of the scratch, or 12; and of what kind it is.
#[repr(C)]
#[derive(Clone, Copy)]
pub struct BodyNumbers {
    pub at: usize,
    pub length: usize,
    pub number: u8,
    pub kind: u8,
}

// How many words are enough: 40, or 2.
#[repr(C)]
#[derive(Clone, Copy)]
pub struct EnoughNumbers {
    pub words: usize,
    pub number: u8,
}

// A scan: its job, its tokenizer's state and registers, the lines of its three places, and what it has made. `flags` are those of its
// beginning; `tab` is the number of columns passed of a tab; `heard` is the number of a verdict's case, with its own number and offset.
#[repr(C)]
#[derive(Clone, Copy)]
pub struct ScanNumbers {
    pub length: usize,
    pub start: usize,
    pub words: usize,
    pub at: usize,
    pub saved: usize,
    pub body: usize,
    pub joint: usize,
    pub fault: usize,
    pub line: usize,
    pub column: usize,
    pub kept_line: usize,
    pub kept_column: usize,
    pub fault_line: usize,
    pub fault_column: usize,
    pub used: usize,
    pub steps: usize,
    pub heard_offset: usize,
    pub depth: u32,
    pub last: u32,
    pub heard_number: u32,
    pub quote: u16,
    pub construct: u8,
    pub kind: u8,
    pub flags: u8,
    pub state: u8,
    pub back: u8,
    pub prefix: u8,
    pub site: u8,
    pub note: u8,
    pub tab: u8,
    pub heard: u8,
}

// The scan to go on with, beside the answer.
#[repr(C)]
#[derive(Clone, Copy)]
pub struct RanNumbers {
    pub scan: ScanNumbers,
    pub answer: AnswerNumbers,
}

// A worker's place; `taken` is 0 or 1.
#[repr(C)]
#[derive(Clone, Copy)]
pub struct PlaceNumbers {
    pub scan: ScanNumbers,
    pub at: usize,
    pub taken: usize,
}

#[repr(C)]
#[derive(Clone, Copy)]
pub struct WorkerNumbers {
    pub places: [PlaceNumbers; 16],
    pub last: usize,
    pub q: usize,
    pub words: usize,
}

// The worker to go on with, beside the answer.
#[repr(C)]
#[derive(Clone, Copy)]
pub struct CalledNumbers {
    pub worker: WorkerNumbers,
    pub answer: AnswerNumbers,
}

// A worker that was started, 34, or 12. Where `fits` is 1, `longest` is the length of the longest page that cannot run full in it.
#[repr(C)]
#[derive(Clone, Copy)]
pub struct StartedNumbers {
    pub worker: WorkerNumbers,
    pub longest: usize,
    pub number: u8,
    pub fits: u8,
}
