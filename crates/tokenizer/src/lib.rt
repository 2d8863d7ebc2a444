// The tokenizer by value: what a scan remembers between steps (here), which decision its state makes (`deciding`, the Rust's
// `state.rs`), what a decision does to it (`moving`), and which tokenizers a call can have given (`ranges`).
#![tactic(auto, using(base::proofs::Choice::picks))]

use base::Verdict;

pub mod deciding;
pub mod moving;
pub mod ranges;

// What a scan was asked to read. No step changes it.
#[derive(Clone, Copy)]
pub struct Job {
    // EXPRESSION, TAG or ESM.
    pub construct: u8,
    // FLOW or TEXT.
    pub kind: u8,
    // Whether a verdict source is at hand.
    pub asks: bool,
    // Whether the construct would interrupt another.
    pub interrupt: bool,
    // The page's length, and the place where the scan begins.
    pub length: usize,
    pub start: usize,
    // The length of the event buffer, in words.
    pub words: usize,
}

// What the states remember between steps. The fields go from wide to narrow, so that none has a gap behind it: a gap is copied through
// the stack with every step. Only the quote comes after the bytes, which was counted to be quicker.
// 0 for none, in `joint` and `last`, and no Option: a scan crosses to C as numbers, and the theorem ScanComesBack says that each comes back.
#[derive(Clone, Copy)]
pub struct Regs {
    // The place that a look-ahead goes back to.
    pub saved: usize,
    // Where the expression's body begins, and where its first line prefix does; 0 for none.
    pub body: usize,
    pub joint: usize,
    // Where the verdict that ended the scan found fault.
    pub fault: usize,
    // How many braces are open in the expression.
    pub depth: u32,
    // The number of the last unfinished verdict, or of the verdict that ended the scan; 0 for none.
    pub last: u32,
    // The state that white space or an expression returns to; DONE for an expression that stands alone.
    pub back: u8,
    // How many columns of the line prefix are passed.
    pub prefix: u8,
    // Where a refusal stands, and its note.
    pub site: u8,
    pub note: u8,
    // The quote that the value ends with.
    pub quote: u16,
}

// The Rust's tokenizer, by value and without its events: the state that runs next, its place, and what the states remember.
#[derive(Clone, Copy)]
pub struct Tokenizer {
    pub job: Job,
    pub state: u8,
    pub at: usize,
    pub regs: Regs,
    // The verdict that the next step applies, where the state is one that applies it.
    pub heard: Verdict,
}

// The constructs, and the kinds, by the numbers of docs/NUMBERS.md.
// Numbers, and no enums: C hands them over as such, and `construct_listed` and `kind_listed` take every number.
pub const EXPRESSION: u8 = 0;

pub const TAG: u8 = 1;

pub const ESM: u8 = 2;

pub const FLOW: u8 = 0;

pub const TEXT: u8 = 1;
