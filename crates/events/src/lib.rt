// Events in lent words: the Rust's `events` vector. How wide an event is, and which words of a buffer are a place's, is known here alone.
#![tactic(auto)]

ghost use Rattle.std.specs.Prelude.{◌≡◌, [], ◌∷◌, ◌+◌, ◌*◌, ◌≤◌, length, get_or};
ghost use Rattle.base.specs.Decide.{count_of, list_of};
ghost use Rattle.events.specs.Event.{point_of, events_at};
ghost use Rattle.events.specs.Marks.{mark_in};
ghost use Rattle.events.specs.Words.{room_in, mark_word, written, event_in};

use base::{InTab, Mark, Marks};

pub mod room;
pub mod share;
pub mod span;

// The words of an event.
pub const WIDTH: usize = 4;

// A place of the page, with its line and column, and how far it is inside a tab: the Rust's `Point`.
#[derive(Clone, Copy)]
pub struct Point {
    pub offset: u32,
    pub line: u32,
    pub column: u32,
    pub tab: InTab,
}

// An event: what is entered or left, and where.
#[derive(Clone, Copy)]
pub struct Event {
    pub kind: u32,
    pub exit: bool,
    pub offset: u32,
    pub line: u32,
    pub column: u32,
    pub tab: InTab,
}

// How many events fit in so many words.
pub fn room_in(words: usize) -> usize
    ensures { result ≡ room_in words }
{
    words / WIDTH
}

// How many events a step writes.
pub fn count(marks: Marks) -> usize
    ensures { result ≡ count_of marks }
{
    match marks {
        Marks::Nothing => 0,
        Marks::One(_) => 1,
        Marks::Two(_, _) => 2,
        Marks::Three(_, _, _) => 3,
        Marks::Four(_, _, _, _) => 4,
    }
}

// ---- reading

// A word of a buffer; 0 past its end.
fn word_at(words: &[u32], i: usize) -> u32
    ensures { result ≡ get_or words.now i 0 }
{
    words.get(i).copied().unwrap_or(0)
}

// Event k of a buffer. What stands past the end is read as 0, and no Option: docs/PROMISES.md has it give an event for every k.
pub fn read(words: &[u32], k: usize) -> Event
    ensures { result ≡ event_in words.now k }
{
    if words.len() / WIDTH < k {
        return Event {
            kind: 0,
            exit: false,
            offset: 0,
            line: 0,
            column: 0,
            tab: InTab::Outside,
        };
    }
    let i = k * WIDTH;
    let first = word_at(words, i);
    let offset = word_at(words, i + 1);
    let line = word_at(words, i + 2);
    let column = word_at(words, i + 3);
    let tab = InTab::past((first / 2 % 4) as u8);
    Event {
        kind: first / 8,
        exit: first % 2 == 1,
        offset,
        line,
        column,
        tab,
    }
}

// ---- writing

// The first word of a mark's event, so far inside a tab. Here and in `point_of` each mark has an arm: with two in one, tags cost a twentieth more.
fn kind_word(mark: Mark, tab: InTab) -> u32
    ensures { result ≡ mark_word mark tab }
{
    let bits = u32::from(tab.columns()) * 2;
    match mark {
        Mark::Enter(kind) => u32::from(kind) * 8 + bits,
        Mark::Exit(kind) => u32::from(kind) * 8 + bits + 1,
        Mark::Leave(kind) => u32::from(kind) * 8 + bits + 1,
    }
}

// Where the event of a mark stands: at the step's place, or one byte past it. The two stay two parameters, as they are in `events_at`.
fn point_of(here: Point, past: Point, mark: Mark) -> Point
    ensures { result ≡ point_of here past mark }
{
    match mark {
        Mark::Enter(_) => here,
        Mark::Exit(_) => here,
        Mark::Leave(_) => past,
    }
}

// One event, as event k.
fn put_one(words: &mut [u32], k: usize, here: Point, past: Point, mark: Mark)
    requires { (k + 1) * 4 ≤ length words.old }
    ensures { words.new ≡ written words.old k (events_at here past (mark ∷ [])) }
{
    let i = k * WIDTH;
    let point = point_of(here, past, mark);
    let tab = point.tab;
    let first = kind_word(mark, tab);
    words[i] = first;
    words[i + 1] = point.offset;
    words[i + 2] = point.line;
    words[i + 3] = point.column;
}

// Mark i of a step, where it has so many.
fn mark_in(marks: Marks, i: usize) -> Option<Mark>
    ensures { result ≡ mark_in marks i }
{
    match (marks, i) {
        (Marks::One(a) | Marks::Two(a, _) | Marks::Three(a, _, _) | Marks::Four(a, _, _, _), 0) =>
            Some(a),
        (Marks::Two(_, b) | Marks::Three(_, b, _) | Marks::Four(_, b, _, _), 1) => Some(b),
        (Marks::Three(_, _, c) | Marks::Four(_, _, c, _), 2) => Some(c),
        (Marks::Four(_, _, _, d), 3) => Some(d),
        _ => None,
    }
}

// The events of one step, from event k on: `here` is the step's place, `past` one byte past it. Each mark is written in a place of its own
// in the code, so that four copies of `put_one` are enough, and the compiler folds them in.
pub fn put(words: &mut [u32], k: usize, here: Point, past: Point, marks: Marks)
    requires { (k + count_of marks) * 4 ≤ length words.old }
    ensures { words.new ≡ written words.old k (events_at here past (list_of marks)) }
{
    let Some(first) = mark_in(marks, 0) else {
        return;
    };
    put_one(words, k, here, past, first);
    let Some(second) = mark_in(marks, 1) else {
        return;
    };
    put_one(words, k + 1, here, past, second);
    let Some(third) = mark_in(marks, 2) else {
        return;
    };
    put_one(words, k + 2, here, past, third);
    let Some(fourth) = mark_in(marks, 3) else {
        return;
    };
    put_one(words, k + 3, here, past, fourth);
}
