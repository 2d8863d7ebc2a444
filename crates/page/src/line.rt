// Lines and columns: the Rust's `move_one`.
//
// That a page is within the limit is asked of it wherever it is counted, and no type has it: a page is lent as bytes, by public calls too
// (`line_at`), and its length is tested where it is checked or run.
ghost use Rattle.std.specs.Prelude.{◌≡◌, ◌+◌, ◌-◌, ◌≤◌, ◌<◌, ◌^◌, length};
ghost use Rattle.base.specs.Page.{page_limit};
ghost use Rattle.page.specs.Line.{column_behind, first_line, next_line, passed_line, line_from, anchor_past, line_at};

use base::{byte, byte_at};

// The line and the column of a place, both counted from 1.
#[derive(Clone, Copy)]
pub struct Line {
    pub number: usize,
    pub column: usize,
}

// A place of the page, with its line and column.
#[derive(Clone, Copy)]
pub struct Spot {
    pub place: usize,
    pub line: usize,
    pub column: usize,
}

// A place whose line and column are known, and behind which no line feed and no tab has come yet.
#[derive(Clone, Copy)]
pub struct Anchor {
    pub line: Line,
    pub from: usize,
}

// A tab goes on to the next stop of so many columns.
const TAB_SIZE: usize = 4;

// The page's first line.
pub fn first_line() -> Line
    ensures { result ≡ first_line }
{
    Line {
        number: 1,
        column: 1,
    }
}

// The line that begins behind a line feed.
fn next_line(line: Line) -> Line
    requires { line.number < 2 ^ 63 }
    ensures { result ≡ next_line line }
{
    Line {
        number: line.number + 1,
        column: 1,
    }
}

// The column behind a byte that is no line feed.
#[tactic(auto, using(base::proofs::Choice::picks))]
pub fn column_behind(column: usize, b: u16) -> usize
    requires { column < 2 ^ 63 }
    ensures { result ≡ column_behind column b }
{
    if b == byte::TAB {
        return (column + 3) / TAB_SIZE * TAB_SIZE + 1;
    }
    column + 1
}

// The line and the column behind a byte.
fn passed(line: Line, b: u16) -> Line
    requires { (line.number < 2 ^ 63) × (line.column < 2 ^ 63) }
    ensures { result ≡ passed_line line b }
{
    if b == byte::LINE_FEED {
        return next_line(line);
    }
    Line {
        column: column_behind(line.column, b),
        ..line
    }
}

// The line and the column of a place behind an anchor.
pub(crate) fn line_from(anchor: Anchor, at: usize) -> Line
    requires { (anchor.from ≤ at) × (anchor.line.column + (at - anchor.from) < 2 ^ 63) }
    ensures { result ≡ line_from anchor at }
{
    Line {
        column: anchor.line.column + (at - anchor.from),
        ..anchor.line
    }
}

// The next anchor, behind the byte at a place.
pub(crate) fn anchor_past(anchor: Anchor, at: usize, b: u16) -> Anchor
    requires { (anchor.from ≤ at) × (anchor.line.column + (at - anchor.from) < 2 ^ 63) × (anchor.line.number < 2 ^ 63) × (at < 2 ^ 63) }
    ensures { result ≡ anchor_past anchor at b }
{
    let line = passed(line_from(anchor, at), b);
    Anchor { line, from: at + 1 }
}

// The line and the column of a place, counted on from those of an earlier one; one past the page's end is the furthest.
// That place is in no slice of the page, so places are counted, and `byte_at` reads there what stands for the end.
pub(crate) fn line_on(page: &[u8], line: Line, from: usize, place: usize) -> Line
    requires { (length page.now ≤ page_limit) × (from ≤ place) × (place ≤ length page.now + 1) × (line ≡ line_at page.now from) }
    ensures { result ≡ line_at page.now place }
{
    let mut line = line;
    for at in from..place {
        line = passed(line, byte_at(page, at));
    }
    line
}

// The line and the column of a place, counted from the page's beginning; one past the page's end is the furthest.
pub fn line_at(page: &[u8], place: usize) -> Line
    requires { (length page.now ≤ page_limit) × (place ≤ length page.now + 1) }
    ensures { result ≡ line_at page.now place }
{
    line_on(page, first_line(), 0, place)
}

// The line and the column of a place, where those of another are known: counted on from it where the place is not before it, and from
// the page's beginning where it is.
pub(crate) fn line_by(page: &[u8], line: Line, from: usize, place: usize) -> Line
    requires { (length page.now ≤ page_limit) × (place ≤ length page.now + 1) × (line ≡ line_at page.now from) }
    ensures { result ≡ line_at page.now place }
{
    if place < from {
        return line_at(page, place);
    }
    line_on(page, line, from, place)
}
