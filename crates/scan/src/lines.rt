// The lines and columns of a scan, which are counted on from byte to byte, and taken back with the look-ahead.
ghost use Rattle.std.specs.Prelude.{◌≡◌, ◌+◌, ◌≤◌, length};
ghost use Rattle.base.specs.If.{when◌then◌else◌};
ghost use Rattle.base.specs.Page.{page_limit};
ghost use Rattle.tokenizer.specs.Moved.{one_more};
ghost use Rattle.scan.specs.Inner.{Low};
ghost use Rattle.scan.specs.Lines.{highest, column_past, line_past, column_in, spot_in, point_in, tab_next, lines_of, within_end, lines_after, line_in_range, lines_in_range};

use base::{Effect, InTab, byte};
use events::Point;
use page::line::{Line, Spot, column_behind, line_at};

// The lines of the three places that a scan remembers.
#[derive(Clone, Copy)]
pub struct Lines {
    // Of its own place.
    pub line: Line,
    // Of the place that a look-ahead goes back to.
    pub kept: Line,
    // Of the place where a verdict found fault.
    pub fault: Line,
    // How far its own place is inside a tab.
    pub tab: InTab,
}

// No line of a page is higher, nor that of an event one past its end: a page has at most 1,048,576 bytes.
pub const HIGHEST: usize = 1_048_578;

// And no column: a byte has four at the most.
pub const HIGHEST_COLUMN: usize = 4_194_313;

// One more, up to that. Not generic with `one_deeper` and `one_longer`, for the reason that stands beside them in `tokenizer::moving`.
#[tactic(auto, using(base::proofs::Choice::picks))]
fn counted(n: usize) -> usize
    ensures { result ≡ one_more n highest }
{
    if n < HIGHEST { n + 1 } else { n }
}

// The column past a byte that is no line feed, up to the highest.
#[tactic(auto, using(base::proofs::Choice::picks))]
fn column_past(column: usize, b: u16) -> usize
    ensures { result ≡ column_past column b }
{
    if column < HIGHEST_COLUMN {
        return column_behind(column, b);
    }
    column
}

// The line and the column past a byte.
pub(crate) fn line_past(line: Line, b: u16) -> Line
    ensures { result ≡ line_past line b }
{
    if b == byte::LINE_FEED {
        return Line {
            number: counted(line.number),
            column: 1,
        };
    }
    Line {
        number: line.number,
        column: column_past(line.column, b),
    }
}

// The line of the byte that comes next, if the byte b is passed or not.
#[tactic(auto, using(base::proofs::Choice::picks))]
pub(crate) fn line_next(line: Line, passes: bool, b: u16) -> Line
    ensures { result ≡ (when passes then line_past line b else line) }
{
    if passes {
        return line_past(line, b);
    }
    line
}

// How far the next step stands inside a tab: a byte that is eaten is passed whole.
#[tactic(auto, using(base::proofs::Choice::picks))]
pub(crate) fn tab_next(tab: InTab, eat: bool) -> InTab
    ensures { result ≡ tab_next eat tab }
{
    if eat {
        return InTab::Outside;
    }
    tab
}

// The column of a place so far inside a tab.
fn column(line: Line, tab: InTab) -> usize
    ensures { (result ≡ column_in line tab) × (result ≤ line.column + 3) }
{
    if line.column < HIGHEST_COLUMN {
        return line.column + usize::from(tab.columns());
    }
    line.column
}

// A place, as an answer carries it. Line, tab and place are no struct: a scan has the first two in `Lines` and the third in its tokenizer,
// so each caller would put one together, to be taken apart here and in `point_in`.
pub(crate) fn spot_in(line: Line, tab: InTab, at: usize) -> Spot
    ensures { result ≡ spot_in line tab at }
{
    let column = column(line, tab);
    Spot {
        place: at,
        line: line.number,
        column,
    }
}

// A place, as an event carries it.
pub(crate) fn point_in(line: Line, tab: InTab, at: usize) -> Point
    requires { Low line × (at ≤ highest) }
    ensures { result ≡ point_in line tab at }
{
    let column = column(line, tab);
    Point {
        offset: at as u32,
        line: line.number as u32,
        column: column as u32,
        tab,
    }
}

pub(crate) fn lines_of(line: Line, tab: InTab, kept: Line, fault: Line) -> Lines
    ensures { result ≡ lines_of line tab kept fault }
{
    Lines {
        line,
        kept,
        fault,
        tab,
    }
}

// A place of the page, or the one past its end.
fn within_end(page: &[u8], place: usize) -> usize
    requires { length page.now ≤ page_limit }
    ensures { (result ≡ within_end page.now place) × (result ≤ length page.now + 1) }
{
    place.min(page.len() + 1)
}

// Whether a call can have given the line of a place.
#[tactic(auto, unfolding(crate::specs::Lines::line_in_range))]
fn line_in_range(line: Line) -> bool
    ensures { result ≡ line_in_range line }
{
    line.number <= HIGHEST && line.column <= HIGHEST_COLUMN
}

impl Lines {
    // Whether a call can have given them.
    #[tactic(auto, unfolding(crate::specs::Lines::lines_in_range))]
    pub(crate) fn in_range(self) -> bool
        ensures { result ≡ lines_in_range self }
    {
        line_in_range(self.line) && line_in_range(self.kept) && line_in_range(self.fault)
    }

    // The lines after a step, when `next` and `tab` are those of the byte that comes next.
    pub(crate) fn after(self, page: &[u8], effect: Effect, next: Line, tab: InTab) -> Self
        requires { length page.now ≤ page_limit }
        ensures { result ≡ lines_after page.now effect next tab self }
    {
        let line = self.line;
        let kept = self.kept;
        let fault = self.fault;
        // Each effect has an arm of its own: with one `_` for the many alike a step takes up to a tenth more instructions.
        match effect {
            Effect::Keep => lines_of(next, tab, kept, fault),
            Effect::Deeper => lines_of(next, tab, kept, fault),
            Effect::Shallower => lines_of(next, tab, kept, fault),
            Effect::Open => lines_of(next, tab, kept, fault),
            Effect::PrefixBegins => lines_of(next, tab, kept, fault),
            Effect::PrefixGoesOn => lines_of(next, tab, kept, fault),
            Effect::PrefixEnds => lines_of(next, tab, kept, fault),
            Effect::PrefixInTab(passed) => lines_of(next, passed, kept, fault),
            Effect::Quote(_) => lines_of(next, tab, kept, fault),
            Effect::Return(_) => lines_of(next, tab, kept, fault),
            Effect::Save => lines_of(next, tab, line, fault),
            Effect::Restore => lines_of(kept, InTab::Outside, kept, fault),
            Effect::Last(_) => lines_of(next, tab, kept, fault),
            Effect::Fault(_, place) => lines_of(
                next,
                tab,
                kept,
                line_at(page, within_end(page, place)),
            ),
            Effect::Refuse(_, _) => lines_of(next, tab, kept, fault),
        }
    }
}
