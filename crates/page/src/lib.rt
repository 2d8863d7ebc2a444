// What must hold of a page before any scan: its length, its place in the lent bytes, and its text.
#![tactic(auto)]

ghost use Rattle.std.specs.Prelude.{◌≡◌, ◌||◌, ◌+◌, ◌≤◌, ◌<◌, eqb, ℕ, List, Some, None, length, get_or, drop, Err, IfErr, OnOk};
ghost use Rattle.base.specs.Byte.{tab, line_feed};
ghost use Rattle.base.specs.If.{when◌then◌else◌};
ghost use Rattle.base.specs.Page.{page_limit};
ghost use Rattle.page.specs.Utf8.{holds, begins, sequence_size};
ghost use Rattle.page.specs.declared.Fault.TheVariants as fault;
ghost use Rattle.page.specs.Line.{spot, first_anchor};
ghost use Rattle.page.specs.Text.{read_text};
ghost use Rattle.page.specs.Page.{lies_inside, checked_by, page_check};

use crate::line::{Anchor, Line, Spot, anchor_past, first_line, line_by, line_from};
use crate::plain::skip_plain;
use base::{PAGE_LIMIT, byte};

pub mod line;
mod plain;

// The byte that no page may hold, though UTF-8 has it.
const CARRIAGE_RETURN: u8 = 13;

// Why a page is refused: the answers 2, 3 and 4 of the answer table.
#[derive(Clone, Copy)]
pub enum Fault {
    // Over the limit.
    TooLong,
    // The start is past the page's end, or the page is not inside the lent bytes.
    BadStart,
    // Ill-formed UTF-8, or a carriage return: the first place at fault.
    BadText(Spot),
}

// The page that begins at `at` and is `length` long lies inside `lent` bytes. The difference is
// taken, and not the sum, which could wrap.
pub fn lies_inside(lent: usize, at: usize, length: usize) -> bool
    ensures { result ≡ lies_inside lent at length }
{
    at <= lent && length <= lent - at
}

// What can be told of a page without its bytes: it is not too long, and the start is no further than its end.
fn numbers_fit(length: usize, start: usize) -> Result<(), Fault>
    ensures taken { OnOk result ((length ≤ page_limit) × (start ≤ length)) }
    ensures refused { IfErr result (λ fault. (bytes : List ℕ) (at : ℕ) → Err fault ≡ page_check bytes at length start) }
{
    if PAGE_LIMIT < length {
        return Err(Fault::TooLong);
    }
    if length < start {
        return Err(Fault::BadStart);
    }
    Ok(())
}

// The line of the start of a page of the lent bytes, which is tested in the order of the answers' numbers.
pub fn check(bytes: &[u8], at: usize, length: usize, start: usize) -> Result<Line, Fault>
    ensures { result ≡ page_check bytes.now at length start }
{
    numbers_fit(length, start)?;
    if lies_inside(bytes.len(), at, length) {
        let end = at + length;
        return text(&bytes[at..end], start);
    }
    Err(Fault::BadStart)
}

// The check of a page for another start, where that for one is known: the text is not read again. Lines are counted on from `from` where
// the start is not before it, and from the page's beginning where it is. The six are `check`'s four and what is known: a struct would be
// put together by the one caller, to be taken apart here.
pub fn recheck(
    bytes: &[u8],
    at: usize,
    length: usize,
    checked: Result<Line, Fault>,
    from: usize,
    start: usize,
) -> Result<Line, Fault>
    requires { (checked ≡ page_check bytes.now at length from) × (from ≤ length) }
    ensures { result ≡ page_check bytes.now at length start }
{
    numbers_fit(length, start)?;
    let line = checked?;
    let end = at + length;
    Ok(line_by(&bytes[at..end], line, from, start))
}

// The text is at fault at a place with this line and column.
fn bad_text(line: Line, at: usize) -> Fault
    ensures { result ≡ fault.BadText (spot at line.number line.column) }
{
    let spot = Spot {
        place: at,
        line: line.number,
        column: line.column,
    };
    Fault::BadText(spot)
}

// Whether a byte is another thing than one column: a line feed or a tab.
fn shifts(b: u16) -> bool
    ensures { result ≡ (eqb b line_feed || eqb b tab) }
{
    matches!(b, byte::LINE_FEED | byte::TAB)
}

// The anchor of the start, as far as it is known: one that stands no later than the start takes the place of the one before it.
#[tactic(auto, using(base::proofs::Choice::picks))]
fn begun_by(anchor: Anchor, begun: Anchor, before: bool) -> Anchor
    ensures { result ≡ (when before then anchor else begun) }
{
    if before {
        return anchor;
    }
    begun
}

// The anchor at the page's first byte.
fn first_anchor() -> Anchor
    ensures { result ≡ first_anchor }
{
    let line = first_line();
    Anchor { line, from: 0 }
}

// One pass over the page, which counts its lines and columns too: `anchor` is the last before the place, `begun` the last before the
// start, once that is passed. Plain bytes are skipped where they are likely to be many: at the beginning, and behind a line feed or a tab.
// Of the others most are ASCII, so that is asked first.
fn text(page: &[u8], start: usize) -> Result<Line, Fault>
    requires { (start ≤ length page.now) × (length page.now ≤ page_limit) }
    ensures { result ≡ checked_by page.now start (read_text page.now) }
{
    let mut at = skip_plain(page, 0);
    let mut anchor = first_anchor();
    let mut begun = first_anchor();
    // No `for`: a turn goes on by one byte, by a sequence, or past as many plain bytes as there are.
    while at < page.len() {
        let byte = page[at];
        if byte < 0x80 {
            if byte == CARRIAGE_RETURN {
                return Err(bad_text(line_from(anchor, at), at));
            }
            let b = u16::from(byte);
            if shifts(b) {
                anchor = anchor_past(anchor, at, b);
                begun = begun_by(anchor, begun, at < start);
                at = skip_plain(page, at + 1);
                continue;
            }
            at += 1;
        } else {
            let Some(size) = size_at(page, at, byte) else {
                return Err(bad_text(line_from(anchor, at), at));
            };
            at += size;
        }
    }
    Ok(line_from(begun, start))
}

// How many bytes the sequence takes that begins at the place, whose byte is `byte`, if one does. The arms are the rows of Unicode's
// Table 3-7.
fn size_at(page: &[u8], at: usize, byte: u8) -> Option<usize>
    requires at_in_bounds { at < length page.now }
    requires byte_value { byte ≡ get_or page.now at 0 }
    ensures { result ≡ sequence_size (drop at page.now) }
{
    let rest = &page[at + 1..];
    match byte {
        0x00..=0x7F => Some(1),
        0xC2..=0xDF => size_by(rest, [TAIL]),
        0xE0 => size_by(rest, [(0xA0, 0xBF), TAIL]),
        0xE1..=0xEC => size_by(rest, [TAIL, TAIL]),
        0xED => size_by(rest, [(0x80, 0x9F), TAIL]),
        0xEE..=0xEF => size_by(rest, [TAIL, TAIL]),
        0xF0 => size_by(rest, [(0x90, 0xBF), TAIL, TAIL]),
        0xF1..=0xF3 => size_by(rest, [TAIL, TAIL, TAIL]),
        0xF4 => size_by(rest, [(0x80, 0x8F), TAIL, TAIL]),
        _ => None,
    }
}

// The range of a byte that is not the first of its sequence, where the row says nothing narrower.
const TAIL: (u8, u8) = (0x80, 0xBF);

// A byte lies in a range, both ends of which are in it.
#[tactic(auto, unfolding(base::specs::Range::within))]
fn holds(range: (u8, u8), byte: u8) -> bool
    ensures { result ≡ holds range byte }
{
    let (low, high) = range;
    low <= byte && byte <= high
}

// How many bytes a sequence takes whose first byte is passed, if each of the next lies in its range.
fn size_by<const N: usize>(rest: &[u8], ranges: [(u8, u8); N]) -> Option<usize>
    requires { N ≤ 3 }
    ensures { result ≡ (when begins ranges.entry rest.now then Some (N + 1) else None) }
{
    for (i, range) in ranges.iter().enumerate() {
        let byte = rest.get(i)?;
        if !holds(*range, *byte) {
            return None;
        }
    }
    Some(N + 1)
}
