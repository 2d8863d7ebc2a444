// The short way through a page: bytes that a state passes with no event and no change but of place. A loop finds how many there are,
// and they are counted as the steps that they are.
//
// `plain_data`, `may_glide` and `nests` go test by test: with one `&&` or `||` of all in each, nested braces took a fifth more instructions.
ghost use Rattle.std.specs.Prelude.{◌≡◌, true, ◌≤◌, ◌<◌, length};
ghost use Rattle.base.specs.Page.{page_limit, byte_at};
ghost use Rattle.scan.specs.Gliding.{plain_data, plain_line, plain_value, plain_space, inside_a_name, may_glide, Glides, GlidesTo, Glided, furthest_place, nests, depth_past};

use base::{byte, state};
use tokenizer::moving::{one_deeper, one_shallower};

// Data that neither ends nor nests an expression, and is one column.
fn plain_data(b: u16) -> bool
    ensures { result ≡ plain_data b }
{
    if b == byte::TAB {
        return false;
    }
    match b {
        byte::LINE_FEED | byte::LEFT_BRACE | byte::RIGHT_BRACE | byte::END_OF_PAGE => false,
        _ => true,
    }
}

// The same in a line of an ESM block.
fn plain_line(b: u16) -> bool
    ensures { result ≡ plain_line b }
{
    b != byte::TAB && !mdx_esm::line_ends(b)
}

// The same in a quoted value.
fn plain_value(b: u16, quote: u16) -> bool
    ensures { result ≡ plain_value b quote }
{
    b != byte::TAB && !mdx_jsx_attribute::quoted_ends(b, quote)
}

// White space inside a tag that is one column, and no line's end.
fn plain_space(b: u16) -> bool
    ensures { result ≡ plain_space b }
{
    b == byte::SPACE
}

// One of the five states inside a name.
#[tactic(auto, unfolding(base::specs::Range::within))]
fn inside_a_name(name: u8) -> bool
    ensures { result ≡ inside_a_name name }
{
    state::MDX_JSX_PRIMARY_NAME <= name && name <= state::MDX_JSX_ATTRIBUTE_LOCAL_NAME
}

// Whether the state passes any byte by a short way: one test, which spares the other states the tests for each way.
pub(crate) fn may_glide(name: u8) -> bool
    ensures { result ≡ may_glide name }
{
    if inside_a_name(name) {
        return true;
    }
    match name {
        state::MDX_EXPRESSION_INSIDE
        | state::MDX_JSX_ATTRIBUTE_VALUE_QUOTED
        | state::MDX_JSX_ES_WHITESPACE_INSIDE
        | state::MDX_ESM_INSIDE => true,
        _ => false,
    }
}

// Whether the state passes the byte with no event and no change but of place: where most bytes of a page are. None of them is a line
// feed or a tab, so that each is one column.
// No `match`: the five states inside a name are tested as a range, which `inside_a_name` says for `may_glide` too.
pub(crate) fn glides(name: u8, quote: u16, b: u16) -> bool
    ensures { Glides name quote b result }
{
    if name == state::MDX_EXPRESSION_INSIDE {
        plain_data(b)
    } else if name == state::MDX_ESM_INSIDE {
        plain_line(b)
    } else if name == state::MDX_JSX_ATTRIBUTE_VALUE_QUOTED {
        plain_value(b, quote)
    } else if inside_a_name(name) {
        char_class::id_cont(b)
    } else if name == state::MDX_JSX_ES_WHITESPACE_INSIDE {
        plain_space(b)
    } else {
        false
    }
}

// Whether the state passes the byte as a brace inside an expression: one that opens, or one that closes what was opened there. Nothing
// changes but place and depth.
pub(crate) fn nests(name: u8, depth: u32, b: u16) -> bool
    ensures { result ≡ nests name depth b }
{
    if name != state::MDX_EXPRESSION_INSIDE {
        return false;
    }
    if b == byte::LEFT_BRACE {
        return true;
    }
    if b == byte::RIGHT_BRACE {
        return depth != 0;
    }
    false
}

// How many braces are open past it. With a verdict source, `{` is not counted.
pub(crate) fn depth_past(depth: u32, asks: bool, b: u16) -> u32
    ensures { result ≡ depth_past depth asks b }
{
    if b != byte::LEFT_BRACE {
        return one_shallower(depth);
    }
    if asks {
        return depth;
    }
    one_deeper(depth)
}

// How far the state passes bytes so: from a place on, up to a limit.
// No `position`: it gives how many bytes are passed, or none where all are, to be made a place again.
fn glide_end(page: &[u8], name: u8, quote: u16, from: usize, limit: usize) -> usize
    requires { (from ≤ limit) × (limit ≤ length page.now) }
    ensures { GlidesTo page.now name quote from limit result }
{
    for end in from..limit {
        if !glides(name, quote, u16::from(page[end])) {
            return end;
        }
    }
    limit
}

// The furthest place that so many steps can reach.
fn furthest_place(length: usize, at: usize, left: usize) -> usize
    requires { at ≤ length }
    ensures { result ≡ furthest_place length at left }
{
    at + left.min(length - at)
}

// How many bytes the state passes so, from a place on whose byte is one, in so many steps.
pub(crate) fn glide(page: &[u8], name: u8, quote: u16, at: usize, left: usize) -> usize
    requires { (length page.now ≤ page_limit) × (at ≤ length page.now) × (0 < left) × Glides name quote (byte_at page.now at) true }
    ensures { Glided page.now name quote at left result }
{
    glide_end(
        page,
        name,
        quote,
        at + 1,
        furthest_place(page.len(), at, left),
    ) - at
}
