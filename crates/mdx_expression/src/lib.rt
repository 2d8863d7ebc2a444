// From `{` to its `}`: the states of `partial_mdx_expression.rs`. Each is handed the byte at its place and the registers that it
// reads, and hands back one decision.
#![tactic(auto, using(base::proofs::Choice::picks))]

ghost use Rattle.std.specs.Prelude.{◌≡◌};
ghost use Rattle.mdx_expression.specs.Expression as expression;

use base::{
    Effect, InTab, Mark, Marks, Move, Verdict, byte, eat, eat_with, kind, refuse, retry,
    retry_with, state,
};

// The where-number of an expression that the page's end cuts off, by its number, as the others (`mdx_jsx::site`).
const IN_EXPRESSION: u8 = 19;

// A line prefix has at most two columns.
const PREFIX_SIZE: u8 = 2;

// A `}` that closes: no brace is open inside.
fn closes(b: u16, depth: u32) -> bool
    ensures { result ≡ expression.closes b depth }
{
    b == byte::RIGHT_BRACE && depth == 0
}

// What ends a run of data.
fn stops(b: u16, depth: u32) -> bool
    ensures { result ≡ expression.stops b depth }
{
    b == byte::END_OF_PAGE || b == byte::LINE_FEED || closes(b, depth)
}

// The closing brace: the expression is over, and its caller, if it has one, goes on.
fn close(token: u8, back: u8) -> Move
    ensures { result ≡ expression.close token back }
{
    eat(
        back,
        Marks::Three(
            Mark::Enter(kind::EXPRESSION_MARKER),
            Mark::Leave(kind::EXPRESSION_MARKER),
            Mark::Leave(token),
        ),
    )
}

// Start of an expression.
//
//     > | a {Math.PI} c
//           ^
pub fn start(b: u16, token: u8) -> Move
    ensures { result ≡ expression.start b token }
{
    if b == byte::LEFT_BRACE {
        let marks = Marks::Three(
            Mark::Enter(token),
            Mark::Enter(kind::EXPRESSION_MARKER),
            Mark::Leave(kind::EXPRESSION_MARKER),
        );
        eat_with(state::MDX_EXPRESSION_BEFORE, marks, Effect::Open)
    } else {
        retry(state::NOK, Marks::Nothing)
    }
}

// Before data, or at the closing brace. The six are the byte and what the state reads of the registers.
//
//     > | a {Math.PI} c
//            ^
pub fn before(b: u16, depth: u32, asks: bool, last: u32, token: u8, back: u8) -> Move
    ensures { result ≡ expression.before b depth asks last token back }
{
    if b == byte::END_OF_PAGE {
        if last == 0 {
            refuse(state::EOF, IN_EXPRESSION, 0)
        } else {
            retry(state::VERDICT_EOF, Marks::Nothing)
        }
    } else if b == byte::LINE_FEED {
        let marks = Marks::Two(
            Mark::Enter(kind::LINE_ENDING),
            Mark::Leave(kind::LINE_ENDING),
        );
        eat(state::MDX_EXPRESSION_EOL_AFTER, marks)
    } else if closes(b, depth) {
        if asks {
            retry(state::ASKING, Marks::Nothing)
        } else {
            close(token, back)
        }
    } else {
        let marks = Marks::One(Mark::Enter(kind::EXPRESSION_DATA));
        retry(state::MDX_EXPRESSION_INSIDE, marks)
    }
}

// In data. With a verdict source, `{` is not counted: the source knows which `}` closes.
//
//     > | a {Math.PI} c
//            ^
pub fn inside(b: u16, depth: u32, asks: bool) -> Move
    ensures { result ≡ expression.inside b depth asks }
{
    if stops(b, depth) {
        let marks = Marks::One(Mark::Exit(kind::EXPRESSION_DATA));
        retry(state::MDX_EXPRESSION_BEFORE, marks)
    } else if b == byte::LEFT_BRACE {
        if asks {
            eat_with(state::MDX_EXPRESSION_INSIDE, Marks::Nothing, Effect::Keep)
        } else {
            eat_with(state::MDX_EXPRESSION_INSIDE, Marks::Nothing, Effect::Deeper)
        }
    } else if b == byte::RIGHT_BRACE {
        eat_with(
            state::MDX_EXPRESSION_INSIDE,
            Marks::Nothing,
            Effect::Shallower,
        )
    } else {
        eat(state::MDX_EXPRESSION_INSIDE, Marks::Nothing)
    }
}

// After a line ending.
//
//       | a {b +
//     > | c} d
//         ^
pub fn eol_after(b: u16) -> Move
    ensures { result ≡ expression.eol_after b }
{
    if char_class::space_or_tab(b) {
        let marks = Marks::One(Mark::Enter(kind::LINE_PREFIX));
        retry_with(state::MDX_EXPRESSION_PREFIX, marks, Effect::PrefixBegins)
    } else {
        retry(state::MDX_EXPRESSION_BEFORE, Marks::Nothing)
    }
}

// Whether the byte is one more column of a line prefix that has `size`.
fn prefix_goes_on(b: u16, size: u8) -> bool
    ensures { result ≡ expression.prefix_goes_on b size }
{
    size < PREFIX_SIZE && b == byte::SPACE
}

// Whether such a prefix ends inside a tab.
fn prefix_in_tab(b: u16, size: u8) -> bool
    ensures { result ≡ expression.prefix_in_tab b size }
{
    size < PREFIX_SIZE && b == byte::TAB
}

// The columns of that tab which are the prefix's.
fn taken(size: u8) -> InTab
    ensures { result ≡ expression.taken size }
{
    if size == 0 {
        InTab::Past2
    } else {
        InTab::Past1
    }
}

// In a line prefix, which is no part of the body. Two columns of a tab are one step, and the tab stays where it is: the rest of it
// is data.
//
//       | a {b +
//     > |   c} d
//         ^^
pub fn prefix(b: u16, size: u8) -> Move
    ensures { result ≡ expression.prefix b size }
{
    if prefix_goes_on(b, size) {
        eat_with(
            state::MDX_EXPRESSION_PREFIX,
            Marks::Nothing,
            Effect::PrefixGoesOn,
        )
    } else if prefix_in_tab(b, size) {
        let effect = Effect::PrefixInTab(taken(size));
        retry_with(state::MDX_EXPRESSION_PREFIX, Marks::Nothing, effect)
    } else {
        let marks = Marks::One(Mark::Exit(kind::LINE_PREFIX));
        retry_with(state::MDX_EXPRESSION_BEFORE, marks, Effect::PrefixEnds)
    }
}

// At a `}` on whose body a verdict was given. An error stands at `place`; that arm is one call, and so it is written in mdx_esm again.
//
//     > | a {Math.PI} c
//                   ^
pub fn verdict(v: Verdict, place: usize, token: u8, back: u8) -> Move
    ensures { result ≡ expression.verdict v place token back }
{
    match v {
        Verdict::Fine => close(token, back),
        Verdict::Unfinished(n) => {
            let marks = Marks::One(Mark::Enter(kind::EXPRESSION_DATA));
            eat_with(state::MDX_EXPRESSION_INSIDE, marks, Effect::Last(n))
        }
        Verdict::Wrong(n, _) => retry_with(
            state::VERDICT_ERROR,
            Marks::Nothing,
            Effect::Fault(n, place),
        ),
    }
}
