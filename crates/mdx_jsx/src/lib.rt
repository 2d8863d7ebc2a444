// One tag, from `<` to `>`: the start, the end, the white space between, and what the states of names and attributes share. The
// Rust is `partial_mdx_jsx.rs`.
#![tactic(auto, using(base::proofs::Choice::picks))]

ghost use Rattle.std.specs.Prelude.{◌≡◌};
ghost use Rattle.mdx_jsx.specs.Jsx as jsx;

use base::{
    Effect, Mark, Marks, Move, byte, eat, eat_with, kind, refuse, retry, retry_with, state,
};

pub mod site;

// A byte that the state has no way on from.
pub fn crash(at: u8, note: u8) -> Move
    ensures { result ≡ jsx.crash at note }
{
    refuse(state::UNEXPECTED, at, note)
}

// White space, or the page's end, which the Rust's helper counts as white space.
pub fn whitespace_or_end(b: u16) -> bool
    ensures { result ≡ jsx.whitespace_or_end b }
{
    b == byte::END_OF_PAGE || char_class::whitespace(b)
}

// What may follow a name: the slash that ends the tag, its end, an expression.
pub fn tag_goes_on(b: u16) -> bool
    ensures { result ≡ jsx.tag_goes_on b }
{
    matches!(b, byte::SLASH | byte::GREATER_THAN | byte::LEFT_BRACE)
}

// What follows a whole name: the end of the tag, an expression, an attribute.
pub fn name_followed(b: u16) -> bool
    ensures { result ≡ jsx.name_followed b }
{
    tag_goes_on(b) || char_class::id_start(b)
}

// White space may stand at this byte; then comes `back`. Beside `whitespace_after`, with no flag for the byte: every use knows which it is.
pub fn whitespace_here(marks: Marks, back: u8) -> Move
    ensures { result ≡ jsx.whitespace_here marks back }
{
    retry_with(
        state::MDX_JSX_ES_WHITESPACE_START,
        marks,
        Effect::Return(back),
    )
}

// The byte is eaten, and white space may stand after it; then comes `back`.
pub fn whitespace_after(marks: Marks, back: u8) -> Move
    ensures { result ≡ jsx.whitespace_after marks back }
{
    eat_with(
        state::MDX_JSX_ES_WHITESPACE_START,
        marks,
        Effect::Return(back),
    )
}

// The byte is a marker, entered and left, and white space may stand after it; then comes `back`.
pub fn marker(token: u8, back: u8) -> Move
    ensures { result ≡ jsx.marker token back }
{
    whitespace_after(Marks::Two(Mark::Enter(token), Mark::Leave(token)), back)
}

// A later part of a name, of the kind `token`, begins at this byte, or none does.
pub fn part_begins(b: u16, token: u8, inside: u8, at: u8) -> Move
    ensures { result ≡ jsx.part_begins b token inside at }
{
    if char_class::id_start(b) {
        eat(inside, Marks::One(Mark::Enter(token)))
    } else {
        crash(at, site::NO_NOTE)
    }
}

// The five states inside a name, each of which hands over what is its own: `ends` tells whether the byte ends this one.
pub fn in_a_name(b: u16, ends: bool, same: u8, marks: Marks, after: u8, at: u8, note: u8) -> Move
    ensures { result ≡ jsx.in_a_name b ends same marks after at note }
{
    if ends {
        whitespace_here(marks, after)
    } else if char_class::id_cont(b) {
        eat(same, Marks::Nothing)
    } else {
        crash(at, note)
    }
}

// Start of a tag.
//
//     > | a <B /> c
//           ^
pub fn start(b: u16, token: u8) -> Move
    ensures { result ≡ jsx.start b token }
{
    if b == byte::LESS_THAN {
        let marks = Marks::Three(
            Mark::Enter(token),
            Mark::Enter(kind::JSX_TAG_MARKER),
            Mark::Leave(kind::JSX_TAG_MARKER),
        );
        eat(state::MDX_JSX_START_AFTER, marks)
    } else {
        retry(state::NOK, Marks::Nothing)
    }
}

// `<` and what markdown takes for white space begin no tag, and that is no error.
const NO_TAG: u8 = state::NOK;

// After `<`. Markdown's own white space here means that there is no tag, as in `1 < 3`.
//
//     > | a <B /> c
//            ^
pub fn start_after(b: u16) -> Move
    ensures { result ≡ jsx.start_after b }
{
    if char_class::space_or_tab(b) || b == byte::LINE_FEED {
        retry(NO_TAG, Marks::Nothing)
    } else {
        whitespace_here(Marks::Nothing, state::MDX_JSX_NAME_BEFORE)
    }
}

// After the slash that ends a tag.
//
//     > | a <b/> c
//              ^
pub fn self_closing(b: u16) -> Move
    ensures { result ≡ jsx.self_closing b }
{
    if b == byte::GREATER_THAN {
        retry(state::MDX_JSX_TAG_END, Marks::Nothing)
    } else if b == byte::SLASH {
        crash(site::AFTER_SELF_CLOSING_SLASH, site::COMMENT_IN_TAG)
    } else {
        crash(site::AFTER_SELF_CLOSING_SLASH, site::NO_NOTE)
    }
}

// At the final `>`, which the state before has seen.
//
//     > | a <b> c
//             ^
pub fn tag_end(b: u16, token: u8) -> Move
    ensures { result ≡ jsx.tag_end b token }
{
    if b == byte::GREATER_THAN {
        let marks = Marks::Three(
            Mark::Enter(kind::JSX_TAG_MARKER),
            Mark::Leave(kind::JSX_TAG_MARKER),
            Mark::Leave(token),
        );
        eat(state::DONE, marks)
    } else {
        crash(site::NOWHERE, site::NO_NOTE)
    }
}

// Before optional white space, after which `back` goes on.
//
//     > | a <a b> c
//             ^
pub fn es_whitespace_start(b: u16, back: u8) -> Move
    ensures { result ≡ jsx.es_whitespace_start b back }
{
    if b == byte::LINE_FEED {
        let marks = Marks::Two(
            Mark::Enter(kind::LINE_ENDING),
            Mark::Leave(kind::LINE_ENDING),
        );
        eat(state::MDX_JSX_ES_WHITESPACE_EOL_AFTER, marks)
    } else if whitespace_or_end(b) {
        let marks = Marks::One(Mark::Enter(kind::JSX_ES_WHITESPACE));
        retry(state::MDX_JSX_ES_WHITESPACE_INSIDE, marks)
    } else {
        retry(back, Marks::Nothing)
    }
}

// In white space. A page that ends here holds no tag.
//
//     > | a <a  b> c
//              ^
pub fn es_whitespace_inside(b: u16, back: u8) -> Move
    ensures { result ≡ jsx.es_whitespace_inside b back }
{
    if b == byte::LINE_FEED {
        let marks = Marks::One(Mark::Exit(kind::JSX_ES_WHITESPACE));
        retry(state::MDX_JSX_ES_WHITESPACE_START, marks)
    } else if b == byte::END_OF_PAGE {
        retry(state::NOK, Marks::Nothing)
    } else if char_class::whitespace(b) {
        eat(state::MDX_JSX_ES_WHITESPACE_INSIDE, Marks::Nothing)
    } else {
        let marks = Marks::One(Mark::Exit(kind::JSX_ES_WHITESPACE));
        retry(back, marks)
    }
}

// After a line ending in white space.
//
//       | a <a
//     > | b> c
//         ^
pub fn es_whitespace_eol_after() -> Move
    ensures { result ≡ jsx.es_whitespace_eol_after }
{
    retry(state::MDX_JSX_ES_WHITESPACE_START, Marks::Nothing)
}

// Before optional white space, but after the `=` of a plain attribute: the Rust retries here with the byte already eaten, so that
// it looks at the next one without being fed it.
//
//     > | a <b c="d"/> e
//                ^
pub fn es_whitespace_start_retried(b: u16, back: u8) -> Move
    ensures { result ≡ jsx.es_whitespace_start_retried b back }
{
    if whitespace_or_end(b) {
        let marks = Marks::One(Mark::Enter(kind::JSX_ES_WHITESPACE));
        retry(state::MDX_JSX_ES_WHITESPACE_INSIDE_RETRIED, marks)
    } else {
        retry(back, Marks::Nothing)
    }
}

// In white space that the state before saw and that was never fed: to the Rust the page has ended.
//
//     > | a <b c= "d"/> e
//                ^
pub fn es_whitespace_inside_retried() -> Move
    ensures { result ≡ jsx.es_whitespace_inside_retried }
{
    retry(state::NOK, Marks::Nothing)
}
