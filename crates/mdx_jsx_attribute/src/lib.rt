// The attributes of a tag: the states of `partial_mdx_jsx.rs` from the name to the end of the tag.
#![tactic(auto, using(base::proofs::Choice::picks))]

ghost use Rattle.std.specs.Prelude.{◌≡◌};
ghost use Rattle.mdx_jsx_attribute.specs.Attribute as attribute;

use base::{
    Effect, Mark, Marks, Move, byte, eat, eat_with, kind, refuse, retry, retry_with, state,
};
use mdx_jsx::{
    crash, in_a_name, marker, name_followed, part_begins, site, tag_goes_on, whitespace_after,
    whitespace_here, whitespace_or_end,
};

// Before an attribute, the slash that ends the tag, or its end.
//
//     > | a <b /> c
//              ^
//     > | a <b {...c}> d
//              ^
//     > | a <b c> d
//              ^
pub fn attribute_before(b: u16) -> Move
    ensures { result ≡ attribute.attribute_before b }
{
    if b == byte::SLASH {
        marker(
            kind::JSX_TAG_SELF_CLOSING_MARKER,
            state::MDX_JSX_SELF_CLOSING,
        )
    } else if b == byte::GREATER_THAN {
        retry(state::MDX_JSX_TAG_END, Marks::Nothing)
    } else if b == byte::LEFT_BRACE {
        let back = Effect::Return(state::MDX_JSX_ATTRIBUTE_EXPRESSION_AFTER);
        retry_with(state::MDX_EXPRESSION_START, Marks::Nothing, back)
    } else if char_class::id_start(b) {
        let marks = Marks::Three(
            Mark::Enter(kind::JSX_TAG_ATTRIBUTE),
            Mark::Enter(kind::JSX_TAG_ATTRIBUTE_NAME),
            Mark::Enter(kind::JSX_TAG_ATTRIBUTE_PRIMARY_NAME),
        );
        eat(state::MDX_JSX_ATTRIBUTE_PRIMARY_NAME, marks)
    } else {
        crash(site::BEFORE_ATTRIBUTE_NAME, site::NO_NOTE)
    }
}

// After an attribute that is an expression.
//
//     > | a <b {c} d/> e
//                 ^
pub fn attribute_expression_after() -> Move
    ensures { result ≡ attribute.attribute_expression_after }
{
    whitespace_here(Marks::Nothing, state::MDX_JSX_ATTRIBUTE_BEFORE)
}

// What ends the first identifier of an attribute's name. The names' parts end at different bytes, and each function says its own.
fn attribute_primary_name_ends(b: u16) -> bool
    ensures { result ≡ attribute.attribute_primary_name_ends b }
{
    whitespace_or_end(b) || b == byte::COLON || b == byte::EQUALS_SIGN || tag_goes_on(b)
}

// In the first identifier of an attribute's name.
//
//     > | a <b cd/> e
//               ^
pub fn attribute_primary_name(b: u16) -> Move
    ensures { result ≡ attribute.attribute_primary_name b }
{
    in_a_name(
        b,
        attribute_primary_name_ends(b),
        state::MDX_JSX_ATTRIBUTE_PRIMARY_NAME,
        Marks::One(Mark::Exit(kind::JSX_TAG_ATTRIBUTE_PRIMARY_NAME)),
        state::MDX_JSX_ATTRIBUTE_PRIMARY_NAME_AFTER,
        site::IN_ATTRIBUTE_NAME,
        site::NO_NOTE,
    )
}

// What follows an attribute without a value.
fn attribute_followed(b: u16) -> bool
    ensures { result ≡ attribute.attribute_followed b }
{
    whitespace_or_end(b) || name_followed(b)
}

// After the first identifier of an attribute's name. After `=` the Rust retries the white space state with the byte eaten.
//
//     > | a <b c/> d
//               ^
//     > | a <b c:d> e
//               ^
//     > | a <b c=d> e
//               ^
pub fn attribute_primary_name_after(b: u16) -> Move
    ensures { result ≡ attribute.attribute_primary_name_after b }
{
    if b == byte::COLON {
        marker(
            kind::JSX_TAG_ATTRIBUTE_NAME_PREFIX_MARKER,
            state::MDX_JSX_ATTRIBUTE_LOCAL_NAME_BEFORE,
        )
    } else if b == byte::EQUALS_SIGN {
        let marks = Marks::Three(
            Mark::Exit(kind::JSX_TAG_ATTRIBUTE_NAME),
            Mark::Enter(kind::JSX_TAG_ATTRIBUTE_INITIALIZER_MARKER),
            Mark::Leave(kind::JSX_TAG_ATTRIBUTE_INITIALIZER_MARKER),
        );
        let back = Effect::Return(state::MDX_JSX_ATTRIBUTE_VALUE_BEFORE);
        eat_with(state::MDX_JSX_ES_WHITESPACE_START_RETRIED, marks, back)
    } else if attribute_followed(b) {
        let marks = Marks::Two(
            Mark::Exit(kind::JSX_TAG_ATTRIBUTE_NAME),
            Mark::Exit(kind::JSX_TAG_ATTRIBUTE),
        );
        whitespace_here(marks, state::MDX_JSX_ATTRIBUTE_BEFORE)
    } else {
        crash(site::AFTER_ATTRIBUTE_NAME, site::NO_NOTE)
    }
}

// Before the local part of an attribute's name.
//
//     > | a <b c:d/> e
//                ^
pub fn attribute_local_name_before(b: u16) -> Move
    ensures { result ≡ attribute.attribute_local_name_before b }
{
    part_begins(
        b,
        kind::JSX_TAG_ATTRIBUTE_NAME_LOCAL,
        state::MDX_JSX_ATTRIBUTE_LOCAL_NAME,
        site::BEFORE_LOCAL_ATTRIBUTE_NAME,
    )
}

// What ends the local part of an attribute's name: a `:` does not.
fn attribute_local_name_ends(b: u16) -> bool
    ensures { result ≡ attribute.attribute_local_name_ends b }
{
    whitespace_or_end(b) || b == byte::EQUALS_SIGN || tag_goes_on(b)
}

// In the local part of an attribute's name.
//
//     > | a <b c:de/> f
//                 ^
pub fn attribute_local_name(b: u16) -> Move
    ensures { result ≡ attribute.attribute_local_name b }
{
    in_a_name(
        b,
        attribute_local_name_ends(b),
        state::MDX_JSX_ATTRIBUTE_LOCAL_NAME,
        Marks::Two(
            Mark::Exit(kind::JSX_TAG_ATTRIBUTE_NAME_LOCAL),
            Mark::Exit(kind::JSX_TAG_ATTRIBUTE_NAME),
        ),
        state::MDX_JSX_ATTRIBUTE_LOCAL_NAME_AFTER,
        site::IN_LOCAL_ATTRIBUTE_NAME,
        site::NO_NOTE,
    )
}

// After the local part of an attribute's name.
//
//     > | a <b c:d/> f
//                 ^
//     > | a <b c:d=e/> f
//                 ^
pub fn attribute_local_name_after(b: u16) -> Move
    ensures { result ≡ attribute.attribute_local_name_after b }
{
    if b == byte::EQUALS_SIGN {
        marker(
            kind::JSX_TAG_ATTRIBUTE_INITIALIZER_MARKER,
            state::MDX_JSX_ATTRIBUTE_VALUE_BEFORE,
        )
    } else if name_followed(b) {
        let marks = Marks::One(Mark::Exit(kind::JSX_TAG_ATTRIBUTE));
        retry(state::MDX_JSX_ATTRIBUTE_BEFORE, marks)
    } else {
        crash(site::AFTER_LOCAL_ATTRIBUTE_NAME, site::NO_NOTE)
    }
}

// A quote that opens a value.
fn opens_value(b: u16) -> bool
    ensures { result ≡ attribute.opens_value b }
{
    matches!(b, byte::QUOTATION_MARK | byte::APOSTROPHE)
}

// After `=`, before a value.
//
//     > | a <b c="d"/> e
//                ^
//     > | a <b c={d}/> e
//                ^
pub fn attribute_value_before(b: u16) -> Move
    ensures { result ≡ attribute.attribute_value_before b }
{
    if opens_value(b) {
        let marks = Marks::Three(
            Mark::Enter(kind::JSX_TAG_ATTRIBUTE_VALUE_LITERAL),
            Mark::Enter(kind::JSX_TAG_ATTRIBUTE_VALUE_LITERAL_MARKER),
            Mark::Leave(kind::JSX_TAG_ATTRIBUTE_VALUE_LITERAL_MARKER),
        );
        eat_with(
            state::MDX_JSX_ATTRIBUTE_VALUE_QUOTED_START,
            marks,
            Effect::Quote(b),
        )
    } else if b == byte::LEFT_BRACE {
        let back = Effect::Return(state::MDX_JSX_ATTRIBUTE_VALUE_EXPRESSION_AFTER);
        retry_with(state::MDX_EXPRESSION_START, Marks::Nothing, back)
    } else if b == byte::LESS_THAN {
        crash(site::BEFORE_ATTRIBUTE_VALUE, site::ELEMENT_AS_VALUE)
    } else {
        crash(site::BEFORE_ATTRIBUTE_VALUE, site::NO_NOTE)
    }
}

// After a value that is an expression.
//
//     > | a <b c={d} e/> f
//                   ^
pub fn attribute_value_expression_after() -> Move
    ensures { result ≡ attribute.attribute_value_expression_after }
{
    let marks = Marks::One(Mark::Exit(kind::JSX_TAG_ATTRIBUTE));
    whitespace_here(marks, state::MDX_JSX_ATTRIBUTE_BEFORE)
}

// In a quoted value, between two runs of it.
//
//     > | a <b c="d"/> e
//                 ^
pub fn attribute_value_quoted_start(b: u16, quote: u16) -> Move
    ensures { result ≡ attribute.attribute_value_quoted_start b quote }
{
    if b == byte::END_OF_PAGE {
        refuse(state::EOF, site::IN_ATTRIBUTE_VALUE, site::NO_NOTE)
    } else if b == quote {
        let marks = Marks::Four(
            Mark::Enter(kind::JSX_TAG_ATTRIBUTE_VALUE_LITERAL_MARKER),
            Mark::Leave(kind::JSX_TAG_ATTRIBUTE_VALUE_LITERAL_MARKER),
            Mark::Leave(kind::JSX_TAG_ATTRIBUTE_VALUE_LITERAL),
            Mark::Leave(kind::JSX_TAG_ATTRIBUTE),
        );
        whitespace_after(marks, state::MDX_JSX_ATTRIBUTE_BEFORE)
    } else if b == byte::LINE_FEED {
        whitespace_here(Marks::Nothing, state::MDX_JSX_ATTRIBUTE_VALUE_QUOTED_START)
    } else {
        let marks = Marks::One(Mark::Enter(kind::JSX_TAG_ATTRIBUTE_VALUE_LITERAL_VALUE));
        retry(state::MDX_JSX_ATTRIBUTE_VALUE_QUOTED, marks)
    }
}

// What ends a run of a quoted value.
pub fn quoted_ends(b: u16, quote: u16) -> bool
    ensures { result ≡ attribute.quoted_ends b quote }
{
    b == quote || b == byte::LINE_FEED || b == byte::END_OF_PAGE
}

// In a run of a quoted value.
//
//     > | a <b c="d"/> e
//                 ^
pub fn attribute_value_quoted(b: u16, quote: u16) -> Move
    ensures { result ≡ attribute.attribute_value_quoted b quote }
{
    if quoted_ends(b, quote) {
        let marks = Marks::One(Mark::Exit(kind::JSX_TAG_ATTRIBUTE_VALUE_LITERAL_VALUE));
        retry(state::MDX_JSX_ATTRIBUTE_VALUE_QUOTED_START, marks)
    } else {
        eat(state::MDX_JSX_ATTRIBUTE_VALUE_QUOTED, Marks::Nothing)
    }
}
