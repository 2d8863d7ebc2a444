// The name of a tag: the states of `partial_mdx_jsx.rs` from the name to the first attribute.
#![tactic(auto, using(base::proofs::Choice::picks))]

ghost use Rattle.std.specs.Prelude.{◌≡◌};
ghost use Rattle.mdx_jsx_name.specs.Name as name;

use base::{Mark, Marks, Move, byte, eat, kind, retry, state};
use mdx_jsx::{
    crash, in_a_name, marker, name_followed, part_begins, site, tag_goes_on, whitespace_or_end,
};

// What is noted of `@` in a name: it may be meant for a link.
fn link_note(b: u16) -> u8
    ensures { result ≡ name.link_note b }
{
    if b == byte::AT_SIGN {
        site::LINK_IN_MDX
    } else {
        site::NO_NOTE
    }
}

// A name starts with this byte.
fn name_starts() -> Move
    ensures { result ≡ name.name_starts }
{
    let marks = Marks::Two(
        Mark::Enter(kind::JSX_TAG_NAME),
        Mark::Enter(kind::JSX_TAG_NAME_PRIMARY),
    );
    eat(state::MDX_JSX_PRIMARY_NAME, marks)
}

// Before a name, the slash of a closing tag, or the end of a fragment's tag.
//
//     > | a <B> c
//            ^
//     > | a </B> c
//            ^
//     > | a <> b
//            ^
pub fn name_before(b: u16) -> Move
    ensures { result ≡ name.name_before b }
{
    if b == byte::SLASH {
        marker(
            kind::JSX_TAG_CLOSING_MARKER,
            state::MDX_JSX_CLOSING_TAG_NAME_BEFORE,
        )
    } else if b == byte::GREATER_THAN {
        retry(state::MDX_JSX_TAG_END, Marks::Nothing)
    } else if char_class::id_start(b) {
        name_starts()
    } else if b == byte::EXCLAMATION_MARK {
        crash(site::BEFORE_NAME, site::COMMENT_IN_MDX)
    } else {
        crash(site::BEFORE_NAME, site::NO_NOTE)
    }
}

// Before the name of a closing tag, or the end of a closing fragment's.
//
//     > | a </> b
//             ^
//     > | a </B> c
//             ^
pub fn closing_tag_name_before(b: u16) -> Move
    ensures { result ≡ name.closing_tag_name_before b }
{
    if b == byte::GREATER_THAN {
        retry(state::MDX_JSX_TAG_END, Marks::Nothing)
    } else if char_class::id_start(b) {
        name_starts()
    } else if b == byte::SLASH {
        crash(site::BEFORE_NAME, site::COMMENT_IN_TAG)
    } else {
        crash(site::BEFORE_NAME, site::NO_NOTE)
    }
}

// What ends a primary name. The names of a tag and of an attribute end at different bytes, and each function says its own.
fn primary_name_ends(b: u16) -> bool
    ensures { result ≡ name.primary_name_ends b }
{
    whitespace_or_end(b) || b == byte::DOT || b == byte::COLON || tag_goes_on(b)
}

// In the first identifier of a name.
//
//     > | a <Bc> d
//             ^
pub fn primary_name(b: u16) -> Move
    ensures { result ≡ name.primary_name b }
{
    in_a_name(
        b,
        primary_name_ends(b),
        state::MDX_JSX_PRIMARY_NAME,
        Marks::One(Mark::Exit(kind::JSX_TAG_NAME_PRIMARY)),
        state::MDX_JSX_PRIMARY_NAME_AFTER,
        site::IN_NAME,
        link_note(b),
    )
}

// The whole name is over.
fn name_ends() -> Move
    ensures { result ≡ name.name_ends }
{
    let marks = Marks::One(Mark::Exit(kind::JSX_TAG_NAME));
    retry(state::MDX_JSX_ATTRIBUTE_BEFORE, marks)
}

// A `.`: a member name follows.
fn member_starts() -> Move
    ensures { result ≡ name.member_starts }
{
    marker(
        kind::JSX_TAG_NAME_MEMBER_MARKER,
        state::MDX_JSX_MEMBER_NAME_BEFORE,
    )
}

// After the first identifier of a name.
//
//     > | a <b.c> d
//             ^
//     > | a <b:c> d
//             ^
pub fn primary_name_after(b: u16) -> Move
    ensures { result ≡ name.primary_name_after b }
{
    if b == byte::DOT {
        member_starts()
    } else if b == byte::COLON {
        marker(
            kind::JSX_TAG_NAME_PREFIX_MARKER,
            state::MDX_JSX_LOCAL_NAME_BEFORE,
        )
    } else if name_followed(b) {
        name_ends()
    } else {
        crash(site::AFTER_NAME, site::NO_NOTE)
    }
}

// Before a member name.
//
//     > | a <b.c> d
//              ^
pub fn member_name_before(b: u16) -> Move
    ensures { result ≡ name.member_name_before b }
{
    part_begins(
        b,
        kind::JSX_TAG_NAME_MEMBER,
        state::MDX_JSX_MEMBER_NAME,
        site::BEFORE_MEMBER_NAME,
    )
}

// What ends a member name: a `:` does not.
fn member_name_ends(b: u16) -> bool
    ensures { result ≡ name.member_name_ends b }
{
    whitespace_or_end(b) || b == byte::DOT || tag_goes_on(b)
}

// In a member name.
//
//     > | a <b.cd> e
//               ^
pub fn member_name(b: u16) -> Move
    ensures { result ≡ name.member_name b }
{
    in_a_name(
        b,
        member_name_ends(b),
        state::MDX_JSX_MEMBER_NAME,
        Marks::One(Mark::Exit(kind::JSX_TAG_NAME_MEMBER)),
        state::MDX_JSX_MEMBER_NAME_AFTER,
        site::IN_MEMBER_NAME,
        link_note(b),
    )
}

// After a member name.
//
//     > | a <b.c> d
//               ^
//     > | a <b.c.d> e
//               ^
pub fn member_name_after(b: u16) -> Move
    ensures { result ≡ name.member_name_after b }
{
    if b == byte::DOT {
        member_starts()
    } else if name_followed(b) {
        name_ends()
    } else {
        crash(site::AFTER_MEMBER_NAME, site::NO_NOTE)
    }
}

// What may be meant for a link after `<https:`.
#[tactic(auto, using(base::proofs::Choice::picks, base::proofs::Ranges::ranges))]
fn link_like(b: u16) -> bool
    ensures { result ≡ name.link_like b }
{
    matches!(b, byte::PLUS_SIGN | byte::SLASH..=byte::DIGIT_9)
}

// Before a local name. Not by `part_begins`: the note of a byte that begins none depends on the byte.
//
//     > | a <b:c> d
//              ^
pub fn local_name_before(b: u16) -> Move
    ensures { result ≡ name.local_name_before b }
{
    if char_class::id_start(b) {
        let marks = Marks::One(Mark::Enter(kind::JSX_TAG_NAME_LOCAL));
        eat(state::MDX_JSX_LOCAL_NAME, marks)
    } else if link_like(b) {
        crash(site::BEFORE_LOCAL_NAME, site::LINK_IN_MDX)
    } else {
        crash(site::BEFORE_LOCAL_NAME, site::NO_NOTE)
    }
}

// What ends a local name: `.` and `:` do not.
fn local_name_ends(b: u16) -> bool
    ensures { result ≡ name.local_name_ends b }
{
    whitespace_or_end(b) || tag_goes_on(b)
}

// In a local name.
//
//     > | a <b:cd> e
//               ^
pub fn local_name(b: u16) -> Move
    ensures { result ≡ name.local_name b }
{
    in_a_name(
        b,
        local_name_ends(b),
        state::MDX_JSX_LOCAL_NAME,
        Marks::One(Mark::Exit(kind::JSX_TAG_NAME_LOCAL)),
        state::MDX_JSX_LOCAL_NAME_AFTER,
        site::IN_LOCAL_NAME,
        site::NO_NOTE,
    )
}

// After a local name.
//
//     > | a <b:c> d
//               ^
pub fn local_name_after(b: u16) -> Move
    ensures { result ≡ name.local_name_after b }
{
    if name_followed(b) {
        name_ends()
    } else {
        crash(site::AFTER_LOCAL_NAME, site::NO_NOTE)
    }
}
