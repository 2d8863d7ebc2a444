// `import` and `export` blocks: the states of `mdx_esm.rs`, and the look-ahead for a blank line.
#![tactic(auto, using(base::proofs::Choice::picks))]

ghost use Rattle.std.specs.Prelude.{◌≡◌};
ghost use Rattle.mdx_esm.specs.Esm as esm;
ghost use Rattle.mdx_esm.specs.Word.{is_word};

use base::{Effect, Mark, Marks, Move, Verdict, byte, eat, kind, retry, retry_with, state};

// Whether a block may begin at this byte.
fn begins(b: u16, allowed: bool) -> bool
    ensures { result ≡ esm.begins b allowed }
{
    allowed && matches!(b, byte::SMALL_E | byte::SMALL_I)
}

// Start of a block. It is allowed where a verdict source is at hand, nothing is interrupted, and the column is 1.
//
//     > | import a from 'b'
//         ^
pub fn start(b: u16, allowed: bool) -> Move
    ensures { result ≡ esm.start b allowed }
{
    if begins(b, allowed) {
        let marks = Marks::Two(Mark::Enter(kind::ESM), Mark::Enter(kind::ESM_DATA));
        eat(state::MDX_ESM_WORD, marks)
    } else {
        retry(state::NOK, Marks::Nothing)
    }
}

// A lower-case letter.
#[tactic(auto, using(base::proofs::Choice::picks, base::proofs::Ranges::ranges))]
fn in_word(b: u16) -> bool
    ensures { result ≡ esm.in_word b }
{
    matches!(b, byte::SMALL_A..=byte::SMALL_Z)
}

// The space that must follow `export` or `import`.
fn word_ends(b: u16, is_word: bool) -> bool
    ensures { result ≡ esm.word_ends b is_word }
{
    is_word && b == byte::SPACE
}

// In the keyword.
//
//     > | import a from 'b'
//         ^^^^^^
pub fn word(b: u16, is_word: bool) -> Move
    ensures { result ≡ esm.word b is_word }
{
    if in_word(b) {
        eat(state::MDX_ESM_WORD, Marks::Nothing)
    } else if word_ends(b, is_word) {
        eat(state::MDX_ESM_INSIDE, Marks::Nothing)
    } else {
        retry(state::NOK, Marks::Nothing)
    }
}

// A line is over.
pub fn line_ends(b: u16) -> bool
    ensures { result ≡ esm.line_ends b }
{
    matches!(b, byte::LINE_FEED | byte::END_OF_PAGE)
}

// In a line.
//
//     > | import a from 'b'
//               ^
pub fn inside(b: u16) -> Move
    ensures { result ≡ esm.inside b }
{
    if line_ends(b) {
        let marks = Marks::One(Mark::Exit(kind::ESM_DATA));
        retry(state::MDX_ESM_LINE_START, marks)
    } else {
        eat(state::MDX_ESM_INSIDE, Marks::Nothing)
    }
}

// At the start of a line, or at the line ending of the one before.
//
//       | import a from 'b'
//     > | export {a}
//         ^
pub fn line_start(b: u16) -> Move
    ensures { result ≡ esm.line_start b }
{
    if b == byte::END_OF_PAGE {
        retry(state::MDX_ESM_AT_END, Marks::Nothing)
    } else if b == byte::LINE_FEED {
        retry_with(
            state::MDX_ESM_BLANK_LINE_BEFORE,
            Marks::Nothing,
            Effect::Save,
        )
    } else {
        let marks = Marks::One(Mark::Enter(kind::ESM_DATA));
        eat(state::MDX_ESM_INSIDE, marks)
    }
}

// At a line ending after which the block goes on.
//
//     > | import a from 'b'
//                          ^
//       | export {a}
pub fn continuation_start() -> Move
    ensures { result ≡ esm.continuation_start }
{
    let marks = Marks::Two(
        Mark::Enter(kind::LINE_ENDING),
        Mark::Leave(kind::LINE_ENDING),
    );
    eat(state::MDX_ESM_LINE_START, marks)
}

// At a line ending, looking ahead.
//
//     > | import a from 'b'
//                          ^
//       | export {a}
pub fn blank_line_before() -> Move
    ensures { result ≡ esm.blank_line_before }
{
    eat(state::MDX_ESM_BLANK_LINE, Marks::Nothing)
}

// In what may be a blank line, looking ahead.
//
//       | import a from 'b'
//     > | export {a}
//         ^
pub fn blank_line(b: u16) -> Move
    ensures { result ≡ esm.blank_line b }
{
    if char_class::space_or_tab(b) {
        eat(state::MDX_ESM_BLANK_LINE, Marks::Nothing)
    } else if line_ends(b) {
        retry_with(state::MDX_ESM_AT_END, Marks::Nothing, Effect::Restore)
    } else {
        retry_with(
            state::MDX_ESM_CONTINUATION_START,
            Marks::Nothing,
            Effect::Restore,
        )
    }
}

// At the end of the last line, if the verdict agrees.
//
//     > | import a from 'b'
//                          ^
pub fn at_end() -> Move
    ensures { result ≡ esm.at_end }
{
    retry(state::ASKING, Marks::Nothing)
}

// Whether the block's last event stands behind the line ending: the crate takes the place at which it last began a line.
fn exits_behind(b: u16, after_line_feed: bool) -> bool
    ensures { result ≡ esm.exits_behind b after_line_feed }
{
    after_line_feed && b == byte::LINE_FEED
}

// The block is over.
fn exits(b: u16, after_line_feed: bool) -> Move
    ensures { result ≡ esm.exits b after_line_feed }
{
    if exits_behind(b, after_line_feed) {
        let marks = Marks::One(Mark::Leave(kind::ESM));
        retry(state::DONE, marks)
    } else {
        let marks = Marks::One(Mark::Exit(kind::ESM));
        retry(state::DONE, marks)
    }
}

// The block is not over: it goes on in the next line, if there is one.
fn unfinished(b: u16, n: u32) -> Move
    ensures { result ≡ esm.unfinished b n }
{
    if b == byte::END_OF_PAGE {
        retry_with(state::VERDICT_EOF, Marks::Nothing, Effect::Last(n))
    } else {
        retry_with(
            state::MDX_ESM_CONTINUATION_START,
            Marks::Nothing,
            Effect::Last(n),
        )
    }
}

// Where a verdict was given on the lines so far. An error stands at `place`.
//
//     > | import a from 'b'
//                          ^
pub fn verdict(v: Verdict, b: u16, after_line_feed: bool, place: usize) -> Move
    ensures { result ≡ esm.verdict v b after_line_feed place }
{
    match v {
        Verdict::Fine => exits(b, after_line_feed),
        Verdict::Unfinished(n) => unfinished(b, n),
        Verdict::Wrong(n, _) => retry_with(
            state::VERDICT_ERROR,
            Marks::Nothing,
            Effect::Fault(n, place),
        ),
    }
}

// Whether the bytes from the start of the block up to a place are `export` or `import`.
pub fn is_word(page: &[u8], start: usize, at: usize) -> bool
    ensures { result ≡ is_word page.now start at }
{
    match page.get(start..at) {
        Some(word) => word == b"export".as_slice() || word == b"import".as_slice(),
        None => false,
    }
}
