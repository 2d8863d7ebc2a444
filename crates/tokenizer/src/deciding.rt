// Which decision the state of a tokenizer makes: the Rust's `state.rs`, `call`, with what the states read of the tokenizer.
// A match over the state's number chooses, and no table of closures: each arm hands its state what that one reads, and no other.
ghost use Rattle.std.specs.Prelude.{◌≡◌, ◌<◌, ◌^◌};
ghost use Rattle.mdx_jsx.specs.Jsx as jsx;
ghost use Rattle.tokenizer.specs.Decision as decision;

use crate::{TEXT, Tokenizer};
use base::{Marks, Move, Verdict, after_line_feed, byte, in_column_one, kind, retry, state};

// The start of a tag, and its end, with the kind of the tag's own events. Each way names its kind, so that all marks of a tag's decisions
// are constants: a kind that is worked out and put into marks cost every step of a tag. One function for both, with a closure for the state,
// is no plainer: its contract would speak of all closures.
fn tag_start(b: u16, text: u8) -> Move
    ensures { result ≡ jsx.start b (decision.tag_token text) }
{
    if text == TEXT {
        mdx_jsx::start(b, kind::JSX_TEXT_TAG)
    } else {
        mdx_jsx::start(b, kind::JSX_FLOW_TAG)
    }
}

fn tag_end(b: u16, text: u8) -> Move
    ensures { result ≡ jsx.tag_end b (decision.tag_token text) }
{
    if text == TEXT {
        mdx_jsx::tag_end(b, kind::JSX_TEXT_TAG)
    } else {
        mdx_jsx::tag_end(b, kind::JSX_FLOW_TAG)
    }
}

// The kind of an expression's own events: in a tag, by what the expression stands for there. Only the states that write such an event
// work it out: every step would pay for it otherwise.
fn expression_token(text: u8, back: u8) -> u8
    ensures { result ≡ decision.expression_token text back }
{
    if back == state::MDX_JSX_ATTRIBUTE_EXPRESSION_AFTER {
        kind::JSX_TAG_ATTRIBUTE_EXPRESSION
    } else if back == state::MDX_JSX_ATTRIBUTE_VALUE_EXPRESSION_AFTER {
        kind::JSX_TAG_ATTRIBUTE_VALUE_EXPRESSION
    } else if text == TEXT {
        kind::TEXT_EXPRESSION
    } else {
        kind::FLOW_EXPRESSION
    }
}

// A byte that is not ASCII.
#[tactic(auto, using(base::proofs::Ranges::ranges))]
fn not_ascii(b: u16) -> bool
    ensures { result ≡ decision.not_ascii b }
{
    matches!(b, byte::FIRST_NOT_ASCII..=byte::LAST_BYTE)
}

// A tag's state that takes ASCII alone: all but the start and the two of a quoted value.
#[tactic(auto, using(base::proofs::Ranges::ranges))]
fn takes_ascii(name: u8) -> bool
    ensures { result ≡ decision.takes_ascii name }
{
    matches!(
        name,
        state::MDX_JSX_NAME_BEFORE..=state::MDX_JSX_ES_WHITESPACE_INSIDE_RETRIED
    )
}

// Whether the state refuses the byte before it runs.
fn refuses_not_ascii(name: u8, b: u16) -> bool
    ensures { result ≡ decision.refuses_not_ascii name b }
{
    not_ascii(b) && takes_ascii(name)
}

// Where a verdict that says error stands in the body of an expression; any other stands where it was asked for.
// That the place is below 2^63 is asked from here up to `call`, for the sum of a place and a drift: a page's places are, and no type has it.
#[tactic(auto, using(base::proofs::Choice::picks), unfolding(crate::specs::Decision::expression_fault))]
fn expression_fault(page: &[u8], heard: Verdict, from: usize, at: usize) -> usize
    requires { at < 2 ^ 63 }
    ensures { result ≡ decision.expression_fault page.now heard from at }
{
    match heard {
        Verdict::Wrong(_, r) => body_places::expression_place(page, from, at, r),
        _ => at,
    }
}

// The same in an ESM block. One function for both, with a closure for the place, would be no shorter.
#[tactic(auto, using(base::proofs::Choice::picks), unfolding(crate::specs::Decision::esm_fault))]
fn esm_fault(heard: Verdict, from: usize, at: usize) -> usize
    ensures { result ≡ decision.esm_fault heard from at }
{
    match heard {
        Verdict::Wrong(_, r) => body_places::esm_place(from, at, r),
        _ => at,
    }
}

// No state has this number.
fn no_state() -> Move
    ensures { result ≡ decision.no_state }
{
    retry(state::BAD_CALL, Marks::Nothing)
}

impl Tokenizer {
    // Whether an ESM block may begin here.
    fn esm_allowed(self, page: &[u8]) -> bool
        ensures { result ≡ decision.esm_allowed page.now self }
    {
        !self.job.interrupt && self.job.asks && in_column_one(page, self.at)
    }

    // The decision of a state of an ESM block.
    #[tactic(auto, using(base::proofs::Choice::picks), unfolding(crate::specs::Decision::esm_decision, base::specs::Table::find))]
    fn esm_state(self, page: &[u8], b: u16) -> Move
        ensures { result ≡ decision.esm_decision page.now self b }
    {
        let name = self.state;
        let heard = self.heard;
        match name {
            state::MDX_ESM_START => mdx_esm::start(b, self.esm_allowed(page)),
            state::MDX_ESM_WORD => mdx_esm::word(
                b,
                mdx_esm::is_word(page, self.job.start, self.at),
            ),
            state::MDX_ESM_INSIDE => mdx_esm::inside(b),
            state::MDX_ESM_LINE_START => mdx_esm::line_start(b),
            state::MDX_ESM_CONTINUATION_START => mdx_esm::continuation_start(),
            state::MDX_ESM_BLANK_LINE_BEFORE => mdx_esm::blank_line_before(),
            state::MDX_ESM_BLANK_LINE => mdx_esm::blank_line(b),
            state::MDX_ESM_AT_END => mdx_esm::at_end(),
            state::MDX_ESM_VERDICT => mdx_esm::verdict(
                heard,
                b,
                after_line_feed(page, self.at),
                esm_fault(heard, self.job.start, self.at),
            ),
            _ => no_state(),
        }
    }

    // The decision of a state of a tag's attributes.
    #[tactic(auto, using(base::proofs::Choice::picks), unfolding(crate::specs::Decision::attribute_decision, base::specs::Table::find))]
    fn attribute_state(self, b: u16) -> Move
        ensures { result ≡ decision.attribute_decision self b }
    {
        let name = self.state;
        let quote = self.regs.quote;
        match name {
            state::MDX_JSX_ATTRIBUTE_VALUE_QUOTED_START =>
                mdx_jsx_attribute::attribute_value_quoted_start(b, quote),
            state::MDX_JSX_ATTRIBUTE_VALUE_QUOTED => mdx_jsx_attribute::attribute_value_quoted(
                b, quote,
            ),
            state::MDX_JSX_ATTRIBUTE_BEFORE => mdx_jsx_attribute::attribute_before(b),
            state::MDX_JSX_ATTRIBUTE_EXPRESSION_AFTER =>
                mdx_jsx_attribute::attribute_expression_after(),
            state::MDX_JSX_ATTRIBUTE_PRIMARY_NAME => mdx_jsx_attribute::attribute_primary_name(b),
            state::MDX_JSX_ATTRIBUTE_PRIMARY_NAME_AFTER =>
                mdx_jsx_attribute::attribute_primary_name_after(b),
            state::MDX_JSX_ATTRIBUTE_LOCAL_NAME_BEFORE =>
                mdx_jsx_attribute::attribute_local_name_before(b),
            state::MDX_JSX_ATTRIBUTE_LOCAL_NAME => mdx_jsx_attribute::attribute_local_name(b),
            state::MDX_JSX_ATTRIBUTE_LOCAL_NAME_AFTER =>
                mdx_jsx_attribute::attribute_local_name_after(b),
            state::MDX_JSX_ATTRIBUTE_VALUE_BEFORE => mdx_jsx_attribute::attribute_value_before(b),
            state::MDX_JSX_ATTRIBUTE_VALUE_EXPRESSION_AFTER =>
                mdx_jsx_attribute::attribute_value_expression_after(),
            _ => no_state(),
        }
    }

    // The decision of a state of a tag: of its ends, name or white space, or of its attributes.
    fn tag_state(self, b: u16) -> Move
        ensures { result ≡ decision.tag_decision self b }
    {
        let name = self.state;
        let back = self.regs.back;
        let kind = self.job.kind;
        match name {
            state::MDX_JSX_START => tag_start(b, kind),
            state::MDX_JSX_START_AFTER => mdx_jsx::start_after(b),
            state::MDX_JSX_NAME_BEFORE => mdx_jsx_name::name_before(b),
            state::MDX_JSX_CLOSING_TAG_NAME_BEFORE => mdx_jsx_name::closing_tag_name_before(b),
            state::MDX_JSX_TAG_END => tag_end(b, kind),
            state::MDX_JSX_PRIMARY_NAME => mdx_jsx_name::primary_name(b),
            state::MDX_JSX_PRIMARY_NAME_AFTER => mdx_jsx_name::primary_name_after(b),
            state::MDX_JSX_MEMBER_NAME_BEFORE => mdx_jsx_name::member_name_before(b),
            state::MDX_JSX_MEMBER_NAME => mdx_jsx_name::member_name(b),
            state::MDX_JSX_MEMBER_NAME_AFTER => mdx_jsx_name::member_name_after(b),
            state::MDX_JSX_LOCAL_NAME_BEFORE => mdx_jsx_name::local_name_before(b),
            state::MDX_JSX_LOCAL_NAME => mdx_jsx_name::local_name(b),
            state::MDX_JSX_LOCAL_NAME_AFTER => mdx_jsx_name::local_name_after(b),
            state::MDX_JSX_SELF_CLOSING => mdx_jsx::self_closing(b),
            state::MDX_JSX_ES_WHITESPACE_START => mdx_jsx::es_whitespace_start(b, back),
            state::MDX_JSX_ES_WHITESPACE_INSIDE => mdx_jsx::es_whitespace_inside(b, back),
            state::MDX_JSX_ES_WHITESPACE_EOL_AFTER => mdx_jsx::es_whitespace_eol_after(),
            state::MDX_JSX_ES_WHITESPACE_START_RETRIED => mdx_jsx::es_whitespace_start_retried(
                b, back,
            ),
            state::MDX_JSX_ES_WHITESPACE_INSIDE_RETRIED => mdx_jsx::es_whitespace_inside_retried(),
            _ => self.attribute_state(b),
        }
    }

    // The decision of a state of an expression.
    #[tactic(auto, using(base::proofs::Choice::picks), unfolding(crate::specs::Decision::expression_decision, base::specs::Table::find))]
    fn expression_state(self, page: &[u8], b: u16) -> Move
        requires { self.at < 2 ^ 63 }
        ensures { result ≡ decision.expression_decision page.now self b }
    {
        let name = self.state;
        let asks = self.job.asks;
        let heard = self.heard;
        let regs = self.regs;
        let back = regs.back;
        let kind = self.job.kind;
        match name {
            state::MDX_EXPRESSION_START => mdx_expression::start(b, expression_token(kind, back)),
            state::MDX_EXPRESSION_BEFORE => mdx_expression::before(
                b,
                regs.depth,
                asks,
                regs.last,
                expression_token(kind, back),
                back,
            ),
            state::MDX_EXPRESSION_INSIDE => mdx_expression::inside(b, regs.depth, asks),
            state::MDX_EXPRESSION_EOL_AFTER => mdx_expression::eol_after(b),
            state::MDX_EXPRESSION_PREFIX => mdx_expression::prefix(b, regs.prefix),
            state::MDX_EXPRESSION_VERDICT => mdx_expression::verdict(
                heard,
                expression_fault(page, heard, regs.body, self.at),
                expression_token(kind, back),
                back,
            ),
            _ => no_state(),
        }
    }

    // The states are numbered by construct.
    #[tactic(auto, using(base::proofs::Choice::picks, base::proofs::Ranges::ranges), unfolding(crate::specs::Decision::state_decision))]
    fn state_decision(self, page: &[u8], b: u16) -> Move
        requires { self.at < 2 ^ 63 }
        ensures { result ≡ decision.state_decision page.now self b }
    {
        let name = self.state;
        match name {
            state::MDX_EXPRESSION_START..=state::MDX_EXPRESSION_VERDICT => self.expression_state(
                page, b,
            ),
            state::MDX_JSX_START..=state::MDX_JSX_ES_WHITESPACE_INSIDE_RETRIED => self.tag_state(b),
            _ => self.esm_state(page, b),
        }
    }

    // The decision of the state that the scan is in, on the byte b at its place.
    #[tactic(auto, using(base::proofs::Choice::picks), unfolding(crate::specs::Decision::decision))]
    pub fn call(self, page: &[u8], b: u16) -> Move
        requires { self.at < 2 ^ 63 }
        ensures { result ≡ decision.decision page.now self b }
    {
        if refuses_not_ascii(self.state, b) {
            retry(state::NOT_ASCII, Marks::Nothing)
        } else {
            self.state_decision(page, b)
        }
    }
}
