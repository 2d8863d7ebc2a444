// Which tokenizers a call can have given: the ranges of docs/NUMBERS.md.
ghost use Rattle.std.specs.Prelude.{◌≡◌};
ghost use Rattle.base.specs.Range.{within};
ghost use Rattle.tokenizer.specs.Ranges.{largest_number, construct_listed, kind_listed, job_in_range, runs_in, is_answer, listed, is_return, verdict_in_range, numbers_in_range, places_in_range, regs_in_range, in_range};

use crate::moving::{LONGEST_PREFIX, MOST_BRACES};
use crate::{ESM, EXPRESSION, FLOW, Job, Regs, TEXT, Tokenizer};
use base::{PAGE_LIMIT, Verdict, byte, state};

// A verdict has a number from 1 up to this one.
const LARGEST_NUMBER: u32 = 65535;

// The last where-number and the last note of docs/NUMBERS.md: numbers, since those are.
const LAST_SITE: u8 = 19;

const LAST_NOTE: u8 = 4;

// The construct's number is listed.
#[tactic(auto, using(base::proofs::Choice::picks, base::proofs::Ranges::ranges), unfolding(crate::specs::Ranges::construct_listed))]
pub fn construct_listed(construct: u8) -> bool
    ensures { result ≡ construct_listed construct }
{
    matches!(construct, EXPRESSION..=ESM)
}

// The kind's number is listed.
#[tactic(auto, using(base::proofs::Choice::picks, base::proofs::Ranges::ranges), unfolding(crate::specs::Ranges::kind_listed))]
pub fn kind_listed(kind: u8) -> bool
    ensures { result ≡ kind_listed kind }
{
    matches!(kind, FLOW..=TEXT)
}

// A scan ends with one of these answers, once it has begun.
#[tactic(auto, using(base::proofs::Choice::picks, base::proofs::Ranges::ranges), unfolding(crate::specs::Ranges::is_answer))]
fn is_answer(name: u8) -> bool
    ensures { result ≡ is_answer name }
{
    matches!(name, state::DONE..=state::NOK | state::NOT_ASCII..=state::FULL)
}

// The states that a scan runs in, by its construct.
#[tactic(auto, using(base::proofs::Choice::picks, base::proofs::Ranges::ranges), unfolding(crate::specs::Ranges::runs_in))]
fn runs_in(construct: u8, name: u8) -> bool
    ensures { result ≡ runs_in construct name }
{
    if construct == ESM {
        matches!(name, state::MDX_ESM_START..=state::MDX_ESM_VERDICT)
    } else {
        matches!(
            name,
            state::MDX_EXPRESSION_START..=state::MDX_JSX_ES_WHITESPACE_INSIDE_RETRIED
        )
    }
}

// Whether a scan of the construct can be in the state.
#[tactic(auto, using(base::proofs::Choice::picks), unfolding(crate::specs::Ranges::listed))]
fn listed(construct: u8, name: u8) -> bool
    ensures { result ≡ listed construct name }
{
    is_answer(name) || name == state::ASKING || runs_in(construct, name)
}

// Whether white space or an expression can return to the state.
#[tactic(auto, using(base::proofs::Choice::picks, base::proofs::Ranges::ranges), unfolding(crate::specs::Ranges::is_return))]
fn is_return(name: u8) -> bool
    ensures { result ≡ is_return name }
{
    name == 0
        || matches!(
            name,
            state::MDX_JSX_ATTRIBUTE_VALUE_QUOTED_START..=state::MDX_JSX_ATTRIBUTE_VALUE_EXPRESSION_AFTER
        )
}

// The number of a verdict is 1 to 65,535.
#[tactic(auto, using(base::proofs::Ranges::ranges))]
fn number_in_range(n: u32) -> bool
    ensures { result ≡ within 1 largest_number n }
{
    matches!(n, 1..=LARGEST_NUMBER)
}

// Whether a verdict can be heard.
#[tactic(auto, using(base::proofs::Choice::picks), unfolding(crate::specs::Ranges::verdict_in_range))]
pub fn verdict_in_range(v: Verdict) -> bool
    ensures { result ≡ verdict_in_range v }
{
    match v {
        Verdict::Fine => true,
        Verdict::Unfinished(n) | Verdict::Wrong(n, _) => number_in_range(n),
    }
}

impl Job {
    #[tactic(auto, using(base::proofs::Choice::picks), unfolding(crate::specs::Ranges::job_in_range))]
    fn in_range(self) -> bool
        ensures { result ≡ job_in_range self }
    {
        self.length <= PAGE_LIMIT
            && self.start <= self.length
            && construct_listed(self.construct)
            && kind_listed(self.kind)
    }
}

impl Regs {
    // Whether the registers that are no places and no states are in range.
    #[tactic(auto, using(base::proofs::Choice::picks), unfolding(crate::specs::Ranges::numbers_in_range))]
    fn numbers_in_range(self) -> bool
        ensures { result ≡ numbers_in_range self }
    {
        self.depth <= MOST_BRACES
            && self.prefix <= LONGEST_PREFIX
            && self.quote <= byte::LAST_BYTE
            && self.last <= LARGEST_NUMBER
            && self.site <= LAST_SITE
            && self.note <= LAST_NOTE
    }

    // Whether the places are in a page of n bytes.
    #[tactic(auto, using(base::proofs::Choice::picks), unfolding(crate::specs::Ranges::places_in_range))]
    fn places_in_range(self, n: usize) -> bool
        ensures { result ≡ places_in_range n self }
    {
        self.saved <= n && self.body <= n && self.joint <= n
    }

    // Whether a scan over a page of n bytes can have these registers.
    #[tactic(auto, using(base::proofs::Choice::picks), unfolding(crate::specs::Ranges::regs_in_range))]
    fn in_range(self, n: usize) -> bool
        ensures { result ≡ regs_in_range n self }
    {
        is_return(self.back) && self.numbers_in_range() && self.places_in_range(n)
    }
}

impl Tokenizer {
    // Whether a call can have given this tokenizer.
    #[tactic(auto, using(base::proofs::Choice::picks), unfolding(crate::specs::Ranges::in_range))]
    pub fn in_range(self) -> bool
        ensures { result ≡ in_range self }
    {
        let job = self.job;
        self.at <= job.length
            && job.in_range()
            && listed(job.construct, self.state)
            && self.regs.in_range(job.length)
            && verdict_in_range(self.heard)
    }
}
