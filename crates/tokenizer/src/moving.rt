// What a decision does to a tokenizer: its next state, its place, and its registers.
ghost use Rattle.std.specs.Prelude.{◌≡◌, ◌-◌};
ghost use Rattle.tokenizer.specs.Moved.{most_braces, longest_prefix, one_more, first_joint, next_place, place_after, changed, moved};

use crate::{Regs, Tokenizer};
use base::{Effect, Move};

// No page holds more braces than bytes.
pub const MOST_BRACES: u32 = 1_048_576;

// A line prefix has two columns at the most.
pub const LONGEST_PREFIX: u8 = 2;

// One more brace than `depth`.
// Not generic with `one_longer`: a bound on types that have a sum, an order and a one, with the laws that the proof needs, is longer than both.
pub fn one_deeper(depth: u32) -> u32
    ensures { result ≡ one_more depth most_braces }
{
    if depth < MOST_BRACES {
        depth + 1
    } else {
        depth
    }
}

// One brace less, and none less than none.
pub fn one_shallower(depth: u32) -> u32
    ensures { result ≡ depth - 1 }
{
    depth.saturating_sub(1)
}

// One column more in a line prefix, which has two at the most.
fn one_longer(prefix: u8) -> u8
    ensures { result ≡ one_more prefix longest_prefix }
{
    if prefix < LONGEST_PREFIX {
        prefix + 1
    } else {
        prefix
    }
}

// The first line prefix of a body stays the first.
fn first_joint(joint: usize, at: usize) -> usize
    ensures { result ≡ first_joint joint at }
{
    if joint == 0 { at } else { joint }
}

// The place after the byte, where it is eaten and there is one.
fn next_place(at: usize, eat: bool, length: usize) -> usize
    ensures { result ≡ next_place at eat length }
{
    if eat && at < length { at + 1 } else { at }
}

// The place of the next step.
fn place_after(effect: Effect, next: usize, saved: usize) -> usize
    ensures { result ≡ place_after effect next saved }
{
    match effect {
        Effect::Restore => saved,
        _ => next,
    }
}

impl Regs {
    // The registers after a step from `at`, when the next byte stands at `next`.
    fn changed(self, effect: Effect, at: usize, next: usize) -> Self
        ensures { result ≡ changed effect at next self }
    {
        let mut out = self;
        match effect {
            Effect::Keep | Effect::Restore => {}
            Effect::Deeper => out.depth = one_deeper(self.depth),
            Effect::Shallower => out.depth = one_shallower(self.depth),
            Effect::Open => {
                out.body = next;
                out.joint = 0;
            }
            Effect::PrefixBegins => out.joint = first_joint(self.joint, at),
            Effect::PrefixGoesOn => out.prefix = one_longer(self.prefix),
            Effect::PrefixEnds => out.prefix = 0,
            Effect::PrefixInTab(_) => out.prefix = LONGEST_PREFIX,
            Effect::Quote(quote) => out.quote = quote,
            Effect::Return(name) => out.back = name,
            Effect::Save => out.saved = at,
            Effect::Last(n) => out.last = n,
            Effect::Fault(n, place) => {
                out.last = n;
                out.fault = place;
            }
            Effect::Refuse(site, note) => {
                out.site = site;
                out.note = note;
            }
        }
        out
    }
}

impl Tokenizer {
    // The tokenizer after a decision of its state.
    #[tactic(auto, unfolding(crate::specs::Moved::moved))]
    pub fn moved(self, m: Move) -> Self
        ensures { result ≡ moved self m }
    {
        let job = self.job;
        let regs = self.regs;
        let heard = self.heard;
        let effect = m.effect;
        let next = next_place(self.at, m.eat, job.length);
        let at = place_after(effect, next, regs.saved);
        let regs = regs.changed(effect, self.at, next);
        Tokenizer {
            job,
            state: m.next,
            at,
            regs,
            heard,
        }
    }
}
