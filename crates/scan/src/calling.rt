// The calls of a scan that was begun: a run with an allowance, one step, a verdict.
ghost use Rattle.std.specs.Prelude.{◌≡◌, [], length};
ghost use Rattle.scan.specs.Call.{scan_in_range, runnable, givable, left_by, run_of, verdict_state, given_scan, give_of};

use crate::stepping::step_bound;
use crate::{Answer, Ran, Scan};
use base::{Verdict, state};
use tokenizer::Tokenizer;
use tokenizer::ranges::verdict_in_range;

// The state that applies a verdict, by the construct.
#[tactic(auto, using(base::proofs::Choice::picks))]
pub fn verdict_state(construct: u8) -> u8
    ensures { result ≡ verdict_state construct }
{
    if construct == tokenizer::ESM {
        state::MDX_ESM_VERDICT
    } else {
        state::MDX_EXPRESSION_VERDICT
    }
}

impl Scan {
    // Whether a call can have given this scan.
    #[tactic(auto, unfolding(crate::specs::Call::scan_in_range))]
    pub fn in_range(self) -> bool
        ensures { result ≡ scan_in_range self }
    {
        let tokenizer = self.tokenizer;
        let job = tokenizer.job;
        tokenizer.in_range()
            && self.used <= events::room_in(job.words)
            && self.steps <= step_bound(job.length, job.start)
            && self.lines.in_range()
    }

    // Whether the scan goes on, over a page of n bytes and w lent words.
    #[tactic(auto, unfolding(crate::specs::Call::runnable))]
    fn runnable(self, n: usize, w: usize, allowance: usize) -> bool
        ensures { result ≡ runnable self n w allowance }
    {
        let tokenizer = self.tokenizer;
        let job = tokenizer.job;
        0 < allowance
            && state::FIRST_RUNNING <= tokenizer.state
            && n == job.length
            && w == job.words
            && self.in_range()
    }

    // At most `allowance` steps over the page, whose events go to the lent words. A scan that has ended, or that asks and has not been
    // told, is refused, and so are a page or a buffer of another length than the scan's.
    pub fn run(self, page: &[u8], events: &mut [u32], allowance: usize) -> Ran
        ensures { left_by result events.new ≡ run_of page.now allowance self events.old }
    {
        if self.runnable(page.len(), events.len(), allowance) {
            let scan = self.go(page, events, allowance);
            let answer = scan.stands();
            Ran { scan, answer }
        } else {
            Ran {
                scan: self,
                answer: Answer::BadCall,
            }
        }
    }

    // One step.
    pub fn step(self, page: &[u8], events: &mut [u32]) -> Ran
        ensures { left_by result events.new ≡ run_of page.now 1 self events.old }
    {
        self.run(page, events, 1)
    }

    // Whether the scan asks, and the verdict can be heard.
    #[tactic(auto, unfolding(crate::specs::Call::givable))]
    fn givable(self, verdict: Verdict) -> bool
        ensures { result ≡ givable self verdict }
    {
        self.tokenizer.state == state::ASKING && verdict_in_range(verdict) && self.in_range()
    }

    // The scan with a verdict kept.
    fn given(self, verdict: Verdict) -> Self
        ensures { result ≡ given_scan self verdict }
    {
        let tokenizer = Tokenizer {
            state: verdict_state(self.tokenizer.job.construct),
            heard: verdict,
            ..self.tokenizer
        };
        Scan { tokenizer, ..self }
    }

    // The verdict that the scan asked for. It is kept; the next step applies it.
    pub fn give(self, verdict: Verdict) -> Ran
        ensures { left_by result [] ≡ give_of self verdict }
    {
        if self.givable(verdict) {
            let scan = self.given(verdict);
            Ran {
                scan,
                answer: Answer::Kept,
            }
        } else {
            Ran {
                scan: self,
                answer: Answer::BadCall,
            }
        }
    }
}
