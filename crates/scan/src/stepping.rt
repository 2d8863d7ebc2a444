// Steps: the decision of the state that a scan is in, its events, and the count; and the loop that makes them.
ghost use Rattle.std.specs.Prelude.{◌≡◌, ◌+◌, ◌-◌, ◌*◌, ◌≤◌, ◌<◌, ◌^◌, length};
ghost use Rattle.base.specs.Page.{page_limit, byte_at};
ghost use Rattle.base.specs.Decide.{list_of, count_of};
ghost use Rattle.events.specs.Words.{room_in, written};
ghost use Rattle.scan.specs.Scan.{carried_out, moved_scan, passes, lines_step, marks_at, step_scan, step_events, run_scan, run_words};
ghost use Rattle.scan.specs.Inner.{Low, Fit, Counts, Stepping};
ghost use Rattle.scan.specs.Gliding.{counted_on, passed_lines, passed_scan, nested_scan};

use crate::Scan;
use crate::gliding::{depth_past, glide, glides, may_glide, nests};
use crate::lines::{HIGHEST_COLUMN, Lines, line_next, line_past, lines_of, point_in, tab_next};
use base::{InTab, Marks, Move, byte_at, retry, state};
use page::line::Line;
use tokenizer::Tokenizer;

// What a run over the bytes from the start to the page's end takes at the most.
pub(crate) fn step_bound(length: usize, start: usize) -> usize
    requires { (start ≤ length) × (length ≤ page_limit) }
    ensures { result ≡ 8 * (length - start + 1) }
{
    8 * (length - start + 1)
}

// k more steps, up to the bound.
fn count_steps(steps: usize, bound: usize, k: usize) -> usize
    ensures { result ≡ counted_on steps bound k }
{
    if bound <= steps {
        return steps;
    }
    if bound - steps < k {
        return bound;
    }
    steps + k
}

// The lines k columns further.
fn passed_lines(lines: Lines, k: usize) -> Lines
    ensures { result ≡ passed_lines lines k }
{
    let kept = lines.kept;
    let fault = lines.fault;
    let line = Line {
        number: lines.line.number,
        column: count_steps(lines.line.column, HIGHEST_COLUMN, k),
    };
    lines_of(line, InTab::Outside, kept, fault)
}

impl Scan {
    // The scan after a decision whose n events are written, and its lines.
    fn moved(self, m: Move, n: usize, lines: Lines) -> Self
        requires { Counts self n }
        ensures { result ≡ moved_scan self m n lines }
    {
        let tokenizer = self.tokenizer;
        let job = tokenizer.job;
        let steps = count_steps(self.steps, step_bound(job.length, job.start), 1);
        let tokenizer = tokenizer.moved(m);
        Scan {
            tokenizer,
            lines,
            used: self.used + n,
            steps,
        }
    }

    // The scan after k steps, one at least, that did no more than pass a byte each.
    fn passed(self, k: usize) -> Self
        requires { Counts self 0 × (self.tokenizer.at + k < 2 ^ 64) }
        ensures { result ≡ passed_scan self k }
    {
        let job = self.tokenizer.job;
        Scan {
            tokenizer: Tokenizer {
                at: self.tokenizer.at + k,
                ..self.tokenizer
            },
            lines: passed_lines(self.lines, k),
            steps: count_steps(self.steps, step_bound(job.length, job.start), k),
            ..self
        }
    }

    // The scan after a step over a brace inside an expression.
    fn nested(self, b: u16) -> Self
        requires { Counts self 0 × (self.tokenizer.at + 1 < 2 ^ 64) }
        ensures { result ≡ nested_scan self b }
    {
        let mut next = self.passed(1);
        let tokenizer = self.tokenizer;
        next.tokenizer.regs.depth = depth_past(tokenizer.regs.depth, tokenizer.job.asks, b);
        next
    }

    // Whether a decision eats a byte, and there is one.
    fn passes(self, m: Move) -> bool
        ensures { result ≡ passes self m }
    {
        m.eat && self.tokenizer.at < self.tokenizer.job.length
    }

    // The lines after a decision at the byte b.
    fn lines_after(self, page: &[u8], m: Move, b: u16) -> Lines
        requires { (length page.now ≤ page_limit) × (b ≡ byte_at page.now self.tokenizer.at) }
        ensures { result ≡ lines_step page.now self m }
    {
        let lines = self.lines;
        let line = lines.line;
        let tab = lines.tab;
        let effect = m.effect;
        lines.after(
            page,
            effect,
            line_next(line, self.passes(m), b),
            tab_next(tab, m.eat),
        )
    }

    // The events of a step at the byte b are written. Where there are none, it is not worked out where they would stand.
    fn put_events(self, words: &mut [u32], marks: Marks, b: u16)
        requires { Low self.lines.line × (self.tokenizer.at ≤ page_limit) × ((self.used + count_of marks) * 4 ≤ length words.old) }
        ensures { words.new ≡ written words.old self.used (marks_at b self (list_of marks)) }
    {
        if events::count(marks) == 0 {
            return;
        }
        let lines = self.lines;
        let line = lines.line;
        let tab = lines.tab;
        let at = self.tokenizer.at;
        let here = point_in(line, tab, at);
        let past = point_in(line_past(line, b), InTab::Outside, at + 1);
        events::put(words, self.used, here, past, marks);
    }

    // What is carried out: the decision, or the end of the scan for want of room.
    fn carried_out(self, m: Move) -> Move
        requires { self.used ≤ room_in self.tokenizer.job.words }
        ensures { result ≡ carried_out self m }
    {
        let marks = m.marks;
        let left = events::room_in(self.tokenizer.job.words) - self.used;
        if left < events::count(marks) {
            return retry(state::FULL, Marks::Nothing);
        }
        m
    }

    // One step of the state that the scan is in, whose byte is b. Every function that is handed the scan or the decision here has this one
    // caller: so the compiler folds all of a step into the loop, and neither is copied from call to call.
    fn one_step(self, page: &[u8], words: &mut [u32], b: u16) -> Self
        requires { Stepping self page.now words.old b }
        ensures state { result ≡ step_scan page.now self }
        ensures written { words.new ≡ written words.old self.used (step_events page.now self) }
    {
        let tokenizer = self.tokenizer;
        let m = self.carried_out(tokenizer.call(page, b));
        let marks = m.marks;
        self.put_events(words, marks, b);
        self.moved(m, events::count(marks), self.lines_after(page, m, b))
    }

    // Steps until the scan asks or has ended, or the allowance is spent.
    pub(crate) fn go(self, page: &[u8], words: &mut [u32], allowance: usize) -> Self
        requires { Fit self (length page.now) (length words.old) }
        ensures state { result ≡ run_scan page.now allowance self }
        ensures written { words.new ≡ run_words page.now allowance self words.old }
    {
        let mut s = self;
        let mut left = allowance;
        // No `for`: a turn takes one step, or as many as it glides over.
        while 0 < left {
            let name = s.tokenizer.state;
            if name < state::FIRST_RUNNING {
                return s;
            }
            let at = s.tokenizer.at;
            let quote = s.tokenizer.regs.quote;
            let b = byte_at(page, at);
            if may_glide(name) {
                if glides(name, quote, b) {
                    let k = glide(page, name, quote, at, left);
                    s = s.passed(k);
                    left = left - k;
                    continue;
                }
                if nests(name, s.tokenizer.regs.depth, b) {
                    s = s.nested(b);
                    left = left - 1;
                    continue;
                }
            }
            s = s.one_step(page, words, b);
            left = left - 1;
        }
        s
    }
}
