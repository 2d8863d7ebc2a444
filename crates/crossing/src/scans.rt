// Scans and verdicts as numbers, and back.
ghost use Rattle.std.specs.Prelude.{◌≡◌};
ghost use Rattle.crossing.specs.Listed.{if_listed};
ghost use Rattle.crossing.specs.Scans.{verdict_in, verdict_listed, verdict_out, heard_listed, flags_out, scan_listed, scan_in, scan_out, ran_out, ran_refused};
ghost use Rattle.crossing.specs.Inner.{job_in, regs_in, lines_in};
ghost use Rattle.scan.specs.Answer as single;

use crate::answers::bare;
use crate::{AnswerNumbers, RanNumbers, ScanNumbers, Unlisted};
use base::{InTab, Verdict};
use page::line::Line;
use scan::beginning::ALL_FLAGS;
use scan::lines::Lines;
use scan::{Ran, Scan};
use tokenizer::{Job, Regs, Tokenizer};

// The cases of a verdict: numbers, since C hands them over.
pub const FINE: u8 = 0;

pub const UNFINISHED: u8 = 1;

pub const WRONG: u8 = 2;

// The largest number of columns passed of a tab.
const MOST_COLUMNS: u8 = 3;

// ---- verdicts

// The functions that take every number, verdict_in and scan_in, stand beside those that try: docs/PROMISES.md has them never fail.

// Whether a number is the case of a verdict.
pub fn verdict_listed(verdict: u8) -> bool
    ensures { result ≡ verdict_listed verdict }
{
    verdict <= WRONG
}

// The verdict of a case, with its number and its offset in the body, where it has one.
#[tactic(auto, using(base::proofs::Choice::picks))]
pub fn verdict_in(verdict: u8, number: u32, offset: usize) -> Verdict
    ensures { result ≡ verdict_in verdict number offset }
{
    match verdict {
        FINE => Verdict::Fine,
        UNFINISHED => Verdict::Unfinished(number),
        _ => Verdict::Wrong(number, offset),
    }
}

// The same, where the number is a case's.
#[tactic(auto, using(base::proofs::Choice::picks))]
pub fn try_verdict(verdict: u8, number: u32, offset: usize) -> Result<Verdict, Unlisted>
    ensures { result ≡ if_listed (verdict_listed verdict) (verdict_in verdict number offset) }
{
    if verdict_listed(verdict) {
        Ok(verdict_in(verdict, number, offset))
    } else {
        Err(Unlisted)
    }
}

// A verdict's case, number and offset; 0 for what it does not have.
#[derive(Clone, Copy)]
pub struct Heard {
    pub offset: usize,
    pub number: u32,
    pub verdict: u8,
}

impl From<Verdict> for Heard {
    ghost from_gives = { λ verdict heard. heard ≡ verdict_out verdict };

    fn from(verdict: Verdict) -> Heard {
        match verdict {
            Verdict::Fine => Heard {
                offset: 0,
                number: 0,
                verdict: FINE,
            },
            Verdict::Unfinished(number) => Heard {
                offset: 0,
                number,
                verdict: UNFINISHED,
            },
            Verdict::Wrong(number, offset) => Heard {
                offset,
                number,
                verdict: WRONG,
            },
        }
    }
}

// Whether three numbers are the case, number and offset of a verdict that is kept: what the case does not have must be 0, so that there is
// one way to write each verdict.
#[tactic(auto, using(base::proofs::Choice::picks))]
fn heard_listed(verdict: u8, number: u32, offset: usize) -> bool
    ensures { result ≡ heard_listed verdict number offset }
{
    match verdict {
        FINE => number == 0 && offset == 0,
        UNFINISHED => offset == 0,
        _ => verdict == WRONG,
    }
}

// ---- scans

#[tactic(auto, using(base::proofs::Choice::picks))]
fn flags_out(asks: bool, interrupt: bool) -> u8
    ensures { result ≡ flags_out asks interrupt }
{
    u8::from(asks) + 2 * u8::from(interrupt)
}

// job_in, regs_in and lines_in are the parts of one conversion, and no From: the numbers have the fields of all three.
fn job_in(numbers: ScanNumbers) -> Job
    ensures { result ≡ job_in numbers }
{
    Job {
        construct: numbers.construct,
        kind: numbers.kind,
        asks: numbers.flags % 2 == 1,
        interrupt: 2 <= numbers.flags,
        length: numbers.length,
        start: numbers.start,
        words: numbers.words,
    }
}

fn regs_in(numbers: ScanNumbers) -> Regs
    ensures { result ≡ regs_in numbers }
{
    Regs {
        saved: numbers.saved,
        body: numbers.body,
        joint: numbers.joint,
        fault: numbers.fault,
        depth: numbers.depth,
        last: numbers.last,
        back: numbers.back,
        prefix: numbers.prefix,
        site: numbers.site,
        note: numbers.note,
        quote: numbers.quote,
    }
}

fn lines_in(numbers: ScanNumbers) -> Lines
    ensures { result ≡ lines_in numbers }
{
    Lines {
        line: Line {
            number: numbers.line,
            column: numbers.column,
        },
        kept: Line {
            number: numbers.kept_line,
            column: numbers.kept_column,
        },
        fault: Line {
            number: numbers.fault_line,
            column: numbers.fault_column,
        },
        tab: InTab::past(numbers.tab),
    }
}

// Whether the numbers that stand for a case of something stand for one.
#[tactic(auto, using(base::proofs::Choice::picks), unfolding(crate::specs::Scans::scan_listed))]
pub fn scan_listed(numbers: ScanNumbers) -> bool
    ensures { result ≡ scan_listed numbers }
{
    numbers.flags <= ALL_FLAGS
        && numbers.tab <= MOST_COLUMNS
        && heard_listed(numbers.heard, numbers.heard_number, numbers.heard_offset)
}

// The scan that the numbers stand for.
pub fn scan_in(numbers: ScanNumbers) -> Scan
    ensures { result ≡ scan_in numbers }
{
    let tokenizer = Tokenizer {
        job: job_in(numbers),
        state: numbers.state,
        at: numbers.at,
        regs: regs_in(numbers),
        heard: verdict_in(numbers.heard, numbers.heard_number, numbers.heard_offset),
    };
    Scan {
        tokenizer,
        lines: lines_in(numbers),
        used: numbers.used,
        steps: numbers.steps,
    }
}

// The same, where each of them stands for something.
impl TryFrom<ScanNumbers> for Scan {
    type Error = Unlisted;

    ghost try_from_gives = { λ numbers result. result ≡ if_listed (scan_listed numbers) (scan_in numbers) };

    #[tactic(auto, using(base::proofs::Choice::picks))]
    fn try_from(numbers: ScanNumbers) -> Result<Scan, Unlisted> {
        if scan_listed(numbers) {
            Ok(scan_in(numbers))
        } else {
            Err(Unlisted)
        }
    }
}

// The numbers that stand for a scan.
impl From<Scan> for ScanNumbers {
    ghost from_gives = { λ scan numbers. numbers ≡ scan_out scan };

    fn from(scan: Scan) -> ScanNumbers {
        let tokenizer = scan.tokenizer;
        let job = tokenizer.job;
        let regs = tokenizer.regs;
        let heard = Heard::from(tokenizer.heard);
        let lines = scan.lines;
        ScanNumbers {
            length: job.length,
            start: job.start,
            words: job.words,
            at: tokenizer.at,
            saved: regs.saved,
            body: regs.body,
            joint: regs.joint,
            fault: regs.fault,
            line: lines.line.number,
            column: lines.line.column,
            kept_line: lines.kept.number,
            kept_column: lines.kept.column,
            fault_line: lines.fault.number,
            fault_column: lines.fault.column,
            used: scan.used,
            steps: scan.steps,
            heard_offset: heard.offset,
            depth: regs.depth,
            last: regs.last,
            heard_number: heard.number,
            quote: regs.quote,
            construct: job.construct,
            kind: job.kind,
            flags: flags_out(job.asks, job.interrupt),
            state: tokenizer.state,
            back: regs.back,
            prefix: regs.prefix,
            site: regs.site,
            note: regs.note,
            tab: lines.tab.columns(),
            heard: heard.verdict,
        }
    }
}

// ---- what a call on a scan hands back

impl From<Ran> for RanNumbers {
    ghost from_gives = { λ ran numbers. numbers ≡ ran_out ran.scan (single.said_by ran.answer) };

    fn from(ran: Ran) -> RanNumbers {
        RanNumbers {
            scan: ScanNumbers::from(ran.scan),
            answer: AnswerNumbers::from(ran.answer),
        }
    }
}

// The numbers stand for no scan: they are handed back as they are, with 12. `called_refused` is the same of a worker's, which C has in a
// struct of its own.
#[tactic(auto, using(crate::proofs::Bodies::nothing_carried))]
pub fn ran_refused(scan: ScanNumbers) -> RanNumbers
    ensures { result ≡ ran_refused scan }
{
    RanNumbers {
        scan,
        answer: bare(12),
    }
}
