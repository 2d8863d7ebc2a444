// A new scan; and a single scan in one call.
ghost use Rattle.std.specs.Prelude.{◌≡◌};
ghost use Rattle.base.specs.If.{when◌then◌else◌};
ghost use Rattle.page.specs.Page.{page_check};
ghost use Rattle.tokenizer.specs.Registers.{no_regs};
ghost use Rattle.scan.specs.Lines.{first_lines};
ghost use Rattle.scan.specs.Answer.{said_by, refused, refused_for};
ghost use Rattle.scan.specs.Call.{not_started, begun_by, begun_if, numbers_listed, job_of, first_state, fresh_in, no_scan, begin_of, left_by, single_of, whole_of};

use crate::lines::{Lines, lines_of};
use crate::stepping::step_bound;
use crate::{Answer, Ran, Request, Scan};
use base::{InTab, Verdict, state};
use page::Fault;
use page::line::{Line, first_line};
use tokenizer::ranges::{construct_listed, kind_listed};
use tokenizer::{Job, Regs, Tokenizer};

// Flags: a verdict source, an interrupt, and both. They are numbers, since C hands them over so.
pub const ASKS: u8 = 1;

pub const INTERRUPT: u8 = 2;

pub const ALL_FLAGS: u8 = 3;

// The state that a scan begins in.
#[tactic(auto, using(base::proofs::Choice::picks))]
fn first_state(construct: u8) -> u8
    ensures { result ≡ first_state construct }
{
    if construct == tokenizer::ESM {
        state::MDX_ESM_START
    } else if construct == tokenizer::TAG {
        state::MDX_JSX_START
    } else {
        state::MDX_EXPRESSION_START
    }
}

// Whether docs/NUMBERS.md lists the numbers.
pub fn numbers_listed(construct: u8, kind: u8, flags: u8) -> bool
    ensures { result ≡ numbers_listed construct kind flags }
{
    flags <= ALL_FLAGS && construct_listed(construct) && kind_listed(kind)
}

// Where a page is refused, a scan's answer says why: too long, a start that does not fit, or the first place at fault.
impl From<Fault> for Answer {
    ghost from_gives = { λ fault answer. said_by answer ≡ refused_for fault };

    fn from(fault: Fault) -> Answer {
        match fault {
            Fault::TooLong => Answer::TooLong,
            Fault::BadStart => Answer::BadStart,
            Fault::BadText(spot) => Answer::BadText { spot },
        }
    }
}

// The scan, if its page is good.
fn begin_if_good(checked: Result<Line, Fault>, job: Job) -> Result<Scan, Answer>
    ensures { begun_by result ≡ begun_if checked job }
{
    let line = checked?;
    Ok(Scan::fresh(job, line))
}

// What a scan has to do, by the numbers of docs/NUMBERS.md.
fn job_of(request: Request, words: usize) -> Job
    ensures { result ≡ job_of request.construct request.kind request.flags request.length request.start words }
{
    Job {
        construct: request.construct,
        kind: request.kind,
        asks: request.flags % INTERRUPT == ASKS,
        interrupt: INTERRUPT <= request.flags,
        length: request.length,
        start: request.start,
        words,
    }
}

// A new scan of a page whose check for this start is known.
fn begin_checked(
    checked: Result<Line, Fault>,
    request: Request,
    words: usize,
) -> Result<Scan, Answer>
    ensures { begun_by result ≡ (when numbers_listed request.construct request.kind request.flags then begun_if checked (job_of request.construct request.kind request.flags request.length request.start words) else not_started refused) }
{
    if numbers_listed(request.construct, request.kind, request.flags) {
        return begin_if_good(checked, job_of(request, words));
    }
    Err(Answer::BadCall)
}

// The lines of a scan that begins in a line: nothing is looked ahead yet.
fn first_lines(line: Line) -> Lines
    ensures { result ≡ first_lines line }
{
    lines_of(line, InTab::Outside, first_line(), first_line())
}

// Registers at rest.
fn no_regs() -> Regs
    ensures { result ≡ no_regs }
{
    Regs {
        back: 0,
        depth: 0,
        prefix: 0,
        quote: 0,
        last: 0,
        site: 0,
        note: 0,
        saved: 0,
        body: 0,
        joint: 0,
        fault: 0,
    }
}

// Where no scan is: one that has ended on an empty page, with nothing there. It is no `None`, since C is handed the numbers of a scan in
// each case (`RanNumbers`, `PlaceNumbers`).
pub fn no_scan() -> Scan
    ensures { result ≡ no_scan }
{
    let job = Job {
        construct: 0,
        kind: 0,
        asks: false,
        interrupt: false,
        length: 0,
        start: 0,
        words: 0,
    };
    let regs = no_regs();
    let tokenizer = Tokenizer {
        job,
        state: state::NOK,
        at: 0,
        regs,
        heard: Verdict::Fine,
    };
    let lines = first_lines(first_line());
    Scan {
        tokenizer,
        lines,
        used: 0,
        steps: 0,
    }
}

// There is no scan, and this is why.
fn not_begun(answer: Answer) -> Ran
    ensures { (result.scan ≡ no_scan) × (result.answer ≡ answer) }
{
    let scan = no_scan();
    Ran { scan, answer }
}

// A single scan in one call: the page is scanned with at most `allowance` steps. 12 comes first, also for an allowance of 0, then 2, 3
// and 4. Where it answers Asking or Paused, the scan that is handed back goes on with `give` and `run`.
#[tactic(auto, using(crate::proofs::Singles::none_allowed))]
pub fn single(bytes: &[u8], request: Request, allowance: usize, events: &mut [u32]) -> Ran
    ensures { left_by result events.new ≡ single_of bytes.now request.at request.length request.start request.construct request.kind request.flags allowance events.old }
{
    if allowance == 0 {
        return not_begun(Answer::BadCall);
    }
    let began = Scan::new(bytes, request, events.len());
    match began {
        Ok(scan) => {
            let end = request.at + request.length;
            scan.run(&bytes[request.at..end], events, allowance)
        }
        Err(answer) => not_begun(answer),
    }
}

// A single scan in one call with steps enough, of a page whose check for this start is known.
pub fn whole(
    checked: Result<Line, Fault>,
    bytes: &[u8],
    request: Request,
    events: &mut [u32],
) -> Ran
    requires { checked ≡ page_check bytes.now request.at request.length request.start }
    ensures { left_by result events.new ≡ whole_of bytes.now request.at request.length request.start request.construct request.kind request.flags events.old }
{
    let began = begin_checked(checked, request, events.len());
    match began {
        Ok(scan) => {
            let end = request.at + request.length;
            let allowance = step_bound(request.length, request.start);
            scan.run(&bytes[request.at..end], events, allowance)
        }
        Err(answer) => not_begun(answer),
    }
}

impl Scan {
    // A scan that has made no step, whose start is in a line.
    fn fresh(job: Job, line: Line) -> Self
        ensures { result ≡ fresh_in line job }
    {
        let regs = no_regs();
        let tokenizer = Tokenizer {
            job,
            state: first_state(job.construct),
            at: job.start,
            regs,
            heard: Verdict::Fine,
        };
        let lines = first_lines(line);
        Scan {
            tokenizer,
            lines,
            used: 0,
            steps: 0,
        }
    }

    // A new scan, with an event buffer of so many words.
    pub fn new(bytes: &[u8], request: Request, words: usize) -> Result<Self, Answer>
        ensures { begun_by result ≡ begin_of bytes.now request.at request.length request.start request.construct request.kind request.flags words }
    {
        if numbers_listed(request.construct, request.kind, request.flags) {
            let checked = page::check(bytes, request.at, request.length, request.start);
            begin_if_good(checked, job_of(request, words))
        } else {
            Err(Answer::BadCall)
        }
    }
}
