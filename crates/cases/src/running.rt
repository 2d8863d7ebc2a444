// A case run to its end, or to a question past the end of its list of verdicts; and its answer as text.
ghost use Rattle.std.specs.Prelude.{◌≤◌, length};

use crate::body::put_body;
use crate::reading::Case;
use base::Verdict;
use report::tell;
use scan::beginning::single;
use scan::{Answer, Ran, Tally};

// More calls than a case takes: one for each step of the longest page, and one for each verdict.
const CALLS: usize = 1_000_000;

// What an answer that carries no counts is written with.
const NOTHING_MADE: Tally = Tally {
    events: 0,
    steps: 0,
};

// The answer's number, its counts, and the length of its text, which stands at the start of a lent buffer. The number is that of report's
// `Told`, and no more is asked of it than whether it is Nok's.
#[derive(Clone, Copy)]
pub(crate) struct Outcome {
    pub number: u8,
    pub made: Tally,
    pub length: usize,
}

// The text of the answer, with the body where the scan asks, goes to the piece.
pub(crate) fn run_case(
    case: Case,
    page: &[u8],
    words: &mut [u32],
    scratch: &mut [u8],
    piece: &mut [u8],
) -> Outcome
    ensures { result.length ≤ length piece.new }
{
    let ran = run_on(case, page, words);
    let told = tell(ran.answer);
    let mut length = report::answer_text(piece, 0, told, b":");
    if matches!(ran.answer, Answer::Asking { .. }) {
        let at = report::text(piece, length, b" ");
        length = put_body(ran.scan, page, scratch, piece, at).min(piece.len());
    }
    Outcome {
        number: told.number,
        made: told.tally.unwrap_or(NOTHING_MADE),
        length,
    }
}

// A paused scan goes on; one that asks is given the next verdict of the list.
fn run_on(case: Case, page: &[u8], words: &mut [u32]) -> Ran {
    let mut ran = single(page, case.request, case.allowance, words);
    let mut at = 0;
    for _ in 0..CALLS {
        match ran.answer {
            Answer::Paused { .. } => {}
            Answer::Asking { .. } => {
                let Some(next) = next_verdict(case.verdicts, at) else {
                    return ran;
                };
                ran = ran.scan.give(next.verdict);
                if !matches!(ran.answer, Answer::Kept) {
                    return ran;
                }
                at = next.behind;
            }
            _ => return ran,
        }
        ran = ran.scan.run(page, words, case.allowance);
    }
    ran
}

// A verdict, and where the rest of its list begins.
#[derive(Clone, Copy)]
struct Heard {
    verdict: Verdict,
    behind: usize,
}

fn next_verdict(list: &[u8], at: usize) -> Option<Heard> {
    let end = text::find(list, at, b',');
    let verdict = text::read_verdict(list, at, end)?;
    Some(Heard {
        verdict,
        behind: end + 1,
    })
}
