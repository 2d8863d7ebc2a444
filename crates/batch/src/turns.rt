// What is done with the records of a list, one after the other: each is looked at first, and then each is answered.
ghost use Rattle.std.specs.Prelude.{◌≡◌, ◌+◌, ℕ, List, eqb, ltb, length};
ghost use Rattle.base.specs.If.{when◌then◌else◌};
ghost use Rattle.base.specs.State.{full};
ghost use Rattle.batch.specs.Batch.{counting, all_counting, record_of, words_of};
ghost use Rattle.batch.specs.Inner.{Sound};

use crate::Opening;
use crate::record::filled;
use base::state;
use page::Fault;
use page::line::Line;
use scan::Request;
use scan::beginning::{ASKS, INTERRUPT, numbers_listed};

// How many events stand in the buffer, and what is known of the page: its check for a start at `from`.
#[derive(Clone, Copy)]
pub struct Run {
    pub used: usize,
    pub from: usize,
    pub checked: Result<Line, Fault>,
}

// Whether a record asks for an expression or a tag with no verdict source.
#[tactic(auto, using(base::proofs::Choice::picks), unfolding(crate::specs::Batch::counting))]
fn counts(opening: Opening) -> bool
    ensures { result ≡ counting opening }
{
    opening.construct != tokenizer::ESM
        && opening.flags % INTERRUPT != ASKS
        && numbers_listed(opening.construct, opening.kind, opening.flags)
}

// Whether each of them does.
pub(crate) fn all_counting(openings: &[Opening]) -> bool
    ensures { result ≡ all_counting openings.now }
{
    openings.iter().all(|opening| counts(*opening))
}

// The page is checked, once for all records.
pub(crate) fn begin(page: &[u8]) -> Run
    ensures used { result.used ≡ 0 }
    ensures counted_from { result.from ≡ 0 }
    ensures sound { (words : List ℕ) → Sound page.now words result }
{
    Run {
        used: 0,
        from: 0,
        checked: page::check(page, 0, page.len(), 0),
    }
}

// Whether a record is the last that is filled: there was no room for all of its events.
pub(crate) fn ends_list(opening: &Opening) -> bool
    ensures { result ≡ eqb opening.now.answer full }
{
    opening.answer == state::FULL
}

// One record: a single scan with steps enough, over the event room that the earlier ones left. The check of the page for its start is
// what is known of the page behind it, if that start is in the page: so the lines of a start are counted on from the last one there.
#[tactic(auto, using(base::proofs::Choice::picks))]
pub(crate) fn answer_one(page: &[u8], opening: &mut Opening, words: &mut [u32], run: Run) -> Run
    requires { Sound page.now words.old run }
    ensures record { opening.new ≡ record_of page.now opening.old run.used words.old }
    ensures words { words.new ≡ words_of page.now opening.old run.used words.old }
    ensures used { result.used ≡ run.used + opening.new.events }
    ensures counted_from { result.from ≡ (when ltb (length page.now) opening.old.start then run.from else opening.old.start) }
    ensures sound { Sound page.now words.new result }
{
    let start = opening.start;
    let checked = page::recheck(page, 0, page.len(), run.checked, run.from, start);
    let request = Request {
        at: 0,
        length: page.len(),
        start,
        construct: opening.construct,
        kind: opening.kind,
        flags: opening.flags,
    };
    let used = run.used;
    let front = used * events::WIDTH;
    let ran = scan::beginning::whole(checked, page, request, &mut words[front..]);
    let record = filled(*opening, used, ran.answer);
    *opening = record;
    let used = used + record.events;
    if page.len() < start {
        return Run { used, ..run };
    }
    Run {
        used,
        from: start,
        checked,
    }
}
