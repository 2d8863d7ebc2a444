// A record with its answer filled in.
ghost use Rattle.std.specs.Prelude.{◌≡◌};
ghost use Rattle.scan.specs.Answer.{said_by};
ghost use Rattle.batch.specs.Record.{filled_of};
ghost use Rattle.batch.specs.Inner.{bare_of, ended_of, placed_of, tallied_of};

use crate::Opening;
use base::state;
use page::line::Spot;
use scan::{Answer, Tally};

// What was asked, with an answer that carries nothing.
fn bare(opening: Opening, first: usize, answer: u8) -> Opening
    ensures { result ≡ bare_of opening first answer }
{
    Opening {
        answer,
        place: 0,
        line: 0,
        column: 0,
        site: 0,
        note: 0,
        events: 0,
        steps: 0,
        first,
        ..opening
    }
}

// With an end.
fn ended(opening: Opening, first: usize, end: usize) -> Opening
    ensures { result ≡ ended_of opening first end }
{
    Opening {
        place: end,
        ..bare(opening, first, state::DONE)
    }
}

// With a place, a where-number and a note; the last two are 0 where the answer does not carry them. No struct of them: each arm of `filled`
// would put one together, to be taken apart here.
fn placed(opening: Opening, first: usize, answer: u8, spot: Spot, site: u8, note: u8) -> Opening
    ensures { result ≡ placed_of opening first answer spot site note }
{
    Opening {
        place: spot.place,
        line: spot.line,
        column: spot.column,
        site,
        note,
        ..bare(opening, first, answer)
    }
}

// The same record with its events and steps.
fn tallied(opening: Opening, tally: Tally) -> Opening
    ensures { result ≡ tallied_of opening tally }
{
    Opening {
        events: tally.events,
        steps: tally.steps,
        ..opening
    }
}

// The record with what a single scan answers, by the numbers of docs/NUMBERS.md, since it is handed to C. Of what no counting scan
// answers it has the number alone. `report` and `crossing` have such a match each, and it is not shared: their structs have other fields.
pub(crate) fn filled(opening: Opening, first: usize, answer: Answer) -> Opening
    ensures { result ≡ filled_of opening first (said_by answer) }
{
    match answer {
        Answer::Done { end, tally } => tallied(ended(opening, first, end), tally),
        Answer::Nok { tally } => tallied(bare(opening, first, 1), tally),
        Answer::TooLong => bare(opening, first, 2),
        Answer::BadStart => bare(opening, first, 3),
        Answer::BadText { spot } => placed(opening, first, 4, spot, 0, 0),
        Answer::NotAscii { spot, tally } => {
            tallied(placed(opening, first, 5, spot, 0, 0), tally)
        }
        Answer::Eof { spot, site, tally } => {
            tallied(placed(opening, first, 6, spot, site, 0), tally)
        }
        Answer::Unexpected {
            spot,
            site,
            note,
            tally,
        } => tallied(placed(opening, first, 7, spot, site, note), tally),
        Answer::VerdictError { .. } => bare(opening, first, 8),
        Answer::VerdictEof { .. } => bare(opening, first, 9),
        Answer::Full { spot, tally } => { tallied(placed(opening, first, 10, spot, 0, 0), tally) }
        Answer::BadCall => bare(opening, first, 12),
        Answer::Asking { .. } => bare(opening, first, 31),
        Answer::Paused { .. } => bare(opening, first, 32),
        Answer::Kept => bare(opening, first, 33),
    }
}
