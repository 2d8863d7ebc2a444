// A record of a list, taken apart as the answer of a single scan is.
use base::state;
use batch::Opening;
use page::line::Line;
use report::Told;
use scan::Tally;

// The number of the answer BadText. `base::state` has the numbers of a scan's states, and this answer is none: where it is given, there is
// no scan.
const BAD_TEXT: u8 = 4;

// Neither type is of this crate, so it can't be a From.
pub(crate) fn told_of(opening: Opening) -> Told {
    let values = values_of(opening.answer);
    // The value of Done is an end, and the first of every other answer a place.
    let placed = opening.answer != state::DONE && 0 < values;
    Told {
        number: opening.answer,
        values,
        first: opening.place,
        line: placed.then_some(Line {
            number: opening.line,
            column: opening.column,
        }),
        second: usize::from(opening.site),
        third: usize::from(opening.note),
        tally: Some(Tally {
            events: opening.events,
            steps: opening.steps,
        }),
    }
}

// How many values an answer has that a record may hold; the line and the column of a place are not counted.
fn values_of(answer: u8) -> u8 {
    match answer {
        state::DONE | state::NOT_ASCII | state::FULL | BAD_TEXT => 1,
        state::EOF => 2,
        state::UNEXPECTED => 3,
        _ => 0,
    }
}
