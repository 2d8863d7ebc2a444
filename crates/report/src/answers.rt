// The answers by number and values, as the answer table has them.
ghost use Rattle.std.specs.Prelude.{◌≡◌};
ghost use Rattle.report.specs.Told.{bare_told, end_told, place_told, counting_told, told_of};

use page::line::{Line, Spot};
use scan::{Answer, Tally};

// An answer's number, how many values it carries, the values in the table's order, and its events and steps. Where the first value is a
// place, it has its line and column. A value that is not carried is 0. Asking, Paused and Kept, which the table does not number, are 31
// to 33. The number and the count stay numbers: a record of a list, which `cases` makes one of these of, has no more.
#[derive(Clone, Copy)]
pub struct Told {
    pub number: u8,
    pub values: u8,
    pub first: usize,
    pub line: Option<Line>,
    pub second: usize,
    pub third: usize,
    pub tally: Option<Tally>,
}

// crossing and batch have a match like it: each fills other fields, there in the layout that C has.
pub fn tell(answer: Answer) -> Told
    ensures { result ≡ told_of answer }
{
    match answer {
        Answer::Done { end, tally } => counting(ended(0, end), tally),
        Answer::Nok { tally } => counting(bare(1), tally),
        Answer::TooLong => bare(2),
        Answer::BadStart => bare(3),
        Answer::BadText { spot } => placed(4, 1, spot, 0, 0),
        Answer::NotAscii { spot, tally } => counting(placed(5, 1, spot, 0, 0), tally),
        Answer::Eof { spot, site, tally } => {
            counting(placed(6, 2, spot, usize::from(site), 0), tally)
        }
        Answer::Unexpected {
            spot,
            site,
            note,
            tally,
        } => counting(
            placed(7, 3, spot, usize::from(site), usize::from(note)),
            tally,
        ),
        Answer::VerdictError {
            spot,
            number,
            tally,
        } => counting(placed(8, 2, spot, number as usize, 0), tally),
        Answer::VerdictEof {
            spot,
            number,
            tally,
        } => counting(placed(9, 2, spot, number as usize, 0), tally),
        Answer::Full { spot, tally } => counting(placed(10, 1, spot, 0, 0), tally),
        Answer::BadCall => bare(12),
        Answer::Asking { spot, tally } => counting(placed(31, 1, spot, 0, 0), tally),
        Answer::Paused { spot, tally } => counting(placed(32, 1, spot, 0, 0), tally),
        Answer::Kept => bare(33),
    }
}

// An answer that carries nothing.
fn bare(number: u8) -> Told
    ensures { result ≡ bare_told number }
{
    Told {
        number,
        values: 0,
        first: 0,
        line: None,
        second: 0,
        third: 0,
        tally: None,
    }
}

// An answer that carries an end.
fn ended(number: u8, end: usize) -> Told
    ensures { result ≡ end_told number end }
{
    Told {
        values: 1,
        first: end,
        ..bare(number)
    }
}

// An answer that carries so many values, of which the first is a place.
fn placed(number: u8, values: u8, spot: Spot, second: usize, third: usize) -> Told
    ensures { result ≡ place_told number values spot second third }
{
    Told {
        number,
        values,
        first: spot.place,
        line: Some(Line {
            number: spot.line,
            column: spot.column,
        }),
        second,
        third,
        tally: None,
    }
}

// The same answer with its events and steps.
fn counting(told: Told, tally: Tally) -> Told
    ensures { result ≡ counting_told told tally }
{
    Told {
        tally: Some(tally),
        ..told
    }
}
