// Answers as numbers.
ghost use Rattle.std.specs.Prelude.{◌≡◌};
ghost use Rattle.scan.specs.Answer as single;
ghost use Rattle.mdx_collect.specs.Collect as mdx_collect;
ghost use Rattle.room.specs.Room.{enough_by};
ghost use Rattle.worker.specs.Reply as worker;
ghost use Rattle.crossing.specs.Answers.{answer_numbers, body_numbers, enough_numbers};
ghost use Rattle.crossing.specs.Inner.{bare_of, placed_of, tallied_of, carried_of, bodiless_of};

use crate::{AnswerNumbers, BodyNumbers, EnoughNumbers};
use mdx_collect::Body;
use page::line::Spot;
use scan::{Answer, Tally};
use worker::Reply;

// An answer that carries nothing.
pub fn bare(number: u8) -> AnswerNumbers
    ensures { result ≡ bare_of number }
{
    AnswerNumbers {
        place: 0,
        line: 0,
        column: 0,
        events: 0,
        steps: 0,
        verdict: 0,
        number,
        site: 0,
        note: 0,
    }
}

// One that carries a number of a place alone, or an end.
fn with_place(number: u8, place: usize) -> AnswerNumbers
    ensures { result ≡ placed_of number place }
{
    AnswerNumbers {
        place,
        ..bare(number)
    }
}

// One that carries a place, a where-number, a note and a verdict's number; 0 for those that it does not carry.
fn at_spot(number: u8, spot: Spot, site: u8, note: u8, verdict: u32) -> AnswerNumbers
    ensures { result ≡ carried_of number spot site note verdict }
{
    AnswerNumbers {
        place: spot.place,
        line: spot.line,
        column: spot.column,
        verdict,
        site,
        note,
        ..bare(number)
    }
}

// The same with its events and steps.
fn tallied(numbers: AnswerNumbers, tally: Tally) -> AnswerNumbers
    ensures { result ≡ tallied_of numbers tally }
{
    AnswerNumbers {
        events: tally.events,
        steps: tally.steps,
        ..numbers
    }
}

// What a single scan is answered. report's `tell` and batch's records have a match like it: each fills other fields, here in C's layout.
impl From<Answer> for AnswerNumbers {
    ghost from_gives = { λ answer numbers. numbers ≡ answer_numbers (single.said_by answer) };

    fn from(answer: Answer) -> AnswerNumbers {
        match answer {
            Answer::Done { end, tally } => tallied(with_place(0, end), tally),
            Answer::Nok { tally } => tallied(bare(1), tally),
            Answer::TooLong => bare(2),
            Answer::BadStart => bare(3),
            Answer::BadText { spot } => at_spot(4, spot, 0, 0, 0),
            Answer::NotAscii { spot, tally } => tallied(at_spot(5, spot, 0, 0, 0), tally),
            Answer::Eof { spot, site, tally } => tallied(at_spot(6, spot, site, 0, 0), tally),
            Answer::Unexpected {
                spot,
                site,
                note,
                tally,
            } => tallied(at_spot(7, spot, site, note, 0), tally),
            Answer::VerdictError {
                spot,
                number,
                tally,
            } => tallied(at_spot(8, spot, 0, 0, number), tally),
            Answer::VerdictEof {
                spot,
                number,
                tally,
            } => tallied(at_spot(9, spot, 0, 0, number), tally),
            Answer::Full { spot, tally } => tallied(at_spot(10, spot, 0, 0, 0), tally),
            Answer::BadCall => bare(12),
            Answer::Asking { spot, tally } => tallied(at_spot(31, spot, 0, 0, 0), tally),
            Answer::Paused { spot, tally } => tallied(at_spot(32, spot, 0, 0, 0), tally),
            Answer::Kept => bare(33),
        }
    }
}

// What a call on a worker is answered. Of a start and a body, which have numbers of their own, it has the number alone.
impl From<Reply> for AnswerNumbers {
    ghost from_gives = { λ reply numbers. numbers ≡ answer_numbers (worker.said_by reply) };

    fn from(reply: Reply) -> AnswerNumbers {
        match reply {
            Reply::Started(_) => bare(34),
            Reply::Placed(place) => with_place(35, place),
            Reply::Served(place) => with_place(36, place),
            Reply::Idle => bare(37),
            Reply::InPage { at: _, length: _ } => bare(38),
            Reply::InScratch { length: _ } => bare(39),
            Reply::NoPlace => bare(11),
            Reply::Answered(answer) => AnswerNumbers::from(answer),
        }
    }
}

// Where a body of some kind is: a function, since a body and its kind are two values of different sorts, and a pair of them has no name.
#[tactic(auto, using(crate::proofs::Bodies::page_numbers, crate::proofs::Bodies::scratch_numbers, crate::proofs::Bodies::refused_numbers))]
pub fn body_numbers(body: Option<Body>, kind: u8) -> BodyNumbers
    ensures { result ≡ body_numbers (mdx_collect.said_by body) kind }
{
    match body {
        Some(Body::InPage { at, length }) => BodyNumbers {
            at,
            length,
            number: 38,
            kind,
        },
        Some(Body::InScratch { length }) => BodyNumbers {
            at: 0,
            length,
            number: 39,
            kind,
        },
        None => bodiless(12, kind),
    }
}

// A body that has a number of its own, and none: 12 has no kind.
fn bodiless(number: u8, kind: u8) -> BodyNumbers
    ensures { result ≡ bodiless_of number kind }
{
    BodyNumbers {
        at: 0,
        length: 0,
        number,
        kind: if number == 12 { 0 } else { kind },
    }
}

// Where the body of a worker's place is.
pub fn reply_body_numbers(reply: Reply, kind: u8) -> BodyNumbers
    ensures { result ≡ body_numbers (worker.said_by reply) kind }
{
    match reply {
        Reply::InPage { at, length } => body_numbers(Some(Body::InPage { at, length }), kind),
        Reply::InScratch { length } => body_numbers(Some(Body::InScratch { length }), kind),
        _ => bodiless(AnswerNumbers::from(reply).number, kind),
    }
}

// How many words are enough, if any are.
impl From<Option<usize>> for EnoughNumbers {
    ghost from_gives = { λ enough numbers. numbers ≡ enough_numbers (enough_by enough) };

    fn from(enough: Option<usize>) -> EnoughNumbers {
        match enough {
            Some(words) => EnoughNumbers { words, number: 40 },
            None => EnoughNumbers {
                words: 0,
                number: 2,
            },
        }
    }
}
