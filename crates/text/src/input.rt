// Lines from a reader, as standard input, by way of a lent buffer: any number of them, each shorter than the buffer.
//
// The bytes of the buffer from one place up to another have been read and not been used. take_line uses up a line of them, and
// says where there is none yet; fill reads more.
ghost use Rattle.std.specs.Prelude.{◌≡◌, false, ◌+◌, ◌-◌, ◌≤◌, ◌<◌, length, MatchResult};
ghost use Rattle.text.specs.Input.{least_of, turns_left, front_input, line_of, last_of, rest_of, taken_of, ended_input, Filled};

use crate::places::find;
use std::io::{self, Read};

// The unused bytes are those from `at` up to `end`. A line that was too long is being skipped; the input has ended. Either may
// hold without the other, so two bools are as plain as an enum of all four.
#[derive(Clone, Copy)]
pub struct Input {
    pub at: usize,
    pub end: usize,
    pub skips: bool,
    pub ended: bool,
}

#[derive(Clone, Copy)]
pub enum Line {
    // A line, without its line feed. The last one may have had none.
    Whole,
    // A line that the buffer has no room for. It is skipped.
    TooLong,
    // The rest of such a line.
    Skipped,
    // The buffer has no whole line: it is to be filled.
    More,
    // All lines are used up.
    Ended,
}

// What was taken, where it stands in the buffer, and the input to go on with.
#[derive(Clone, Copy)]
pub struct Taken {
    pub line: Line,
    pub from: usize,
    pub to: usize,
    pub input: Input,
}

impl Input {
    // Nothing is read yet.
    pub fn new() -> Self
        ensures { result ≡ front_input false }
    {
        at_front(false)
    }

    // The input to go on with where `fill` has failed over a buffer of so many bytes: the unused ones are the last.
    pub fn ended_behind(self, room: usize) -> Self
        ensures { result ≡ ended_input room self }
    {
        let end = self.end.min(room);
        Input {
            at: 0,
            end: end - self.at.min(end),
            ended: true,
            ..self
        }
    }
}

// The library's `min`, under the name that docs/PROMISES.md has.
pub fn least(a: usize, b: usize) -> usize
    ensures value { result ≡ least_of a b }
    ensures upper_bound { (result ≤ a) × (result ≤ b) }
{
    a.min(b)
}

// How many turns are left after one more. A proved loop ends, and nothing says that an input does: so a program that reads on may count
// its turns down, from more than any input takes. It stays since docs/PROMISES.md names it; nothing here calls it now.
#[tactic(auto, using(crate::proofs::Choices::choices), unfolding(crate::specs::Input::turns_left))]
pub fn turns_left(left: u64, going: bool) -> u64
    ensures value { result ≡ turns_left left going }
    ensures upper_bound { 0 < left → result < left }
{
    if going { left.saturating_sub(1) } else { 0 }
}

// The next line of the buffer. The first clause says what a caller needs that cuts it out.
#[tactic(auto, using(crate::proofs::Choices::choices))]
pub fn take_line(buffer: &[u8], input: Input) -> Taken
    ensures from_le_to { (result.from ≤ result.to) × (result.to ≤ length buffer.now) }
    ensures value { result ≡ taken_of buffer.now input }
{
    let end = input.end.min(buffer.len());
    let at = input.at.min(end);
    let mark = find(&buffer[..end], at, b'\n');
    let unused = Input { at, end, ..input };
    if mark < end {
        line_at(unused, mark)
    } else {
        rest_at(unused, buffer.len())
    }
}

// A line that ends in a line feed.
#[tactic(auto, using(crate::proofs::Choices::choices), unfolding(crate::specs::Input::line_of))]
fn line_at(unused: Input, mark: usize) -> Taken
    requires { mark + 1 ≤ unused.end }
    ensures value { result ≡ line_of unused.at mark unused.end unused.skips unused.ended }
    ensures from_value { (result.from ≡ unused.at) × (result.to ≡ mark) }
{
    Taken {
        line: if unused.skips {
            Line::Skipped
        } else {
            Line::Whole
        },
        from: unused.at,
        to: mark,
        input: Input {
            at: mark + 1,
            skips: false,
            ..unused
        },
    }
}

// No line feed stands in the unused bytes: they are the last line, too long a line, or a part of one.
#[tactic(auto, using(crate::proofs::Choices::choices), unfolding(crate::specs::Input::rest_of))]
fn rest_at(unused: Input, room: usize) -> Taken
    requires { unused.at ≤ unused.end }
    ensures value { result ≡ rest_of unused.at unused.end room unused.skips unused.ended }
    ensures from_value { (result.from ≡ unused.at) × (result.to ≡ unused.end) }
{
    if unused.ended {
        return last_at(unused);
    }
    let too_long = !unused.skips && unused.end - unused.at == room;
    Taken {
        line: if too_long { Line::TooLong } else { Line::More },
        from: unused.at,
        to: unused.end,
        input: if too_long || unused.skips {
            at_front(true)
        } else {
            unused
        },
    }
}

// The input has ended, and what is left of it is a line, unless it is none or belongs to one that was too long.
#[tactic(auto, using(crate::proofs::Choices::choices), unfolding(crate::specs::Input::last_of))]
fn last_at(unused: Input) -> Taken
    ensures value { result ≡ last_of unused.at unused.end unused.skips }
    ensures from_value { (result.from ≡ unused.at) × (result.to ≡ unused.end) }
{
    let none = unused.skips || unused.at == unused.end;
    Taken {
        line: if none { Line::Ended } else { Line::Whole },
        from: unused.at,
        to: unused.end,
        input: Input {
            at: unused.end,
            skips: false,
            ended: true,
            ..unused
        },
    }
}

// No bytes are left over.
fn at_front(skips: bool) -> Input
    ensures { result ≡ front_input skips }
{
    Input {
        at: 0,
        end: 0,
        skips,
        ended: false,
    }
}

// One read gives at most so many bytes: so a file is read in parts as a pipe is, and what is said of parts is tried by every test.
const READ_ROOM: usize = 16_384;

// The unused bytes are moved to the front, and what one read gives is put behind them: the input to go on with. A read that gives
// nothing is the input's end. So is one that fails, and nothing is put behind the unused bytes then: who goes on with them has the input
// from `ended_behind`.
pub fn fill(source: &mut impl Read, buffer: &mut [u8], input: Input) -> io::Result<Input>
    ensures { MatchResult result (λ next. Filled buffer.old input next buffer.new) (λ e. Filled buffer.old input (ended_input (length buffer.old) input) buffer.new) }
{
    let end = input.end.min(buffer.len());
    let at = input.at.min(end);
    let rest = end - at;
    buffer.copy_within(at..end, 0);
    let stop = buffer.len().min(rest + READ_ROOM);
    let count = source.read(&mut buffer[rest..stop])?;
    Ok(Input {
        at: 0,
        end: rest + count,
        ended: count == 0,
        ..input
    })
}
