// An answer as text: its name and its values.
ghost use Rattle.std.specs.Prelude.{◌≡◌, [], ◌∷◌, ◌≤◌, length};
ghost use Rattle.report.specs.AnswerText.{answer_name, place_pieces, values_pieces, answer_pieces};
ghost use Rattle.report.specs.Put.{outcome, put_of};

use crate::answers::Told;
use crate::pieces::{joined, text, value};
use page::line::Line;

// The name of the answer with a number of docs/NUMBERS.md; a number that is none's is `unknown`. docs/PROMISES.md has it take every number.
pub fn answer_name(out: &mut [u8], at: usize, number: u8) -> usize
    ensures { outcome result out.new ≡ put_of out.old at (answer_name number ∷ []) }
{
    text(out, at, name(number))
}

#[tactic(auto, using(base::proofs::Choice::picks), unfolding(crate::specs::AnswerText::answer_name, base::specs::Table::find))]
fn name(number: u8) -> &'static [u8]
    ensures { result.now ≡ answer_name number }
{
    match number {
        0 => b"Done",
        1 => b"Nok",
        2 => b"TooLong",
        3 => b"BadStart",
        4 => b"BadText",
        5 => b"NotAscii",
        6 => b"Eof",
        7 => b"Unexpected",
        8 => b"VerdictError",
        9 => b"VerdictEof",
        10 => b"Full",
        11 => b"NoPlace",
        12 => b"BadCall",
        31 => b"Asking",
        32 => b"Paused",
        33 => b"Kept",
        _ => b"unknown",
    }
}

// The name and the values, with a space before each value. The line and the column of a place stand behind it, with the joint
// before each.
pub fn answer_text(out: &mut [u8], at: usize, told: Told, joint: &[u8]) -> usize
    ensures upper_bound { result ≤ length out.new }
    ensures out_after { outcome result out.new ≡ put_of out.old at (answer_pieces joint.now told) }
{
    let past = answer_name(out, at, told.number);
    values(out, past, told, joint)
}

fn values(out: &mut [u8], at: usize, told: Told, joint: &[u8]) -> usize
    ensures { outcome result out.new ≡ put_of out.old at (values_pieces joint.now told) }
{
    let past = value(out, at, (0 < told.values).then_some(told.first));
    let past = place(out, past, told.line, joint);
    let past = value(out, past, (1 < told.values).then_some(told.second));
    value(out, past, (2 < told.values).then_some(told.third))
}

// The line and the column of a place, or nothing where the first value is none.
#[tactic(auto, using(crate::proofs::Puts::nothing_put))]
fn place(out: &mut [u8], at: usize, line: Option<Line>, joint: &[u8]) -> usize
    ensures { outcome result out.new ≡ put_of out.old at (place_pieces joint.now line) }
{
    match line {
        Some(line) => {
            let past = joined(out, at, joint, line.number);
            joined(out, past, joint, line.column)
        }
        None => at.min(out.len()),
    }
}
