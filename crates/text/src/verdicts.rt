// A verdict in a part of a line.
ghost use Rattle.std.specs.Prelude.{◌≡◌};
ghost use Rattle.text.specs.Decimal.{number_of};
ghost use Rattle.text.specs.Verdict.{unfinished_of, wrong_of, narrow_of, verdict_of};

use crate::numbers::{decimal, number};
use crate::places::find;
use base::Verdict;

// `o`, `u` and a number, or `e`, a number, `@` and an offset in the body.
#[tactic(auto, using(crate::proofs::Choices::choices), unfolding(crate::specs::Verdict::verdict_of, crate::specs::Verdict::verdict_in))]
pub fn read_verdict(line: &[u8], from: usize, to: usize) -> Option<Verdict>
    ensures { result ≡ verdict_of line.now from to }
{
    let (first, rest) = line.get(from..to)?.split_first()?;
    match first {
        b'o' if rest.is_empty() => Some(Verdict::Fine),
        b'u' => unfinished(rest),
        b'e' => wrong(rest),
        _ => None,
    }
}

#[tactic(auto, unfolding(crate::specs::Verdict::unfinished_of))]
fn unfinished(digits: &[u8]) -> Option<Verdict>
    ensures { result ≡ unfinished_of (number_of digits.now) }
{
    Some(Verdict::Unfinished(narrow(number(digits)?)))
}

#[tactic(auto, unfolding(crate::specs::Verdict::wrong_of, crate::specs::Verdict::wrong_at_of))]
fn wrong(bytes: &[u8]) -> Option<Verdict>
    ensures { result ≡ wrong_of bytes.now }
{
    let mark = find(bytes, 0, b'@');
    let number = decimal(bytes, 0, mark)?;
    let offset = decimal(bytes, mark + 1, bytes.len())?;
    Some(Verdict::Wrong(narrow(number), offset as usize))
}

// A number that is read is at most the largest.
#[tactic(auto, using(crate::proofs::Choices::choices), unfolding(crate::specs::Verdict::narrow_of))]
fn narrow(number: u64) -> u32
    ensures { result ≡ narrow_of number }
{
    u32::try_from(number).unwrap_or(0)
}
