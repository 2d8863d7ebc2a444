// A decimal number in a part of a line, and in a field of it.
ghost use Rattle.std.specs.Prelude.{◌≡◌};
ghost use Rattle.text.specs.Decimal.{number_of, decimal_of, field_of};

use crate::places::find;

// The largest number that is taken, 2^32 - 1, and how many digits it has.
const LARGEST: u64 = u32::MAX as u64;

const MOST_DIGITS: usize = 10;

// A number that is a field of a line, and the place past the space that follows it. Where the line ends with the number, that is
// one past the line's end.
#[derive(Clone, Copy)]
pub struct Field {
    pub number: usize,
    pub next: usize,
}

// The field from a place up to the next space, or up to the line's end.
#[tactic(auto, unfolding(crate::specs::Decimal::field_by))]
pub fn read_number(line: &[u8], from: usize) -> Option<Field>
    ensures { result ≡ field_of line.now from }
{
    let end = find(line, from, b' ');
    let number = decimal(line, from, end)?;
    Some(Field {
        number: number as usize,
        next: end + 1,
    })
}

// One to ten digits and nothing else, up to the largest number; zeros may lead.
#[tactic(auto, using(crate::proofs::Choices::choices))]
pub fn decimal(line: &[u8], from: usize, to: usize) -> Option<u64>
    ensures { result ≡ decimal_of line.now from to }
{
    number(line.get(from..to)?)
}

// Ten digits at most, so no sum on the way wraps.
#[tactic(auto, using(crate::proofs::Choices::choices), unfolding(base::specs::Range::within, crate::specs::Decimal::all_digits, crate::specs::Decimal::value_from))]
pub(crate) fn number(digits: &[u8]) -> Option<u64>
    ensures { result ≡ number_of digits.now }
{
    if digits.is_empty() || MOST_DIGITS < digits.len() {
        return None;
    }
    let mut value: u64 = 0;
    for digit in digits {
        if !digit.is_ascii_digit() {
            return None;
        }
        value = value * 10 + u64::from(*digit - b'0');
    }
    (value <= LARGEST).then_some(value)
}
