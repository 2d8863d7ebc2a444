// Bytes, numbers and hex digits.
ghost use Rattle.std.specs.Prelude.{◌≡◌, [], ◌∷◌, ◌+◌, ◌*◌, ◌≤◌, ◌<◌, length};
ghost use Rattle.std.proofs.lemmas.List.Edits.{sets};
ghost use Rattle.report.specs.Decimal.{decimal, joined_pieces, spaced_pieces, value_pieces};
ghost use Rattle.report.specs.Hex.{digit_of, hex_of, field_of};
ghost use Rattle.report.specs.Put.{outcome, put_of};

// The bytes, whole or not at all.
#[tactic(auto, using(crate::proofs::Puts::no_room, crate::proofs::Puts::all_put))]
pub fn text(out: &mut [u8], at: usize, bytes: &[u8]) -> usize
    ensures upper_bound { result ≤ length out.new }
    ensures out_after { outcome result out.new ≡ put_of out.old at (bytes.now ∷ []) }
{
    let place = at.min(out.len());
    if out.len() - place < bytes.len() {
        return place;
    }
    out[place..place + bytes.len()].copy_from_slice(bytes);
    place + bytes.len()
}

// The number's decimal digits, as few as it has.
#[tactic(auto, using(crate::proofs::Decimals::fewest_is))]
pub fn number(out: &mut [u8], at: usize, n: u64) -> usize
    ensures { outcome result out.new ≡ put_of out.old at (decimal n ∷ []) }
{
    let mut digits = [0u8; 20];
    let count = io::decimal(n, &mut digits);
    text(out, at, &digits[..count])
}

// A joint, as `:`, and the number.
pub fn joined(out: &mut [u8], at: usize, joint: &[u8], n: usize) -> usize
    ensures upper_bound { result ≤ length out.new }
    ensures out_after { outcome result out.new ≡ put_of out.old at (joined_pieces joint.now n) }
{
    let past = text(out, at, joint);
    number(out, past, n as u64)
}

// A space and the number.
pub fn spaced(out: &mut [u8], at: usize, n: usize) -> usize
    ensures upper_bound { result ≤ length out.new }
    ensures out_after { outcome result out.new ≡ put_of out.old at (spaced_pieces n) }
{
    joined(out, at, b" ", n)
}

// The same of a number that is carried, else nothing.
#[tactic(auto, using(crate::proofs::Puts::nothing_put))]
pub fn value(out: &mut [u8], at: usize, n: Option<usize>) -> usize
    ensures { outcome result out.new ≡ put_of out.old at (value_pieces n) }
{
    match n {
        Some(n) => spaced(out, at, n),
        None => at.min(out.len()),
    }
}

// A field of bytes: two hex digits for each, or `-` where there are none. It is put whole or not at all.
#[tactic(auto, using(crate::proofs::Digits::no_bytes, crate::proofs::Digits::field_no_room))]
pub fn hex(out: &mut [u8], at: usize, bytes: &[u8]) -> usize
    ensures { outcome result out.new ≡ put_of out.old at (field_of bytes.now ∷ []) }
{
    if bytes.len() == 0 {
        return text(out, at, b"-");
    }
    let place = at.min(out.len());
    if (out.len() - place) / 2 < bytes.len() {
        return place;
    }
    put_digits(out, place, bytes);
    place + bytes.len() * 2
}

// By index: a pair from `chunks_exact_mut` would be written at two indices as well.
fn put_digits(out: &mut [u8], at: usize, bytes: &[u8])
    requires { at + length bytes.now * 2 ≤ length out.old }
    ensures { out.new ≡ sets out.old at (hex_of bytes.now) }
{
    for (i, b) in bytes.iter().enumerate() {
        out[at + i * 2] = hex_digit(*b / 16);
        out[at + i * 2 + 1] = hex_digit(*b % 16);
    }
}

#[tactic(auto, using(base::proofs::Choice::picks), unfolding(crate::specs::Hex::digit_of))]
fn hex_digit(n: u8) -> u8
    requires { n < 16 }
    ensures { result ≡ digit_of n }
{
    if n < 10 { b'0' + n } else { 87 + n }
}
