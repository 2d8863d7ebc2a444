// Bytes written as pairs of hex digits, in lower case; and as `-` where there are none.
ghost use Rattle.std.specs.Prelude.{◌≡◌, ◌<◌, ◌≤◌, ◌/◌, length};
ghost use Rattle.std.specs.List.{list_all};
ghost use Rattle.std.proofs.lemmas.List.Edits.{sets};
ghost use Rattle.text.specs.Hex.{hex_value, is_hex, digit, pairs, bytes_of, decoded_of, buffer_of, read_of, read_into};

use crate::words::is_word;

// Why a part of a line gives no bytes.
#[derive(Clone, Copy)]
pub enum HexFault {
    // It does not lie in the line, or is not two digits for each byte.
    BadHex,
    // The buffer is too short for the bytes.
    NoRoom,
}

// The value of a digit, 0 to 15.
#[tactic(auto, using(crate::proofs::Choices::choices), unfolding(crate::specs::Hex::hex_value, base::specs::Range::within))]
pub fn hex_value(byte: u8) -> Option<u8>
    ensures { result ≡ hex_value byte }
{
    match byte {
        b'0'..=b'9' => Some(byte - b'0'),
        b'a'..=b'f' => Some(byte - b'a' + 10),
        _ => None,
    }
}

// A field of bytes: as decode_hex reads them, or `-` for none. A field is never empty.
#[tactic(auto, using(crate::proofs::Choices::choices))]
pub fn read_bytes(line: &[u8], from: usize, to: usize, out: &mut [u8]) -> Result<usize, HexFault>
    ensures value { result ≡ read_of line.now from to (length out.old) }
    ensures out_after { out.new ≡ read_into line.now from to out.old }
{
    if is_word(line, from, to, b"-") {
        return Ok(0);
    }
    if to <= from {
        return Err(HexFault::BadHex);
    }
    decode_hex(line, from, to, out)
}

// The bytes that the part says, put at the start of the buffer, and how many they are. All is looked at before anything is
// written, so a refusal leaves the buffer as it was.
#[tactic(auto, using(crate::proofs::Choices::choices))]
pub fn decode_hex(line: &[u8], from: usize, to: usize, out: &mut [u8]) -> Result<usize, HexFault>
    ensures value { result ≡ decoded_of line.now from to (length out.old) }
    ensures out_after { out.new ≡ buffer_of line.now from to out.old }
{
    let Some(digits) = line.get(from..to) else {
        return Err(HexFault::BadHex);
    };
    if !all_pairs(digits) {
        return Err(HexFault::BadHex);
    }
    let count = digits.len() / 2;
    if out.len() < count {
        return Err(HexFault::NoRoom);
    }
    write_pairs(digits, out);
    Ok(count)
}

#[tactic(auto, unfolding(crate::specs::Hex::pairs))]
fn all_pairs(digits: &[u8]) -> bool
    ensures { result ≡ pairs digits.now }
{
    digits.len() % 2 == 0 && all_digits(digits)
}

fn all_digits(bytes: &[u8]) -> bool
    ensures { result ≡ list_all is_hex bytes.now }
{
    bytes.iter().all(|byte| hex_value(*byte).is_some())
}

fn write_pairs(digits: &[u8], out: &mut [u8])
    requires { length digits.now / 2 ≤ length out.old }
    ensures { out.new ≡ sets out.old 0 (bytes_of digits.now) }
{
    let (pairs, _) = digits.as_chunks::<2>();
    for (at, [high, low]) in pairs.iter().enumerate() {
        out[at] = digit(*high) * 16 + digit(*low);
    }
}

// The value of a byte that is known to be a digit.
#[tactic(auto, using(crate::proofs::Choices::choices), unfolding(crate::specs::Hex::hex_value, base::specs::Range::within))]
fn digit(byte: u8) -> u8
    ensures value { result ≡ digit byte }
    ensures upper_bound { result < 16 }
{
    hex_value(byte).unwrap_or(0)
}
