// The next place of a byte.
ghost use Rattle.std.specs.Prelude.{◌≡◌, ◌==◌, ◌≤◌, ◌<◌, length, position, IfSome};
ghost use Rattle.text.specs.Find.{find_from};

// The first place from `from` on at which the byte stands, or the line's length where there is none. The second clause
// says what a caller that cuts the line there needs. It is no Option: callers cut there also where the byte does not stand.
#[tactic(auto, unfolding(crate::specs::Find::find_from))]
pub fn find(line: &[u8], from: usize, byte: u8) -> usize
    ensures value { result ≡ find_from line.now from byte }
    ensures upper_bound { (result ≤ length line.now) × (from ≤ length line.now → from ≤ result) }
{
    let Some(rest) = line.get(from..) else {
        return line.len();
    };
    match first(rest, byte) {
        Some(passed) => from + passed,
        None => line.len(),
    }
}

fn first(bytes: &[u8], byte: u8) -> Option<usize>
    ensures value { result ≡ position (λ x. x == byte) bytes.now }
    ensures upper_bound { IfSome result (λ place. place < length bytes.now) }
{
    bytes.iter().position(|x| *x == byte)
}
