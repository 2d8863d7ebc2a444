// The four letters that say what is asked of a scan: construct, kind, mode and interrupt, each with a space after it.
ghost use Rattle.std.specs.Prelude.{◌≡◌};
ghost use Rattle.text.specs.Letters.{spaced_of, construct_of, choice_of, flags_of, letters_of};

// The numbers of docs/NUMBERS.md.
#[derive(Clone, Copy)]
pub struct Letters {
    pub construct: u8,
    pub kind: u8,
    pub flags: u8,
}

// The letters from a place on: `e`, `t` or `s`, `f` or `t`, `c` or `v`, `0` or `1`.
#[tactic(auto, using(crate::proofs::Choices::choices), unfolding(crate::specs::Letters::spaced_of, crate::specs::Letters::asked_of))]
pub fn read_letters(line: &[u8], from: usize) -> Option<Letters>
    ensures { result ≡ letters_of line.now from }
{
    let [construct, kind, mode, interrupt] = spaced(line.get(from..)?)?;
    let construct = construct_of(construct)?;
    let kind = choice(kind, b'f', b't')?;
    let mode = choice(mode, b'c', b'v')?;
    let interrupt = choice(interrupt, b'0', b'1')?;
    Some(Letters {
        construct,
        kind,
        flags: flags_of(mode, interrupt),
    })
}

// The four letters at the start, if each has a space after it.
#[tactic(auto, using(crate::proofs::Choices::choices), unfolding(crate::specs::Letters::spaced_of))]
fn spaced(bytes: &[u8]) -> Option<[u8; 4]>
    ensures { result ≡ spaced_of bytes.now }
{
    match bytes {
        [first, b' ', second, b' ', third, b' ', fourth, b' ', ..] => Some([
            *first, *second, *third, *fourth,
        ]),
        _ => None,
    }
}

#[tactic(auto, using(crate::proofs::Choices::choices), unfolding(crate::specs::Letters::construct_of))]
fn construct_of(letter: u8) -> Option<u8>
    ensures { result ≡ construct_of letter }
{
    match letter {
        b'e' => Some(0),
        b't' => Some(1),
        b's' => Some(2),
        _ => None,
    }
}

#[tactic(auto, using(crate::proofs::Choices::choices), unfolding(crate::specs::Letters::choice_of))]
fn choice(letter: u8, zero: u8, one: u8) -> Option<u8>
    ensures { result ≡ choice_of letter zero one }
{
    if letter == zero {
        Some(0)
    } else if letter == one {
        Some(1)
    } else {
        None
    }
}

// 1 says that a verdict source is at hand, 2 that the construct would interrupt another.
#[tactic(auto, using(crate::proofs::Choices::choices), unfolding(crate::specs::Letters::flags_of))]
fn flags_of(mode: u8, interrupt: u8) -> u8
    ensures { result ≡ flags_of mode interrupt }
{
    match (mode, interrupt) {
        (_, 0) => mode,
        (0, _) => 2,
        _ => 3,
    }
}
