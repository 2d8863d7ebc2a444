// The body that a verdict is about, and where its bytes stand in the page.
#![tactic(auto, using(base::proofs::Choice::picks))]

ghost use Rattle.std.specs.Prelude.{◌≡◌, ◌-◌, ◌<◌, ◌^◌};
ghost use Rattle.body_places.specs.Body as body;

use base::{byte, byte_at};

// How many columns of a line prefix may come after this byte.
pub fn prefix_after(b: u16) -> u8
    ensures { result ≡ body.prefix_after b }
{
    if b == byte::LINE_FEED { 2 } else { 0 }
}

// Whether the byte belongs to a line prefix of which `left` columns may still come.
pub fn in_prefix(b: u16, left: u8) -> bool
    ensures { result ≡ body.in_prefix b left }
{
    0 < left && b == byte::SPACE
}

// Whether such a prefix ends inside the byte, which is a tab then.
pub fn splits(b: u16, left: u8) -> bool
    ensures { result ≡ body.splits b left }
{
    0 < left && b == byte::TAB
}

// A tab has so many columns at the most.
const TAB_SIZE: u8 = 4;

// How many spaces stand for the tab.
pub fn spaces(left: u8) -> usize
    ensures { result ≡ 4 - left }
{
    usize::from(TAB_SIZE.saturating_sub(left))
}

// How far places drift at this byte: not at all where it begins a run.
fn drift_at(b: u16, drift: usize) -> usize
    ensures { result ≡ body.drift_at b drift }
{
    match b {
        byte::LINE_FEED | byte::RIGHT_BRACE => 0,
        _ => drift,
    }
}

// The place of byte r of the expression's body between `from` and `to`, or `to` where the body is not that long: no Option, since an error
// past the body's end is placed there (`place_of`).
pub fn expression_place(page: &[u8], from: usize, to: usize, r: usize) -> usize
    requires { to < 2 ^ 63 }
    ensures { result ≡ body.place_of (body.expression_places page.now from to) r to }
{
    let mut left: u8 = 0;
    let mut drift: usize = 0;
    let mut more = r;
    for at in from..to {
        let b = byte_at(page, at);
        if in_prefix(b, left) {
            left -= 1;
        } else if splits(b, left) {
            let n = spaces(left);
            if more < n {
                return at + more;
            }
            more -= n;
            left = 0;
            drift = n - 1;
        } else {
            drift = drift_at(b, drift);
            if more == 0 {
                return at + drift;
            }
            more -= 1;
            left = prefix_after(b);
        }
    }
    to
}

// The place of byte r of the ESM block between `from` and `to`, or `to` where the block is not that long, as above.
#[tactic(auto, using(crate::proofs::Laws::counted, crate::proofs::Laws::past))]
pub fn esm_place(from: usize, to: usize, r: usize) -> usize
    ensures { result ≡ body.place_of (body.esm_places from to) r to }
{
    if r < to.saturating_sub(from) {
        from + r
    } else {
        to
    }
}
