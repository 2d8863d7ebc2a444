// The classes of a byte's number that the expression, tag and ESM states ask for. The page's end is in no class.
//
// Each class is decided here and nowhere else, behind one function with one promise: a quicker test, or names in other
// scripts, changes the inside of a function or one definition, and no caller.
#![tactic(auto)]

mod lookup;

ghost use Rattle.std.specs.Prelude.{◌≡◌};
ghost use Rattle.char_class.specs.Class.{is_whitespace, is_space_or_tab, is_id_start, is_id_cont};

use crate::lookup::looked_up;
use base::byte::{
    CAPITAL_A, CAPITAL_Z, CARRIAGE_RETURN, DOLLAR_SIGN, SMALL_A, SMALL_Z, SPACE, TAB, UNDERSCORE,
};

// White space in a tag: tab, line feed, vertical tab, form feed, carriage return and space.
#[tactic(auto, using(base::proofs::Choice::picks, base::proofs::Ranges::ranges), unfolding(crate::specs::Class::is_whitespace))]
pub fn whitespace(b: u16) -> bool
    ensures { result ≡ is_whitespace b }
{
    matches!(b, TAB..=CARRIAGE_RETURN | SPACE)
}

// What a line prefix and a blank line are made of.
#[tactic(auto, using(base::proofs::Choice::picks, base::proofs::Ranges::ranges), unfolding(crate::specs::Class::is_space_or_tab))]
pub fn space_or_tab(b: u16) -> bool
    ensures { result ≡ is_space_or_tab b }
{
    matches!(b, TAB | SPACE)
}

// What a name starts with.
#[tactic(auto, using(base::proofs::Choice::picks, base::proofs::Ranges::ranges), unfolding(crate::specs::Class::is_id_start))]
pub fn id_start(b: u16) -> bool
    ensures { result ≡ is_id_start b }
{
    matches!(b, CAPITAL_A..=CAPITAL_Z | SMALL_A..=SMALL_Z | DOLLAR_SIGN | UNDERSCORE)
}

// A bit for each byte that a name goes on with: `$`, `-` and the digits in the first word, the letters and `_` in the second.
const ID_CONT: [u64; 4] = [0x03ff_2010_0000_0000, 0x07ff_fffe_87ff_fffe, 0, 0];

// What a name goes on with. Most bytes of a name meet this test, so it is a lookup.
pub fn id_cont(b: u16) -> bool
    ensures { result ≡ is_id_cont b }
{
    looked_up(ID_CONT, b)
}
