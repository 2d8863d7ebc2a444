// A table of 256 bits, one for each byte, in four words.
//
// The word is chosen by a `match`, behind a test for the last byte: of that the compiler makes four constants of the program and one
// load. A table that is indexed would be stored anew for each byte.
ghost use Rattle.std.specs.Prelude.{◌≡◌};
ghost use Rattle.char_class.specs.Lookup.{word_of, looked_up};

use base::byte::END_OF_PAGE;

// The word that has the byte's bit.
fn word_of(table: [u64; 4], b: u16) -> u64
    ensures { result ≡ word_of table b }
{
    match b / 64 {
        0 => table[0],
        1 => table[1],
        2 => table[2],
        3 => table[3],
        _ => 0,
    }
}

// The byte's bit. The page's end, and what is past it, has none.
pub(crate) fn looked_up(table: [u64; 4], b: u16) -> bool
    ensures { result ≡ looked_up table b }
{
    if END_OF_PAGE <= b {
        return false;
    }
    word_of(table, b) >> (b % 64) & 1 == 1
}
