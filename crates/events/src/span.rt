// The words that so many events take up.
ghost use Rattle.std.specs.Prelude.{◌≡◌};
ghost use Rattle.events.specs.Span.{front_of};

use crate::WIDTH;

// The words of the first n events of a buffer; all of its words, where it has no room for so many.
#[tactic(auto, using(std::proofs::lemmas::List::take_all))]
pub fn front<'a>(words: &'a [u32], n: usize) -> &'a [u32]
    ensures { result.now ≡ front_of words.now n }
{
    if words.len() / WIDTH < n {
        return words;
    }
    &words[..n * WIDTH]
}
