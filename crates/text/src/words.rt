// A part of a line against a word.
ghost use Rattle.std.specs.Prelude.{◌≡◌, ◌&&◌};
ghost use Rattle.text.specs.Part.{part, lies};
ghost use Rattle.text.specs.Word.{same};

// The part is the word, byte for byte.
#[tactic(auto, unfolding(crate::specs::Word::same))]
pub fn is_word(line: &[u8], from: usize, to: usize, word: &[u8]) -> bool
    ensures { result ≡ (lies line.now from to && same (part line.now from to) word.now) }
{
    line.get(from..to).is_some_and(|bytes| bytes == word)
}
