// The words that so many events take, and the events that so many words hold.
ghost use Rattle.std.specs.Prelude.{◌≡◌, ◌≤◌};
ghost use Rattle.events.specs.Room.{words_for, held_in};

use crate::WIDTH;

// Of a buffer of `most` words, those for so many events: all of them, where there are no more.
#[tactic(auto, using(base::proofs::Choice::picks))]
pub fn words_for(room: usize, most: usize) -> usize
    ensures value { result ≡ words_for room most }
    ensures upper_bound { result ≤ most }
{
    if room < most / WIDTH {
        room * WIDTH
    } else {
        most
    }
}

// Of so many events, as many as a buffer of so many words holds.
#[tactic(auto, using(base::proofs::Choice::picks))]
pub fn held(count: usize, words: usize) -> usize
    ensures { result ≡ held_in count words }
{
    count.min(words / WIDTH)
}
