// The shares of the sixteen places of a worker in its event buffer.
ghost use Rattle.std.specs.Prelude.{◌≡◌};
ghost use Rattle.events.specs.Share.{share_of};

use crate::WIDTH;

// As many shares as a worker has places.
pub const SHARES: usize = 16;

// The words of a share of a buffer of so many words: whole events only.
pub fn share_of(words: usize) -> usize
    ensures { result ≡ share_of words }
{
    words / (SHARES * WIDTH) * WIDTH
}
