// How much event room is enough: the words for a page of a given length, and the longest page for a given room. Six events for each byte
// and for the page's end are enough for every scan, whatever its page, its start and its verdicts: theorems say so, in `scan_theorems` of
// single scans and in `worker_theorems` of a worker's places.
#![tactic(auto)]

ghost use Rattle.std.specs.Prelude.{◌≡◌};
ghost use Rattle.room.specs.Room.{enough_of, enough_by, longest_of, longest_by};

use base::PAGE_LIMIT;
use events::WIDTH;

// The most events that are written at one byte, and at the page's end.
pub const AT_EACH_BYTE: usize = 6;

// The words of an event buffer that no scan of a page of so many bytes fills; nothing, where no page is so long. A worker needs sixteen
// times as many.
#[tactic(auto, using(base::proofs::Choice::picks), unfolding(crate::specs::Room::enough_of))]
pub fn words_enough(length: usize) -> Option<usize>
    ensures { enough_by result ≡ enough_of length }
{
    if PAGE_LIMIT < length {
        return None;
    }
    Some(AT_EACH_BYTE * (length + 1) * WIDTH)
}

// The longest page that a room of so many events is enough for; nothing, where it is not enough for the empty page.
#[tactic(auto, using(base::proofs::Choice::picks), unfolding(crate::specs::Room::longest_of))]
pub fn longest_page(room: usize) -> Option<usize>
    ensures { longest_by result ≡ longest_of room }
{
    if room < AT_EACH_BYTE {
        return None;
    }
    if AT_EACH_BYTE * (PAGE_LIMIT + 1) <= room {
        return Some(PAGE_LIMIT);
    }
    Some(room / AT_EACH_BYTE - 1)
}
