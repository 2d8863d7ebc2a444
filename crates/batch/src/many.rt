// The same over a fixed number of records by value.
ghost use Rattle.std.specs.Prelude.{◌≡◌};
ghost use Rattle.batch.specs.Batch.{batch, batch_of};

use crate::{Filled, Opening, fill};

// As many records as a program hands over at once.
pub const MANY: usize = 256;

// The records with their answers, and what became of the list.
#[derive(Clone, Copy)]
pub struct Many {
    pub openings: [Opening; MANY],
    pub filled: Filled,
}

// Every record is answered, as by `fill`.
pub fn fill_many(page: &[u8], mut openings: [Opening; MANY], events: &mut [u32]) -> Many
    ensures { batch result.filled result.openings events.new ≡ batch_of page.now openings events.old }
{
    let filled = fill(page, &mut openings, events);
    Many { openings, filled }
}
