// Lists of openings. A lent list of structs is handed on as it is.
ghost use Rattle.std.specs.Prelude.{◌≡◌};
ghost use Rattle.batch.specs.Batch.{batch, batch_of};

use batch::{Filled, Opening, fill};

// Every record of the list is answered by a single scan over the page, with steps enough, in list order.
pub fn tarredlath_fill(page: &[u8], openings: &mut [Opening], events: &mut [u32]) -> Filled
    ensures { batch result openings.new events.new ≡ batch_of page.now openings.old events.old }
{
    fill(page, openings, events)
}
