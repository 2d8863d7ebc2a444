// The face of the library to C, and by C to other languages: `include/tarredlath.h` declares these functions, docs/NUMBERS.md has the
// numbers, and the crate `tarredlath_c` exports them. Each makes a scan or a worker of the numbers that it is handed, calls the library's
// own function, and makes numbers of what that hands back; it adds nothing of its own. Numbers that stand for no scan or worker are handed
// back as they were, with 12.
//
// A lent slice is a pointer and a length. What a pointer points to is the caller's word: nothing here can look at it.
#![tactic(auto)]

mod lists;
mod scans;
mod workers;

ghost use Rattle.std.specs.Prelude.{◌≡◌};
ghost use Rattle.tarredlath.specs.Face.{version};

pub use lists::tarredlath_fill;
pub use scans::{
    tarredlath_scan_answer, tarredlath_scan_body, tarredlath_scan_give, tarredlath_scan_new,
    tarredlath_scan_once, tarredlath_scan_run, tarredlath_words_enough,
};
pub use workers::{
    tarredlath_worker_admit, tarredlath_worker_body, tarredlath_worker_collect,
    tarredlath_worker_start, tarredlath_worker_turn, tarredlath_worker_verdict,
    tarredlath_worker_view,
};

// The version of this interface: its functions, their parameters and the layout of its structs.
const VERSION: u32 = 1;

pub fn tarredlath_version() -> u32
    ensures { result ≡ version }
{
    VERSION
}
