// A quick way over the bytes of a page at which there is nothing to do: they can be no fault, and each is one column. Most bytes of most
// pages are so. Sixteen at a time are skipped; where one of them is another thing, the pass looks at each by itself.
ghost use Rattle.std.specs.Prelude.{◌≡◌, ◌≤◌, eqb, count_by, length};
ghost use Rattle.base.specs.Page.{page_limit};
ghost use Rattle.page.specs.Plain.{is_plain, PlainTo};

// How many bytes are looked at together.
const BLOCK: usize = 16;

// A character by itself, of one column, and no carriage return.
#[tactic(auto, unfolding(base::specs::Range::within))]
fn is_plain(b: u8) -> bool
    ensures { result ≡ is_plain b }
{
    14 <= b && b <= 127
}

// All sixteen bytes of a block are plain. They are counted, with no way out before the end: so the compiler can have all of them looked at
// together.
fn plain_block(block: &[u8; BLOCK]) -> bool
    ensures { result ≡ eqb (count_by is_plain block.now) 16 }
{
    let mut plain: u8 = 0;
    for b in block {
        if is_plain(*b) {
            plain += 1;
        }
    }
    plain == 16
}

// From a place on, past as many whole blocks of plain bytes as there are.
// No `take_while(..).count()`: it gives blocks, of which the place is a product and a sum again, where the loop has the place itself.
pub(crate) fn skip_plain(page: &[u8], from: usize) -> usize
    requires { (from ≤ length page.now) × (length page.now ≤ page_limit) }
    ensures { PlainTo page.now from result }
{
    let (blocks, _) = page[from..].as_chunks::<BLOCK>();
    let mut at = from;
    for block in blocks {
        if !plain_block(block) {
            return at;
        }
        at += BLOCK;
    }
    at
}
