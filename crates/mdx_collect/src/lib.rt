// The body that a verdict is about, handed over: the Rust's `util/mdx_collect.rs`, without its copy where none is needed.
//
// A verdict source that is asked again and again about a growing body, as at each `}` of `{}}}}`, gets a part of the page each time, found
// without a look at the body. Only where a line prefix stands between two bytes of it is the body copied.
#![tactic(auto)]

ghost use Rattle.std.specs.Prelude.{◌≡◌, ◌-◌, ◌≤◌, length};
ghost use Rattle.std.proofs.lemmas.List.Edits.{sets};
ghost use Rattle.base.specs.Page.{page_limit};
ghost use Rattle.body_places.specs.Body.{bytes_of, spaces, expression_cells};
ghost use Rattle.mdx_collect.specs.Collect.{first, seam, only_prefix, asks_in, asked, collected_by, copied_of, collect_of, piece_of, part_of};

use base::{byte, byte_at, state};
use scan::Scan;

pub mod kind;

// What stands for the columns of a split tab.
const SPACE: u8 = 32;

// Where a body is: a part of the page, or the front of the scratch.
#[derive(Clone, Copy)]
pub enum Body {
    InPage { at: usize, length: usize },
    InScratch { length: usize },
}

// Where the body begins.
#[tactic(auto, using(base::proofs::Choice::picks))]
fn first_of(scan: Scan) -> usize
    ensures { result ≡ first scan }
{
    let job = scan.tokenizer.job;
    if job.construct == tokenizer::ESM {
        return job.start;
    }
    scan.tokenizer.regs.body
}

// A place of the body before which no line prefix stands: that of the first one, or the one that asks.
#[tactic(auto, using(base::proofs::Choice::picks))]
fn seam_of(scan: Scan) -> usize
    ensures { result ≡ seam scan }
{
    let joint = scan.tokenizer.regs.joint;
    if scan.tokenizer.job.construct == tokenizer::ESM {
        return scan.tokenizer.at;
    }
    if joint == 0 {
        return scan.tokenizer.at;
    }
    joint
}

// Whether there is nothing but a line prefix between the two places. It looks at two bytes at the most.
//
//     > | {a
//     > |   }
//         ^^ from, to: the prefix before the `}` that asks
#[tactic(auto, using(crate::proofs::Laws::nothing, crate::proofs::Laws::longer, crate::proofs::Laws::begun, crate::proofs::Laws::one_blank, crate::proofs::Laws::two_blanks))]
fn only_prefix(page: &[u8], from: usize, to: usize) -> bool
    ensures { result ≡ only_prefix page.now from to }
{
    to <= from
        || to - from <= 2
            && byte_at(page, from) == byte::SPACE
            && (to - from == 1 || byte_at(page, from + 1) == byte::SPACE)
}

// Whether a scan of the construct asks in this state: a verdict that is kept is not applied yet.
fn is_asking(name: u8, construct: u8) -> bool
    ensures { result ≡ asks_in name construct }
{
    name == state::ASKING || name == scan::calling::verdict_state(construct)
}

// Whether the scan asks, over a page of n bytes.
#[tactic(auto, unfolding(crate::specs::Collect::asked))]
fn is_asked(scan: Scan, n: usize) -> bool
    ensures { result ≡ asked scan n }
{
    let job = scan.tokenizer.job;
    is_asking(scan.tokenizer.state, job.construct) && n == job.length && scan.in_range()
}

// How many bytes the body between the two places has, its line prefixes left out. `copy` and `body_places::expression_place` go over a body
// in the same way, and are no one walk with it: what each does at a byte differs, and what it keeps from byte to byte. Places are counted,
// and no slice is gone over, since `from` may lie past `to`.
#[tactic(auto, using(crate::proofs::Laws::passed_over, crate::proofs::Laws::split_over, crate::proofs::Laws::counted, crate::proofs::Laws::all_counted))]
fn count(page: &[u8], from: usize, to: usize) -> usize
    requires { (to ≤ length page.now) × (length page.now ≤ page_limit) }
    ensures { result ≡ length (expression_cells page.now from to) }
{
    let mut left: u8 = 0;
    let mut n: usize = 0;
    for at in from..to {
        let b = byte_at(page, at);
        if body_places::in_prefix(b, left) {
            left -= 1;
            continue;
        }
        if body_places::splits(b, left) {
            n += body_places::spaces(left);
            left = 0;
            continue;
        }
        n += 1;
        left = body_places::prefix_after(b);
    }
    n
}

// Spaces, up to a place of the scratch.
#[tactic(auto, using(crate::proofs::Laws::filled))]
fn fill(scratch: &mut [u8], from: usize, end: usize)
    requires { (from ≤ end) × (end ≤ length scratch.old) }
    ensures { scratch.new ≡ sets scratch.old from (spaces (end - from)) }
{
    scratch[from..end].fill(SPACE);
}

// Those bytes, one after the other, to the front of the scratch.
#[tactic(auto, using(crate::proofs::Copying::spaces_put, crate::proofs::Laws::split_over, crate::proofs::Laws::counted, crate::proofs::Laws::all_put))]
fn copy(page: &[u8], from: usize, end: usize, scratch: &mut [u8])
    requires { (end ≤ length page.now) × (length (expression_cells page.now from end) ≤ length scratch.old) }
    ensures { scratch.new ≡ sets scratch.old 0 (bytes_of (expression_cells page.now from end)) }
{
    let mut left: u8 = 0;
    let mut n: usize = 0;
    for at in from..end {
        let b = byte_at(page, at);
        if body_places::in_prefix(b, left) {
            left -= 1;
            continue;
        }
        if body_places::splits(b, left) {
            let next = n + body_places::spaces(left);
            fill(scratch, n, next);
            n = next;
            left = 0;
            continue;
        }
        scratch[n] = page[at];
        n += 1;
        left = body_places::prefix_after(b);
    }
}

// The body between the two places, copied to the scratch if it fits there.
#[tactic(auto, using(base::proofs::Choice::picks))]
fn copied(page: &[u8], from: usize, to: usize, scratch: &mut [u8]) -> Option<Body>
    requires { (to ≤ length page.now) × (length page.now ≤ page_limit) }
    ensures { collected_by result scratch.new ≡ copied_of (expression_cells page.now from to) scratch.old }
{
    let length = count(page, from, to);
    if scratch.len() < length {
        return None;
    }
    copy(page, from, to, scratch);
    Some(Body::InScratch { length })
}

// Where the body of the asking scan is. Where no line prefix stands between two of its bytes it is a part of the page, found without a
// loop; else it is copied to the scratch, whose other bytes stay as they are. Nothing, where the call is refused: 12.
#[tactic(auto, using(crate::proofs::Calls::not_asked, crate::proofs::Calls::in_page, crate::proofs::Calls::asks))]
pub fn collect(scan: Scan, page: &[u8], scratch: &mut [u8]) -> Option<Body>
    ensures { collected_by result scratch.new ≡ collect_of page.now scan scratch.old }
{
    if !is_asked(scan, page.len()) {
        return None;
    }
    let from = first_of(scan);
    let end = seam_of(scan);
    if only_prefix(page, end, scan.tokenizer.at) {
        return Some(Body::InPage {
            at: from,
            length: end.saturating_sub(from),
        });
    }
    copied(page, from, scan.tokenizer.at, scratch)
}

// The body itself, as `collect` said where it is: a part of the page or of the scratch.
pub fn part<'a>(page: &'a [u8], scratch: &'a [u8], body: Option<Body>) -> &'a [u8]
    ensures { result.now ≡ part_of page.now scratch.now body }
{
    match body {
        Some(Body::InPage { at, length }) => piece(page, at, length),
        Some(Body::InScratch { length }) => piece(scratch, 0, length),
        None => &page[0..0],
    }
}

// So many bytes from a place on; none, where they are not there.
#[tactic(auto, using(base::proofs::Choice::picks))]
pub fn piece<'a>(bytes: &'a [u8], at: usize, length: usize) -> &'a [u8]
    ensures { result.now ≡ piece_of bytes.now at length }
{
    if page::lies_inside(bytes.len(), at, length) {
        let to = at + length;
        return &bytes[at..to];
    }
    &bytes[0..0]
}
