// Events as text: a mark, or a line.
ghost use Rattle.std.specs.Prelude.{◌≡◌, [], ◌∷◌, ◌≤◌, length};
ghost use Rattle.report.specs.EventText.{sign_of, verb_of, point_pieces, tab_pieces, mark_pieces, line_pieces};
ghost use Rattle.report.specs.Put.{outcome, put_of};

use crate::kinds::kind_name;
use crate::pieces::{joined, text};
use base::InTab;
use events::Event;

// A space, `+` or `-`, the name, `@` and the offset, its line and its column, and inside a tab how far.
pub fn event_mark(out: &mut [u8], at: usize, event: Event) -> usize
    ensures upper_bound { result ≤ length out.new }
    ensures out_after { outcome result out.new ≡ put_of out.old at (mark_pieces event) }
{
    let tab = event.tab;
    let past = text(out, at, sign(event.exit));
    let past = kind_name(out, past, event.kind);
    let past = point(out, past, b"@", b":", event);
    in_tab(out, past, b"~", tab)
}

fn sign(exit: bool) -> &'static [u8]
    ensures { result.now ≡ sign_of exit }
{
    if exit { b" -" } else { b" +" }
}

// The offset, its line and its column, a joint before each.
fn point(out: &mut [u8], at: usize, first: &[u8], joint: &[u8], event: Event) -> usize
    ensures { outcome result out.new ≡ put_of out.old at (point_pieces first.now joint.now event) }
{
    let past = joined(out, at, first, event.offset as usize);
    let past = joined(out, past, joint, event.line as usize);
    joined(out, past, joint, event.column as usize)
}

// A joint, and how many columns of a tab are passed there; nothing outside a tab.
#[tactic(auto, using(base::proofs::Choice::picks, crate::proofs::Puts::nothing_put))]
fn in_tab(out: &mut [u8], at: usize, joint: &[u8], tab: InTab) -> usize
    ensures { outcome result out.new ≡ put_of out.old at (tab_pieces joint.now tab) }
{
    let passed = usize::from(tab.columns());
    if passed == 0 {
        return at.min(out.len());
    }
    joined(out, at, joint, passed)
}

// `enter` or `exit`, the name, the offset, its line and its column, inside a tab how far, and a line feed.
pub fn event_line(out: &mut [u8], at: usize, event: Event) -> usize
    ensures { outcome result out.new ≡ put_of out.old at (line_pieces event) }
{
    let tab = event.tab;
    let past = text(out, at, verb(event.exit));
    let past = kind_name(out, past, event.kind);
    let past = point(out, past, b" ", b" ", event);
    let past = in_tab(out, past, b" ~", tab);
    text(out, past, b"\n")
}

fn verb(exit: bool) -> &'static [u8]
    ensures { result.now ≡ verb_of exit }
{
    if exit { b"exit " } else { b"enter " }
}
