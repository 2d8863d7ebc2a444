// Text on its way to standard output, by way of a lent buffer. Each function is told how far the buffer is filled and answers how
// far it is then; where what is to be put does not fit any more, the buffer is written out first, and begun again.
//
// What was written out before can't be taken back, and no contract says what a program's output is: the contracts say what is
// in the buffer.
ghost use Rattle.std.specs.Prelude.{◌≡◌, ℕ, List, [], ◌∷◌, ◌≤◌, length};
ghost use Rattle.events.specs.declared.Event.{Event};
ghost use Rattle.report.specs.Decimal.{decimal};
ghost use Rattle.report.specs.EventText.{mark_pieces, line_pieces};
ghost use Rattle.report.specs.Hex.{field_of};
ghost use Rattle.report.specs.Output.{free_place, field_room, number_room, bad_line_room, bad_line_pieces, bad_lines_put, put_each, first_events};
ghost use Rattle.report.specs.Put.{outcome, put_of};

use crate::marks::{event_line, event_mark};
use crate::pieces::{hex, number, text};
use events::Event;
use std::fs;
use std::fs::OpenOptions;
use std::io::Write;
use std::os::unix::fs::MetadataExt;
use std::rt::Files;

// More than an event takes, and a line that can't be read; and as much as a number takes.
const EVENT_ROOM: usize = 256;

const BAD_LINE_ROOM: usize = 256;

const NUMBER_ROOM: usize = 20;

// What descriptor 3 is open on.
const STATUS_FILE: &str = "/proc/self/fd/3";

// The owner may write.
const WRITABLE: u32 = 0o200;

// The place to go on at: the buffer is written out where so many bytes do not fit any more.
#[tactic(auto, using(base::proofs::Choice::picks), unfolding(crate::specs::Output::free_place))]
pub fn make_room(rt: &impl Print, out: &[u8], used: usize, count: usize) -> usize
    ensures value { result ≡ free_place (length out.now) used count }
    ensures upper_bound { result ≤ length out.now }
{
    let at = used.min(out.len());
    if out.len() - at < count {
        let _ = rt.write_all(&out[0..at]);
        return 0;
    }
    at
}

// The buffer is written out.
pub fn flush(rt: &impl Print, out: &[u8], used: usize) {
    let at = used.min(out.len());
    let _ = rt.write_all(&out[0..at]);
}

// How a program ended, for whoever started it with a place for it: 0, 1 or 2, as a line on descriptor 3. Its exit status is 0 in each
// case; where that descriptor is not open, nothing happens. It takes every number, as docs/PROMISES.md has it, so it takes no enum.
pub fn say_status(rt: &impl Files, status: u8) {
    let line = match status {
        0 => b"0\n",
        1 => b"1\n",
        _ => b"2\n",
    };
    write_status(rt, line);
}

// The line goes behind what stands there.
fn write_status(rt: &impl Files, line: &[u8]) {
    if !takes_status(rt) {
        return;
    }
    if let Ok(mut file) = OpenOptions::new().append(true).open(rt, STATUS_FILE) {
        let _ = file.write_all(line);
    }
}

// Whether descriptor 3 is open for writing, which the mode of the link that leads to its file says. Where it is open for reading alone,
// the file is not one for a status, though it could be opened anew for writing.
fn takes_status(rt: &impl Files) -> bool {
    match fs::symlink_metadata(rt, STATUS_FILE) {
        Ok(link) => link.mode() & WRITABLE != 0,
        Err(_) => false,
    }
}

// A program could not do its work: why is said on standard error, and the status is 2.
pub fn give_up(rt: &impl Files, errors: &impl Print, why: &[u8]) {
    let _ = errors.write_all(why);
    say_status(rt, 2);
}

// The bytes go to the buffer; what does not fit there even when it is empty is written out at once.
pub fn put(rt: &impl Print, out: &mut [u8], used: usize, bytes: &[u8]) -> usize
    ensures { outcome result out.new ≡ put_of out.old (free_place (length out.old) used (length bytes.now)) (bytes.now ∷ []) }
{
    let at = make_room(rt, out, used, bytes.len());
    if out.len() < bytes.len() {
        let _ = rt.write_all(bytes);
    }
    text(out, at, bytes)
}

pub fn put_number(rt: &impl Print, out: &mut [u8], used: usize, n: u64) -> usize
    ensures { outcome result out.new ≡ put_of out.old (free_place (length out.old) used number_room) (decimal n ∷ []) }
{
    let at = make_room(rt, out, used, NUMBER_ROOM);
    number(out, at, n)
}

// The number of a line that can't be read, and why, if that is known.
pub fn put_bad_line(rt: &impl Print, out: &mut [u8], used: usize, line: u64, why: &[u8]) -> usize
    ensures { outcome result out.new ≡ put_of out.old (free_place (length out.old) used bad_line_room) (bad_line_pieces line why.now) }
{
    let at = make_room(rt, out, used, BAD_LINE_ROOM);
    let at = text(out, at, b"BadLine ");
    let at = number(out, at, line);
    let at = text(out, at, why);
    text(out, at, b"\n")
}

// How many lines could not be read, where there were any.
#[tactic(auto, using(base::proofs::Choice::picks), unfolding(crate::specs::Output::bad_lines_put))]
pub fn put_bad_lines(rt: &impl Print, out: &mut [u8], used: usize, count: u64) -> usize
    ensures { outcome result out.new ≡ bad_lines_put out.old used count }
{
    if count == 0 {
        return used;
    }
    let at = make_room(rt, out, used, BAD_LINE_ROOM);
    let at = number(out, at, count);
    text(out, at, b" bad lines\n")
}

// A field of bytes. One that does not fit even into the empty buffer is not put.
pub fn put_hex(rt: &impl Print, out: &mut [u8], used: usize, bytes: &[u8]) -> usize
    ensures { outcome result out.new ≡ put_of out.old (free_place (length out.old) used (field_room (length out.old) (length bytes.now))) (field_of bytes.now ∷ []) }
{
    let at = make_room(rt, out, used, field_room(out.len(), bytes.len()));
    hex(out, at, bytes)
}

// What a field of so many bytes takes of a buffer with so much room.
#[tactic(auto, using(base::proofs::Choice::picks), unfolding(crate::specs::Output::field_room))]
fn field_room(room: usize, count: usize) -> usize
    ensures { result ≡ field_room room count }
{
    if count == 0 {
        return 1;
    }
    if room / 2 < count {
        return room;
    }
    count * 2
}

// How an event is put.
trait EventText {
    ghost pieces: { Event → List (List ℕ) };

    fn put(out: &mut [u8], at: usize, event: Event) -> usize
        ensures { outcome result out.new ≡ put_of out.old at (pieces event) };
}

struct Mark;

impl EventText for Mark {
    ghost pieces = { mark_pieces };

    fn put(out: &mut [u8], at: usize, event: Event) -> usize {
        event_mark(out, at, event)
    }
}

struct Row;

impl EventText for Row {
    ghost pieces = { line_pieces };

    fn put(out: &mut [u8], at: usize, event: Event) -> usize {
        event_line(out, at, event)
    }
}

// A mark for each of the first `count` events, as far as there are words.
pub fn put_marks(rt: &impl Print, out: &mut [u8], used: usize, words: &[u32], count: usize) -> usize
    ensures { outcome result out.new ≡ put_each mark_pieces out.old used (first_events words.now count) }
{
    put_events::<Mark>(rt, out, used, words, count)
}

// A line for each of them.
pub fn put_event_lines(
    rt: &impl Print,
    out: &mut [u8],
    used: usize,
    words: &[u32],
    count: usize,
) -> usize
    ensures { outcome result out.new ≡ put_each line_pieces out.old used (first_events words.now count) }
{
    put_events::<Row>(rt, out, used, words, count)
}

fn put_events<T: EventText>(
    rt: &impl Print,
    out: &mut [u8],
    used: usize,
    words: &[u32],
    count: usize,
) -> usize
    ensures { outcome result out.new ≡ put_each T.pieces out.old used (first_events words.now count) }
{
    let most = events::room::held(count, words.len());
    let mut at = used;
    for k in 0..most {
        let place = make_room(rt, out, at, EVENT_ROOM);
        at = T::put(out, place, events::read(words, k));
    }
    at
}
