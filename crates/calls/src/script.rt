// One call after the other, on one worker.
use crate::body::put_body;
use crate::reading::{Call, read_call};
use crate::replying::{put_enough, put_reply};
use base::Verdict;
use scan::Request;
use worker::{Called, Reply, Worker};

// The worker; the bytes, the event buffer, the scratch and the output's buffer that the program has room for, how many of the bytes are
// lent, how many words the worker's event buffer has and how far the output's is filled; the number of the line at hand, and how many
// lines were no calls. Memory is fixed, so a buffer has its length beside it and is no Vec.
#[derive(Drop)]
pub(crate) struct Script<'a> {
    pub worker: Worker,
    pub bytes: &'a mut [u8],
    pub lent: usize,
    pub events: &'a mut [u32],
    pub words: usize,
    pub scratch: &'a mut [u8],
    pub out: &'a mut [u8],
    pub used: usize,
    pub line: u64,
    pub bad: u64,
}

// The longest event buffer of a worker, in words.
const MOST_WORDS: usize = 65_536;

impl<'a> Script<'a> {
    // Before the first start there is a worker that refuses every call, since no turn has 0 steps.
    pub(crate) fn new(
        bytes: &'a mut [u8],
        events: &'a mut [u32],
        scratch: &'a mut [u8],
        out: &'a mut [u8],
    ) -> Self {
        Script {
            worker: Worker::new(0, 0).worker,
            bytes,
            lent: 0,
            events,
            words: 0,
            scratch,
            out,
            used: 0,
            line: 0,
            bad: 0,
        }
    }
}

impl Script<'_> {
    pub(crate) fn begin_line(&mut self) {
        self.line = self.line.wrapping_add(1);
    }

    // A line that is no call, or that asks for more than the program has room for, changes nothing.
    pub(crate) fn bad_line(&mut self, rt: &impl Print, why: &[u8]) {
        self.used = report::put_bad_line(rt, self.out, self.used, self.line, why);
        self.bad = self.bad.wrapping_add(1);
    }

    pub(crate) fn flush(&mut self, rt: &impl Print) {
        let used = self.used;
        report::flush(rt, self.out, used);
        self.used = 0;
    }

    // The last line of the output, where a line was no call.
    pub(crate) fn finish(&mut self, rt: &impl Print) {
        self.used = report::put_bad_lines(rt, self.out, self.used, self.bad);
        self.flush(rt);
    }

    pub(crate) fn serve(&mut self, rt: &impl Print, line: &[u8]) {
        match read_call(line) {
            Some(Call::Lend(from)) => self.lend(rt, line, from),
            Some(Call::Start { q, words }) => self.start(rt, line, q, words),
            Some(Call::Words(length)) => self.words_for(rt, line, length),
            Some(Call::Admit(request)) => self.admit(rt, line, request),
            Some(Call::Turn) => self.turn(rt, line, self.lent, self.words),
            Some(Call::TurnOfWords(words)) => self.turn(rt, line, self.lent, words),
            Some(Call::TurnOfLent(count)) => {
                self.turn(rt, line, count.min(self.lent), self.words)
            }
            Some(Call::Tell { place, verdict }) => self.tell(rt, line, place, verdict),
            Some(Call::Collect(place)) => self.collect(rt, line, place),
            Some(Call::Body { place, scratch }) => self.body(rt, line, place, scratch),
            None => self.bad_line(rt, b""),
        }
    }

    // The bytes stand on the line up to its end; more than there is room for are not taken.
    fn lend(&mut self, rt: &impl Print, line: &[u8], from: usize) {
        match text::read_bytes(line, from, line.len(), self.bytes) {
            Ok(count) => {
                self.lent = count;
                let at = put_call(rt, line, self.out, self.used);
                self.used = report::put(rt, self.out, at, b"Lent\n");
            }
            Err(_) => self.bad_line(rt, b""),
        }
    }

    // Nothing is asked of a worker, so there need be none.
    fn words_for(&mut self, rt: &impl Print, line: &[u8], length: usize) {
        let at = put_call(rt, line, self.out, self.used);
        let at = put_enough(rt, room::words_enough(length), self.out, at);
        self.used = report::put(rt, self.out, at, b"\n");
    }

    // A new worker has an event buffer of zeros. One that is refused leaves the one that was there.
    fn start(&mut self, rt: &impl Print, line: &[u8], q: usize, words: usize) {
        if MOST_WORDS < words {
            return self.bad_line(rt, b"");
        }
        let called = Worker::new(q, words);
        if matches!(called.reply, Reply::Started(_)) {
            self.events.fill(0);
            self.words = words;
            self.worker = called.worker;
        }
        self.used = put_replied(rt, line, called.reply, self.out, self.used);
    }

    fn admit(&mut self, rt: &impl Print, line: &[u8], request: Request) {
        let count = self.lent.min(self.bytes.len());
        let called = self.worker.admit(&self.bytes[0..count], request);
        self.replied(rt, line, called);
    }

    fn turn(&mut self, rt: &impl Print, line: &[u8], count: usize, words: usize) {
        let called = turn_over(self.worker, self.bytes, count, self.events, words);
        self.replied(rt, line, called);
    }

    fn tell(&mut self, rt: &impl Print, line: &[u8], place: usize, verdict: Verdict) {
        let called = self.worker.verdict(place, verdict);
        self.replied(rt, line, called);
    }

    // The worker that a call left, and the reply behind the call.
    fn replied(&mut self, rt: &impl Print, line: &[u8], called: Called) {
        self.worker = called.worker;
        self.used = put_replied(rt, line, called.reply, self.out, self.used);
    }

    // The events of the page stand in the share of its place.
    fn collect(&mut self, rt: &impl Print, line: &[u8], place: usize) {
        let worker = self.worker;
        let called = worker.collect(place);
        let count = self.words.min(self.events.len());
        let at = put_call(rt, line, self.out, self.used);
        let at = put_collected(
            rt,
            called.reply,
            self.out,
            at,
            worker,
            &mut self.events[0..count],
            place,
        );
        self.used = report::put(rt, self.out, at, b"\n");
        self.worker = called.worker;
    }

    // A body, by way of the first `count` bytes of the scratch.
    fn body(&mut self, rt: &impl Print, line: &[u8], place: usize, count: usize) {
        if self.scratch.len() < count {
            return self.bad_line(rt, b"");
        }
        let lent = self.lent.min(self.bytes.len());
        let worker = self.worker;
        let at = put_call(rt, line, self.out, self.used);
        let at = put_body(
            rt,
            worker,
            &mut self.bytes[0..lent],
            place,
            &mut self.scratch[0..count],
            self.out,
            at,
        );
        self.used = report::put(rt, self.out, at, b"\n");
    }
}

// The proof has no rule for a `&` beside a `&mut` of one struct, so what these read of the script is lent as `&mut` too.

// A turn over the first `count` of the lent bytes and an event buffer of so many words. The buffer has one word more than a worker may
// have: more words than that are all of them, which is another length than any worker's.
fn turn_over(
    worker: Worker,
    bytes: &mut [u8],
    count: usize,
    events: &mut [u32],
    words: usize,
) -> Called {
    let count = count.min(bytes.len());
    let words = words.min(events.len());
    worker.turn(&bytes[0..count], &mut events[0..words])
}

fn put_collected(
    rt: &impl Print,
    reply: Reply,
    out: &mut [u8],
    used: usize,
    worker: Worker,
    events: &mut [u32],
    place: usize,
) -> usize {
    put_reply(rt, reply, worker.share(events, place), out, used)
}

fn put_call(rt: &impl Print, line: &[u8], out: &mut [u8], used: usize) -> usize {
    let at = report::put(rt, out, used, line);
    report::put(rt, out, at, b" => ")
}

// A call with its reply, which has no events.
fn put_replied(rt: &impl Print, line: &[u8], reply: Reply, out: &mut [u8], used: usize) -> usize {
    let at = put_call(rt, line, out, used);
    let at = put_reply(rt, reply, &[], out, at);
    report::put(rt, out, at, b"\n")
}
