// What the program has come to between two lines, and what it says.

// The output's buffer and how far it is filled, the number of the line at hand, and what was counted. Memory is fixed, so it is no Vec.
#[derive(Drop)]
pub(crate) struct Run<'a> {
    pub out: &'a mut [u8],
    pub used: usize,
    pub line: u64,
    pub cases: u64,
    pub compared: u64,
    pub differ: u64,
    pub bad: u64,
}

impl<'a> Run<'a> {
    pub(crate) fn new(out: &'a mut [u8]) -> Self {
        Run {
            out,
            used: 0,
            line: 0,
            cases: 0,
            compared: 0,
            differ: 0,
            bad: 0,
        }
    }
}

impl Run<'_> {
    pub(crate) fn put(&mut self, rt: &impl Print, bytes: &[u8]) {
        self.used = report::put(rt, self.out, self.used, bytes);
    }

    pub(crate) fn put_number(&mut self, rt: &impl Print, n: u64) {
        self.used = report::put_number(rt, self.out, self.used, n);
    }

    pub(crate) fn put_marks(&mut self, rt: &impl Print, words: &[u32], count: usize) {
        self.used = report::put_marks(rt, self.out, self.used, words, count);
    }

    pub(crate) fn flush(&mut self, rt: &impl Print) {
        let used = self.used;
        report::flush(rt, self.out, used);
        self.used = 0;
    }

    pub(crate) fn begin_line(&mut self) {
        self.line = one_more(self.line);
    }

    pub(crate) fn bad_line(&mut self, rt: &impl Print, why: &[u8]) {
        self.used = report::put_bad_line(rt, self.out, self.used, self.line, why);
        self.bad = one_more(self.bad);
    }

    // One more case, with so many comparisons and differences.
    pub(crate) fn counted(&mut self, compared: u64, differ: u64) {
        self.cases = one_more(self.cases);
        self.compared = self.compared.wrapping_add(compared);
        self.differ = self.differ.wrapping_add(differ);
    }

    // The last lines of the output.
    pub(crate) fn put_totals(&mut self, rt: &impl Print) {
        self.used = report::put_bad_lines(rt, self.out, self.used, self.bad);
        self.put_number(rt, self.cases);
        self.put(rt, b" cases, ");
        self.put_number(rt, self.compared);
        self.put(rt, b" compared, ");
        self.put_number(rt, self.differ);
        self.put(rt, b" differ\n");
        self.flush(rt);
    }
}

// There are far fewer lines than would make a count wrap.
fn one_more(count: u64) -> u64 {
    count.wrapping_add(1)
}
