// What stands behind a case, and so what is written for its line.
use crate::run::Run;

// A line, its case, and what is recorded behind the arrow, if there is one: from the space on that ends the arrow.
#[derive(Clone, Copy)]
pub(crate) struct Entry<'a> {
    pub line: &'a [u8],
    pub case: &'a [u8],
    pub recorded: Option<&'a [u8]>,
}

#[derive(Clone, Copy)]
pub(crate) enum Behind {
    // The line ends with the case.
    Nothing,
    // The answer that is recorded is the program's own.
    Same,
    // It is another.
    Other,
    // It has not the form of one, so it does not differ from anything.
    NoAnswer,
}

// The line is counted, and what goes before an answer is put: whether the answer is to be written.
pub(crate) fn begins_answer(rt: &impl Print, line: &[u8], behind: Behind, run: &mut Run) -> bool {
    match behind {
        Behind::Nothing => {
            run.counted(0, 0);
            true
        }
        Behind::Same => {
            run.counted(1, 0);
            false
        }
        Behind::Other => {
            run.counted(1, 1);
            run.put(rt, b"DIFFERS\n");
            run.put(rt, line);
            run.put(rt, b"\n");
            true
        }
        Behind::NoAnswer => {
            run.bad_line(rt, b"");
            false
        }
    }
}
