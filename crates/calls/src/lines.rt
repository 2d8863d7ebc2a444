// One line of the input after the other.
use crate::script::Script;
use std::io;
use std::io::Read;
use std::rt::Files;
use text::{Input, Line, Sort};

// More than there are lines and reads in any input.
const TURNS: u64 = 18_446_744_073_709_551_615;

// Every line of the input, and the status: 0 where each was a call or a comment, 2 where a read failed.
pub(crate) fn serve_input(
    rt: &(impl Files + Print),
    source: &mut impl Read,
    errors: &impl Print,
    buffer: &mut [u8],
    script: &mut Script,
) {
    let read = serve_lines(rt, source, buffer, script);
    script.finish(rt);
    match read {
        Ok(_) => report::say_status(rt, if script.bad == 0 { 0 } else { 1 }),
        Err(_) => report::give_up(rt, errors, b"calls: standard input can't be read\n"),
    }
}

// After a read that failed there is nothing more to do: what was read of a line before is no line.
fn serve_lines(
    rt: &impl Print,
    source: &mut impl Read,
    buffer: &mut [u8],
    script: &mut Script,
) -> io::Result<()> {
    let mut input = Input::new();
    for _ in 0..TURNS {
        match one_turn(rt, source, buffer, script, input)? {
            Some(next) => input = next,
            None => break,
        }
    }
    Ok(())
}

// A line is used up, or more is read: the input to go on with, or None at its end. What is to be written is written before each read, so
// that someone at a terminal sees it.
fn one_turn(
    rt: &impl Print,
    source: &mut impl Read,
    buffer: &mut [u8],
    script: &mut Script,
    input: Input,
) -> io::Result<Option<Input>> {
    let taken = text::take_line(buffer, input);
    match taken.line {
        Line::Whole => {
            script.begin_line();
            serve_line(rt, &buffer[taken.from..taken.to], script);
        }
        Line::TooLong => {
            script.begin_line();
            script.bad_line(rt, b" is too long");
        }
        Line::Skipped => {}
        Line::More => {
            script.flush(rt);
            let filled = text::fill(source, buffer, taken.input)?;
            return Ok(Some(filled));
        }
        Line::Ended => return Ok(None),
    }
    Ok(Some(taken.input))
}

fn serve_line(rt: &impl Print, line: &[u8], script: &mut Script) {
    match text::sort_of(line) {
        Sort::Comment => {}
        Sort::Windows => script.bad_line(rt, b" ends in a carriage return"),
        Sort::Plain => script.serve(rt, line),
    }
}
