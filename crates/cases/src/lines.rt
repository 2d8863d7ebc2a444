// One line of the input after the other. `calls` has the same loop. It is not shared: the two do other things at each of its steps, so a
// trait would have a function for each, and both programs would still write them all.
use crate::behind::Entry;
use crate::case_lines::case_line;
use crate::desk::Desk;
use crate::list_lines::list_line;
use crate::list_reading::is_list;
use crate::run::Run;
use std::io;
use std::io::Read;
use std::rt::Files;
use text::{Input, Line, Sort};

// More than there are lines and reads in any input.
const TURNS: u64 = 18_446_744_073_709_551_615;

// Every line of the input, and the status: 0 where each was a case or a comment and nothing differs, 2 where a read failed. The buffer is
// no part of the desk, since a line of it is read while the desk is written.
pub(crate) fn run_input(
    rt: &(impl Files + Print),
    source: &mut impl Read,
    errors: &impl Print,
    buffer: &mut [u8],
    desk: &mut Desk,
    run: &mut Run,
) {
    let read = run_lines(rt, source, buffer, desk, run);
    run.put_totals(rt);
    match read {
        Ok(_) => report::say_status(
            rt,
            if run.bad == 0 && run.differ == 0 {
                0
            } else {
                1
            },
        ),
        Err(_) => report::give_up(rt, errors, b"cases: standard input can't be read\n"),
    }
}

// After a read that failed there is nothing more to do: what was read of a line before is no line.
fn run_lines(
    rt: &impl Print,
    source: &mut impl Read,
    buffer: &mut [u8],
    desk: &mut Desk,
    run: &mut Run,
) -> io::Result<()> {
    let mut input = Input::new();
    for _ in 0..TURNS {
        match one_turn(rt, source, buffer, desk, run, input)? {
            Some(next) => input = next,
            None => break,
        }
    }
    Ok(())
}

// A line is used up, or more is read: the input to go on with, or None at its end. What is to be written is written before each read, so
// that someone at a terminal sees it. A struct of source, buffer and input would be taken apart at once: text's functions take them singly.
fn one_turn(
    rt: &impl Print,
    source: &mut impl Read,
    buffer: &mut [u8],
    desk: &mut Desk,
    run: &mut Run,
    input: Input,
) -> io::Result<Option<Input>> {
    let taken = text::take_line(buffer, input);
    match taken.line {
        Line::Whole => {
            run.begin_line();
            run_line(rt, &buffer[taken.from..taken.to], desk, run);
        }
        Line::TooLong => {
            run.begin_line();
            run.bad_line(rt, b" is too long");
        }
        Line::Skipped => {}
        Line::More => {
            run.flush(rt);
            let filled = text::fill(source, buffer, taken.input)?;
            return Ok(Some(filled));
        }
        Line::Ended => return Ok(None),
    }
    Ok(Some(taken.input))
}

fn run_line(rt: &impl Print, line: &[u8], desk: &mut Desk, run: &mut Run) {
    match text::sort_of(line) {
        Sort::Comment => {}
        Sort::Windows => run.bad_line(rt, b" ends in a carriage return"),
        Sort::Plain => match entry_on(line) {
            Some(entry) if is_list(line) => list_line(rt, entry, desk, run),
            Some(entry) => case_line(rt, entry, desk, run),
            None => run.bad_line(rt, b""),
        },
    }
}

// The case on a line ends before ` => `, or at the line's end. An arrow that stands otherwise leaves no case.
fn entry_on(line: &[u8]) -> Option<Entry<'_>> {
    let mark = text::find(line, 0, b'>');
    if mark == line.len() {
        return Some(Entry {
            line,
            case: line,
            recorded: None,
        });
    }
    if mark < 2 {
        return None;
    }
    if !text::is_word(line, mark - 2, mark + 2, b" => ") {
        return None;
    }
    Some(Entry {
        line,
        case: &line[..mark - 2],
        recorded: Some(&line[mark + 1..]),
    })
}
