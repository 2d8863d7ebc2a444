// Runs the page check and the classes on recorded inputs, and compares. Standard input has one a line, as vectors/text.rs
// writes them; a line that can't be read counts as a difference.
#![tactic(auto)]

ghost use Rattle.std.specs.Prelude.{◌≤◌, length};

use page::Fault;
use page::line::Line;
use std::io::Read;

// Room for the whole input, of which what is beyond is not read, and for the longest text on a line.
const INPUT_ROOM: usize = 2_097_152;

const TEXT_ROOM: usize = 16_384;

#[derive(Clone, Copy)]
struct Tally {
    compared: usize,
    differ: usize,
}

fn main(rt: HostRuntime) {
    let mut source = rt.stdin();
    let mut input = [0u8; INPUT_ROOM];
    let mut space = [0u8; TEXT_ROOM];
    run(&rt, &mut source, &mut input, &mut space);
}

// The arrays go on as slices from here, so that nothing is asked about so many elements.
fn run(
    rt: &impl Print,
    source: &mut impl Read,
    input: &mut [u8; INPUT_ROOM],
    space: &mut [u8; TEXT_ROOM],
) {
    compare(rt, source, input, space);
}

fn compare(rt: &impl Print, source: &mut impl Read, input: &mut [u8], space: &mut [u8]) {
    let count = read_full(source, input);
    let tally = compare_lines(rt, &input[..count], space);
    let _ = println!(rt; "{} compared, {} differ", tally.compared, tally.differ);
}

// Until the input is full, the source ends or a read fails: how many bytes stand at the input's start. It is a `while`, since a read
// gives as many bytes as it will.
fn read_full(source: &mut impl Read, input: &mut [u8]) -> usize
    ensures { result ≤ length input.new }
{
    let mut done = 0;
    while done < input.len() {
        match source.read(&mut input[done..]) {
            Ok(0) | Err(_) => return done,
            Ok(count) => done += count,
        }
    }
    done
}

fn compare_lines(rt: &impl Print, input: &[u8], space: &mut [u8]) -> Tally {
    let compared = input.split_inclusive(|x| *x == b'\n').count();
    let differ = input
        .split_inclusive(|x| *x == b'\n')
        .filter(|line| !line_agrees(rt, line.strip_suffix(b"\n").unwrap_or(line), space))
        .count();
    Tally { compared, differ }
}

// A line that differs is written out.
fn line_agrees(rt: &impl Print, line: &[u8], space: &mut [u8]) -> bool {
    if agrees(line, space) {
        return true;
    }
    let _ = rt.write_all(line);
    let _ = rt.write_all(b" DIFFERS\n");
    false
}

// The first word says what is recorded on the line.
fn agrees(line: &[u8], space: &mut [u8]) -> bool {
    if let Some(text) = line.strip_prefix(b"text ") {
        return text_agrees(text, space);
    }
    if let Some(class) = line.strip_prefix(b"class ") {
        return class_agrees(class);
    }
    false
}

// A text in hex, which is put into the lent space, and what was found of it.
fn text_agrees(line: &[u8], space: &mut [u8]) -> bool {
    let end = text::find(line, 0, b' ');
    let Some(found) = line.get(end + 1..) else {
        return false;
    };
    if text::is_word(line, 0, end, b"-") {
        return verdict_agrees(found, page::check(space, 0, 0, 0));
    }
    match text::decode_hex(line, 0, end, space) {
        Ok(count) => verdict_agrees(found, page::check(space, 0, count, 0)),
        Err(_) => false,
    }
}

// `valid`, or `invalid` and the first offset at fault.
fn verdict_agrees(found: &[u8], answer: Result<Line, Fault>) -> bool {
    match answer {
        Ok(_) => found == b"valid".as_slice(),
        Err(Fault::BadText(spot)) => match found.strip_prefix(b"invalid ") {
            Some(offset) => text::decimal(offset, 0, offset.len()) == Some(spot.place as u64),
            None => false,
        },
        Err(Fault::TooLong | Fault::BadStart) => false,
    }
}

// A byte's number, and for each class whether the byte is in it.
fn class_agrees(line: &[u8]) -> bool {
    let end = text::find(line, 0, b' ');
    let Some(Ok(byte)) = text::decimal(line, 0, end).map(u8::try_from) else {
        return false;
    };
    match line.get(end + 1..) {
        Some(flags) => flags_agree(flags, u16::from(byte)),
        None => false,
    }
}

fn flags_agree(flags: &[u8], byte: u16) -> bool {
    let expected = [
        char_class::whitespace(byte),
        char_class::id_start(byte),
        char_class::id_cont(byte),
        char_class::space_or_tab(byte),
    ];
    flags == expected.map(|holds| b'0' + u8::from(holds)).as_slice()
}
