// The page, from standard input.
use std::io;
use std::io::Read;
use text::Input;

// More reads than there are bytes in the longest page.
const READS: u64 = 100_000;

// How many bytes stand at the start of the space then: all of the input, or as many as fit. A read into a space that is full gives
// nothing, and is the end too.
pub(crate) fn read_page(source: &mut impl Read, space: &mut [u8]) -> io::Result<usize> {
    let mut input = Input::new();
    for _ in 0..READS {
        if input.ended {
            break;
        }
        input = text::fill(source, space, input)?;
    }
    Ok(input.end)
}
