// What the program has room for.

// Room for a page, the words of its events, a body's copy, and an answer's text.
#[derive(Drop)]
pub(crate) struct Desk<'a> {
    pub page: &'a mut [u8],
    pub words: &'a mut [u32],
    pub scratch: &'a mut [u8],
    pub piece: &'a mut [u8],
}
