// The ground that every other crate stands on: names for bytes, kinds and states, and the decision that a state hands back.
#![tactic(auto)]

ghost use Rattle.std.specs.Prelude.{◌≡◌};
ghost use Rattle.base.specs.Decide as decide;
ghost use Rattle.base.specs.Page.{byte_at, after_line_feed, in_column_one};
ghost use Rattle.base.specs.Tab.{columns_of, in_tab};

pub mod byte;
pub mod kind;
pub mod state;

// The longest page that is taken.
pub const PAGE_LIMIT: usize = 1_048_576;

// One event of a step. `Enter` and `Exit` stand at the step's place; `Leave` is an exit one byte past it.
#[derive(Clone, Copy)]
pub enum Mark {
    Enter(u8),
    Exit(u8),
    Leave(u8),
}

// The events of one step, in order: four at the most.
#[derive(Clone, Copy)]
pub enum Marks {
    Nothing,
    One(Mark),
    Two(Mark, Mark),
    Three(Mark, Mark, Mark),
    Four(Mark, Mark, Mark, Mark),
}

// How many columns of an unfinished tab are passed at a place: the `vs` of the Rust's `Point`. Outside is everywhere but inside a tab.
#[derive(Clone, Copy)]
pub enum InTab {
    Outside,
    Past1,
    Past2,
    Past3,
}

impl InTab {
    // A place where so many columns are passed: three at the most.
    #[tactic(auto, using(crate::proofs::Choice::picks))]
    pub fn past(columns: u8) -> Self
        ensures { result ≡ in_tab columns }
    {
        match columns {
            0 => InTab::Outside,
            1 => InTab::Past1,
            2 => InTab::Past2,
            _ => InTab::Past3,
        }
    }

    // The columns as a number.
    pub fn columns(self) -> u8
        ensures { result ≡ columns_of self }
    {
        self as u8
    }
}

// What a step does to the registers of a scan.
#[derive(Clone, Copy)]
pub enum Effect {
    Keep,
    // One brace deeper, one less deep.
    Deeper,
    Shallower,
    // The body of an expression begins after the byte that is eaten.
    Open,
    // A line prefix begins here, goes on, is over.
    PrefixBegins,
    PrefixGoesOn,
    PrefixEnds,
    // It ends inside a tab, of which so many columns are the prefix's.
    PrefixInTab(InTab),
    // The quote that a value ends with.
    Quote(u16),
    // The state that white space or an expression returns to.
    Return(u8),
    // The place is saved, before the byte is eaten; the saved place is taken up again.
    Save,
    Restore,
    // The number of an unfinished verdict.
    Last(u32),
    // The number of a verdict that says error, and the place of it.
    Fault(u32, usize),
    // Where a refusal stands, and its note.
    Refuse(u8, u8),
}

// One decision: the next state, whether the byte is eaten, the events, the effect.
#[derive(Clone, Copy)]
pub struct Move {
    pub next: u8,
    pub eat: bool,
    pub marks: Marks,
    pub effect: Effect,
}

// What a verdict says of a body. A number is 1 to 65,535; an error has an offset in the body.
#[derive(Clone, Copy)]
pub enum Verdict {
    Fine,
    Unfinished(u32),
    Wrong(u32, usize),
}

// The byte is eaten, and `next` runs at the byte after it.
pub fn eat(next: u8, marks: Marks) -> Move
    ensures { result ≡ decide.eat next marks }
{
    eat_with(next, marks, Effect::Keep)
}

// The same, with an effect on the registers.
pub fn eat_with(next: u8, marks: Marks, effect: Effect) -> Move
    ensures { result ≡ decide.eat_with next marks effect }
{
    Move {
        next,
        eat: true,
        marks,
        effect,
    }
}

// `next` runs at the same byte, or the scan rests there.
pub fn retry(next: u8, marks: Marks) -> Move
    ensures { result ≡ decide.retry next marks }
{
    retry_with(next, marks, Effect::Keep)
}

// The same, with an effect on the registers.
pub fn retry_with(next: u8, marks: Marks, effect: Effect) -> Move
    ensures { result ≡ decide.retry_with next marks effect }
{
    Move {
        next,
        eat: false,
        marks,
        effect,
    }
}

// The scan ends with an answer that carries a where-number and a note.
pub fn refuse(answer: u8, site: u8, note: u8) -> Move
    ensures { result ≡ decide.refuse answer site note }
{
    retry_with(answer, Marks::Nothing, Effect::Refuse(site, note))
}

// The number of the byte at a place of the page, or END_OF_PAGE past the last byte.
#[tactic(auto, using(crate::proofs::Choice::picks), unfolding(crate::specs::Page::byte_at))]
pub fn byte_at(page: &[u8], at: usize) -> u16
    ensures { result ≡ byte_at page.now at }
{
    if at < page.len() {
        u16::from(page[at])
    } else {
        byte::END_OF_PAGE
    }
}

// Whether the byte before a place is a line feed.
#[tactic(auto, using(crate::proofs::Choice::picks), unfolding(crate::specs::Page::after_line_feed))]
pub fn after_line_feed(page: &[u8], at: usize) -> bool
    ensures { result ≡ after_line_feed page.now at }
{
    0 < at && byte_at(page, at - 1) == byte::LINE_FEED
}

// Whether a place is in column 1.
#[tactic(auto, using(crate::proofs::Choice::picks))]
pub fn in_column_one(page: &[u8], at: usize) -> bool
    ensures { result ≡ in_column_one page.now at }
{
    at == 0 || after_line_feed(page, at)
}
