// The bytes that the states name, by their numbers. Where the page has ended stands END_OF_PAGE, which is no byte's number.
pub const TAB: u16 = 9;

pub const LINE_FEED: u16 = 10;

pub const CARRIAGE_RETURN: u16 = 13;

pub const SPACE: u16 = 32;

pub const EXCLAMATION_MARK: u16 = 33;

pub const QUOTATION_MARK: u16 = 34;

pub const DOLLAR_SIGN: u16 = 36;

pub const APOSTROPHE: u16 = 39;

pub const PLUS_SIGN: u16 = 43;

pub const DOT: u16 = 46;

pub const SLASH: u16 = 47;

pub const DIGIT_9: u16 = 57;

pub const COLON: u16 = 58;

pub const LESS_THAN: u16 = 60;

pub const EQUALS_SIGN: u16 = 61;

pub const GREATER_THAN: u16 = 62;

pub const AT_SIGN: u16 = 64;

pub const CAPITAL_A: u16 = 65;

pub const CAPITAL_Z: u16 = 90;

pub const UNDERSCORE: u16 = 95;

pub const SMALL_A: u16 = 97;

pub const SMALL_E: u16 = 101;

pub const SMALL_I: u16 = 105;

pub const SMALL_Z: u16 = 122;

pub const LEFT_BRACE: u16 = 123;

pub const RIGHT_BRACE: u16 = 125;

// The first number that is no ASCII byte's.
pub const FIRST_NOT_ASCII: u16 = 128;

pub const LAST_BYTE: u16 = 255;

// A number, and no None of an Option: the functions of the states take every number, and promise what they do at each (docs/DECISIONS.md, 16).
pub const END_OF_PAGE: u16 = 256;
