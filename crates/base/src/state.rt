// The states of a scan. Those below FIRST_RUNNING are where it rests: the answers of docs/SCOPE.md by their numbers, and ASKING.
// The running ones are the Rust's states by name, expression, tag, ESM, and those that apply a verdict.
// Numbers, and no enum: C hands a state over as one, which `Tokenizer::in_range` may refuse, and an answer is one of them (docs/DECISIONS.md, 17).
pub const DONE: u8 = 0;

pub const NOK: u8 = 1;

pub const NOT_ASCII: u8 = 5;

pub const EOF: u8 = 6;

pub const UNEXPECTED: u8 = 7;

pub const VERDICT_ERROR: u8 = 8;

pub const VERDICT_EOF: u8 = 9;

pub const FULL: u8 = 10;

pub const BAD_CALL: u8 = 12;

pub const ASKING: u8 = 31;

pub const FIRST_RUNNING: u8 = 32;

pub const MDX_EXPRESSION_START: u8 = 32;

pub const MDX_EXPRESSION_BEFORE: u8 = 33;

pub const MDX_EXPRESSION_INSIDE: u8 = 34;

pub const MDX_EXPRESSION_EOL_AFTER: u8 = 35;

pub const MDX_EXPRESSION_PREFIX: u8 = 36;

// A verdict on an expression's body is applied.
pub const MDX_EXPRESSION_VERDICT: u8 = 37;

pub const MDX_JSX_START: u8 = 38;

pub const MDX_JSX_ATTRIBUTE_VALUE_QUOTED: u8 = 39;

// From here to MDX_JSX_ATTRIBUTE_VALUE_EXPRESSION_AFTER: the states that white space or an expression returns to.
pub const MDX_JSX_ATTRIBUTE_VALUE_QUOTED_START: u8 = 40;

pub const MDX_JSX_NAME_BEFORE: u8 = 41;

pub const MDX_JSX_CLOSING_TAG_NAME_BEFORE: u8 = 42;

pub const MDX_JSX_PRIMARY_NAME_AFTER: u8 = 43;

pub const MDX_JSX_MEMBER_NAME_BEFORE: u8 = 44;

pub const MDX_JSX_MEMBER_NAME_AFTER: u8 = 45;

pub const MDX_JSX_LOCAL_NAME_BEFORE: u8 = 46;

pub const MDX_JSX_LOCAL_NAME_AFTER: u8 = 47;

pub const MDX_JSX_ATTRIBUTE_BEFORE: u8 = 48;

pub const MDX_JSX_SELF_CLOSING: u8 = 49;

pub const MDX_JSX_ATTRIBUTE_EXPRESSION_AFTER: u8 = 50;

pub const MDX_JSX_ATTRIBUTE_PRIMARY_NAME_AFTER: u8 = 51;

pub const MDX_JSX_ATTRIBUTE_LOCAL_NAME_BEFORE: u8 = 52;

pub const MDX_JSX_ATTRIBUTE_LOCAL_NAME_AFTER: u8 = 53;

pub const MDX_JSX_ATTRIBUTE_VALUE_BEFORE: u8 = 54;

pub const MDX_JSX_ATTRIBUTE_VALUE_EXPRESSION_AFTER: u8 = 55;

pub const MDX_JSX_START_AFTER: u8 = 56;

pub const MDX_JSX_TAG_END: u8 = 57;

// The five states inside a name.
pub const MDX_JSX_PRIMARY_NAME: u8 = 58;

pub const MDX_JSX_MEMBER_NAME: u8 = 59;

pub const MDX_JSX_LOCAL_NAME: u8 = 60;

pub const MDX_JSX_ATTRIBUTE_PRIMARY_NAME: u8 = 61;

pub const MDX_JSX_ATTRIBUTE_LOCAL_NAME: u8 = 62;

pub const MDX_JSX_ES_WHITESPACE_START: u8 = 63;

pub const MDX_JSX_ES_WHITESPACE_INSIDE: u8 = 64;

pub const MDX_JSX_ES_WHITESPACE_EOL_AFTER: u8 = 65;

// The white space states as the Rust runs them after `=` of a plain attribute: retried when the byte is already eaten.
pub const MDX_JSX_ES_WHITESPACE_START_RETRIED: u8 = 66;

pub const MDX_JSX_ES_WHITESPACE_INSIDE_RETRIED: u8 = 67;

pub const MDX_ESM_START: u8 = 68;

pub const MDX_ESM_WORD: u8 = 69;

pub const MDX_ESM_INSIDE: u8 = 70;

pub const MDX_ESM_LINE_START: u8 = 71;

pub const MDX_ESM_CONTINUATION_START: u8 = 72;

pub const MDX_ESM_BLANK_LINE_BEFORE: u8 = 73;

// The Rust's blank line states.
pub const MDX_ESM_BLANK_LINE: u8 = 74;

pub const MDX_ESM_AT_END: u8 = 75;

// A verdict on an ESM block is applied.
pub const MDX_ESM_VERDICT: u8 = 76;
