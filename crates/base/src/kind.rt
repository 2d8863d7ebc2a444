// The kinds of an event, numbered once in the order in which the modules use the crate's names: expression, tag, ESM.
// Numbers, and no enum: an event hands its kind to C as a number, and `events::read` takes whatever a word says.
pub const FLOW_EXPRESSION: u8 = 1;

pub const TEXT_EXPRESSION: u8 = 2;

pub const EXPRESSION_MARKER: u8 = 3;

pub const LINE_ENDING: u8 = 4;

pub const EXPRESSION_DATA: u8 = 5;

pub const LINE_PREFIX: u8 = 6;

pub const JSX_FLOW_TAG: u8 = 7;

pub const JSX_TEXT_TAG: u8 = 8;

pub const JSX_TAG_MARKER: u8 = 9;

pub const JSX_TAG_CLOSING_MARKER: u8 = 10;

pub const JSX_TAG_NAME: u8 = 11;

pub const JSX_TAG_NAME_PRIMARY: u8 = 12;

pub const JSX_TAG_NAME_MEMBER_MARKER: u8 = 13;

pub const JSX_TAG_NAME_PREFIX_MARKER: u8 = 14;

pub const JSX_TAG_NAME_MEMBER: u8 = 15;

pub const JSX_TAG_NAME_LOCAL: u8 = 16;

pub const JSX_TAG_SELF_CLOSING_MARKER: u8 = 17;

pub const JSX_TAG_ATTRIBUTE_EXPRESSION: u8 = 18;

pub const JSX_TAG_ATTRIBUTE: u8 = 19;

pub const JSX_TAG_ATTRIBUTE_NAME: u8 = 20;

pub const JSX_TAG_ATTRIBUTE_PRIMARY_NAME: u8 = 21;

pub const JSX_TAG_ATTRIBUTE_NAME_PREFIX_MARKER: u8 = 22;

pub const JSX_TAG_ATTRIBUTE_INITIALIZER_MARKER: u8 = 23;

pub const JSX_TAG_ATTRIBUTE_NAME_LOCAL: u8 = 24;

pub const JSX_TAG_ATTRIBUTE_VALUE_LITERAL: u8 = 25;

pub const JSX_TAG_ATTRIBUTE_VALUE_LITERAL_MARKER: u8 = 26;

pub const JSX_TAG_ATTRIBUTE_VALUE_EXPRESSION: u8 = 27;

pub const JSX_TAG_ATTRIBUTE_VALUE_LITERAL_VALUE: u8 = 28;

pub const JSX_ES_WHITESPACE: u8 = 29;

pub const ESM: u8 = 30;

pub const ESM_DATA: u8 = 31;
