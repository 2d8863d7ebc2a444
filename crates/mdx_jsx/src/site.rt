// The where-numbers and the notes that a tag's refusal carries.
// Numbers, and no enums: an answer hands them to C, and `crash` and `in_a_name` take every number.

// No run meets this one.
pub const NOWHERE: u8 = 0;

pub const BEFORE_NAME: u8 = 1;

pub const IN_NAME: u8 = 2;

pub const AFTER_NAME: u8 = 3;

pub const BEFORE_MEMBER_NAME: u8 = 4;

pub const IN_MEMBER_NAME: u8 = 5;

pub const AFTER_MEMBER_NAME: u8 = 6;

pub const BEFORE_LOCAL_NAME: u8 = 7;

pub const IN_LOCAL_NAME: u8 = 8;

pub const AFTER_LOCAL_NAME: u8 = 9;

pub const BEFORE_ATTRIBUTE_NAME: u8 = 10;

pub const IN_ATTRIBUTE_NAME: u8 = 11;

pub const AFTER_ATTRIBUTE_NAME: u8 = 12;

pub const BEFORE_LOCAL_ATTRIBUTE_NAME: u8 = 13;

pub const IN_LOCAL_ATTRIBUTE_NAME: u8 = 14;

pub const AFTER_LOCAL_ATTRIBUTE_NAME: u8 = 15;

pub const BEFORE_ATTRIBUTE_VALUE: u8 = 16;

pub const IN_ATTRIBUTE_VALUE: u8 = 17;

pub const AFTER_SELF_CLOSING_SLASH: u8 = 18;

pub const NO_NOTE: u8 = 0;

pub const COMMENT_IN_MDX: u8 = 1;

pub const COMMENT_IN_TAG: u8 = 2;

pub const LINK_IN_MDX: u8 = 3;

pub const ELEMENT_AS_VALUE: u8 = 4;
