//! The bytes that the code names (01, 'Bytes and items').

// White space.
pub const BLANK: u8 = 32;

pub const TAB: u8 = 9;

pub const NEWLINE: u8 = 10;

pub const RETURN: u8 = 13;

// What stands before the digits of an integer below zero.
pub const MINUS: u8 = 45;

// The first and the last digit.
pub const ZERO: u8 = 48;

pub const NINE: u8 = 57;

// The quotes, and what escapes one inside.
pub const ATOM_QUOTE: u8 = 39;

pub const STRING_QUOTE: u8 = 34;

pub const TAG_QUOTE: u8 = 96;

pub const COMMENT_QUOTE: u8 = 37;

pub const BACKSLASH: u8 = 92;

// What stands before and after a binary's bytes.
pub const TILDE: u8 = 126;

// What begins a list, ends a list item, opens and closes a tuple, ends a message.
pub const HASH: u8 = 35;

pub const AMPERSAND: u8 = 38;

pub const LEFT_BRACE: u8 = 123;

pub const RIGHT_BRACE: u8 = 125;

pub const DOLLAR: u8 = 36;

// What pops into a register, and what has no meaning.
pub const GREATER: u8 = 62;

pub const COMMA: u8 = 44;
