// The kinds of tokens. A sign of one byte has that byte for its kind, one of two its first byte and 128.
pub const NAME: u8 = 1;

pub const DIGITS: u8 = 2;

pub const STRING: u8 = 3;

pub const DEF: u8 = 4;

pub const VAR: u8 = 5;

pub const IF: u8 = 6;

pub const WHILE: u8 = 7;

pub const RETURN: u8 = 8;

pub const NONE: u8 = 9;

pub const TRUE: u8 = 10;

pub const FALSE: u8 = 11;

pub const FOREACH: u8 = 12;

pub const IN: u8 = 13;

pub const DO: u8 = 14;
