//! The numbers of the punctuation, from 0, in the order of the C profile's list.

pub const OPEN_PAREN: u8 = 0;

pub const CLOSE_PAREN: u8 = 1;

pub const OPEN_BRACE: u8 = 2;

pub const CLOSE_BRACE: u8 = 3;

pub const OPEN_BRACKET: u8 = 4;

pub const CLOSE_BRACKET: u8 = 5;

pub const SEMICOLON: u8 = 6;

pub const COMMA: u8 = 7;

pub const DOT: u8 = 8;

pub const ARROW: u8 = 9;

pub const ASSIGN: u8 = 10;

pub const EQUAL: u8 = 11;

pub const NOT_EQUAL: u8 = 12;

pub const LESS: u8 = 13;

pub const GREATER: u8 = 14;

pub const LESS_EQUAL: u8 = 15;

pub const GREATER_EQUAL: u8 = 16;

pub const SHIFT_LEFT: u8 = 17;

pub const SHIFT_RIGHT: u8 = 18;

pub const PLUS: u8 = 19;

pub const MINUS: u8 = 20;

pub const STAR: u8 = 21;

pub const SLASH: u8 = 22;

pub const PERCENT: u8 = 23;

pub const AMPERSAND: u8 = 24;

pub const BAR: u8 = 25;

pub const CARET: u8 = 26;

pub const TILDE: u8 = 27;

pub const BANG: u8 = 28;

pub const AND_AND: u8 = 29;

pub const BAR_BAR: u8 = 30;
