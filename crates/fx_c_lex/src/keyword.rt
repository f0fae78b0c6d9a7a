//! The numbers of the keywords, from 0, in the order of the C profile's list.

pub const CHAR: u8 = 0;

pub const SHORT: u8 = 1;

pub const INT: u8 = 2;

pub const LONG: u8 = 3;

pub const UNSIGNED: u8 = 4;

pub const VOID: u8 = 5;

pub const STRUCT: u8 = 6;

pub const IF: u8 = 7;

pub const ELSE: u8 = 8;

pub const WHILE: u8 = 9;

pub const FOR: u8 = 10;

pub const BREAK: u8 = 11;

pub const CONTINUE: u8 = 12;

pub const RETURN: u8 = 13;

pub const SIZEOF: u8 = 14;

pub const SHARED: u8 = 15;

pub const ENTRY: u8 = 16;

pub const GATE: u8 = 17;

pub const PUTC: u8 = 18;

pub const GETC: u8 = 19;

pub const IN: u8 = 20;

pub const OUT: u8 = 21;

pub const SPAWN: u8 = 22;

pub const SWITCH: u8 = 23;

pub const SELF: u8 = 24;

pub const READ: u8 = 25;
