// The bytes that formats name: definitions in specs/. There is no code here.
#![tactic(auto)]

// Between two fields stands a tab.
pub const TAB: u8 = 9;

// A line ends with this byte.
pub const LINE_END: u8 = 10;

// A line that starts with this byte, #, is skipped.
pub const HASH: u8 = 35;

// The digits stand in order from 0 to 9.
pub const DIGIT_0: u8 = 48;

pub const DIGIT_9: u8 = 57;
