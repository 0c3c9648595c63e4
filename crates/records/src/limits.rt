// Limits, as in document 01: at most so many bytes of a book, records of a kind, points of a rule, times of an event. They are `base` of Limits.
pub const MOST_BYTES: usize = 65_536;

pub const MOST_TRANSITIONS: usize = 640;

pub const MOST_RULES: usize = 256;

pub const MOST_EVENTS: usize = 32;

pub const MOST_POINTS: u8 = 16;

pub const MOST_TIMES: u8 = 8;
