// The ranges of signed fields, both ends included and placed, and the last of what is listed.
use calendar::{DAY_ZERO, FIRST_DAY, LAST_DAY};
use wire::{HALF4, HALF8};
use zone::MOST_OFFSET;

// Queries and coverage, in nanoseconds: 1901-01-01Z to 2199-01-01Z.
pub const INSTANTS_LOW: u64 = HALF8 - 2_177_452_800_000_000_000;

pub const INSTANTS_HIGH: u64 = HALF8 + 7_226_582_400_000_000_000;

// Transitions, in seconds: 1900-01-01Z to 2200-01-01Z.
pub const SECONDS_LOW: u64 = HALF8 - 2_208_988_800;

pub const SECONDS_HIGH: u64 = HALF8 + 7_258_118_400;

// Offsets, in seconds.
pub const OFFSETS_LOW: u32 = HALF4 - MOST_OFFSET;

pub const OFFSETS_HIGH: u32 = HALF4 + MOST_OFFSET;

// Day numbers: 1900-01-01 to 2199-12-31.
pub const DAYS_LOW: u32 = DAY_ZERO + FIRST_DAY;

pub const DAYS_HIGH: u32 = DAY_ZERO + LAST_DAY;

// Widths of an uncertainty, in nanoseconds.
pub const WIDTHS_LOW: u64 = HALF8;

pub const WIDTHS_HIGH: u64 = HALF8 + 1_000_000_000_000_000;

pub const LAST_PHASE: u8 = 7;

// Of rules; a mask has a bit for each weekday.
pub const LAST_CODE: u8 = 3;

pub const LAST_MASK: u8 = 127;

// Of the uncertainties that a book may state.
pub const LAST_PUBLISHED: u8 = 3;
