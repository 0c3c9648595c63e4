// Instants and a venue's wall readings, after RFC 9636: the only crate that adds an offset or takes one away.
#![tactic(auto)]

mod clock;
mod convert;
mod dated;
mod number;
mod search;
mod steady;
mod valid;
mod wide;

use calendar::{FIRST_DAY, LAST_DAY};
pub use clock::Clock;
pub use convert::{day_of_reading, reading_at, taken, time_of_reading};
pub use number::{instant_of, instant_of_seconds, number_bits};
pub use steady::{steady_day, steady_midnight, steady_until};
pub use valid::is_valid;
pub use wide::widest;

pub const SECOND_NS: u64 = 1_000_000_000;

pub const DAY_NS: u64 = 86_400 * SECOND_NS;

// The most that an offset is, in seconds, ahead of UTC or behind it; and the most that it moves a reading.
pub const MOST_OFFSET: u32 = 57_600;

pub(crate) const MOST_OFFSET_NS: u64 = MOST_OFFSET as u64 * SECOND_NS;

// An offset is kept in seconds plus the most that it is.
pub(crate) const OFFSET_MOST: u32 = 2 * MOST_OFFSET;

// A transition stands at least so many seconds after the one before.
pub const SPACING: u64 = 172_800;

// Transitions stand from the first of these to the second.
pub(crate) const FIRST_TRANSITION: u64 = FIRST_DAY as u64 * DAY_NS;

pub(crate) const LAST_TRANSITION: u64 = (LAST_DAY as u64 + 1) * DAY_NS;

// Instants in use: a number outside counts as the nearest inside.
pub(crate) const FIRST_INSTANT: u64 = (FIRST_DAY as u64 - 6) * DAY_NS;

pub(crate) const LAST_INSTANT: u64 = (LAST_DAY as u64 + 8) * DAY_NS;

// Nanoseconds since 1899-12-25T00:00 UTC.
#[derive(Clone, Copy)]
pub struct Instant(pub u64);

// Nanoseconds since 1899-12-25T00:00 on a venue's wall.
#[derive(Clone, Copy)]
pub struct Reading(pub u64);

// The instants from the start to before the end.
#[derive(Clone, Copy)]
pub struct Interval {
    pub start: Instant,
    pub end: Instant,
}

// A reading that a transition makes doubtful, by the offset before the transition and by the one after it.
#[derive(Clone, Copy)]
pub struct Doubt {
    pub before: Instant,
    pub after: Instant,
}

// The instants of a reading: one, two, or none.
#[derive(Clone, Copy)]
pub enum Resolution {
    Clear(Instant),
    Fold(Doubt),
    Gap(Doubt),
}

// How precisely an instant is known. A width is in nanoseconds, a text is a number.
#[derive(Clone, Copy)]
pub enum Uncertainty {
    Exact,
    PublishedGranularity(u64),
    PublishedBound(u64, u16),
    ProcessStart(u16),
    AmbiguousLocalTime(Doubt),
    NonexistentLocalTime(Doubt),
}

#[derive(Clone, Copy)]
pub struct Boundary {
    pub at: Instant,
    pub uncertainty: Uncertainty,
}
