// What a rule says of a date, and what a date says of an instant.

#![tactic(auto)]

mod cut;
mod govern;
mod keep;
mod narrow;
mod resolve;

pub use cut::{midnight_after, rule_segment_after};
pub use govern::governing_rule;
pub use keep::{NEAR_RULES_LENGTH, governing_near};
pub use narrow::near;
pub use resolve::{day_segment_after, resolve_phase};
use zone::Boundary;

// A whole span of a date: its two boundaries, its phase, and its rule by where it stands in the book.
#[derive(Clone, Copy)]
pub struct DaySegment {
    pub start: Boundary,
    pub end: Boundary,
    pub phase: u8,
    pub rule: u32,
}
