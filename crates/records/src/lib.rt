// The records of a venue's book: where their fields stand, how many there may be, and which phases are trading.

#![tactic(auto)]

mod fields;
mod limits;
mod phase;
mod ranges;

pub use fields::{
    COVERAGE, COVERAGE_END, COVERAGE_OFFSET, COVERAGE_SIZE, COVERAGE_START, DAY_FIRST, DAY_LAST,
    EVENT, EVENT_CODE, EVENT_EVIDENCE, HEAD, KIND, NANOSECONDS, PHASE, POINT_SIZE, RULE, RULE_CODE,
    RULE_DERIVED, RULE_EVIDENCE, RULE_LABEL, RULE_MASK, TEXT, TIME_SIZE, TRANSITION,
    TRANSITION_INSTANT, TRANSITION_OFFSET, TRANSITION_SIZE, count_place, is_dated, is_rule,
    step_of, tag_place, time_place,
};
pub use limits::{MOST_BYTES, MOST_EVENTS, MOST_POINTS, MOST_RULES, MOST_TIMES, MOST_TRANSITIONS};
pub use phase::is_trading;
pub use ranges::{
    DAYS_HIGH, DAYS_LOW, INSTANTS_HIGH, INSTANTS_LOW, LAST_CODE, LAST_MASK, LAST_PHASE,
    LAST_PUBLISHED, OFFSETS_HIGH, OFFSETS_LOW, SECONDS_HIGH, SECONDS_LOW, WIDTHS_HIGH, WIDTHS_LOW,
};
