// Answers, written into lent room. Instants and uncertainties are written as document 01's signed numbers.
#![tactic(auto)]

mod fields;
mod put;

pub use fields::{
    CODE, COUNT, DAY_KIND, END, EVENT_AT, EVENT_CODE, EVENT_KIND, EVENT_LENGTH, EVENT_SIZE,
    EVENT_TAG, EVIDENCE, FROM_TAG, GAP_KIND, GAP_LENGTH, GAP_SIZE, MARK_KIND, MARK_LENGTH,
    MARK_SIZE, MISSING_KIND, MISSING_LENGTH, MISSING_SIZE, PHASE, PHASE_KIND, PHASE_LENGTH,
    PHASE_SIZE, PRESENT, ROW_LENGTH, ROW_SIZE, START, TALLY_KIND, TO, TO_TAG, TOTALS, WHOLE_TAG,
};
pub use put::{amend_phase, begin_phase, put_event, put_gap, put_missing, put_phase, put_row};
use zone::{Boundary, Instant, Uncertainty};

// A phase answer: its span, its rule's numbers, its boundaries, its whole uncertainty and how many events follow.
#[derive(Clone, Copy)]
pub struct Phase {
    pub start: Instant,
    pub end: Instant,
    pub phase: u8,
    pub code: u8,
    pub label: u16,
    pub evidence: u16,
    pub derived: u16,
    pub from: Boundary,
    pub to: Boundary,
    pub whole: Uncertainty,
    pub events: u32,
}

// A tally's row: of a day, or the closing total.
#[derive(Clone, Copy)]
pub enum RowKind {
    Day,
    Closing,
}
