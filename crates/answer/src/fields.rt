// The kinds of answers, and where the fields of each stand, counted from its first byte: each behind the one before it. Who writes an answer and
// who reads it back both go by this table.
// Kinds are the numbers that are written; nothing chooses by them.
use records::{HEAD, KIND};

// Uncertainty: its tag, two numbers and a text.
const UNCERTAINTY_SIZE: usize = 1 + 8 + 8 + 2;

// A segment, a row and a total begin with their start and end.
pub const START: usize = HEAD;

pub const END: usize = START + 8;

// A phase: its numbers, two boundaries, its whole uncertainty and how many events follow.
pub const PHASE_KIND: u16 = 16;

pub const PHASE: usize = END + 8;

pub const CODE: usize = PHASE + 1;

const LABEL: usize = CODE + 1;

pub const EVIDENCE: usize = LABEL + 2;

const DERIVED: usize = EVIDENCE + 2;

const FROM: usize = DERIVED + 2;

pub const FROM_TAG: usize = FROM + 8;

pub const TO: usize = FROM_TAG + UNCERTAINTY_SIZE;

pub const TO_TAG: usize = TO + 8;

pub const WHOLE_TAG: usize = TO_TAG + UNCERTAINTY_SIZE;

pub const COUNT: usize = WHOLE_TAG + UNCERTAINTY_SIZE;

pub const PHASE_SIZE: usize = COUNT + 4;

pub const PHASE_LENGTH: u16 = (PHASE_SIZE - KIND) as u16;

// Coverage: whether there is any, and from when to when.
const COVER_SIZE: usize = 1 + 8 + 8;

// A stretch of which nothing is known.
pub const GAP_KIND: u16 = 17;

pub const PRESENT: usize = END + 8;

pub const GAP_SIZE: usize = PRESENT + COVER_SIZE;

pub const GAP_LENGTH: u16 = (GAP_SIZE - KIND) as u16;

// An event.
pub const EVENT_KIND: u16 = 18;

pub const EVENT_CODE: usize = HEAD;

pub const EVENT_AT: usize = EVENT_CODE + 2;

pub const EVENT_TAG: usize = EVENT_AT + 8;

const EVENT_EVIDENCE: usize = EVENT_TAG + UNCERTAINTY_SIZE;

pub const EVENT_SIZE: usize = EVENT_EVIDENCE + 2;

pub const EVENT_LENGTH: u16 = (EVENT_SIZE - KIND) as u16;

// A point of which nothing is known.
pub const MISSING_KIND: u16 = 19;

const MISSING_PRESENT: usize = HEAD + 8;

pub const MISSING_SIZE: usize = MISSING_PRESENT + COVER_SIZE;

pub const MISSING_LENGTH: u16 = (MISSING_SIZE - KIND) as u16;

// A row's mark.
pub const MARK_KIND: u16 = 21;

pub const MARK_SIZE: usize = HEAD + 2;

pub const MARK_LENGTH: u16 = (MARK_SIZE - KIND) as u16;

// A day row, and a closing total.
pub const DAY_KIND: u16 = 22;

pub const TALLY_KIND: u16 = 23;

pub const TOTALS: usize = 10;

pub const ROW_SIZE: usize = END + 8 + 8 * TOTALS;

pub const ROW_LENGTH: u16 = (ROW_SIZE - KIND) as u16;
