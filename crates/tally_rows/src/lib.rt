// The pages of a tally: its rows, filled and written one after the other while the stretches of a window come.
#![tactic(auto)]

mod count;
mod cuts;

use answer::TOTALS;
pub use cuts::tally_size;
use zone::{Instant, Interval};

// Where what is unknown is counted.
pub const UNKNOWN: usize = 8;

// The row that is open, and where its record will stand.
#[derive(Clone, Copy)]
pub struct OpenRow {
    pub start: Instant,
    pub end: Instant,
    pub at: usize,
}

// A tally while the stretches of its window come: the window, the row that is open, that row's totals and the closing ones.
#[derive(Drop)]
pub struct Pages {
    pub window: Interval,
    pub open: OpenRow,
    pub row: [u64; TOTALS],
    pub whole: [u64; TOTALS],
}
