// Rows of a timeline's bytes, as a host kept them: judged and read record by record.

#![tactic(auto)]

mod judge;
mod reading;

pub use judge::{good_row, stands_at};
pub use reading::{end_of, read_event, read_segment};
use wire::Placed;

// What may stand at a place: the end, a row's mark, a segment, or an event of the last phase.
#[derive(Clone, Copy)]
pub enum Stands {
    End,
    Mark,
    Segment,
    Event,
}

// What a segment shows: a phase with its evidence, or that nothing is known. That is what kind 17 says, and no absence: so it is no Option.
#[derive(Clone, Copy)]
pub enum Shows {
    Phase(u8, u16),
    Unknown,
}

// A segment, how many events follow it, and the place behind it, where the first of them stands.
#[derive(Clone, Copy)]
pub struct RowSegment {
    pub from: Placed<u64>,
    pub to: Placed<u64>,
    pub shows: Shows,
    pub events: u32,
    pub behind: usize,
}

// An event, and the place behind it.
#[derive(Clone, Copy)]
pub struct Event {
    pub at: Placed<u64>,
    pub code: u16,
    pub behind: usize,
}
