// The events of a span, in order, one after the other.
#![tactic(auto)]

mod seek;
mod steady;

pub use seek::{count_events, search_events};
pub use steady::{collect, next_kept};
use zone::{Boundary, Instant};

#[derive(Clone, Copy)]
pub struct Occurrence {
    pub code: u16,
    pub boundary: Boundary,
    pub evidence: u16,
}

// A search among the events found: how many were met, and the first of them, by instant and number, from the number `index` at the
// instant `at` on, with its number, if there is one.
#[derive(Clone, Copy)]
pub struct Search {
    pub at: Instant,
    pub index: usize,
    pub count: usize,
    pub best: Option<(Occurrence, usize)>,
}
