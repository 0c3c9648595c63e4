// What a query's numbers are: an instant in range, a window.
#![tactic(auto)]

mod judge;

pub use judge::{asked_at, asked_window};
