// The tally of a window, from a book's bytes to the answer's: day rows cut every 24 hours from the window's start, then the closing total.
#![tactic(auto)]

mod pass;
mod reply;

pub use reply::tally_answer;
