// A venue's book: accepted or refused.

#![tactic(auto)]

mod judge;
mod verdict;

pub use verdict::check;
