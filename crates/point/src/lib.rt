// The point answer, from a book's bytes to the answer's.
#![tactic(auto)]

mod reply;

pub use reply::point_answer;
