// The window answer, from a book's bytes to the answer's: unknown before coverage, the walk with touching spans joined, unknown after.
#![tactic(auto)]

mod reply;

pub use reply::window_answer;
