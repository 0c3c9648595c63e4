// What the listing program prints: the timeline of a window of a book as text, line by line.
#![tactic(auto)]

mod lines;
mod reply;
mod text;

pub use reply::{MOST_BYTES, TEXT_BYTES, list_text};
