// The listing program: reads a window and a book on standard input, and prints the timeline of the window. All of it is in `listing`.
#![tactic(auto)]

use cases::read_full;
use listing::{MOST_BYTES, TEXT_BYTES, list_text};
use std::io::Result;

// One byte more than the longest input, so that a longer one is seen to be.
const INPUT_BYTES: usize = MOST_BYTES + 1;

fn main(rt: HostRuntime) -> Result<()> {
    let mut input = [0u8; INPUT_BYTES];
    let length = read_full(&mut rt.reader(), &mut input)?;
    let mut text = [0u8; TEXT_BYTES];
    let written = list_text(&input[..length], &mut text);
    rt.write_all(&text[..written])
}
