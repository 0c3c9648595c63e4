// What every entry point gives back beside the room that it was lent, and why it may refuse.
#![tactic(auto)]

ghost use Rattle.std.specs.Prelude.{◌≡◌};

mod refusal;

pub use refusal::{Refusal, Why};

// A number of document 01, 0 for an answer, and the answer's length.
#[repr(C)]
#[derive(Clone, Copy)]
pub struct Reply {
    pub number: u32,
    pub length: usize,
}

pub fn refused(number: u32) -> Reply
    ensures { result ≡ record { number = number; length = 0 } }
{
    Reply { number, length: 0 }
}

pub fn answered(length: usize) -> Reply
    ensures { result ≡ record { number = 0; length = length } }
{
    Reply { number: 0, length }
}
