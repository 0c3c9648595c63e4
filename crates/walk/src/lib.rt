// The walk over the covered part of a window, one span after the other.

#![tactic(auto)]

mod steady;
mod step;
mod turn;

use calendar::Day;
use records::MOST_POINTS;
pub use step::{after_piece, next_piece, next_turn, segment};
pub use turn::begin;
use zone::Instant;

// One more boundary than a rule can have points.
pub const MOST_BOUNDARIES: usize = MOST_POINTS as usize + 1;

// The most turns that a walk takes.
pub const MOST_TURNS: u32 = 3_660;

// Where a walk stands: how many turns are left after this one, the cursor as the turn began and as it is now, the turn's date, where the rule
// stands that governs it, which of the date's spans is next, and whether none of the date's boundaries is in doubt.
#[derive(Clone, Copy)]
pub struct Walk {
    pub turns: u32,
    pub began: Instant,
    pub cursor: Instant,
    pub date: Day,
    pub governed: Option<u32>,
    pub next: usize,
    pub clear: bool,
}

// What shows of a date's span, from `from` to before `to`; and the span, from `start` to before `end`, by a point of a rule. Where it is
// clear, neither boundary is in doubt: both are as precise as the rule says. The walk goes on from `turns` and `began`.
#[derive(Clone, Copy)]
pub struct Piece {
    pub from: Instant,
    pub to: Instant,
    pub start: Instant,
    pub end: Instant,
    pub date: Day,
    pub rule: u32,
    pub point: usize,
    pub clear: bool,
    pub turns: u32,
    pub began: Instant,
}
