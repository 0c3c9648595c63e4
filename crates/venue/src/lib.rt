// A book opened: its coverage, clock changes, rules and events.

#![tactic(auto)]

mod event;
mod opened;
mod rule;
mod uncertain;
mod venue;

pub use event::{Event, Events};
pub use opened::{Header, Room};
pub use rule::{Rule, Rules};
pub use venue::Venue;
