// What a book that names a venue says of it.
ghost use Rattle.std.specs.Prelude.{◌<◌};

use crate::{Events, Rules};
use zone::{Clock, Interval};

// The venue: what is covered, its clock, its rules and its events.
#[derive(Clone, Copy)]
pub struct Venue<'a> {
    pub coverage: Interval,
    pub clock: Clock<'a>,
    pub rules: Rules<'a>,
    pub events: Events<'a>,
    pub ghost covers: { coverage.start.0 < coverage.end.0 },
}
