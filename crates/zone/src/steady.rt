// Where no transition is near: one offset for readings and conversions alike.
ghost use Rattle.std.specs.Prelude.{◌≡◌};
ghost use Rattle.zone.specs.Answers.{Spaced};
ghost use Rattle.zone.specs.Clocks.{zone_in};
ghost use Rattle.zone.specs.Steady.{steady_of, day_by, midnight_by, OnWall, DayOnWall, steady_until};

use crate::search::{next_at, passed};
use crate::{Clock, DAY_NS, FIRST_TRANSITION, Instant, LAST_TRANSITION, MOST_OFFSET_NS, SECOND_NS};
use calendar::{Day, FIRST_DAY, LAST_DAY};

// A day, and twice as much as an offset can be.
const MARGIN_NS: u64 = DAY_NS + 2 * MOST_OFFSET_NS;

// The date that the wall shows by an offset.
pub fn steady_day(offset: u32, t: Instant) -> Day
    requires { OnWall offset t.0 }
    ensures { result.0 ≡ day_by offset t.0 }
{
    Day(((t.0 + offset as u64 * SECOND_NS - MOST_OFFSET_NS) / DAY_NS) as u32)
}

// The instant at which a date begins by an offset.
pub fn steady_midnight(offset: u32, d: Day) -> Instant
    requires { DayOnWall offset d.0 }
    ensures { result.0 ≡ midnight_by offset d.0 }
{
    Instant(d.0 as u64 * DAY_NS + MOST_OFFSET_NS - offset as u64 * SECOND_NS)
}

// The first date from d on near which the clock changes: on the UTC day of its number, on the one before or on the next. Where there is
// none, the date behind the calendar; outside the calendar, d itself.
pub fn steady_until(ats: &[u64], d: Day) -> Day
    requires { Spaced ats.now }
    ensures { result.0 ≡ steady_until ats.now d.0 }
{
    if d.0 < FIRST_DAY {
        return d;
    }
    if LAST_DAY < d.0 {
        return d;
    }
    let day = d.0 as u64;
    let at = next_at(ats, passed(ats, (day - 1) * DAY_NS));
    Day(((at - 1) / DAY_NS - 1).clamp(day, LAST_DAY as u64 + 1) as u32)
}

impl Clock<'_> {
    // The offset from 56 hours before one instant to 56 hours after another, if no transition stands there.
    pub fn steady_offset(&self, from: Instant, to: Instant) -> Option<u32>
        ensures { result ≡ steady_of (zone_in self.now) from.0 to.0 }
    {
        if from.0 < FIRST_TRANSITION {
            return None;
        }
        if LAST_TRANSITION < to.0 {
            return None;
        }
        let count = passed(self.ats, from.0 - MARGIN_NS);
        if next_at(self.ats, count) <= to.0 + MARGIN_NS {
            return None;
        }
        Some(self.offset_after(count))
    }

    // The first date from d on near which the clock changes, as the function beside it has it.
    pub fn steady_until(&self, d: Day) -> Day
        ensures { result.0 ≡ steady_until self.now.ats.now d.0 }
    {
        steady_until(self.ats, d)
    }
}
