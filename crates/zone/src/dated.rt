// Whether the clock reads a date at instants.
ghost use Rattle.std.specs.Prelude.{◌≡◌};
ghost use Rattle.zone.specs.Zone.{changes_of};
ghost use Rattle.zone.specs.Clocks.{zone_in};
ghost use Rattle.zone.specs.Throughout.{reads_on, reads_changes, reads_throughout};

use crate::search::passed;
use crate::{Clock, Instant};
use calendar::Day;

impl Clock<'_> {
    // Whether the clock reads the date at an instant.
    fn reads_on(&self, d: Day, t: Instant) -> bool
        ensures { result ≡ reads_on (zone_in self.now) d.0 t.0 }
    {
        self.day_at(t).0 == d.0
    }

    // Whether the clock reads the date just before and at each transition between two instants.
    fn reads_changes(&self, d: Day, from: Instant, to: Instant) -> bool
        ensures { result ≡ reads_changes (zone_in self.now) d.0 from.0 to.0 (changes_of self.now.ats.now self.now.offsets.now) }
    {
        let ats = self.ats;
        for k in passed(ats, from.0)..ats.len() {
            let at = ats[k];
            if to.0 <= at {
                return true;
            }
            if !(self.reads_on(d, Instant(at - 1)) & self.reads_on(d, Instant(at))) {
                return false;
            }
        }
        true
    }

    // Whether the clock reads the date at every instant from one to before another. Between two transitions the offset is the same, so there
    // the first and the last instant tell of all others.
    pub fn reads_throughout(&self, d: Day, from: Instant, to: Instant) -> bool
        ensures { result ≡ reads_throughout (zone_in self.now) d.0 from.0 to.0 }
    {
        if to.0 <= from.0 {
            return true;
        }
        self.reads_on(d, from)
            & self.reads_on(d, Instant(to.0 - 1))
            & self.reads_changes(d, from, to)
    }
}
