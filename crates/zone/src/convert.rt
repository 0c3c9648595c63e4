// Readings of instants, and instants of readings.
ghost use Rattle.std.specs.Prelude.{◌≡◌, ◌*◌, ◌≤◌};
ghost use Rattle.zone.specs.Units.{most_offset, first_reading, last_reading, nearest_reading, reading_day, reading_time, reading_at};
ghost use Rattle.zone.specs.Zone.{reading_of, date_at, instant_by, resolve};
ghost use Rattle.zone.specs.Answers.{boundary_at, taken as Answers·taken, uncertain as Answers·uncertain};
ghost use Rattle.zone.specs.Clocks.{zone_in};
ghost use Rattle.zone.specs.Private.{around as Private·around};

use crate::search::passed;
use crate::{
    Boundary, Clock, DAY_NS, Doubt, FIRST_INSTANT, Instant, LAST_INSTANT, MOST_OFFSET_NS, Reading,
    Resolution, SECOND_NS, Uncertainty,
};
use calendar::{Day, FIRST_DAY, LAST_DAY};

const FIRST_READING: u64 = (FIRST_DAY as u64 - 5) * DAY_NS;

const LAST_READING: u64 = (LAST_DAY as u64 + 7) * DAY_NS;

const LAST_READING_DAY: u64 = LAST_DAY as u64 + 6;

// The date of a reading.
pub fn day_of_reading(x: Reading) -> Day
    ensures { result.0 ≡ reading_day x.0 }
{
    Day((x.0 / DAY_NS) as u32)
}

// The time of day of a reading, in nanoseconds.
pub fn time_of_reading(x: Reading) -> u64
    ensures { result ≡ reading_time x.0 }
{
    x.0 % DAY_NS
}

// The reading at a time of a date.
pub fn reading_at(d: Day, time: u64) -> Reading
    ensures { result.0 ≡ reading_at d.0 time }
{
    let day = (d.0 as u64).min(LAST_READING_DAY);
    Reading(day * DAY_NS + time.min(DAY_NS))
}

// The instant of a reading by an offset.
fn instant_by(offset: u32, x: u64) -> u64
    requires { (offset ≤ 2 * most_offset) × (first_reading ≤ x) × (x ≤ last_reading) }
    ensures { result ≡ instant_by offset x }
{
    x + MOST_OFFSET_NS - offset as u64 * SECOND_NS
}

// Around one transition: a is a reading by the offset before it, b by the one after.
fn around(at: u64, a: u64, b: u64) -> Resolution
    ensures { result ≡ Private·around at a b }
{
    let doubt = Doubt {
        before: Instant(a),
        after: Instant(b),
    };
    if a < at {
        if at <= b {
            return Resolution::Fold(doubt);
        }
        return Resolution::Clear(Instant(a));
    }
    if at <= b {
        return Resolution::Clear(Instant(b));
    }
    Resolution::Gap(doubt)
}

// The instant taken for a reading: in a fold the earlier, in a gap the later.
pub fn taken(r: Resolution) -> Instant
    ensures { result.0 ≡ Answers·taken r }
{
    match r {
        Resolution::Clear(t) => t,
        Resolution::Fold(d) => d.before,
        Resolution::Gap(d) => {
            let before = d.before;
            let after = d.after;
            if before.0 < after.0 { after } else { before }
        }
    }
}

// How precisely it is known: the doubt, else what is published.
fn uncertain(r: Resolution, published: Uncertainty) -> Uncertainty
    ensures { result ≡ Answers·uncertain r published }
{
    match r {
        Resolution::Clear(_) => published,
        Resolution::Fold(d) => Uncertainty::AmbiguousLocalTime(d),
        Resolution::Gap(d) => Uncertainty::NonexistentLocalTime(d),
    }
}

impl Clock<'_> {
    // What the wall shows at an instant.
    pub fn reading_of(&self, t: Instant) -> Reading
        ensures { result.0 ≡ reading_of (zone_in self.now) t.0 }
    {
        let u = t.0.clamp(FIRST_INSTANT, LAST_INSTANT);
        let offset = self.offset_at(Instant(u)) as u64;
        Reading(u + offset * SECOND_NS - MOST_OFFSET_NS)
    }

    // The date that the wall shows at an instant.
    pub fn day_at(&self, t: Instant) -> Day
        ensures { result.0 ≡ date_at (zone_in self.now) t.0 }
    {
        day_of_reading(self.reading_of(t))
    }

    // The instants of a reading. At most one transition stands near enough to matter: 57,600 s to either side, where two are never
    // less than 172,800 s apart.
    pub fn to_utc(&self, x: Reading) -> Resolution
        ensures { result ≡ resolve (zone_in self.now) (nearest_reading x.0) }
    {
        let ats = self.ats;
        let offsets = self.offsets;
        let wall = x.0.clamp(FIRST_READING, LAST_READING);
        let count = passed(ats, wall - MOST_OFFSET_NS);
        let a = instant_by(self.offset_after(count), wall);
        if ats.len() <= count {
            return Resolution::Clear(Instant(a));
        }
        let at = ats[count];
        if wall + MOST_OFFSET_NS < at {
            return Resolution::Clear(Instant(a));
        }
        around(at, a, instant_by(offsets[count], wall))
    }

    // The boundary at a time of a date, with the uncertainty that is published for it.
    pub fn to_utc_at(&self, d: Day, time: u64, published: Uncertainty) -> Boundary
        ensures { result ≡ boundary_at (zone_in self.now) d.0 time published }
    {
        let r = self.to_utc(reading_at(d, time));
        let at = taken(r);
        let uncertainty = uncertain(r, published);
        Boundary { at, uncertainty }
    }
}
