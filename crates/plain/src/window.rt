// Whether a window is plain.
ghost use Rattle.std.specs.Prelude.{◌≡◌, suc, ◌<◌, ◌^◌};
ghost use Rattle.zone.specs.Clocks.{zone_in};
ghost use Rattle.venue.specs.Values.{rules_in};
ghost use Rattle.day.specs.Governing.{governing_rule};
ghost use Rattle.day.specs.Days.{venue_by};
ghost use Rattle.plain.specs.Plain.{PlainWindow};
ghost use Rattle.plain.specs.Deciding.{Decides, most_dates, reaches as Deciding·reaches};
ghost use Rattle.plain.specs.Private.{PlainUntil};

use crate::date::is_plain_date;
use calendar::Day;
use venue::Rules;
use zone::{Clock, Instant, Interval, Uncertainty};

// The date before a run of 3,660 dates, those, and the one behind it.
const MOST_DATES: u32 = 3_662;

// The date before which dates from d on are plain, as far as one look tells, and not past the last. Where the clock is steady all are,
// whatever their rules.
fn plain_until(clock: &Clock<'_>, rules: &Rules<'_>, d: Day, last: Day) -> Day
    requires { d.0 < last.0 }
    ensures { PlainUntil (venue_by (zone_in clock.now) (governing_rule (rules_in rules.now))) d.0 last.0 result.0 }
{
    let until = clock.steady_until(d);
    if last.0 < until.0 {
        return last;
    }
    if d.0 < until.0 {
        return until;
    }
    if is_plain_date(clock, rules, d) {
        return Day(d.0 + 1);
    }
    d
}

// Whether dates from d on are plain until one's midnight is not before the end, that one too. The midnights of plain dates do not fall, so
// of the dates that one look tells of only the last one's is asked.
fn reaches(clock: &Clock<'_>, rules: &Rules<'_>, d: Day, end: Instant) -> bool
    requires { d.0 < 2 ^ 17 }
    ensures { result ≡ Deciding·reaches (zone_in clock.now) (governing_rule (rules_in rules.now)) end.0 (suc most_dates) d.0 }
{
    let last = Day(d.0 + MOST_DATES);
    let mut date = d;
    // A look may pass over many dates at once.
    while date.0 < last.0 {
        let next = plain_until(clock, rules, date, last);
        if next.0 <= date.0 {
            return false;
        }
        let opening = clock.to_utc_at(Day(next.0 - 1), 0, Uncertainty::Exact);
        if end.0 <= opening.at.0 {
            return true;
        }
        date = next;
    }
    false
}

// If the window is plain, the date that its start reads is of the run, and so are those from there to its end; the one before it is plain.
pub fn is_plain(clock: &Clock<'_>, rules: &Rules<'_>, window: Interval) -> bool
    requires { window.start.0 < window.end.0 }
    ensures { Decides result (PlainWindow (venue_by (zone_in clock.now) (governing_rule (rules_in rules.now)))
        (record { start = window.start.0; end = window.end.0 })) }
{
    let date = clock.day_at(window.start);
    if date.0 == 0 {
        return false;
    }
    let opening = clock.to_utc_at(date, 0, Uncertainty::Exact);
    if window.start.0 < opening.at.0 {
        return false;
    }
    reaches(clock, rules, Day(date.0 - 1), window.end)
}
