// A date cut into spans by its rule's points.
ghost use Rattle.std.specs.Prelude.{◌≡◌, suc, max, ◌&&◌, ltb, None, Some};
ghost use Rattle.zone.specs.Answers.{boundary_at};
ghost use Rattle.zone.specs.Clocks.{zone_in};
ghost use Rattle.venue.specs.Values.{rule_in};
ghost use Rattle.spans.specs.Timeline.{of_points};
ghost use Rattle.day.specs.Days.{venue_by, after};
ghost use Rattle.day.specs.Meaning.{held, ChosenAt};

use crate::DaySegment;
use calendar::{Day, LAST_DAY};
use records::MOST_POINTS;
use venue::Rule;
use zone::{Boundary, Clock, Instant, Uncertainty};

// One more boundary than a rule can have points.
const MOST_BOUNDARIES: usize = MOST_POINTS as usize + 1;

// Dates from here on convert as this one does.
const LAST_CONVERTED: u32 = LAST_DAY + 6;

// A boundary, not earlier than its predecessor.
fn raised(before: Boundary, own: Boundary) -> Boundary
    ensures { result ≡ record { at = record { 0 = max before.at.0 own.at.0 }; uncertainty = own.uncertainty } }
{
    Boundary {
        at: Instant(before.at.0.max(own.at.0)),
        uncertainty: own.uncertainty,
    }
}

// The midnight that ends a date. Past the dates in use all dates convert alike.
pub fn midnight_after(clock: &Clock<'_>, d: Day, published: Uncertainty) -> Boundary
    ensures { result ≡ boundary_at (zone_in clock.now) (suc d.0) 0 published }
{
    let day = d.0;
    if LAST_CONVERTED < day {
        return clock.to_utc_at(d, 0, published);
    }
    clock.to_utc_at(Day(day + 1), 0, published)
}

// Whether there is anything between two boundaries, and the second stands after t.
fn ends_after(start: Boundary, end: Boundary, t: Instant) -> bool
    ensures { result ≡ (ltb start.at.0 end.at.0 && ltb t.0 end.at.0) }
{
    (start.at.0 < end.at.0) & (t.0 < end.at.0)
}

// The first span of a date, by a rule, that ends after t.
pub fn rule_segment_after(
    clock: &Clock<'_>,
    rule: &Rule<'_>,
    d: Day,
    t: Instant,
) -> Option<DaySegment>
    ensures { (held rule.now.book.now result
        ≡ after t.0 (of_points (venue_by (zone_in clock.now) (λ x. None)) (rule_in rule.now) d.0 (rule_in rule.now).points))
        × ChosenAt rule.now.book.now (Some rule.now.at) result }
{
    let published = rule.uncertainty();
    let n = rule.points();
    let begin = clock.to_utc_at(d, rule.point_time(0), published);
    let mut boundaries = [begin; MOST_BOUNDARIES];
    for i in 1..n {
        let own = clock.to_utc_at(d, rule.point_time(i), published);
        boundaries[i] = raised(boundaries[i - 1], own);
    }
    let midnight = midnight_after(clock, d, published);
    boundaries[n] = raised(boundaries[n - 1], midnight);
    for k in 0..n {
        let start = boundaries[k];
        let end = boundaries[k + 1];
        if ends_after(start, end, t) {
            return Some(DaySegment {
                start,
                end,
                phase: rule.point_phase(k),
                rule: rule.at,
            });
        }
    }
    None
}
