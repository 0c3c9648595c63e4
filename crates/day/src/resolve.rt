// The phase at an instant.
ghost use Rattle.std.specs.Prelude.{◌≡◌, ◌-◌};
ghost use Rattle.zone.specs.Clocks.{zone_in};
ghost use Rattle.venue.specs.Values.{rules_in};
ghost use Rattle.spans.specs.Spans.{look};
ghost use Rattle.spans.specs.Timeline.{spans, point_at};
ghost use Rattle.day.specs.Governing.{governing_rule, governing_place};
ghost use Rattle.day.specs.Days.{Held, venue_by, after, holding_date};
ghost use Rattle.day.specs.Meaning.{held, ChosenAt, begun as Meaning·begun};

use crate::DaySegment;
use crate::cut::rule_segment_after;
use crate::govern::governing_rule;
use calendar::Day;
use venue::{Rule, Rules};
use zone::{Clock, Instant, Interval};

// The first span of a date that ends after t.
pub fn day_segment_after(
    clock: &Clock<'_>,
    rules: &Rules<'_>,
    d: Day,
    t: Instant,
) -> Option<DaySegment>
    ensures { (held rules.now.book.now result
        ≡ after t.0 (spans (venue_by (zone_in clock.now) (governing_rule (rules_in rules.now))) d.0))
        × ChosenAt rules.now.book.now (governing_place rules.now.book.now rules.now.places.now d.0) result }
{
    let at = governing_rule(rules, d)?;
    let rule = Rule {
        book: rules.book,
        at,
    };
    rule_segment_after(clock, &rule, d, t)
}

// A span, if it has begun at t.
fn begun(s: Option<DaySegment>, t: Instant) -> Option<DaySegment>
    ensures { result ≡ Meaning·begun s t.0 }
{
    let g = s?;
    if g.start.at.0 <= t.0 { Some(g) } else { None }
}

// The span of a date that holds t.
fn day_holding(clock: &Clock<'_>, rules: &Rules<'_>, d: Day, t: Instant) -> Option<DaySegment>
    ensures { (held rules.now.book.now result
        ≡ look (λ (h : Held). h) (spans (venue_by (zone_in clock.now) (governing_rule (rules_in rules.now))) d.0) t.0)
        × ChosenAt rules.now.book.now (governing_place rules.now.book.now rules.now.places.now d.0) result }
{
    begun(day_segment_after(clock, rules, d, t), t)
}

// The first span that holds t, of yesterday, today and tomorrow; outside what is covered none, and where that is empty never.
pub fn resolve_phase(
    coverage: Interval,
    clock: &Clock<'_>,
    rules: &Rules<'_>,
    t: Instant,
) -> Option<DaySegment>
    ensures { (held rules.now.book.now result
        ≡ point_at (λ (h : Held). h) (venue_by (zone_in clock.now) (governing_rule (rules_in rules.now)))
        (record { start = coverage.start.0; end = coverage.end.0 }) t.0)
        × ChosenAt rules.now.book.now
        (governing_place rules.now.book.now rules.now.places.now
        (holding_date (venue_by (zone_in clock.now) (governing_rule (rules_in rules.now))) t.0)) result }
{
    if t.0 < coverage.start.0 {
        return None;
    }
    if coverage.end.0 <= t.0 {
        return None;
    }
    let today = clock.day_at(t);
    let yesterday = Day(today.0.saturating_sub(1));
    let tomorrow = Day(today.0 + 1);
    if let Some(g) = day_holding(clock, rules, yesterday, t) {
        return Some(g);
    }
    if let Some(g) = day_holding(clock, rules, today, t) {
        return Some(g);
    }
    day_holding(clock, rules, tomorrow, t)
}
