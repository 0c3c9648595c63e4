// Whether a date is plain.
ghost use Rattle.std.specs.Prelude.{◌≡◌};
ghost use Rattle.zone.specs.Clocks.{zone_in};
ghost use Rattle.venue.specs.Values.{rule_in, rules_in};
ghost use Rattle.day.specs.Governing.{governing_rule};
ghost use Rattle.plain.specs.Deciding.{rises as Deciding·rises, in_order, plain_date, taken_at};

use calendar::Day;
use day::{governing_rule, midnight_after};
use venue::{Rule, Rules};
use zone::{Clock, Instant, Uncertainty};

// Whether the points of a rule convert in non-falling order between two instants.
fn rises(clock: &Clock<'_>, rule: &Rule<'_>, d: Day, from: Instant, to: Instant) -> bool
    ensures { result ≡ Deciding·rises (taken_at (zone_in clock.now) d.0) from.0 to.0 (rule_in rule.now).points }
{
    let mut before = from.0;
    for i in 0..rule.points() {
        let own = clock.to_utc_at(d, rule.point_time(i), Uncertainty::Exact);
        if own.at.0 < before {
            return false;
        }
        before = own.at.0;
    }
    before <= to.0
}

// Whether those of the rule that governs a date do, if there is one.
fn in_order(clock: &Clock<'_>, rules: &Rules<'_>, d: Day, from: Instant, to: Instant) -> bool
    ensures { result ≡ in_order (taken_at (zone_in clock.now) d.0) from.0 to.0 (governing_rule (rules_in rules.now) d.0) }
{
    match governing_rule(rules, d) {
        None => true,
        Some(at) => {
            let rule = Rule {
                book: rules.book,
                at,
            };
            rises(clock, &rule, d, from, to)
        }
    }
}

pub(crate) fn is_plain_date(clock: &Clock<'_>, rules: &Rules<'_>, d: Day) -> bool
    ensures { result ≡ plain_date (zone_in clock.now) (governing_rule (rules_in rules.now)) d.0 }
{
    let from = clock.to_utc_at(d, 0, Uncertainty::Exact).at;
    let to = midnight_after(clock, d, Uncertainty::Exact).at;
    (from.0 <= to.0) & in_order(clock, rules, d, from, to) & clock.reads_throughout(d, from, to)
}
