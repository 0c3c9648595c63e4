// A turn of the walk: the date that the cursor reads, the rule that governs it, and the date's boundaries.
ghost use Rattle.std.specs.Prelude.{◌≡◌, true, ◌↔◌, ◌<◌, length};
ghost use Rattle.wire.specs.Fields.{wrote};
ghost use Rattle.zone.specs.Zone.{date_at};
ghost use Rattle.zone.specs.Clocks.{zone_in};
ghost use Rattle.zone.specs.Steady.{steady_of};
ghost use Rattle.records.specs.Limits.{base};
ghost use Rattle.venue.specs.Values.{rule_in};
ghost use Rattle.day.specs.Venues.{book_in, places_in, dates_in};
ghost use Rattle.walk.specs.Walking.{edge_instants, is_exact, ClearDate, Begun, BegunAs};
ghost use Rattle.day.specs.Keeping.{Keeps};
ghost use Rattle.walk.specs.Shifting.{SteadyOn};

use crate::steady::steady_boundaries;
use crate::{MOST_BOUNDARIES, Walk};
use calendar::Day;
use day::{NEAR_RULES_LENGTH, governing_near, midnight_after};
use venue::{Rule, Venue};
use zone::{Clock, Instant, Uncertainty, steady_day, steady_midnight};

fn is_exact(u: Uncertainty) -> bool
    ensures { result ≡ is_exact u }
{
    matches!(&u, Uncertainty::Exact)
}

// Stores the instants of a date's boundaries, by a rule. Answers whether none of them is in doubt: an exact time of day stays exact.
fn boundaries(clock: &Clock<'_>, rule: &Rule<'_>, d: Day, edges: &mut [u64]) -> bool
    requires { base.points < length edges.old }
    ensures { (edges.new ≡ wrote edges.old 0 (edge_instants (zone_in clock.now) (rule_in rule.now) d.0))
        × ((result ≡ true) ↔ ClearDate (zone_in clock.now) (rule_in rule.now) d.0) }
{
    let n = rule.points();
    let mut before: u64 = 0;
    let mut clear = true;
    for i in 0..n {
        let own = clock.to_utc_at(d, rule.point_time(i), Uncertainty::Exact);
        before = before.max(own.at.0);
        clear = clear & is_exact(own.uncertainty);
        edges[i] = before;
    }
    let midnight = midnight_after(clock, d, Uncertainty::Exact);
    edges[n] = before.max(midnight.at.0);
    clear & is_exact(midnight.uncertainty)
}

// As `boundaries`. Where the clock is steady they are shifts of the date's midnight, and none is in doubt.
fn date_boundaries(
    clock: &Clock<'_>,
    steady: Option<u32>,
    rule: &Rule<'_>,
    d: Day,
    edges: &mut [u64],
) -> bool
    requires { (base.points < length edges.old) × SteadyOn (zone_in clock.now) steady d.0 }
    ensures { (edges.new ≡ wrote edges.old 0 (edge_instants (zone_in clock.now) (rule_in rule.now) d.0))
        × ((result ≡ true) ↔ ClearDate (zone_in clock.now) (rule_in rule.now) d.0) }
{
    match steady {
        None => boundaries(clock, rule, d, edges),
        Some(offset) => {
            steady_boundaries(rule, steady_midnight(offset, d), edges);
            true
        }
    }
}

// The date that the cursor reads.
fn date_of(clock: &Clock<'_>, steady: Option<u32>, cursor: Instant) -> Day
    requires { steady ≡ steady_of (zone_in clock.now) cursor.0 cursor.0 }
    ensures { result.0 ≡ date_at (zone_in clock.now) cursor.0 }
{
    match steady {
        None => clock.day_at(cursor),
        Some(offset) => steady_day(offset, cursor),
    }
}

// A turn begins at the cursor, with so many turns left after it.
pub fn begin(
    venue: &Venue<'_>,
    kept: &mut [u32; NEAR_RULES_LENGTH],
    edges: &mut [u64; MOST_BOUNDARIES],
    turns: u32,
    cursor: Instant,
) -> Walk
    requires { Keeps (book_in venue.now) (places_in venue.now) kept.old }
    ensures { Begun (book_in venue.now) (zone_in venue.now.clock) (dates_in venue.now) turns cursor.0 result edges.new
        × Keeps (book_in venue.now) (places_in venue.now) kept.new
        × BegunAs (book_in venue.now) (zone_in venue.now.clock) (places_in venue.now) turns cursor.0
        edges.old kept.old result edges.new kept.new }
{
    let clock = &venue.clock;
    let book = venue.rules.book;
    let steady = clock.steady_offset(cursor, cursor);
    let date = date_of(clock, steady, cursor);
    let governed = governing_near(&venue.rules, date, kept);
    let clear = match governed {
        None => true,
        Some(at) => date_boundaries(clock, steady, &Rule { book, at }, date, edges),
    };
    Walk {
        turns,
        began: cursor,
        cursor,
        date,
        governed,
        next: 0,
        clear,
    }
}
