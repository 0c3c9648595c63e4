// A date's boundaries where the clock is steady: each time of day stands as far behind the date's midnight as it is long.
ghost use Rattle.std.specs.Prelude.{◌+◌, ◌^◌, ◌<◌, length};
ghost use Rattle.zone.specs.Units.{day_ns};
ghost use Rattle.records.specs.Limits.{base};
ghost use Rattle.venue.specs.Values.{rule_in};
ghost use Rattle.walk.specs.Shifting.{ShiftedIn};

use venue::Rule;
use zone::{DAY_NS, Instant};

// Stores the instants of the boundaries of a date that begins at `midnight`, by a rule.
pub(crate) fn steady_boundaries(rule: &Rule<'_>, midnight: Instant, edges: &mut [u64])
    requires { (base.points < length edges.old) × (midnight.0 + day_ns < 2 ^ 64) }
    ensures { ShiftedIn (rule_in rule.now) midnight.0 edges.old edges.new }
{
    let n = rule.points();
    let mut before: u64 = 0;
    for i in 0..n {
        before = before.max(midnight.0 + rule.point_time(i));
        edges[i] = before;
    }
    edges[n] = before.max(midnight.0 + DAY_NS);
}
