// A step of a walk: to the next piece of the date at hand, or where it shows no more to the next turn. The passes over a walk that size,
// write and count all take their steps by these two; the first is small, and most steps take no more.
ghost use Rattle.std.specs.Prelude.{◌≡◌, ◌-◌, ◌^◌, ◌≤◌, ◌<◌, length, None};
ghost use Rattle.zone.specs.Clocks.{zone_in};
ghost use Rattle.day.specs.Days.{venue_by};
ghost use Rattle.day.specs.Venues.{book_in, places_in, dates_in};
ghost use Rattle.day.specs.Meaning.{held_by};
ghost use Rattle.walk.specs.Walking.{onward as Walking·onward, after_piece, PieceFits, held_in, Showing};
ghost use Rattle.walk.specs.Looking.{WalkHolds, IsNextPiece, DateSpent, IsNextTurn, TurnSets};
ghost use Rattle.day.specs.Keeping.{Keeps};

use crate::turn::begin;
use crate::{MOST_BOUNDARIES, Piece, Walk};
use calendar::Day;
use day::{DaySegment, NEAR_RULES_LENGTH, midnight_after};
use venue::{Rule, Venue};
use zone::{Boundary, Clock, Instant, Uncertainty};

// Of the spans between n + 1 boundaries, the first from the k-th on that shows between the cursor and `hi`; n where none does.
fn showing(edges: &[u64], k: usize, n: usize, cursor: Instant, hi: Instant) -> usize
    requires { (k ≤ n) × (n < length edges.now) }
    ensures { Showing edges.now k n cursor.0 hi.0 result }
{
    for i in k..n {
        if cursor.0.max(edges[i]) < hi.0.min(edges[i + 1]) {
            return i;
        }
    }
    n
}

// Where a turn leads that shows no more spans.
fn onward(clock: &Clock<'_>, hi: Instant, began: Instant, cursor: Instant, date: Day) -> Instant
    ensures { result.0 ≡ Walking·onward (venue_by (zone_in clock.now) (λ x. None)) hi.0 began.0 cursor.0 date.0 }
{
    if began.0 < cursor.0 {
        return cursor;
    }
    let midnight = midnight_after(clock, date, Uncertainty::Exact);
    Instant(hi.0.min(midnight.at.0))
}

// The first span of the date at hand that shows, if one does.
pub fn next_piece(
    book: &[u8],
    edges: &[u64; MOST_BOUNDARIES],
    hi: Instant,
    w: Walk,
) -> Option<Piece>
    requires { WalkHolds book.now w }
    ensures { IsNextPiece book.now edges.now hi.0 w result }
{
    let at = w.governed?;
    let rule = Rule { book, at };
    let cursor = w.cursor;
    let n = rule.points();
    let k = showing(edges, w.next, n, cursor, hi);
    if n <= k {
        return None;
    }
    let start = edges[k];
    let end = edges[k + 1];
    Some(Piece {
        from: Instant(cursor.0.max(start)),
        to: Instant(hi.0.min(end)),
        start: Instant(start),
        end: Instant(end),
        date: w.date,
        rule: at,
        point: k,
        clear: w.clear,
        turns: w.turns,
        began: w.began,
    })
}

// The next turn of a walk whose date shows no more, if there is one.
pub fn next_turn(
    venue: &Venue<'_>,
    kept: &mut [u32; NEAR_RULES_LENGTH],
    edges: &mut [u64; MOST_BOUNDARIES],
    hi: Instant,
    w: Walk,
) -> Option<Walk>
    requires { Keeps (book_in venue.now) (places_in venue.now) kept.old
        × DateSpent (book_in venue.now) (zone_in venue.now.clock) hi.0 w }
    ensures { IsNextTurn (book_in venue.now) (zone_in venue.now.clock) (dates_in venue.now) hi.0 w result edges.new
        × Keeps (book_in venue.now) (places_in venue.now) kept.new
        × TurnSets (book_in venue.now) (zone_in venue.now.clock) (places_in venue.now) hi.0 w
        edges.old kept.old result edges.new kept.new }
{
    let next = onward(&venue.clock, hi, w.began, w.cursor, w.date);
    if (next.0 <= w.began.0) | (w.turns == 0) {
        return None;
    }
    Some(begin(venue, kept, edges, w.turns - 1, next))
}

// Where the walk stands behind a piece.
pub fn after_piece(q: Piece) -> Walk
    requires { q.point < 2 ^ 64 - 1 }
    ensures { result ≡ after_piece q }
{
    Walk {
        turns: q.turns,
        began: q.began,
        cursor: q.to,
        date: q.date,
        governed: Some(q.rule),
        next: q.point + 1,
        clear: q.clear,
    }
}

// The whole span that a piece is part of.
pub fn segment(book: &[u8], clock: &Clock<'_>, q: Piece) -> DaySegment
    requires { PieceFits book.now (zone_in clock.now) q }
    ensures { (held_by book.now result ≡ held_in book.now (zone_in clock.now) q) × (result.rule ≡ q.rule) }
{
    let rule = Rule { book, at: q.rule };
    let k = q.point;
    let date = q.date;
    let published = rule.uncertainty();
    let own = clock.to_utc_at(date, rule.point_time(k), published);
    let next = if k + 1 < rule.points() {
        clock.to_utc_at(date, rule.point_time(k + 1), published)
    } else {
        midnight_after(clock, date, published)
    };
    DaySegment {
        start: Boundary {
            at: q.start,
            uncertainty: own.uncertainty,
        },
        end: Boundary {
            at: q.end,
            uncertainty: next.uncertainty,
        },
        phase: rule.point_phase(k),
        rule: q.rule,
    }
}
