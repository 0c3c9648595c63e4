// Events are found by date, listed rule and listed time. Here they are not stored: each is sought behind the one before it. This is the
// way near a clock change; where none is near, steady.rt finds them once.
ghost use Rattle.std.specs.Prelude.{◌+◌, ◌-◌, ◌^◌, ◌≤◌, ◌<◌, ◌≡◌, length};
ghost use Rattle.zone.specs.Clocks.{zone_in};
ghost use Rattle.venue.specs.Values.{event_in, events_in};
ghost use Rattle.records.specs.Limits.{base};
ghost use Rattle.events.specs.Happenings.{occurrence as Happenings·occurrence, happens as Happenings·happens, on_times, on_date, found, most_on_date};
ghost use Rattle.events.specs.Seeking.{met as Seeking·met, sought, begin, better as Seeking·better};

use crate::steady::collect;
use crate::{Occurrence, Search};
use calendar::Day;
use venue::{Event, Events};
use zone::{Clock, Instant, Interval};

fn occurrence(clock: &Clock<'_>, event: &Event<'_>, d: Day, time: u64) -> Occurrence
    ensures { result ≡ Happenings·occurrence (zone_in clock.now) d.0 (event_in event.now) time }
{
    Occurrence {
        code: event.code(),
        boundary: clock.to_utc_at(d, time, event.uncertainty()),
        evidence: event.evidence(),
    }
}

fn happens(span: Interval, o: Occurrence) -> bool
    ensures { result ≡ Happenings·happens span.start.0 span.end.0 o }
{
    (span.start.0 <= o.boundary.at.0) & (o.boundary.at.0 < span.end.0)
}

fn better(best: Option<(Occurrence, usize)>, o: Occurrence) -> bool
    ensures { result ≡ Seeking·better best o }
{
    match best {
        None => true,
        Some((b, _)) => o.boundary.at.0 < b.boundary.at.0,
    }
}

// One more found.
fn met(s: Search, o: Occurrence) -> Search
    requires { s.count < 2 ^ 64 - 1 }
    ensures { result ≡ Seeking·met s o }
{
    let at = o.boundary.at.0;
    let from = s.at.0;
    let here = (from < at) | ((from == at) & (s.index <= s.count));
    let best = if here & better(s.best, o) {
        Some((o, s.count))
    } else {
        s.best
    };
    Search {
        count: s.count + 1,
        best,
        ..s
    }
}

// The listed times of an event, on a date.
fn on_times(clock: &Clock<'_>, event: &Event<'_>, d: Day, span: Interval, s: Search) -> Search
    requires { s.count ≤ 2 ^ 62 }
    ensures { (result ≡ sought s (on_times (zone_in clock.now) span.start.0 span.end.0 d.0 (event_in event.now) (event_in event.now).times))
        × (result.count ≤ s.count + base.times) }
{
    let mut so_far = s;
    for i in 0..event.times() {
        let o = occurrence(clock, event, d, event.time(i));
        if happens(span, o) {
            so_far = met(so_far, o);
        }
    }
    so_far
}

// The listed events that have the date among their days.
fn on_date(clock: &Clock<'_>, events: &Events<'_>, d: Day, span: Interval, s: Search) -> Search
    requires { s.count ≤ 2 ^ 61 }
    ensures { (result ≡ sought s (on_date (zone_in clock.now) span.start.0 span.end.0 d.0 (events_in events.now)))
        × (result.count ≤ s.count + most_on_date) }
{
    let book = events.book;
    let mut so_far = s;
    for at in events.places {
        let event = Event { book, at: *at };
        if (event.first().0 <= d.0) & (d.0 <= event.last().0) {
            so_far = on_times(clock, &event, d, span, so_far);
        }
    }
    so_far
}

// The events of a span: how many there are, and the first of them, by instant and number, from the number `index` at the instant `at` on.
pub fn search_events(
    clock: &Clock<'_>,
    events: &Events<'_>,
    span: Interval,
    at: Instant,
    index: usize,
) -> Search
    ensures { (result ≡ sought (begin at.0 index) (found (zone_in clock.now) (events_in events.now) span.start.0 span.end.0))
        × (result.count ≤ 2 ^ 25) }
{
    let begins = clock.day_at(span.start);
    let ends = clock.day_at(span.end);
    let none = Search {
        at,
        index,
        count: 0,
        best: None,
    };
    let mut so_far = on_date(clock, events, begins, span, none);
    for date in begins.0..ends.0 {
        so_far = on_date(clock, events, Day(date + 1), span, so_far);
    }
    so_far
}

// How many events there are in a span.
pub fn count_events(clock: &Clock<'_>, events: &Events<'_>, span: Interval) -> usize
    ensures { (result ≡ length (found (zone_in clock.now) (events_in events.now) span.start.0 span.end.0))
        × (result ≤ 2 ^ 25) }
{
    if events.places.len() == 0 {
        return 0;
    }
    let mut when = [0u64; 0];
    let mut which = [0u32; 0];
    match collect(clock, events, span, &mut when, &mut which) {
        Some(n) => n,
        None => search_events(clock, events, span, Instant(0), 0).count,
    }
}
