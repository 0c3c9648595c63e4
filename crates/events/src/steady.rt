// Where the clock is steady the events of a span are found once: each is kept by its instant and where its record stands.
ghost use Rattle.std.specs.Prelude.{suc, ◌+◌, ◌-◌, ◌^◌, ◌≤◌, ◌<◌, [], ◌∷◌, length};
ghost use Rattle.zone.specs.Units.{last_instant};
ghost use Rattle.zone.specs.Clocks.{zone_in};
ghost use Rattle.zone.specs.Steady.{day_by, OnWall};
ghost use Rattle.venue.specs.Values.{event_in};
ghost use Rattle.records.specs.Limits.{base};
ghost use Rattle.events.specs.Keeping.{Keeps, Collects, Next, kept_times, kept_date, kept_dates, steady_in};
ghost use Rattle.events.specs.Happenings.{most_on_date};

use calendar::Day;
use venue::{Event, Events};
use zone::{Clock, Instant, Interval, steady_day, steady_midnight};

// One more kept behind n others, if there is room. Answers how many there are.
fn keep(when: &mut [u64], which: &mut [u32], n: usize, at: u64, place: u32) -> usize
    requires { n < 2 ^ 64 - 1 }
    ensures { Keeps when.old which.old n (record { at = at; place = place } ∷ []) when.new which.new result }
{
    if n < when.len() {
        when[n] = at;
    }
    if n < which.len() {
        which[n] = place;
    }
    n + 1
}

// The listed times of an event, on a date that begins at `midnight`.
fn on_steady_times(
    event: &Event<'_>,
    midnight: Instant,
    span: Interval,
    when: &mut [u64],
    which: &mut [u32],
    n: usize,
) -> usize
    requires { (midnight.0 ≤ last_instant) × (n ≤ 2 ^ 62) }
    ensures { Keeps when.old which.old n
        (kept_times span.start.0 span.end.0 midnight.0 event.now.at (event_in event.now).times)
        when.new which.new result
        × (result ≤ n + base.times) }
{
    let mut count = n;
    for i in 0..event.times() {
        let at = midnight.0 + event.time(i);
        if (span.start.0 <= at) & (at < span.end.0) {
            count = keep(when, which, count, at, event.at);
        }
    }
    count
}

// The listed events that have the date among their days.
fn on_steady_date(
    events: &Events<'_>,
    d: Day,
    midnight: Instant,
    span: Interval,
    when: &mut [u64],
    which: &mut [u32],
    n: usize,
) -> usize
    requires { (midnight.0 ≤ last_instant) × (n ≤ 2 ^ 61) }
    ensures { Keeps when.old which.old n
        (kept_date events.now.book.now span.start.0 span.end.0 d.0 midnight.0 events.now.places.now)
        when.new which.new result
        × (result ≤ n + most_on_date) }
{
    let book = events.book;
    let mut count = n;
    for at in events.places {
        let event = Event { book, at: *at };
        if (event.first().0 <= d.0) & (d.0 <= event.last().0) {
            count = on_steady_times(&event, midnight, span, when, which, count);
        }
    }
    count
}

// The dates from that of the span's start to that of its end, by an offset.
fn on_steady_dates(
    events: &Events<'_>,
    offset: u32,
    span: Interval,
    when: &mut [u64],
    which: &mut [u32],
) -> usize
    requires { OnWall offset span.start.0 × OnWall offset span.end.0 × (span.start.0 ≤ span.end.0) }
    ensures { Keeps when.old which.old 0
        (kept_dates events.now.book.now events.now.places.now offset span.start.0 span.end.0 (day_by offset span.start.0)
        (suc (day_by offset span.end.0 - day_by offset span.start.0)))
        when.new which.new result }
{
    let begins = steady_day(offset, span.start);
    let ends = steady_day(offset, span.end);
    let mut n: usize = 0;
    for date in begins.0..=ends.0 {
        let d = Day(date);
        let midnight = steady_midnight(offset, d);
        n = on_steady_date(events, d, midnight, span, when, which, n);
    }
    n
}

// The events of a span, as they are found, by date, listed event and listed time: how many there are, and the first of them kept, as many as
// there is room for. No answer where a transition is near.
pub fn collect(
    clock: &Clock<'_>,
    events: &Events<'_>,
    span: Interval,
    when: &mut [u64],
    which: &mut [u32],
) -> Option<usize>
    ensures { Collects (steady_in (zone_in clock.now) span.start.0 span.end.0) events.now.book.now events.now.places.now span.start.0 span.end.0
        when.old which.old result when.new which.new }
{
    if span.end.0 < span.start.0 {
        return None;
    }
    let offset = clock.steady_offset(span.start, span.end)?;
    Some(on_steady_dates(events, offset, span, when, which))
}

// Of n events, by their instants, the number of the first, by instant and number, from the number `index` at the instant `at` on;
// n where there is none.
pub fn next_kept(when: &[u64], n: usize, at: Instant, index: usize) -> usize
    requires { n ≤ length when.now }
    ensures { Next when.now n at.0 index result }
{
    let mut best = n;
    let mut first: u64 = 0;
    for i in 0..n {
        let t = when[i];
        let here = (at.0 < t) | ((at.0 == t) & (index <= i));
        if here & ((best == n) | (t < first)) {
            best = i;
            first = t;
        }
    }
    best
}
