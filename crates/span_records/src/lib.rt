// What a span of a date is as records: its phase, and its events behind it.
#![tactic(auto)]

ghost use Rattle.std.specs.Prelude.{ℕ, ◌*◌, ◌≤◌, ◌<◌, ◌≡◌, map, length, get_or};
ghost use Rattle.wire.specs.Fields.{Inside, Put};
ghost use Rattle.zone.specs.Clocks.{zone_in};
ghost use Rattle.venue.specs.Reading.{ListedRule, ListedEvent};
ghost use Rattle.venue.specs.Values.{events_in};
ghost use Rattle.day.specs.Meaning.{held_by};
ghost use Rattle.events.specs.Happenings.{found, by_instant};
ghost use Rattle.events.specs.Keeping.{listed, kept_of};
ghost use Rattle.answer.specs.Forms.{encode_all, event_size};
ghost use Rattle.span_records.specs.Shown.{head_of, event_form, Trails};

use answer::{Phase, put_event};
use day::DaySegment;
use events::{collect, next_kept, search_events};
use venue::{Event, Events, Rule};
use zone::{Boundary, Clock, Instant, Interval, Uncertainty};

// A segment's record, shown over an interval, with its whole uncertainty and so many events behind it.
pub fn phase_of(
    book: &[u8],
    g: DaySegment,
    whole: Uncertainty,
    shown: Interval,
    events: u32,
) -> Phase
    requires { ListedRule book.now g.rule }
    ensures { result ≡ head_of shown.start.0 shown.end.0 (held_by book.now g) whole events }
{
    let rule = Rule { book, at: g.rule };
    Phase {
        start: shown.start,
        end: shown.end,
        phase: g.phase,
        code: rule.code(),
        label: rule.label(),
        evidence: rule.evidence(),
        derived: rule.derived(),
        from: g.start,
        to: g.end,
        whole,
        events,
    }
}

// A span's events as they are written: the place behind them, and how many they are.
#[derive(Clone, Copy)]
pub struct Trail {
    pub behind: usize,
    pub count: usize,
}

// How many events of a span are kept at most.
const MOST_KEPT_EVENTS: usize = 32;

// The n events that two arrays keep, one after the other, from `at` on. Answers the place behind them.
fn put_kept(book: &[u8], when: &[u64], which: &[u32], n: usize, out: &mut [u8], at: usize) -> usize
    requires { (n ≤ length when.now) × (n ≤ length which.now) × ((i : ℕ) → i < n → ListedEvent book.now (get_or which.now i 0))
        × Inside at (event_size * n) out.old }
    ensures { Put out.old at
        (encode_all (map event_form (by_instant (listed (kept_of book.now when.now which.now) 0 n))))
        (event_size * n) out.new result }
{
    let mut place = at;
    let mut next = next_kept(when, n, Instant(0), 0);
    for _ in 0..n {
        let t = Instant(when[next]);
        let event = Event {
            book,
            at: which[next],
        };
        let boundary = Boundary {
            at: t,
            uncertainty: event.uncertainty(),
        };
        place = put_event(out, place, event.code(), boundary, event.evidence());
        next = next_kept(when, n, t, next + 1);
    }
    place
}

// The events of a span, each sought behind the one before it, from `at` on.
fn put_sought(
    clock: &Clock<'_>,
    events: &Events<'_>,
    span: Interval,
    out: &mut [u8],
    at: usize,
) -> Trail
    requires { Inside at (event_size * length (found (zone_in clock.now) (events_in events.now) span.start.0 span.end.0)) out.old }
    ensures { Trails (zone_in clock.now) (events_in events.now) span.start.0 span.end.0 out.old at out.new result }
{
    let s = search_events(clock, events, span, Instant(0), 0);
    let count = s.count;
    let mut best = s.best;
    let mut place = at;
    for _ in 0..count {
        let Some((o, index)) = best else {
            break;
        };
        place = put_event(out, place, o.code, o.boundary, o.evidence);
        best = search_events(clock, events, span, o.boundary.at, index + 1).best;
    }
    Trail {
        behind: place,
        count,
    }
}

// The events of a span, in one pass where the clock is steady and all have room.
fn put_some(
    clock: &Clock<'_>,
    events: &Events<'_>,
    span: Interval,
    out: &mut [u8],
    at: usize,
) -> Trail
    requires { Inside at (event_size * length (found (zone_in clock.now) (events_in events.now) span.start.0 span.end.0)) out.old }
    ensures { Trails (zone_in clock.now) (events_in events.now) span.start.0 span.end.0 out.old at out.new result }
{
    let mut when = [0u64; MOST_KEPT_EVENTS];
    let mut which = [0u32; MOST_KEPT_EVENTS];
    match collect(clock, events, span, &mut when, &mut which) {
        Some(n) if n <= MOST_KEPT_EVENTS => Trail {
            behind: put_kept(events.book, &when, &which, n, out, at),
            count: n,
        },
        _ => put_sought(clock, events, span, out, at),
    }
}

// The events of a span, one after the other, from `at` on. A book without events is answered where it is asked: this is small enough to
// stand in its caller.
pub fn put_events(
    clock: &Clock<'_>,
    events: &Events<'_>,
    span: Interval,
    out: &mut [u8],
    at: usize,
) -> Trail
    requires { Inside at (event_size * length (found (zone_in clock.now) (events_in events.now) span.start.0 span.end.0)) out.old }
    ensures { Trails (zone_in clock.now) (events_in events.now) span.start.0 span.end.0 out.old at out.new result }
{
    if events.places.len() == 0 {
        return Trail {
            behind: at,
            count: 0,
        };
    }
    put_some(clock, events, span, out, at)
}
