// The second pass over a walk: it takes the same steps as the first, joins alike, and writes. A span that joins the one before amends its record.
ghost use Rattle.std.specs.Prelude.{◌+◌, ◌^◌, ◌<◌, ◌≡◌, length};
ghost use Rattle.wire.specs.Fields.{Inside, Put, wrote};
ghost use Rattle.zone.specs.Clocks.{zone_in};
ghost use Rattle.walk.specs.Walking.{PieceFits};
ghost use Rattle.answer.specs.Forms.{phase, encode, encode_all};
ghost use Rattle.answer.specs.Meaning.{phase_of};
ghost use Rattle.day.specs.Venues.{values_in};
ghost use Rattle.walk_records.specs.Walked.{walk_forms};
ghost use Rattle.walk_records.specs.Private.{piece_head, shows, joined_record, events_place, events_before, told, Recorded};

use answer::{PHASE_SIZE, Phase, amend_phase, begin_phase};
use day::{DaySegment, NEAR_RULES_LENGTH};
use joining::{Last, is_joinable, merged};
use span_records::{phase_of, put_events};
use venue::{Rule, Venue};
use walk::{
    MOST_BOUNDARIES, MOST_TURNS, Piece, after_piece, begin, next_piece, next_turn, segment,
};
use zone::{Boundary, Clock, Instant, Interval, widest};

// The record of a piece, with so many events behind it. Where the piece is clear its uncertainties are the rule's, all three.
fn head_of(book: &[u8], clock: &Clock<'_>, q: Piece, events: u32) -> Phase
    requires { PieceFits book.now (zone_in clock.now) q }
    ensures { result ≡ piece_head book.now (zone_in clock.now) q events }
{
    let shown = Interval {
        start: q.from,
        end: q.to,
    };
    if q.clear {
        let rule = Rule { book, at: q.rule };
        let published = rule.uncertainty();
        let g = DaySegment {
            start: Boundary {
                at: q.start,
                uncertainty: published,
            },
            end: Boundary {
                at: q.end,
                uncertainty: published,
            },
            phase: rule.point_phase(q.point),
            rule: q.rule,
        };
        return phase_of(book, g, published, shown, events);
    }
    let g = segment(book, clock, q);
    let whole = widest(g.start.uncertainty, g.end.uncertainty);
    phase_of(book, g, whole, shown, events)
}

// A record as it was written: what it says, and where it stands.
#[derive(Clone, Copy)]
struct Written {
    head: Phase,
    stand: usize,
}

// What the last record shows, if there is one.
fn last_of(last: Option<Written>) -> Option<Last>
    ensures { result ≡ shows last }
{
    let head = last?.head;
    Some(Last {
        until: head.end,
        phase: head.phase,
        evidence: head.evidence,
    })
}

// The last record, if a span from `from` on joins it.
fn joined_record(last: Option<Written>, from: Instant, phase: u8, evidence: u16) -> Option<Written>
    ensures { result ≡ joined_record last from.0 phase evidence }
{
    if is_joinable(last_of(last), from, phase, evidence) {
        last
    } else {
        None
    }
}

// Where a span's events go: behind those of the record that it joins, or behind a record of its own.
fn events_place(joined: Option<Written>, place: usize) -> usize
    requires { events_place joined place < 2 ^ 64 }
    ensures { result ≡ events_place joined place }
{
    match joined {
        Some(_) => place,
        None => place + PHASE_SIZE,
    }
}

// The record behind a span: the one that it joins, with what the span adds, or the span's own, which stands at `place`.
fn told(joined: Option<Written>, own: Phase, place: usize) -> Written
    requires { events_before joined + own.events < 2 ^ 32 }
    ensures { result ≡ told joined own place }
{
    match joined {
        Some(before) => Written {
            head: merged(before.head, own),
            stand: before.stand,
        },
        None => Written {
            head: own,
            stand: place,
        },
    }
}

// Writes the record: where a span has joined it, only what that alters.
fn put_record(out: &mut [u8], joined: Option<Written>, new: Written)
    requires { Recorded out.old joined new }
    ensures { out.new ≡ wrote out.old new.stand (encode (phase (phase_of new.head))) }
{
    if joined.is_none() {
        begin_phase(out, new.stand, new.head);
    }
    amend_phase(out, new.stand, new.head);
}

// Writes the walk over an interval, from `at` on. Answers the place behind it.
pub fn put_walk(venue: &Venue<'_>, window: Interval, out: &mut [u8], at: usize) -> usize
    requires { Inside at (length (encode_all (walk_forms (values_in venue.now) window.start.0 window.end.0))) out.old }
    ensures { Put out.old at
        (encode_all (walk_forms (values_in venue.now) window.start.0 window.end.0))
        (length (encode_all (walk_forms (values_in venue.now) window.start.0 window.end.0)))
        out.new result }
{
    let book = venue.rules.book;
    let hi = window.end;
    let mut kept = [0u32; NEAR_RULES_LENGTH];
    let mut edges = [0u64; MOST_BOUNDARIES];
    let opening = begin(venue, &mut kept, &mut edges, MOST_TURNS - 1, window.start);
    // A copy, whose fields the loop can hold in registers: the place that `begin` fills stays in memory.
    let mut w = opening;
    let mut last: Option<Written> = None;
    let mut place = at;
    'pieces: loop {
        match next_piece(book, &edges, hi, w) {
            Some(q) => {
                let span = Interval {
                    start: q.start,
                    end: q.end,
                };
                let rule = Rule { book, at: q.rule };
                let joined = joined_record(
                    last,
                    q.from,
                    rule.point_phase(q.point),
                    rule.evidence(),
                );
                let front = events_place(joined, place);
                let trail = put_events(&venue.clock, &venue.events, span, out, front);
                let own = head_of(book, &venue.clock, q, trail.count as u32);
                let new = told(joined, own, place);
                put_record(out, joined, new);
                last = Some(new);
                place = trail.behind;
                w = after_piece(q);
            }
            None => match next_turn(venue, &mut kept, &mut edges, hi, w) {
                None => break 'pieces,
                Some(next) => {
                    w = next;
                }
            },
        }
    }
    place
}
