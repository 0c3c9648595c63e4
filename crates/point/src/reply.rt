// Each answer is sized before its first byte is written.
ghost use Rattle.std.specs.Prelude.{Some};
ghost use Rattle.venue.specs.Reading.{ListedRule};
ghost use Rattle.day.specs.Meaning.{held_by};
ghost use Rattle.day.specs.Venues.{book_in, values_in};
ghost use Rattle.answer.specs.Forms.{point as Forms·point, encode, encode_all};
ghost use Rattle.answer.specs.Meaning.{missing_of};
ghost use Rattle.lend.specs.Lending.{Lent};
ghost use Rattle.lend.specs.Refusals.{reply_of};
ghost use Rattle.point.specs.Asking.{point_number, point_answer, known_forms};
ghost use Rattle.point.specs.Private.{told};

use answer::{EVENT_SIZE, MISSING_SIZE, PHASE_SIZE, put_missing, put_phase};
use day::{DaySegment, resolve_phase};
use events::count_events;
use lend::Refusal;
use query::asked_at;
use span_records::{phase_of, put_events};
use venue::{Room, Venue};
use zone::{Instant, Interval, widest};

fn tell_missing(out: &mut [u8], t: Instant, c: Option<Interval>) -> Result<usize, Refusal>
    ensures { Lent 0 (encode (Forms·point (missing_of t.0 c))) out.old out.new (reply_of result) }
{
    if out.len() < MISSING_SIZE {
        return Err(Refusal::NoRoom);
    }
    Ok(put_missing(out, 0, t, c))
}

fn tell_known(venue: &Venue<'_>, g: DaySegment, out: &mut [u8]) -> Result<usize, Refusal>
    requires { ListedRule (book_in venue.now) g.rule }
    ensures { Lent 0 (encode_all (known_forms (values_in venue.now) (held_by (book_in venue.now) g))) out.old out.new (reply_of result) }
{
    let span = Interval {
        start: g.start.at,
        end: g.end.at,
    };
    let count = count_events(&venue.clock, &venue.events, span);
    if out.len() < PHASE_SIZE + EVENT_SIZE * count {
        return Err(Refusal::NoRoom);
    }
    let whole = widest(g.start.uncertainty, g.end.uncertainty);
    let head = phase_of(venue.rules.book, g, whole, span, count as u32);
    let at = put_phase(out, 0, head);
    let trail = put_events(&venue.clock, &venue.events, span, out, at);
    Ok(trail.behind)
}

// Of a venue.
fn tell_venue(venue: &Venue<'_>, t: Instant, out: &mut [u8]) -> Result<usize, Refusal>
    ensures { Lent 0 (encode_all (told (values_in venue.now) (Some venue.now.coverage) t.0)) out.old out.new (reply_of result) }
{
    match resolve_phase(venue.coverage, &venue.clock, &venue.rules, t) {
        None => tell_missing(out, t, Some(venue.coverage)),
        Some(g) => tell_known(venue, g, out),
    }
}

// The answer to a point query: any book, any instant, any room.
pub fn point_answer(book: &[u8], at: i64, out: &mut [u8]) -> Result<usize, Refusal>
    ensures { Lent (point_number book.now at) (point_answer book.now at) out.old out.new (reply_of result) }
{
    let mut room = Room::new();
    let header = room.open(book)?;
    let t = asked_at(at)?;
    match header {
        None => tell_missing(out, t, None),
        Some(h) => tell_venue(&room.venue(book, h), t, out),
    }
}
