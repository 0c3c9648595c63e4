// The answer is sized before its first byte is written.
ghost use Rattle.std.specs.Prelude.{◌≤◌, ◌<◌, ◌≡◌, cond, ltb, None, Some};
ghost use Rattle.wire.specs.Fields.{Inside, Put};
ghost use Rattle.answer.specs.Forms.{encode_all, gap_size};
ghost use Rattle.answer.specs.Meaning.{cover_of};
ghost use Rattle.day.specs.Venues.{values_in};
ghost use Rattle.lend.specs.Lending.{Lent};
ghost use Rattle.lend.specs.Refusals.{reply_of};
ghost use Rattle.book_query.specs.Judging.{window_number};
ghost use Rattle.timeline.specs.Asking.{window_answer};
ghost use Rattle.timeline.specs.Private.{gap_forms, told};

use answer::{GAP_SIZE, put_gap};
use book_query::judged_window;
use lend::Refusal;
use venue::{Room, Venue};
use walk_records::{put_walk, walk_size};
use zone::{Instant, Interval};

// How many bytes a stretch takes of which nothing is known.
fn gap_size(gap: Interval) -> usize
    ensures { (result ≡ cond (ltb gap.start.0 gap.end.0) gap_size 0) × (result ≤ gap_size) }
{
    if gap.start.0 < gap.end.0 { GAP_SIZE } else { 0 }
}

// Writes a stretch of which nothing is known, unless it is empty. Answers the place behind it.
fn put_unknown(out: &mut [u8], at: usize, gap: Interval, c: Option<Interval>) -> usize
    requires { Inside at (cond (ltb gap.start.0 gap.end.0) gap_size 0) out.old }
    ensures { Put out.old at (encode_all (gap_forms (cover_of c) gap.start.0 gap.end.0)) (cond (ltb gap.start.0 gap.end.0) gap_size 0) out.new result }
{
    if gap.start.0 < gap.end.0 {
        return put_gap(out, at, gap, c);
    }
    at
}

// A venue without data.
fn tell_empty(window: Interval, out: &mut [u8]) -> Result<usize, Refusal>
    requires { window.start.0 < window.end.0 }
    ensures { Lent 0 (encode_all (gap_forms None window.start.0 window.end.0)) out.old out.new (reply_of result) }
{
    if out.len() < GAP_SIZE {
        return Err(Refusal::NoRoom);
    }
    Ok(put_unknown(out, 0, window, None))
}

// Of a venue.
fn tell_venue(venue: &Venue<'_>, window: Interval, out: &mut [u8]) -> Result<usize, Refusal>
    ensures { Lent 0 (encode_all (told (values_in venue.now) (Some venue.now.coverage) window.start.0 window.end.0))
        out.old out.new (reply_of result) }
{
    let covered = venue.coverage;
    let before = Interval {
        start: window.start,
        end: Instant(window.end.0.min(covered.start.0)),
    };
    let within = Interval {
        start: Instant(window.start.0.max(covered.start.0)),
        end: Instant(window.end.0.min(covered.end.0)),
    };
    let after = Interval {
        start: Instant(window.start.0.max(covered.end.0)),
        end: window.end,
    };
    let length = gap_size(before) + walk_size(venue, within) + gap_size(after);
    if out.len() < length {
        return Err(Refusal::NoRoom);
    }
    let a = put_unknown(out, 0, before, Some(covered));
    let b = put_walk(venue, within, out, a);
    Ok(put_unknown(out, b, after, Some(covered)))
}

// The answer to a window query: any book, any window, any room.
pub fn window_answer(book: &[u8], start: i64, end: i64, out: &mut [u8]) -> Result<usize, Refusal>
    ensures { Lent (window_number book.now start end) (window_answer book.now start end) out.old out.new (reply_of result) }
{
    let mut room = Room::new();
    let (header, window) = judged_window(room.open(book), start, end)?;
    match header {
        None => tell_empty(window, out),
        Some(h) => tell_venue(&room.venue(book, h), window, out),
    }
}
