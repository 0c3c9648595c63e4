// The answer's length is known before its first byte is written.
ghost use Rattle.std.specs.Prelude.{◌<◌};
ghost use Rattle.answer.specs.Forms.{encode_all};
ghost use Rattle.day.specs.Venues.{values_in};
ghost use Rattle.lend.specs.Lending.{Lent};
ghost use Rattle.lend.specs.Refusals.{reply_of};
ghost use Rattle.tally.specs.Tallying.{tally_number, tally_answer, too_long};
ghost use Rattle.tally_rows.specs.OpenRows.{raw_forms};
ghost use Rattle.tally.specs.Private.{raw_blank, raw_of};

use crate::pass::{put_blank, put_tallies};
use book_query::judged_window;
use lend::Refusal;
use tally_rows::tally_size;
use venue::{Room, Venue};
use zone::{DAY_NS, Interval};

// 400 days.
const MOST_TALLY_NS: u64 = 400 * DAY_NS;

// A venue without data.
fn tell_blank(window: Interval, out: &mut [u8]) -> Result<usize, Refusal>
    requires { window.start.0 < window.end.0 }
    ensures { Lent (too_long window.start.0 window.end.0)
        (encode_all (raw_forms (raw_blank window.start.0 window.end.0) window.start.0 window.end.0))
        out.old out.new (reply_of result) }
{
    if MOST_TALLY_NS < window.end.0 - window.start.0 {
        return Err(Refusal::TallyTooLong);
    }
    if out.len() < tally_size(window) {
        return Err(Refusal::NoRoom);
    }
    Ok(put_blank(window, out))
}

// Of a venue.
fn tell_tally(venue: &Venue<'_>, window: Interval, out: &mut [u8]) -> Result<usize, Refusal>
    requires { window.start.0 < window.end.0 }
    ensures { Lent (too_long window.start.0 window.end.0)
        (encode_all (raw_forms (raw_of (values_in venue.now) window.start.0 window.end.0) window.start.0 window.end.0))
        out.old out.new (reply_of result) }
{
    if MOST_TALLY_NS < window.end.0 - window.start.0 {
        return Err(Refusal::TallyTooLong);
    }
    if out.len() < tally_size(window) {
        return Err(Refusal::NoRoom);
    }
    Ok(put_tallies(venue, window, out))
}

// The answer to a tally query: any book, any window, any room.
pub fn tally_answer(book: &[u8], start: i64, end: i64, out: &mut [u8]) -> Result<usize, Refusal>
    ensures { Lent (tally_number book.now start end) (tally_answer book.now start end) out.old out.new (reply_of result) }
{
    let mut room = Room::new();
    let (header, window) = judged_window(room.open(book), start, end)?;
    match header {
        None => tell_blank(window, out),
        Some(h) => tell_tally(&room.venue(book, h), window, out),
    }
}
