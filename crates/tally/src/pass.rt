// The pass over a window's steps: unknown before coverage, each piece of the walk, unknown after.
ghost use Rattle.std.specs.Prelude.{◌+◌, ◌*◌, ◌<◌, ◌≡◌, length};
ghost use Rattle.wire.specs.Fields.{Inside, Put};
ghost use Rattle.answer.specs.Forms.{encode_all, row_size};
ghost use Rattle.day.specs.Venues.{values_in, dates_in};
ghost use Rattle.tally_rows.specs.Rows.{rows_of};
ghost use Rattle.tally_rows.specs.OpenRows.{raw_forms};
ghost use Rattle.tally.specs.Private.{raw_blank, raw_of, walked, AllComing, AllCounted};

use day::NEAR_RULES_LENGTH;
use tally_rows::{Pages, UNKNOWN};
use venue::{Rule, Venue};
use walk::{MOST_BOUNDARIES, MOST_TURNS, after_piece, begin, next_piece, next_turn};
use zone::{Instant, Interval};

// A venue without data.
pub(crate) fn put_blank(window: Interval, out: &mut [u8]) -> usize
    requires { (window.start.0 < window.end.0) × Inside 0 (row_size * (length (rows_of window.start.0 window.end.0) + 1)) out.old }
    ensures { Put out.old 0 (encode_all (raw_forms (raw_blank window.start.0 window.end.0) window.start.0 window.end.0)) result out.new result }
{
    let mut pages = Pages::new(window);
    pages.stretch(out, window, UNKNOWN);
    pages.finish(out)
}

// Counts the pieces of the walk over an interval.
fn count_walk(venue: &Venue<'_>, over: Interval, pages: &mut Pages, out: &mut [u8])
    requires { AllComing (walked (dates_in venue.now) over.start.0 over.end.0) out.old pages.old.open
        pages.old.window.start.0 pages.old.window.end.0 pages.old.row pages.old.whole }
    ensures { AllCounted (walked (dates_in venue.now) over.start.0 over.end.0)
        out.old pages.old.open pages.old.window.start.0 pages.old.window.end.0
        pages.old.row pages.old.whole out.new pages.new.open pages.new.row pages.new.whole × (pages.new.window ≡ pages.old.window) }
{
    let book = venue.rules.book;
    let hi = over.end;
    let mut kept = [0u32; NEAR_RULES_LENGTH];
    let mut edges = [0u64; MOST_BOUNDARIES];
    let opening = begin(venue, &mut kept, &mut edges, MOST_TURNS - 1, over.start);
    // A copy, whose fields the loop can hold in registers: the place that `begin` fills stays in memory.
    let mut w = opening;
    'pieces: loop {
        match next_piece(book, &edges, hi, w) {
            Some(q) => {
                let shown = Interval {
                    start: q.from,
                    end: q.to,
                };
                let rule = Rule { book, at: q.rule };
                pages.stretch(out, shown, rule.point_phase(q.point) as usize);
                w = after_piece(q);
            }
            None => match next_turn(venue, &mut kept, &mut edges, hi, w) {
                None => break 'pieces,
                Some(next) => {
                    w = next;
                }
            },
        }
    }
}

// Of a venue.
pub(crate) fn put_tallies(venue: &Venue<'_>, window: Interval, out: &mut [u8]) -> usize
    requires { (window.start.0 < window.end.0) × Inside 0 (row_size * (length (rows_of window.start.0 window.end.0) + 1)) out.old }
    ensures { Put out.old 0
        (encode_all (raw_forms (raw_of (values_in venue.now) window.start.0 window.end.0) window.start.0 window.end.0))
        result out.new result }
{
    let covered = venue.coverage;
    let before = Interval {
        start: window.start,
        end: Instant(window.end.0.min(covered.start.0)),
    };
    let within = Interval {
        start: Instant(window.start.0.max(covered.start.0)),
        end: Instant(window.end.0.min(covered.end.0)),
    };
    let after = Interval {
        start: Instant(window.start.0.max(covered.end.0)),
        end: window.end,
    };
    let mut pages = Pages::new(window);
    pages.stretch(out, before, UNKNOWN);
    count_walk(venue, within, &mut pages, out);
    pages.stretch(out, after, UNKNOWN);
    pages.finish(out)
}
