// The lines of the text. Each function writes from `at` on and answers the place behind what it wrote.
ghost use Rattle.std.specs.Prelude.{◌*◌, ◌≡◌, true, length};
ghost use Rattle.wire.specs.Fields.{Inside};
ghost use Rattle.spans.specs.Spans.{phase, unknown};
ghost use Rattle.rows.specs.Rows.{good_row, segments, events_from};
ghost use Rattle.rows.specs.Telling.{mark_of, span_of};
ghost use Rattle.answer.specs.Forms.{event_size};
ghost use Rattle.listing.specs.Listing.{head_line, segment_line, event_line, event_lines, segment_lines, all_lines};
ghost use Rattle.listing.specs.Private.{TextFits, Puts};

use crate::text::{put_byte, put_instant, put_number, put_word};
use rows::{RowSegment, Shows, end_of, read_event, read_segment};
use wire::Placed;

pub(crate) fn put_head(out: &mut [u8], at: usize, number: u32, count: usize) -> usize
    requires { TextFits at (head_line number count) out.old }
    ensures { Puts out.old at (head_line number count) out.new result }
{
    let a = put_word(out, at, b"timeline");
    let b = put_number(out, a, number as u64);
    let c = put_number(out, b, count as u64);
    put_byte(out, c, b'\n')
}

fn put_phase(
    out: &mut [u8],
    at: usize,
    from: Placed<u64>,
    to: Placed<u64>,
    p: u8,
    evidence: u16,
) -> usize
    requires { TextFits at (segment_line from.0 to.0 (phase p evidence)) out.old }
    ensures { Puts out.old at (segment_line from.0 to.0 (phase p evidence)) out.new result }
{
    let a = put_byte(out, at, b'P');
    let b = put_instant(out, a, from);
    let c = put_instant(out, b, to);
    let d = put_number(out, c, p as u64);
    let e = put_number(out, d, evidence as u64);
    put_byte(out, e, b'\n')
}

fn put_unknown(out: &mut [u8], at: usize, from: Placed<u64>, to: Placed<u64>) -> usize
    requires { TextFits at (segment_line from.0 to.0 unknown) out.old }
    ensures { Puts out.old at (segment_line from.0 to.0 unknown) out.new result }
{
    let a = put_byte(out, at, b'U');
    let b = put_instant(out, a, from);
    let c = put_instant(out, b, to);
    put_byte(out, c, b'\n')
}

fn put_event(out: &mut [u8], at: usize, when: Placed<u64>, code: u16) -> usize
    requires { TextFits at (event_line (record { at = when.0; code = code })) out.old }
    ensures { Puts out.old at (event_line (record { at = when.0; code = code })) out.new result }
{
    let a = put_byte(out, at, b'E');
    let b = put_instant(out, a, when);
    let c = put_number(out, b, code as u64);
    put_byte(out, c, b'\n')
}

// The lines of n events, which stand in the answer from `first` on.
fn put_events(answer: &[u8], first: usize, n: u32, out: &mut [u8], at: usize) -> usize
    requires { Inside first (event_size * n) answer.now × TextFits at (event_lines (events_from answer.now first n)) out.old }
    ensures { Puts out.old at (event_lines (events_from answer.now first n)) out.new result }
{
    let mut place = at;
    let mut from = first;
    for _ in 0..n {
        let e = read_event(answer, from);
        place = put_event(out, place, e.at, e.code);
        from = e.behind;
    }
    place
}

fn put_shown(out: &mut [u8], at: usize, from: Placed<u64>, to: Placed<u64>, shows: Shows) -> usize
    requires { TextFits at (segment_line from.0 to.0 (mark_of shows)) out.old }
    ensures { Puts out.old at (segment_line from.0 to.0 (mark_of shows)) out.new result }
{
    match shows {
        Shows::Phase(phase, evidence) => put_phase(out, at, from, to, phase, evidence),
        Shows::Unknown => put_unknown(out, at, from, to),
    }
}

// A segment of the answer, and its events below it.
fn put_segment(answer: &[u8], g: RowSegment, out: &mut [u8], at: usize) -> usize
    requires { Inside g.behind (event_size * g.events) answer.now × TextFits at (segment_lines (span_of answer.now g)) out.old }
    ensures { Puts out.old at (segment_lines (span_of answer.now g)) out.new result }
{
    let next = put_shown(out, at, g.from, g.to, g.shows);
    put_events(answer, g.behind, g.events, out, next)
}

// How many segments a row has.
pub(crate) fn count(answer: &[u8]) -> usize
    requires { good_row answer.now ≡ true }
    ensures { result ≡ length (segments answer.now) }
{
    let mut at: usize = 0;
    let mut seen: usize = 0;
    // A segment says where the next one begins.
    while at != answer.len() {
        let g = read_segment(answer, at);
        seen += 1;
        at = end_of(g);
    }
    seen
}

// The lines of all segments of a row.
pub(crate) fn put_all(answer: &[u8], out: &mut [u8], at: usize) -> usize
    requires { (good_row answer.now ≡ true) × TextFits at (all_lines (segments answer.now)) out.old }
    ensures { Puts out.old at (all_lines (segments answer.now)) out.new result }
{
    let mut from: usize = 0;
    let mut place = at;
    // A segment says where the next one begins.
    while from != answer.len() {
        let g = read_segment(answer, from);
        place = put_segment(answer, g, out, place);
        from = end_of(g);
    }
    place
}
