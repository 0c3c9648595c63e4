// One writer for each record. Each answers the place behind what it wrote.
ghost use Rattle.std.specs.Prelude.{◌*◌, ◌++◌, length};
ghost use Rattle.std.specs.Int.{w64};
ghost use Rattle.std.proofs.Common.{of_z};
ghost use Rattle.wire.specs.Fields.{Inside, Put, bytes};
ghost use Rattle.zone.specs.Units.{instant_number};
ghost use Rattle.zone.specs.Answers.{uncertainty_bytes};
ghost use Rattle.answer.specs.Forms.{phase, unknown, event, point, encode, phase_size, gap_size, event_size, missing_size, row_size, to_place, ends_size, uncertainty_size, side_size, cover_size};
ghost use Rattle.answer.specs.Amending.{front, Amends};
ghost use Rattle.answer.specs.Meaning.{phase_of, event_of, cover_bytes, missing_of, gap_of, totals_bytes, totals_of, row_form};

use crate::fields::*;
use crate::{Phase, RowKind};
use wire::Field;
use zone::{Boundary, Instant, Interval, Uncertainty, number_bits};

fn put_instant(out: &mut [u8], at: usize, t: Instant) -> usize
    requires { Inside at 8 out.old }
    ensures { Put out.old at (bytes 8 (of_z w64 (instant_number t.0))) 8 out.new result }
{
    number_bits(t).put(out, at)
}

fn put_interval(out: &mut [u8], at: usize, i: Interval) -> usize
    requires { Inside at ends_size out.old }
    ensures { Put out.old at
        (bytes 8 (of_z w64 (instant_number i.start.0)) ++ bytes 8 (of_z w64 (instant_number i.end.0))) ends_size out.new result }
{
    let a = put_instant(out, at, i.start);
    put_instant(out, a, i.end)
}

// The tag, two numbers and text of an uncertainty.
#[derive(Clone, Copy)]
struct Parts {
    tag: u8,
    one: u64,
    two: u64,
    text: u16,
}

impl From<Uncertainty> for Parts {
    ghost use Rattle.std.specs.Prelude.{◌≡◌};
    ghost use Rattle.std.specs.Int.{w64};
    ghost use Rattle.std.proofs.Common.{of_z};
    ghost use Rattle.zone.specs.Answers.{values};

    ghost from_gives = { λ u p. (p.tag ≡ (values u).tag)
        × (p.one ≡ of_z w64 (values u).one)
        × (p.two ≡ of_z w64 (values u).two)
        × (p.text ≡ (values u).text) };

    fn from(u: Uncertainty) -> Parts {
        let exact = Parts {
            tag: 0,
            one: 0,
            two: 0,
            text: 0,
        };
        match u {
            Uncertainty::Exact => exact,
            Uncertainty::PublishedGranularity(n) => Parts {
                tag: 1,
                one: n,
                ..exact
            },
            Uncertainty::PublishedBound(n, text) => Parts {
                tag: 2,
                one: n,
                text,
                ..exact
            },
            Uncertainty::ProcessStart(text) => Parts {
                tag: 3,
                text,
                ..exact
            },
            Uncertainty::AmbiguousLocalTime(d) => Parts {
                tag: 4,
                one: number_bits(d.before),
                two: number_bits(d.after),
                text: 0,
            },
            Uncertainty::NonexistentLocalTime(d) => Parts {
                tag: 5,
                one: number_bits(d.before),
                two: number_bits(d.after),
                text: 0,
            },
        }
    }
}

fn put_uncertainty(out: &mut [u8], at: usize, u: Uncertainty) -> usize
    requires { Inside at uncertainty_size out.old }
    ensures { Put out.old at (uncertainty_bytes u) uncertainty_size out.new result }
{
    let p = Parts::from(u);
    let a = p.tag.put(out, at);
    let b = p.one.put(out, a);
    let c = p.two.put(out, b);
    p.text.put(out, c)
}

fn put_boundary(out: &mut [u8], at: usize, b: Boundary) -> usize
    requires { Inside at side_size out.old }
    ensures { Put out.old at (bytes 8 (of_z w64 (instant_number b.at.0)) ++ uncertainty_bytes b.uncertainty) side_size out.new result }
{
    let a = put_instant(out, at, b.at);
    put_uncertainty(out, a, b.uncertainty)
}

fn put_head(out: &mut [u8], at: usize, length: u16, kind: u16) -> usize
    requires { Inside at 4 out.old }
    ensures { Put out.old at (bytes 2 length ++ bytes 2 kind) 4 out.new result }
{
    let a = length.put(out, at);
    kind.put(out, a)
}

// A rule's numbers: a point's phase, the rule's code, label, evidence and derived.
fn put_rule(out: &mut [u8], at: usize, p: Phase) -> usize
    requires { Inside at 8 out.old }
    ensures { Put out.old at
        (bytes 1 p.phase ++ (bytes 1 p.code ++ (bytes 2 p.label ++ (bytes 2 p.evidence ++ bytes 2 p.derived)))) 8 out.new result }
{
    let a = p.phase.put(out, at);
    let b = p.code.put(out, a);
    let c = p.label.put(out, b);
    let d = p.evidence.put(out, c);
    p.derived.put(out, d)
}

// Kind 16 up to its second boundary: its head, its ends, its rule's numbers and its first boundary.
pub fn begin_phase(out: &mut [u8], at: usize, p: Phase) -> usize
    requires { Inside at to_place.from out.old }
    ensures { Put out.old at (front (phase_of p)) to_place.from out.new result }
{
    let a = put_head(out, at, PHASE_LENGTH, PHASE_KIND);
    let b = put_interval(
        out,
        a,
        Interval {
            start: p.start,
            end: p.end,
        },
    );
    let c = put_rule(out, b, p);
    put_boundary(out, c, p.from)
}

// Kind 16 where it stands up to its second boundary, but for its end: what a span alters that joins it, its end, its second boundary, its whole
// uncertainty and its events.
pub fn amend_phase(out: &mut [u8], at: usize, p: Phase) -> usize
    requires { Amends out.old at p }
    ensures { Put out.old at (encode (phase (phase_of p))) phase_size out.new result }
{
    put_instant(out, at + END, p.end);
    let a = put_boundary(out, at + TO, p.to);
    let b = put_uncertainty(out, a, p.whole);
    p.events.put(out, b)
}

// Kind 16.
pub fn put_phase(out: &mut [u8], at: usize, p: Phase) -> usize
    requires { Inside at phase_size out.old }
    ensures { Put out.old at (encode (phase (phase_of p))) phase_size out.new result }
{
    begin_phase(out, at, p);
    amend_phase(out, at, p)
}

// Kind 18.
pub fn put_event(out: &mut [u8], at: usize, code: u16, b: Boundary, evidence: u16) -> usize
    requires { Inside at event_size out.old }
    ensures { Put out.old at (encode (event (event_of code b evidence))) event_size out.new result }
{
    let c = put_head(out, at, EVENT_LENGTH, EVENT_KIND);
    let d = code.put(out, c);
    let e = put_boundary(out, d, b);
    evidence.put(out, e)
}

// Whether there is coverage, and from when to when.
fn put_cover(out: &mut [u8], at: usize, c: Option<Interval>) -> usize
    requires { Inside at cover_size out.old }
    ensures { Put out.old at (cover_bytes c) cover_size out.new result }
{
    match c {
        None => {
            let a = 0u8.put(out, at);
            let b = 0u64.put(out, a);
            0u64.put(out, b)
        }
        Some(covered) => {
            let a = 1u8.put(out, at);
            put_interval(out, a, covered)
        }
    }
}

// Kind 17.
pub fn put_gap(out: &mut [u8], at: usize, gap: Interval, c: Option<Interval>) -> usize
    requires { Inside at gap_size out.old }
    ensures { Put out.old at (encode (unknown (gap_of gap.start.0 gap.end.0 c))) gap_size out.new result }
{
    let a = put_head(out, at, GAP_LENGTH, GAP_KIND);
    let b = put_interval(out, a, gap);
    put_cover(out, b, c)
}

// Kind 19.
pub fn put_missing(out: &mut [u8], at: usize, t: Instant, c: Option<Interval>) -> usize
    requires { Inside at missing_size out.old }
    ensures { Put out.old at (encode (point (missing_of t.0 c))) missing_size out.new result }
{
    let a = put_head(out, at, MISSING_LENGTH, MISSING_KIND);
    let b = put_instant(out, a, t);
    put_cover(out, b, c)
}

// Totals one behind the other.
fn put_each(out: &mut [u8], at: usize, totals: &[u64]) -> usize
    requires { Inside at (8 * length totals.now) out.old }
    ensures { Put out.old at (totals_bytes totals.now) (8 * length totals.now) out.new result }
{
    let mut place = at;
    for total in totals {
        place = total.put(out, place);
    }
    place
}

// Kind 22 or 23: a row's edges and its totals.
pub fn put_row(
    out: &mut [u8],
    at: usize,
    kind: RowKind,
    row: Interval,
    totals: &[u64; TOTALS],
) -> usize
    requires { Inside at row_size out.old }
    ensures { Put out.old at (encode (row_form kind (totals_of row.start.0 row.end.0 totals.now))) row_size out.new result }
{
    let number = match kind {
        RowKind::Day => DAY_KIND,
        RowKind::Closing => TALLY_KIND,
    };
    let a = put_head(out, at, ROW_LENGTH, number);
    let b = put_interval(out, a, row);
    put_each(out, b, totals)
}
