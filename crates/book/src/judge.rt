// The tests of one record, each for a line of document 01's table of numbers.
ghost use Rattle.std.specs.Prelude.{◌+◌, ◌≤◌, ◌<◌, ◌≡◌, ◌||◌, ltb, leb, length};
ghost use Rattle.std.specs.Ordering.{partial_lt};
ghost use Rattle.std.specs.Int.{w32, w64};
ghost use Rattle.wire.specs.Fields.{Inside, field};
ghost use Rattle.wire.specs.Signs.{turned};
ghost use Rattle.records.specs.Layout.{number, integer, count, time, step, transition_instant, day_first, day_last, rule_code, rule_kind, event_kind, coverage_size, transition_size};
ghost use Rattle.records.specs.Limits.{base};
ghost use Rattle.records.specs.Records.{coverage, transition, rule, event, record_at, coverage_at, transition_at, rule_at, event_at, published_at};
ghost use Rattle.records.specs.Book.{kind_at, bad_frame, bad_fields, bad_uncertainty, bad_days, most, late_start, reversed, covers_nothing};
ghost use Rattle.records.specs.Frame.{Framed, items_at};
ghost use Rattle.book.specs.Private.{Room, bad_item, seen, one_more};

use records::*;
use wire::{Field, Placed};
use zone::{DAY_NS, SPACING};

// The records seen so far: how many of each kind, and the earliest second that the next transition may have, placed.
#[derive(Clone, Copy)]
pub(crate) struct Seen {
    pub coverages: u32,
    pub transitions: u32,
    pub rules: u32,
    pub events: u32,
    pub least: u64,
}

// Whether the number of a two's-complement field, of 4 bytes or of 8, lies outside a range of such numbers.
fn outside<T: PartialOrd + Copy>(x: Placed<T>, low: T, high: T) -> bool
    ensures { result ≡ (partial_lt T.partial_cmp x.0 low || partial_lt T.partial_cmp high x.0) }
{
    (x.0 < low) | (high < x.0)
}

// A byte, 0 past the end.
fn byte_or_0(book: &[u8], p: usize) -> u8
    ensures { result ≡ field 1 book.now p }
{
    if p < book.len() { u8::get(book, p) } else { 0 }
}

// 2: a length that is wrong or runs past the end, an unknown kind.
pub(crate) fn bad_frame(book: &[u8], at: usize) -> bool
    requires { (at ≤ length book.now) × (length book.now ≤ base.bytes) }
    ensures { result ≡ bad_frame book.now at }
{
    if book.len() < at + HEAD {
        return true;
    }
    let size = u16::get(book, at) as usize;
    if book.len() < at + 2 + size {
        return true;
    }
    let kind = u16::get(book, at + KIND);
    match kind {
        COVERAGE => 2 + size != COVERAGE_SIZE,
        TRANSITION => 2 + size != TRANSITION_SIZE,
        RULE => {
            let n = byte_or_0(book, at + count_place(RULE)) as usize;
            2 + size != time_place(RULE) + POINT_SIZE * n
        }
        EVENT => {
            let n = byte_or_0(book, at + count_place(EVENT)) as usize;
            2 + size != time_place(EVENT) + TIME_SIZE * n
        }
        _ => true,
    }
}

// 3: too many of a kind.
pub(crate) fn too_many(kind: u16, t: Seen) -> bool
    ensures { result ≡ leb (most base kind) (seen kind t) }
{
    match kind {
        COVERAGE => 1 <= t.coverages,
        TRANSITION => (MOST_TRANSITIONS as u32) <= t.transitions,
        RULE => (MOST_RULES as u32) <= t.rules,
        _ => (MOST_EVENTS as u32) <= t.events,
    }
}

// 4: a field outside its range. The tests of a kind.
fn bad_coverage(book: &[u8], at: usize) -> bool
    requires { Inside at coverage_size book.now }
    ensures { result ≡ bad_fields base (coverage (coverage_at book.now at)) }
{
    let start = Placed::<u64>::get(book, at + COVERAGE_START);
    let end = Placed::<u64>::get(book, at + COVERAGE_END);
    let offset = Placed::<u32>::get(book, at + COVERAGE_OFFSET);
    outside(start, INSTANTS_LOW, INSTANTS_HIGH)
        | outside(end, INSTANTS_LOW, INSTANTS_HIGH)
        | outside(offset, OFFSETS_LOW, OFFSETS_HIGH)
}

fn bad_transition(book: &[u8], at: usize) -> bool
    requires { Inside at transition_size book.now }
    ensures { result ≡ bad_fields base (transition (transition_at book.now at)) }
{
    let instant = Placed::<u64>::get(book, at + TRANSITION_INSTANT);
    let offset = Placed::<u32>::get(book, at + TRANSITION_OFFSET);
    outside(instant, SECONDS_LOW, SECONDS_HIGH) | outside(offset, OFFSETS_LOW, OFFSETS_HIGH)
}

fn bad_days(book: &[u8], at: usize) -> bool
    requires { Inside at rule_code.from book.now }
    ensures { result ≡ bad_days (integer w32 day_first book.now at) (integer w32 day_last book.now at) }
{
    let first = Placed::<u32>::get(book, at + DAY_FIRST);
    let last = Placed::<u32>::get(book, at + DAY_LAST);
    outside(first, DAYS_LOW, DAYS_HIGH) | outside(last, DAYS_LOW, DAYS_HIGH)
}

fn bad_uncertainty(book: &[u8], at: usize, kind: u16) -> bool
    requires { Inside at (count kind).from book.now }
    ensures { result ≡ bad_uncertainty (published_at kind book.now at) }
{
    let p = at + tag_place(kind);
    let tag = u8::get(book, p);
    let nanoseconds = Placed::<u64>::get(book, p + NANOSECONDS);
    let text = u16::get(book, p + TEXT);
    ((LAST_PUBLISHED < tag) | outside(nanoseconds, WIDTHS_LOW, WIDTHS_HIGH))
        | ((((tag == 0) | (tag == 3)) & (WIDTHS_LOW < nanoseconds.0)) | ((tag < 2) & (text != 0)))
}

fn bad_rule(book: &[u8], at: usize) -> bool
    requires { Inside at (time rule_kind).from book.now }
    ensures { result ≡ bad_fields base (rule (rule_at book.now at)) }
{
    let code = u8::get(book, at + RULE_CODE);
    let mask = u8::get(book, at + RULE_MASK);
    let label = u16::get(book, at + RULE_LABEL);
    let n = u8::get(book, at + count_place(RULE));
    (bad_days(book, at) | (LAST_CODE < code) | (LAST_MASK < mask))
        | (((code == 0) & (label != 0))
            | (!(code == 0) & (mask != 0))
            | bad_uncertainty(book, at, RULE))
        | (MOST_POINTS < n)
}

fn bad_event(book: &[u8], at: usize) -> bool
    requires { Inside at (time event_kind).from book.now }
    ensures { result ≡ bad_fields base (event (event_at book.now at)) }
{
    let n = u8::get(book, at + count_place(EVENT));
    bad_days(book, at) | bad_uncertainty(book, at, EVENT) | (MOST_TIMES < n)
}

pub(crate) fn bad_fields(book: &[u8], at: usize, kind: u16) -> bool
    requires { Framed book.now at × (kind ≡ kind_at book.now at) }
    ensures { result ≡ bad_fields base (record_at book.now at) }
{
    match kind {
        COVERAGE => bad_coverage(book, at),
        TRANSITION => bad_transition(book, at),
        RULE => bad_rule(book, at),
        _ => bad_event(book, at),
    }
}

// How many points or times the record has.
pub(crate) fn items(book: &[u8], at: usize, kind: u16) -> u8
    requires { Framed book.now at × (kind ≡ kind_at book.now at) }
    ensures { result ≡ items_at book.now at }
{
    if !is_dated(kind) {
        return 0;
    }
    u8::get(book, at + count_place(kind))
}

// A point or a time, read from `at` on: its time, and 4.
pub(crate) fn item_time(book: &[u8], at: usize, kind: u16) -> u64
    requires { Inside at ((time kind).from + 8) book.now }
    ensures { result ≡ number (time kind) book.now at }
{
    u64::get(book, at + time_place(kind))
}

pub(crate) fn bad_item(book: &[u8], at: usize, kind: u16) -> bool
    requires { Inside at ((time kind).from + step kind) book.now }
    ensures { result ≡ bad_item book.now kind at }
{
    let time = item_time(book, at, kind);
    if !is_rule(kind) {
        return DAY_NS <= time;
    }
    (DAY_NS <= time) | (LAST_PHASE < u8::get(book, at + time_place(kind) + PHASE))
}

// 5: a rule's first point not 00:00, or no point.
pub(crate) fn late_start(book: &[u8], at: usize, kind: u16) -> bool
    requires { Framed book.now at × (kind ≡ kind_at book.now at) }
    ensures { result ≡ late_start (record_at book.now at) }
{
    if !is_rule(kind) {
        return false;
    }
    if items(book, at, kind) == 0 {
        return true;
    }
    item_time(book, at, kind) != 0
}

// 7: last day before first.
pub(crate) fn is_reversed(book: &[u8], at: usize, kind: u16) -> bool
    requires { Framed book.now at × (kind ≡ kind_at book.now at) }
    ensures { result ≡ reversed (record_at book.now at) }
{
    if !is_dated(kind) {
        return false;
    }
    Placed::<u32>::get(book, at + DAY_LAST).0 < Placed::<u32>::get(book, at + DAY_FIRST).0
}

// 8: coverage end not after start.
pub(crate) fn covers_nothing(book: &[u8], at: usize, kind: u16) -> bool
    requires { Framed book.now at × (kind ≡ kind_at book.now at) }
    ensures { result ≡ covers_nothing (record_at book.now at) }
{
    if kind != COVERAGE {
        return false;
    }
    Placed::<u64>::get(book, at + COVERAGE_END).0 <= Placed::<u64>::get(book, at + COVERAGE_START).0
}

// 9: a transition before the earliest second that it may have.
pub(crate) fn too_close(book: &[u8], at: usize, least: u64) -> bool
    requires { Inside at transition_size book.now }
    ensures { result ≡ ltb (turned w64 (number transition_instant book.now at)) least }
{
    Placed::<u64>::get(book, at + TRANSITION_INSTANT).0 < least
}

// One more record seen.
pub(crate) fn one_more(t: Seen, book: &[u8], at: usize, kind: u16) -> Seen
    requires { Framed book.now at × (kind ≡ kind_at book.now at) × Room book.now at t }
    ensures { result ≡ one_more book.now at t }
{
    match kind {
        COVERAGE => Seen {
            coverages: t.coverages + 1,
            ..t
        },
        TRANSITION => Seen {
            transitions: t.transitions + 1,
            least: Placed::<u64>::get(book, at + TRANSITION_INSTANT).0 + SPACING,
            ..t
        },
        RULE => Seen {
            rules: t.rules + 1,
            ..t
        },
        _ => Seen {
            events: t.events + 1,
            ..t
        },
    }
}
