// The kinds of records, and where their fields stand, counted from a record's first byte: each behind the one before it.
// Kinds are numbers: a book may hold any u16 for one, and the functions below take every one.
ghost use Rattle.std.specs.Prelude.{◌≡◌, ◌≤◌};
ghost use Rattle.records.specs.Layout.{rule_kind, is_rule, is_dated, tag, count, time, step};

pub const COVERAGE: u16 = 1;

pub const TRANSITION: u16 = 2;

pub const RULE: u16 = 3;

pub const EVENT: u16 = 4;

// Every record: its length, which counts what follows it, and its kind.
pub const KIND: usize = 2;

pub const HEAD: usize = KIND + 2;

pub const COVERAGE_START: usize = HEAD;

pub const COVERAGE_END: usize = COVERAGE_START + 8;

pub const COVERAGE_OFFSET: usize = COVERAGE_END + 8;

pub const COVERAGE_SIZE: usize = COVERAGE_OFFSET + 4;

pub const TRANSITION_INSTANT: usize = HEAD;

pub const TRANSITION_OFFSET: usize = TRANSITION_INSTANT + 8;

pub const TRANSITION_SIZE: usize = TRANSITION_OFFSET + 4;

// Rules and events.
pub const DAY_FIRST: usize = HEAD;

pub const DAY_LAST: usize = DAY_FIRST + 4;

pub const RULE_CODE: usize = DAY_LAST + 4;

pub const RULE_MASK: usize = RULE_CODE + 1;

pub const RULE_LABEL: usize = RULE_MASK + 1;

pub const RULE_EVIDENCE: usize = RULE_LABEL + 2;

pub const RULE_DERIVED: usize = RULE_EVIDENCE + 2;

const RULE_TAG: usize = RULE_DERIVED + 2;

pub const EVENT_CODE: usize = DAY_LAST + 4;

pub const EVENT_EVIDENCE: usize = EVENT_CODE + 2;

const EVENT_TAG: usize = EVENT_EVIDENCE + 2;

// The uncertainty's other fields and the number n of points or times, counted from its tag; and the first of the n.
pub const NANOSECONDS: usize = 1;

pub const TEXT: usize = NANOSECONDS + 8;

const COUNT: usize = TEXT + 2;

const TIME: usize = COUNT + 1;

// A point has its phase behind its time.
pub const PHASE: usize = 8;

pub const POINT_SIZE: usize = PHASE + 1;

pub const TIME_SIZE: usize = 8;

pub fn is_rule(kind: u16) -> bool
    ensures { result ≡ is_rule kind }
{
    kind == RULE
}

// Whether a record has days, an uncertainty and n points or times.
pub fn is_dated(kind: u16) -> bool
    ensures { result ≡ is_dated kind }
{
    is_rule(kind) | (kind == EVENT)
}

// The uncertainty: tag, nanoseconds, text.
pub fn tag_place(kind: u16) -> usize
    ensures { (result ≡ (tag kind).from) × (result ≤ (tag rule_kind).from) }
{
    if is_rule(kind) { RULE_TAG } else { EVENT_TAG }
}

// The number n of points or times.
pub fn count_place(kind: u16) -> usize
    ensures { (result ≡ (count kind).from) × (result ≤ (count rule_kind).from) }
{
    tag_place(kind) + COUNT
}

// The first of them.
pub fn time_place(kind: u16) -> usize
    ensures { (result ≡ (time kind).from) × (result ≤ (time rule_kind).from) }
{
    tag_place(kind) + TIME
}

// From one to the next.
pub fn step_of(kind: u16) -> usize
    ensures { (result ≡ step kind) × (result ≤ step rule_kind) }
{
    if is_rule(kind) { POINT_SIZE } else { TIME_SIZE }
}
