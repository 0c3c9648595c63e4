// Compares the zone crate with outside readings, and prints how many it met of each kind and how many differed. tools/vectors.py makes
// the list and says how.
#![tactic(auto)]

ghost use Rattle.std.specs.Prelude.{◌≤◌, ◌<◌, length};

use calendar::Day;
use cases::{each_block, met, number, report};
use std::fs::File;
use std::io::Result;
use wire::Placed;
use zone::{Clock, Instant, Resolution};

// Kinds of records: a zone begins, or is said again in a further block, and its transitions follow; then cases.
const ZONE: u8 = 5;

const CHANGE: u8 = 6;

const READING: u8 = 7;

const CLEAR: u8 = 8;

const FOLD: u8 = 9;

const GAP: u8 = 10;

const SAME: u8 = 11;

// What is no record is counted here.
const STRANGE: u8 = 12;

const PLACES: usize = 13;

// As many transitions as a book may have.
const MOST: usize = 640;

const SECOND_NS: u64 = 1_000_000_000;

const DAY_NS: u64 = 86_400 * SECOND_NS;

// What stands for 1899-12-25 in the list: in seconds and in nanoseconds since 1970, placed.
const SECOND_ZERO: u64 = 0x8000_0000_0000_0000 - 2_209_593_600;

const WALL_ZERO: u64 = 7_013_778_436_854_775_808;

// What stands for the westmost of all, -57,600 s, placed.
const WESTMOST: u64 = 0x8000_0000_0000_0000 - 57_600;

// A transition's instant and offset, as the zone crate holds them; what is none of them is none to it either.
fn instant(p: Placed<u64>) -> u64 {
    let n = p.0;
    if n < SECOND_ZERO {
        return 0;
    }
    if 18_000_000_000 < n - SECOND_ZERO {
        return 0;
    }
    (n - SECOND_ZERO) * SECOND_NS
}

fn offset(p: Placed<u64>) -> u32 {
    let n = p.0;
    if n < WESTMOST {
        return u32::MAX;
    }
    if 0xffff_ffff < n - WESTMOST {
        return u32::MAX;
    }
    (n - WESTMOST) as u32
}

// What the wall shows, as a date and a time of day.
#[derive(Clone, Copy)]
struct Wall {
    day: Day,
    time: u64,
}

fn shown_at(p: Placed<u64>) -> Wall {
    let n = p.0;
    let x = if n < WALL_ZERO { 0 } else { n - WALL_ZERO };
    Wall {
        day: Day((x / DAY_NS) as u32),
        time: x % DAY_NS,
    }
}

fn same(t: Instant, p: Placed<u64>) -> bool {
    zone::instant_of(p).0 == t.0
}

// Whether an instant reads as said.
fn reads(clock: &Clock<'_>, t: Placed<u64>, x: Placed<u64>) -> bool {
    let r = clock.reading_of(zone::instant_of(t));
    let shown = shown_at(x);
    (zone::day_of_reading(r).0 == shown.day.0) & (zone::time_of_reading(r) == shown.time)
}

// Whether an answer is of a kind with these instants, and takes the right one.
fn is_answer(r: Resolution, kind: u8, a: Placed<u64>, b: Placed<u64>) -> bool {
    let taken = zone::taken(r);
    match r {
        Resolution::Clear(t) => (kind == CLEAR) & same(t, a) & same(taken, a),
        Resolution::Fold(d) => {
            (kind == FOLD) & same(d.before, a) & same(d.after, b) & same(taken, a)
        }
        Resolution::Gap(d) => {
            (kind == GAP)
                & same(d.before, a)
                & same(d.after, b)
                & same(taken, if a.0 < b.0 { b } else { a })
        }
    }
}

// Whether a case is answered as said.
fn is_so(list: &[u8], at: usize, kind: u8, clock: &Clock<'_>) -> bool {
    let a = number(list, at, 0);
    let b = number(list, at, 1);
    let c = number(list, at, 2);
    if kind == READING {
        return reads(clock, a, b);
    }
    let shown = shown_at(a);
    let x = zone::reading_at(shown.day, shown.time);
    let r = clock.to_utc(x);
    is_answer(r, kind, b, c)
}

// How many bytes a case has.
fn size(kind: u8) -> usize
    ensures { (1 ≤ result) × (result ≤ 25) }
{
    if CLEAR < kind { 25 } else { 17 }
}

// Every case of one zone, from `from` on. It answers the place behind them.
fn cases(list: &[u8], from: usize, clock: &Clock<'_>, counts: &mut [u64]) -> usize
    ensures { from ≤ result }
{
    let mut at = from;
    // A record says where the next one begins.
    while at < list.len() {
        let kind = list[at];
        if (kind < READING) | (GAP < kind) {
            return at;
        }
        met(counts, kind, is_so(list, at, kind, clock));
        at += size(kind);
    }
    at
}

// How many transitions a zone has, and where its cases begin.
#[derive(Clone, Copy)]
struct Held {
    count: usize,
    next: usize,
}

// The transitions from `from` on, as many as there is room for.
fn changes(list: &[u8], from: usize, ats: &mut [u64], offsets: &mut [u32]) -> Held
    ensures { (result.count ≤ length ats.old) × (result.count ≤ length offsets.old) × (from ≤ result.next) }
{
    let mut count: usize = 0;
    let mut next = from;
    // A record says where the next one begins.
    while next < list.len() {
        if ats.len() <= count {
            return Held { count, next };
        }
        if offsets.len() <= count {
            return Held { count, next };
        }
        if list[next] != CHANGE {
            return Held { count, next };
        }
        ats[count] = instant(number(list, next, 0));
        offsets[count] = offset(number(list, next, 1));
        count += 1;
        next += 17;
    }
    Held { count, next }
}

// One zone: its first offset, its transitions and its cases. It answers the place behind them.
fn one_zone(list: &[u8], at: usize, kind: u8, counts: &mut [u64]) -> usize
    requires { at < length list.now }
    ensures { at < result }
{
    let offset0 = offset(number(list, at, 0));
    let mut ats = [0u64; MOST];
    let mut offsets = [0u32; MOST];
    let held = changes(list, at + 9, &mut ats, &mut offsets);
    let ats = &ats[..held.count];
    let offsets = &offsets[..held.count];
    if zone::is_valid(offset0, ats, offsets) {
        met(counts, kind, true);
        let clock = Clock {
            offset0,
            ats,
            offsets,
        };
        return cases(list, held.next, &clock, counts);
    }
    met(counts, kind, false);
    held.next
}

// A zero stands behind the last record of a block; nothing else may.
fn no_record(kind: u8, counts: &mut [u64]) {
    if kind != 0 {
        met(counts, STRANGE, true);
    }
}

fn all_zones(list: &[u8], counts: &mut [u64]) {
    let mut at: usize = 0;
    // A record says where the next one begins.
    while at < list.len() {
        let kind = list[at];
        if (kind == ZONE) | (kind == SAME) {
            at = one_zone(list, at, kind, counts);
        } else {
            no_record(kind, counts);
            at += 1;
        }
    }
}

fn main(rt: HostRuntime) -> Result<()> {
    let mut list = File::open(&rt, "list")?;
    let mut counts = [0u64; PLACES];
    each_block(&mut list, |block| all_zones(block, &mut counts))?;
    report(&rt, "zones ", &counts, ZONE)?;
    report(&rt, "readings of instants ", &counts, READING)?;
    report(&rt, "clear readings ", &counts, CLEAR)?;
    report(&rt, "folds ", &counts, FOLD)?;
    report(&rt, "gaps ", &counts, GAP)?;
    report(&rt, "differences ", &counts, 0)?;
    report(&rt, "bytes of the list not understood ", &counts, STRANGE)
}
