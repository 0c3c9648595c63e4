// Compares the calendar crate with published dates and with an outside calendar's, and prints how many it met and how many differed.
// tools/vectors.py makes the list and says how.
#![tactic(auto)]

ghost use Rattle.std.specs.Prelude.{◌≤◌};

use cases::{ZERO, count, each_block, met, number, report};
use std::fs::File;
use std::io::Result;
use wire::Placed;

// Kinds of records, and of what is counted besides: each day of a month, and the day after its last, which is none.
const MONTH: u8 = 1;

const DATE: u8 = 2;

const NO_NUMBER: u8 = 3;

const NO_DATE: u8 = 4;

const STRANGE: u8 = 5;

const PLACES: usize = 6;

// 2^63, and 2^63 - 2^31.
const LOW: u64 = ZERO - 0x8000_0000;

// A number of the list as an i32, and as a year, month or day; 0 for one that is none.
fn small(p: Placed<u64>) -> i32 {
    let n = p.0;
    if n < LOW {
        return 0;
    }
    if 0xffff_ffff < n - LOW {
        return 0;
    }
    i32::from(wire::Placed((n - LOW) as u32))
}

// Whether a day number has this date.
fn is_date(n: i32, year: u32, month: u32, day: u32) -> bool {
    match calendar::date_of(n) {
        Some(x) => (x.year == year) & (x.month == month) & (x.day == day),
        None => false,
    }
}

// The weekday of a day number and the number of its Day again; 7 where there is no such Day.
fn weekday_of(n: i32) -> u32 {
    match calendar::day_of(n) {
        Some(d) if calendar::number_of(d) == Some(n) => calendar::weekday(d),
        _ => 7,
    }
}

// Whether a date has a day number and a weekday, and the number that date.
fn date_is(year: u32, month: u32, day: u32, n: i32, weekday: u32) -> bool {
    let there = calendar::day_number(year, month, day) == Some(n);
    let back = is_date(n, year, month, day);
    there & back & (weekday_of(n) == weekday)
}

// Every day of a month, and that the day after its last is none of it.
fn month(year: u32, month: u32, first: Placed<u64>, days: u32, weekday: u32, counts: &mut [u64]) {
    for k in 0..days {
        let n = small(Placed(first.0.wrapping_add(k as u64)));
        met(
            counts,
            MONTH,
            date_is(year, month, k + 1, n, (weekday % 7 + k % 7) % 7),
        );
    }
    if days < 32 {
        met(
            counts,
            NO_DATE,
            calendar::day_number(year, month, days + 1).is_none(),
        );
    }
}

// Compares the record at a place, and answers how many bytes it has. A byte that is no kind is one of its own.
fn compare(list: &[u8], at: usize, kind: u8, counts: &mut [u64]) -> usize
    ensures { (1 ≤ result) × (result ≤ 41) }
{
    let a = number(list, at, 0);
    let b = number(list, at, 1);
    let c = number(list, at, 2);
    let d = number(list, at, 3);
    let e = number(list, at, 4);
    match kind {
        0 => 1,
        MONTH => {
            month(count(a), count(b), c, count(d), count(e), counts);
            41
        }
        DATE => {
            met(
                counts,
                DATE,
                date_is(count(a), count(b), count(c), small(d), count(e)),
            );
            41
        }
        NO_NUMBER => {
            met(counts, NO_NUMBER, calendar::date_of(small(a)).is_none());
            9
        }
        NO_DATE => {
            met(
                counts,
                NO_DATE,
                calendar::day_number(count(a), count(b), count(c)).is_none(),
            );
            25
        }
        _ => {
            met(counts, STRANGE, true);
            1
        }
    }
}

fn all_records(list: &[u8], counts: &mut [u64]) {
    let mut at: usize = 0;
    // A record says how long it is.
    while at < list.len() {
        let kind = list[at];
        at += compare(list, at, kind, counts);
    }
}

fn main(rt: HostRuntime) -> Result<()> {
    let mut list = File::open(&rt, "list")?;
    let mut counts = [0u64; PLACES];
    each_block(&mut list, |block| all_records(block, &mut counts))?;
    report(&rt, "days ", &counts, MONTH)?;
    report(&rt, "published weekdays ", &counts, DATE)?;
    report(&rt, "numbers of no date ", &counts, NO_NUMBER)?;
    report(&rt, "no dates ", &counts, NO_DATE)?;
    report(&rt, "differences ", &counts, 0)?;
    report(&rt, "bytes of the list not understood ", &counts, STRANGE)
}
