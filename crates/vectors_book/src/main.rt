// Judges a list of books and compares the numbers that they get, and prints how many it met of each number and how many differed.
// tools/books.py makes the list and says how.
#![tactic(auto)]

ghost use Rattle.std.specs.Prelude.{◌≤◌};

use cases::{count, each_block, met, number, report, report_refusals};
use lend::Refusal;
use std::fs::File;
use std::io;

// Kinds of records: a book's number, its length and its bytes; and the number and the length of a book of zeros.
const CASE: u8 = 1;

const ZEROS: u8 = 2;

const HEAD: usize = 17;

// Counts stand at the number, plus 1; what is no record is counted behind them.
const STRANGE: u8 = 11;

const PLACES: usize = 12;

// The longest book of zeros.
const LONGEST: usize = 100_000;

fn place(expected: u32) -> u8 {
    if 9 < expected {
        return STRANGE;
    }
    expected as u8 + 1
}

// The number of what was judged, 0 where it passes.
fn number_of(verdict: Result<(), Refusal>) -> u32 {
    match verdict {
        Ok(()) => 0,
        Err(why) => u32::from(why),
    }
}

fn judged(book: &[u8], expected: u32, counts: &mut [u64]) {
    met(
        counts,
        place(expected),
        number_of(book::check(book)) == expected,
    );
}

fn judged_part(bytes: &[u8], length: usize, expected: u32, counts: &mut [u64]) {
    if bytes.len() < length {
        met(counts, STRANGE, true);
        return;
    }
    judged(&bytes[..length], expected, counts);
}

fn judged_zeros(length: usize, expected: u32, counts: &mut [u64]) {
    let zeros = [0u8; LONGEST];
    judged_part(&zeros, length, expected, counts);
}

// Judges the book of the first record of a list, and answers how many bytes the record has. A byte that is no kind is one of its own.
fn compare(list: &[u8], kind: u8, counts: &mut [u64]) -> usize
    ensures { (1 ≤ result) × (result ≤ 4294967312) }
{
    let expected = count(number(list, 0, 0));
    let length = count(number(list, 0, 1)) as usize;
    match kind {
        0 => 1,
        CASE => {
            if list.len() < HEAD + length {
                met(counts, STRANGE, true);
                return 1;
            }
            judged(&list[HEAD..HEAD + length], expected, counts);
            HEAD + length
        }
        ZEROS => {
            judged_zeros(length, expected, counts);
            HEAD
        }
        _ => {
            met(counts, STRANGE, true);
            1
        }
    }
}

fn all_records(list: &[u8], counts: &mut [u64]) {
    let mut at: usize = 0;
    // A record says how long it is.
    while at < list.len() {
        at += compare(&list[at..], list[at], counts);
    }
}

fn told(rt: &HostRuntime, counts: &[u64]) -> io::Result<()> {
    report(rt, "accepted ", counts, 1)?;
    report_refusals(rt, counts, 11)?;
    report(rt, "differences ", counts, 0)?;
    report(rt, "bytes of the list not understood ", counts, STRANGE)
}

fn main(rt: HostRuntime) -> io::Result<()> {
    let mut list = File::open(&rt, "list")?;
    let mut counts = [0u64; PLACES];
    each_block(&mut list, |block| all_records(block, &mut counts))?;
    told(&rt, &counts)
}
