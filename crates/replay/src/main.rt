// Asks the port again what the original Rust was asked, from a fixed list. It compares the reply's number, its length and every byte of the
// room, and prints how many it met of each number and kind of answer and how many differed. `tools/compare list` makes the list, and
// oracle/compare/src/list.rs says how.
#![tactic(auto)]

ghost use Rattle.std.specs.Prelude.{◌^◌, ◌≤◌, ◌<◌};

use answer::{MISSING_KIND, PHASE_KIND};
use board::cells_answer;
use cases::{count, each_block, met, number, report, report_refusals};
use classes::{ClassReply, CountReply, class_answer, count_answer};
use lend::{Reply, refused};
use point::point_answer;
use records::KIND;
use std::fs::File;
use std::io::Result;
use tally::tally_answer;
use timeline::window_answer;
use wire::Field;

// A record has a kind, the entry that was asked, and ten numbers: the reply's number and the answer's length, the lengths of the book and of
// the room, 1 for a book of zeros, and the query's. The book's bytes follow, none of zeros, and then the answer's. A row's bytes stand where
// the book's do. Entry 1 is a point, and 6 the count of marked rows.
const WINDOW: u8 = 2;

const TALLY: u8 = 3;

const CELLS: u8 = 4;

const CLASS: u8 = 5;

const ROWS: u8 = 6;

const HEAD: usize = 81;

// The last number that a reply may have.
const LAST_NUMBER: u8 = 16;

// Counts stand at the reply's number, plus 1; then known points, unknown ones, points refused, and what is no record.
const KNOWN: u8 = LAST_NUMBER + 2;

const UNKNOWN: u8 = KNOWN + 1;

const NO_ANSWER: u8 = KNOWN + 2;

const STRANGE: u8 = KNOWN + 3;

// Another entry is counted so many places behind its own number.
const ENTRIES: u8 = KNOWN + 2;

// As far as the last entry.
const PLACES: usize = LAST_NUMBER as usize + 11;

// The longest book of zeros.
const LONGEST: usize = 100_000;

// A room is the front of this many bytes, and what is behind it must stay as it was too. A tally of 400 days takes 40,100.
const LENT: usize = 40_960;

const AS_IT_WAS: u8 = 0xa5;

// No number of the list's: the list lends more than there is.
const NO_SUCH_ROOM: u32 = 1000;

// A window's start and end, or an instant as the start. The rest is of cells: columns, and the now, which counts where it is marked.
#[derive(Clone, Copy)]
struct Query {
    entry: u8,
    start: i64,
    end: i64,
    columns: i64,
    marked: bool,
    now: i64,
}

fn place(expected: usize) -> u8 {
    if (LAST_NUMBER as usize) < expected {
        return STRANGE;
    }
    expected as u8 + 1
}

// Asks an entry that is lent room.
fn ask(book: &[u8], q: Query, room: &mut [u8]) -> Reply {
    Reply::from(match q.entry {
        WINDOW => window_answer(book, q.start, q.end, room),
        TALLY => tally_answer(book, q.start, q.end, room),
        CELLS => cells_answer(book, q.start, q.end, q.columns, q.marked, q.now, room),
        _ => point_answer(book, q.start, room),
    })
}

// Asks with the front of these bytes as the room.
fn asked(book: &[u8], q: Query, out: &mut [u8], room: usize) -> Reply {
    if out.len() < room {
        return refused(NO_SUCH_ROOM);
    }
    ask(book, q, &mut out[..room])
}

// Whether a query gets this number and this answer, and nothing else is written.
fn is_lent(book: &[u8], q: Query, room: usize, expected: usize, answer: &[u8]) -> bool {
    let mut out = [AS_IT_WAS; LENT];
    let reply = asked(book, q, &mut out, room);
    (reply.number as usize == expected)
        & (reply.length == answer.len())
        & out.starts_with(answer)
        & out.iter().skip(answer.len()).all(|byte| *byte == AS_IT_WAS)
}

// Whether a row gets this number and this class, which the list has in 4 bytes. Beside a refusal it is 0.
fn is_class(row: &[u8], at: i64, expected: usize, answer: &[u8]) -> bool {
    if answer.len() != 4 {
        return false;
    }
    let reply = ClassReply::from(class_answer(row, at));
    (reply.number as usize == expected) & (reply.shown == u32::get(answer, 0))
}

// Whether rows get this number and these counts, which the list has in 8 bytes each. Beside a refusal they are 0.
fn is_count(rows: &[u8], at: i64, expected: usize, answer: &[u8]) -> bool {
    if answer.len() != 32 {
        return false;
    }
    let reply = CountReply::from(count_answer(rows, at));
    (reply.number as usize == expected)
        & (reply.venues == u64::get(answer, 0))
        & (reply.trading == u64::get(answer, 8))
        & (reply.not_trading == u64::get(answer, 16))
        & (reply.not_known == u64::get(answer, 24))
}

// Whether the list's reply is given. The book may be a row.
fn is_answered(book: &[u8], q: Query, room: usize, expected: usize, answer: &[u8]) -> bool {
    match q.entry {
        CLASS => is_class(book, q.start, expected, answer),
        ROWS => is_count(book, q.start, expected, answer),
        _ => is_lent(book, q, room, expected, answer),
    }
}

// The same of the front of a book.
fn is_part_answered(
    bytes: &[u8],
    length: usize,
    q: Query,
    room: usize,
    expected: usize,
    answer: &[u8],
) -> bool {
    if bytes.len() < length {
        return false;
    }
    is_answered(&bytes[..length], q, room, expected, answer)
}

fn is_zeros_answered(length: usize, q: Query, room: usize, expected: usize, answer: &[u8]) -> bool {
    let zeros = [0u8; LONGEST];
    is_part_answered(&zeros, length, q, room, expected, answer)
}

// Where an entry, or a point's answer of this kind, is counted.
fn kind_place(entry: u8, answer: &[u8]) -> u8 {
    if ROWS < entry {
        return STRANGE;
    }
    if 1 < entry {
        return ENTRIES + entry;
    }
    if answer.len() < records::HEAD {
        return NO_ANSWER;
    }
    let kind = u16::get(answer, KIND);
    if kind == PHASE_KIND {
        return KNOWN;
    }
    if kind == MISSING_KIND {
        UNKNOWN
    } else {
        STRANGE
    }
}

// What a record asks.
fn query_of(list: &[u8], entry: u8) -> Query {
    Query {
        entry,
        start: i64::from(number(list, 0, 5)),
        end: i64::from(number(list, 0, 6)),
        columns: i64::from(number(list, 0, 7)),
        marked: 0 < count(number(list, 0, 8)),
        now: i64::from(number(list, 0, 9)),
    }
}

// A query of a book of zeros. It answers how many bytes the record has.
fn compare_zeros(list: &[u8], entry: u8, counts: &mut [u64]) -> usize
    ensures { (1 ≤ result) × (result < 2 ^ 34) }
{
    let expected = count(number(list, 0, 0)) as usize;
    let to = HEAD + count(number(list, 0, 1)) as usize;
    let length = count(number(list, 0, 2)) as usize;
    let room = count(number(list, 0, 3)) as usize;
    if list.len() < to {
        met(counts, STRANGE, true);
        return 1;
    }
    let answer = &list[HEAD..to];
    met(
        counts,
        place(expected),
        is_zeros_answered(length, query_of(list, entry), room, expected, answer),
    );
    met(counts, kind_place(entry, answer), true);
    to
}

// A query of a book that the record holds.
fn compare_book(list: &[u8], entry: u8, counts: &mut [u64]) -> usize
    ensures { (1 ≤ result) × (result < 2 ^ 34) }
{
    let expected = count(number(list, 0, 0)) as usize;
    let from = HEAD + count(number(list, 0, 2)) as usize;
    let to = from + count(number(list, 0, 1)) as usize;
    let room = count(number(list, 0, 3)) as usize;
    if list.len() < to {
        met(counts, STRANGE, true);
        return 1;
    }
    let answer = &list[from..to];
    met(
        counts,
        place(expected),
        is_answered(
            &list[HEAD..from],
            query_of(list, entry),
            room,
            expected,
            answer,
        ),
    );
    met(counts, kind_place(entry, answer), true);
    to
}

// Asks what the first record of a list asks, and answers how many bytes the record has. A byte that is no kind is one of its own.
fn compare(list: &[u8], kind: u8, counts: &mut [u64]) -> usize
    ensures { (1 ≤ result) × (result < 2 ^ 34) }
{
    if kind == 0 {
        return 1;
    }
    if ROWS < kind {
        met(counts, STRANGE, true);
        return 1;
    }
    if 0 < count(number(list, 0, 4)) {
        return compare_zeros(list, kind, counts);
    }
    compare_book(list, kind, counts)
}

fn all_records(list: &[u8], counts: &mut [u64]) {
    let mut at: usize = 0;
    // A record says where the next one begins.
    while at < list.len() {
        at += compare(&list[at..], list[at], counts);
    }
}

fn told_kinds(rt: &HostRuntime, counts: &[u64]) -> Result<()> {
    report(rt, "answered ", counts, 1)?;
    report(rt, "known points ", counts, KNOWN)?;
    report(rt, "unknown points ", counts, UNKNOWN)?;
    report(rt, "windows ", counts, ENTRIES + WINDOW)?;
    report(rt, "tallies ", counts, ENTRIES + TALLY)?;
    report(rt, "cells ", counts, ENTRIES + CELLS)?;
    report(rt, "classes ", counts, ENTRIES + CLASS)?;
    report(rt, "counts ", counts, ENTRIES + ROWS)
}

fn told_numbers(rt: &HostRuntime, counts: &[u64]) -> Result<()> {
    report_refusals(rt, counts, KNOWN)?;
    report(rt, "differences ", counts, 0)?;
    report(rt, "bytes of the list not understood ", counts, STRANGE)
}

fn main(rt: HostRuntime) -> Result<()> {
    let mut list = File::open(&rt, "list")?;
    let mut counts = [0u64; PLACES];
    each_block(&mut list, |block| all_records(block, &mut counts))?;
    told_kinds(&rt, &counts)?;
    told_numbers(&rt, &counts)
}
