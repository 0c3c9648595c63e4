// A row's totals, and how a stretch of the timeline is counted. A row's last total is what lies in no segment: the row begins with all of it
// there, and each stretch takes its part away.
ghost use Rattle.std.specs.Prelude.{◌+◌, ◌-◌, ◌^◌, ◌≤◌, ◌<◌, ◌≡◌, get_or};
ghost use Rattle.tally_rows.specs.OpenRows.{nowhere_slot, part_of, shifted, fresh, Coming, Counted, Ending, Ended, First};

use crate::cuts::row_end;
use crate::{OpenRow, Pages, UNKNOWN};
use answer::{RowKind, TOTALS, put_row};
use zone::{Instant, Interval};

// Where what lies in no segment is counted.
const NOWHERE: usize = 9;

// How much of the row from a to before b lies from `from` to before `to`.
fn part(a: u64, b: u64, from: u64, to: u64) -> u64
    ensures { result ≡ part_of a b from to }
{
    b.min(to).saturating_sub(a.max(from))
}

// A row as it begins.
fn fresh(length: u64) -> [u64; TOTALS]
    ensures { result ≡ fresh length }
{
    let mut row = [0; TOTALS];
    row[NOWHERE] = length;
    row
}

// So much of it lies in segments of one kind.
fn shift(row: &mut [u64; TOTALS], slot: usize, n: u64)
    requires { (slot < nowhere_slot) × (n ≤ get_or row.old nowhere_slot 0) × (get_or row.old slot 0 + n < 2 ^ 64) }
    ensures { row.new ≡ shifted row.old slot n }
{
    row[slot] += n;
    row[NOWHERE] -= n;
}

impl Pages {
    // No stretch has come yet, and the first row is open.
    pub fn new(window: Interval) -> Pages
        requires { window.start.0 < window.end.0 }
        ensures { (result.window ≡ window) × First window.start.0 window.end.0 result.open result.row result.whole }
    {
        let start = window.start;
        let next = row_end(window.end.0, start.0);
        Pages {
            window,
            open: OpenRow {
                start,
                end: Instant(next),
                at: 0,
            },
            row: fresh(next - start.0),
            whole: fresh(window.end.0 - start.0),
        }
    }

    // Counts a stretch in the closing totals and in the rows that it meets. A row that ends inside the stretch or before it is written and the
    // next begins.
    pub fn stretch(&mut self, out: &mut [u8], of: Interval, slot: usize)
        requires { Coming out.old self.old.open self.old.window.start.0 self.old.window.end.0 of.start.0 of.end.0 slot self.old.row self.old.whole }
        ensures { Counted out.old self.old.open self.old.window.start.0 self.old.window.end.0 of.start.0 of.end.0 slot self.old.row self.old.whole
            out.new self.new.open self.new.row self.new.whole × (self.new.window ≡ self.old.window) }
    {
        let from = of.start.0;
        let to = of.end.0;
        let end = self.window.end.0;
        shift(
            &mut self.whole,
            slot,
            part(self.window.start.0, end, from, to),
        );
        let mut a = self.open.start;
        let mut b = self.open.end;
        let mut at = self.open.at;
        'rows: loop {
            shift(&mut self.row, slot, part(a.0, b.0, from, to));
            if to <= b.0 {
                break 'rows;
            }
            at = put_row(
                out,
                at,
                RowKind::Day,
                Interval { start: a, end: b },
                &self.row,
            );
            let next = row_end(end, b.0);
            self.row = fresh(next - b.0);
            a = b;
            b = Instant(next);
        }
        self.open = OpenRow {
            start: a,
            end: b,
            at,
        };
    }

    // Closes the rows that are left, and writes the closing total. Answers the place behind it.
    pub fn finish(&mut self, out: &mut [u8]) -> usize
        requires { Ending out.old self.old.open self.old.window.start.0 self.old.window.end.0 self.old.row self.old.whole }
        ensures { Ended out.old self.old.open self.old.window.start.0 self.old.window.end.0 self.old.row self.old.whole out.new result }
    {
        let end = self.window.end;
        self.stretch(out, Interval { start: end, end }, UNKNOWN);
        let last = Interval {
            start: self.open.start,
            end: self.open.end,
        };
        let at = put_row(out, self.open.at, RowKind::Day, last, &self.row);
        put_row(out, at, RowKind::Closing, self.window, &self.whole)
    }
}
