// The rows of a window.
ghost use Rattle.std.specs.Prelude.{◌+◌, ◌*◌, ◌≤◌, ◌≡◌, length};
ghost use Rattle.answer.specs.Forms.{row_size};
ghost use Rattle.tally_rows.specs.Rows.{row_end, rows_of, most_tally_ns, most_rows};

use answer::ROW_SIZE;
use zone::{DAY_NS, Interval};

// The next row edge after `at`. Sizing and rows both ask here.
pub(crate) fn row_end(end: u64, at: u64) -> u64
    ensures { result ≡ row_end end at }
{
    if end < at {
        return end;
    }
    if end - at < DAY_NS { end } else { at + DAY_NS }
}

// How many rows a window has.
fn count_rows(start: u64, end: u64) -> usize
    requires { end ≤ start + most_tally_ns }
    ensures { (result ≡ length (rows_of start end)) × (result ≤ most_rows) }
{
    let mut count: usize = 0;
    let mut at = start;
    // An edge is found from the one before it.
    while at < end {
        at = row_end(end, at);
        count += 1;
    }
    count
}

// How many bytes its rows and the closing total take.
pub fn tally_size(window: Interval) -> usize
    requires { window.end.0 ≤ window.start.0 + most_tally_ns }
    ensures { result ≡ row_size * (length (rows_of window.start.0 window.end.0) + 1) }
{
    ROW_SIZE * (count_rows(window.start.0, window.end.0) + 1)
}
