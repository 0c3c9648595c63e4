// The entries of `market_time` as C functions, for the server to link against: the archive libmarket_time.a. Each only hands its call on.
#![tactic(auto)]

ghost use Rattle.std.specs.Prelude.{◌≡◌};
ghost use Rattle.board.specs.Cells.{cells_number, cells_answer};
ghost use Rattle.classes.specs.Classes.{class_reply, count_reply};
ghost use Rattle.lend.specs.Lending.{Lent};
ghost use Rattle.point.specs.Asking.{point_number, point_answer};
ghost use Rattle.timeline.specs.Asking.{window_answer};
ghost use Rattle.tally.specs.Tallying.{tally_number, tally_answer};
ghost use Rattle.book_query.specs.Judging.{window_number};

use classes::{ClassReply, CountReply};
use lend::Reply;

// The phase at an instant: kind 16 with its 18s, or kind 19.
#[unsafe(no_mangle)]
pub extern "C" fn market_time_point(book: &[u8], at: i64, out: &mut [u8]) -> Reply
    ensures { Lent (point_number book.now at) (point_answer book.now at) out.old out.new result }
{
    market_time::market_time_point(book, at, out)
}

// The phases of a window: kinds 16, 17 and 18.
#[unsafe(no_mangle)]
pub extern "C" fn market_time_window(book: &[u8], start: i64, end: i64, out: &mut [u8]) -> Reply
    ensures { Lent (window_number book.now start end) (window_answer book.now start end) out.old out.new result }
{
    market_time::market_time_window(book, start, end, out)
}

// The totals of a window: kind 22 for each day, then one 23.
#[unsafe(no_mangle)]
pub extern "C" fn market_time_tally(book: &[u8], start: i64, end: i64, out: &mut [u8]) -> Reply
    ensures { Lent (tally_number book.now start end) (tally_answer book.now start end) out.old out.new result }
{
    market_time::market_time_tally(book, start, end, out)
}

// A row's cells between brackets. `at`, the board's now, counts only where it is marked.
#[unsafe(no_mangle)]
pub extern "C" fn market_time_cells(
    row: &[u8],
    start: i64,
    end: i64,
    columns: i64,
    marked: bool,
    at: i64,
    out: &mut [u8],
) -> Reply
    ensures { Lent (cells_number row.now start end columns marked at) (cells_answer row.now start end columns marked at)
        out.old out.new result }
{
    market_time::market_time_cells(row, start, end, columns, marked, at, out)
}

// What a row shows at an instant: its class.
#[unsafe(no_mangle)]
pub extern "C" fn market_time_class(row: &[u8], at: i64) -> ClassReply
    ensures { result ≡ class_reply row.now at }
{
    market_time::market_time_class(row, at)
}

// How many rows, each behind its mark, are of each class at an instant.
#[unsafe(no_mangle)]
pub extern "C" fn market_time_count(rows: &[u8], at: i64) -> CountReply
    ensures { result ≡ count_reply rows.now at }
{
    market_time::market_time_count(rows, at)
}
