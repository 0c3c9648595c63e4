// The boundary: what the dashboard's server asks; `market_time_c` has it as C functions. Every entry takes every book, row, query and room.
#![tactic(auto)]

ghost use Rattle.std.specs.Prelude.{◌≡◌};
ghost use Rattle.board.specs.Cells.{cells_number, cells_answer};
ghost use Rattle.classes.specs.Classes.{class_reply, count_reply};
ghost use Rattle.lend.specs.Lending.{Lent};
ghost use Rattle.lend.specs.Refusals.{number_of};
ghost use Rattle.point.specs.Asking.{point_number, point_answer};
ghost use Rattle.timeline.specs.Asking.{window_answer};
ghost use Rattle.tally.specs.Tallying.{tally_number, tally_answer};
ghost use Rattle.book_query.specs.Judging.{window_number};
ghost use Rattle.records.specs.Limits.{base};
ghost use Rattle.records.specs.Book.{refusal};
ghost use Rattle.market_time.specs.Demand.{Demand};

use board::cells_answer;
use book::check;
use classes::{ClassReply, CountReply, class_answer, count_answer};
use lend::{Refusal, Reply};
use point::point_answer;
use tally::tally_answer;
use timeline::window_answer;

// The phase at an instant: kind 16 with its 18s, or kind 19.
pub fn market_time_point(book: &[u8], at: i64, out: &mut [u8]) -> Reply
    ensures { Lent (point_number book.now at) (point_answer book.now at) out.old out.new result }
{
    Reply::from(point_answer(book, at, out))
}

// The phases of a window: kinds 16, 17 and 18.
pub fn market_time_window(book: &[u8], start: i64, end: i64, out: &mut [u8]) -> Reply
    ensures { Lent (window_number book.now start end) (window_answer book.now start end) out.old out.new result }
{
    Reply::from(window_answer(book, start, end, out))
}

// The totals of a window: kind 22 for each day, then one 23.
pub fn market_time_tally(book: &[u8], start: i64, end: i64, out: &mut [u8]) -> Reply
    ensures { Lent (tally_number book.now start end) (tally_answer book.now start end) out.old out.new result }
{
    Reply::from(tally_answer(book, start, end, out))
}

// A row's cells between brackets. `at`, the board's now, counts only where it is marked.
pub fn market_time_cells(
    row: &[u8],
    start: i64,
    end: i64,
    columns: i64,
    marked: bool,
    at: i64,
    out: &mut [u8],
) -> Reply
    ensures { Lent (cells_number row.now start end columns marked at) (cells_answer row.now start end columns marked at)
        out.old out.new result }
{
    Reply::from(cells_answer(row, start, end, columns, marked, at, out))
}

// What a row shows at an instant: its class.
pub fn market_time_class(row: &[u8], at: i64) -> ClassReply
    ensures { result ≡ class_reply row.now at }
{
    ClassReply::from(class_answer(row, at))
}

// How many rows, each behind its mark, are of each class at an instant.
pub fn market_time_count(rows: &[u8], at: i64) -> CountReply
    ensures { result ≡ count_reply rows.now at }
{
    CountReply::from(count_answer(rows, at))
}

// Demand 3 of any book that can be lent, whatever its bytes are. It only judges the book: its contract is the theorem.
pub fn demand_3(book: &[u8]) -> Result<(), Refusal>
    ensures { (number_of result ≡ refusal base book.now) × Demand book.now }
{
    check(book)
}
