// A row drawn as cells. It is judged first; then it is read, segment by segment, in step with the columns, and each byte is written once.
ghost use Rattle.std.specs.Prelude.{◌+◌, ◌≤◌, ◌<◌, ◌≡◌, true, not, cond, ◌&&◌, length};
ghost use Rattle.std.specs.Prelude.{Some};
ghost use Rattle.wire.specs.Fields.{wrote};
ghost use Rattle.records.specs.Book.{inside, instants};
ghost use Rattle.lend.specs.Lending.{Lent};
ghost use Rattle.lend.specs.Refusals.{number_of, reply_of};
ghost use Rattle.rows.specs.Rows.{good_row, segments};
ghost use Rattle.rows.specs.Telling.{mark_of};
ghost use Rattle.board.specs.Cells.{phase_glyph, glyph, cell_or, cells_from, judged_cells, text, cells_number, cells_answer};
ghost use Rattle.board.specs.Private.{Good, PaceOf, ColumnOf, CellsFilled};

use crate::grid::{Column, Grid, MOST, Pace, columns_of, marker_of, next_column, pace_of};
use lend::Refusal;
use query::{asked_at, asked_window};
use rows::{Shows, end_of, good_row, read_segment};
use wire::Placed;

const BLANK: u8 = b' ';

const MARKER: u8 = b'|';

// Past every cell's instant.
const LAST: u64 = 0xffff_ffff_ffff_ffff;

// No good row has a phase above 7; the Rust's sign for one that it cannot draw is taken over.
fn phase_glyph(phase: u8) -> u8
    ensures { result ≡ phase_glyph phase }
{
    match phase {
        0 => b'.',
        1 => b'-',
        2 => b'=',
        3 => b'#',
        4 => b':',
        5 => b'=',
        6 => b'_',
        7 => b'!',
        _ => b'*',
    }
}

fn glyph_of(shows: Shows) -> u8
    ensures { result ≡ glyph (Some (mark_of shows)) }
{
    match shows {
        Shows::Phase(phase, _) => phase_glyph(phase),
        Shows::Unknown => b'?',
    }
}

// The marker, or what the column shows else.
fn cell_or(marker: u64, c: u64, byte: u8) -> u8
    ensures { result ≡ cell_or marker c byte }
{
    if c == marker { MARKER } else { byte }
}

// The columns from a first one on whose instant is before a limit. Answers the column behind them.
fn fill(out: &mut [u8], grid: Grid, pace: Pace, first: Column, limit: u64, byte: u8) -> Column
    requires { Good grid × PaceOf grid pace × ColumnOf grid first × (grid.columns + 2 ≤ length out.old) }
    ensures { ColumnOf grid result × CellsFilled grid first.c limit byte out.old out.new result.c }
{
    let mut column = first;
    // A column moves on with its instant and its remainder, which no range gives.
    while column.c < grid.columns {
        if limit <= column.at {
            return column;
        }
        let c = column.c;
        out[1 + c as usize] = cell_or(grid.marker, c, byte);
        column = next_column(grid, pace, column);
    }
    column
}

fn put_cells(row: &[u8], grid: Grid, out: &mut [u8])
    requires { (good_row row.now ≡ true) × Good grid × (grid.columns + 2 ≤ length out.old) }
    ensures { out.new ≡ wrote out.old 1 (cells_from grid (segments row.now) grid.columns 0) }
{
    let pace = pace_of(grid);
    let mut at: usize = 0;
    let mut column = Column {
        c: 0,
        at: grid.start,
        part: 0,
    };
    // A column moves on with its instant and its remainder, which no range gives.
    while column.c < grid.columns {
        if at == row.len() {
            column = fill(out, grid, pace, column, LAST, BLANK);
        } else {
            let g = read_segment(row, at);
            let held = fill(out, grid, pace, column, g.from.0, BLANK);
            column = fill(out, grid, pace, held, g.to.0, glyph_of(g.shows));
            at = end_of(g);
        }
    }
}

// Of a window that passes, with a now that is in range or no marker.
fn tell_cells(
    row: &[u8],
    start: Placed<u64>,
    end: Placed<u64>,
    columns: i64,
    marked: bool,
    at: Placed<u64>,
    out: &mut [u8],
) -> Result<usize, Refusal>
    requires { start.0 < end.0 }
    ensures { Lent (judged_cells row.now columns) (text row.now start.0 end.0 columns marked at.0)
        out.old out.new (reply_of result) }
{
    let many = columns_of(columns);
    if MOST < many {
        return Err(Refusal::TooManyColumns);
    }
    if !good_row(row) {
        return Err(Refusal::BadRow);
    }
    let length = many as usize + 2;
    if out.len() < length {
        return Err(Refusal::NoRoom);
    }
    let marker = marker_of(start, end, many, marked, at);
    let grid = Grid {
        start: start.0,
        span: end.0 - start.0,
        columns: many,
        marker,
    };
    out[0] = b'[';
    put_cells(row, grid, out);
    out[length - 1] = b']';
    Ok(length)
}

// A now counts only where it is marked.
fn judged_now(marked: bool, at: i64) -> Result<(), Refusal>
    ensures { number_of result ≡ cond (marked && not (inside instants at)) 10 0 }
{
    if marked {
        asked_at(at)?;
    }
    Ok(())
}

// Any bytes, any window, any columns, any now, any room.
pub fn cells_answer(
    row: &[u8],
    start: i64,
    end: i64,
    columns: i64,
    marked: bool,
    at: i64,
    out: &mut [u8],
) -> Result<usize, Refusal>
    ensures { Lent (cells_number row.now start end columns marked at) (cells_answer row.now start end columns marked at)
        out.old out.new (reply_of result) }
{
    judged_now(marked, at)?;
    asked_window(start, end)?;
    tell_cells(
        row,
        Placed::from(start),
        Placed::from(end),
        columns,
        marked,
        Placed::from(at),
        out,
    )
}
