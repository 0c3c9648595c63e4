// A window cut into columns. Its span needs more than 63 bits and the products of spans and columns more than 64. Where one may not fit it is
// not made: quotients and remainders give the floor of the true product.
ghost use Rattle.std.specs.Prelude.{◌+◌, ◌*◌, ◌/◌, ◌≤◌, ◌<◌, ◌≡◌};
ghost use Rattle.board.specs.Cells.{most_columns, columns_of, marker_column};
ghost use Rattle.board.specs.Private.{Good, PaceOf, ColumnOf, Small, Sum};

use wire::{HALF8, Placed};

// Where a window starts, as a placed number, how long it is, how many columns it has, and the marker's column: `columns`, which is none
// of them, where there is no marker.
#[derive(Clone, Copy)]
pub(crate) struct Grid {
    pub(crate) start: u64,
    pub(crate) span: u64,
    pub(crate) columns: u64,
    pub(crate) marker: u64,
}

// From a column's instant to the next one's: the quotient and the remainder of the span by the columns.
#[derive(Clone, Copy)]
pub(crate) struct Pace {
    pub(crate) whole: u64,
    pub(crate) rest: u64,
}

// A column, the instant that it shows, and the remainder of the division in that instant: span x c by the columns.
#[derive(Clone, Copy)]
pub(crate) struct Column {
    pub(crate) c: u64,
    pub(crate) at: u64,
    pub(crate) part: u64,
}

// A mixed number of spans: so many, and a part of one.
#[derive(Clone, Copy)]
struct Mixed {
    whole: u64,
    part: u64,
}

const FEWEST: u64 = 12;

pub(crate) const MOST: u64 = 512;

// 416 days: times the most columns it is less than 2^64.
const SHORT: u64 = 0x7f_ffff_ffff_ffff;

pub(crate) fn columns_of(columns: i64) -> u64
    ensures { result ≡ columns_of columns }
{
    let p = Placed::from(columns).0;
    if p < HALF8 + FEWEST {
        return FEWEST;
    }
    p - HALF8
}

// The one division; the columns then go on by sums.
pub(crate) fn pace_of(grid: Grid) -> Pace
    requires { Good grid }
    ensures { PaceOf grid result }
{
    Pace {
        whole: grid.span / grid.columns,
        rest: grid.span % grid.columns,
    }
}

// The column behind one. The remainders are added, and make a nanosecond more where they reach the columns.
pub(crate) fn next_column(grid: Grid, pace: Pace, column: Column) -> Column
    requires { Good grid × PaceOf grid pace × ColumnOf grid column × (column.c < grid.columns) }
    ensures { ColumnOf grid result × (result.c ≡ column.c + 1) }
{
    if column.part < grid.columns - pace.rest {
        return Column {
            c: column.c + 1,
            at: column.at + pace.whole,
            part: column.part + pace.rest,
        };
    }
    Column {
        c: column.c + 1,
        at: column.at + pace.whole + 1,
        part: column.part - (grid.columns - pace.rest),
    }
}

// Two of them together. Their parts may make a span more.
fn plus(a: Mixed, b: Mixed, span: u64) -> Mixed
    requires { Small span a × Small span b }
    ensures { Sum span a b result }
{
    if a.part < span - b.part {
        return Mixed {
            whole: a.whole + b.whole,
            part: a.part + b.part,
        };
    }
    Mixed {
        whole: a.whole + b.whole + 1,
        part: a.part - (span - b.part),
    }
}

// floor(gone x columns / span) of what is gone of a span. Where the product may not fit, by doubling: a step for each bit of the columns.
fn share(gone: u64, columns: u64, span: u64) -> u64
    requires { (gone < span) × (columns ≤ most_columns) }
    ensures { result ≡ gone * columns / span }
{
    if gone <= SHORT {
        return gone * columns / span;
    }
    let mut sum = Mixed { whole: 0, part: 0 };
    let mut term = Mixed {
        whole: 0,
        part: gone,
    };
    let mut left = columns;
    // The columns are halved until no bit is left.
    while 0 < left {
        if left % 2 == 1 {
            sum = plus(sum, term, span);
        }
        term = plus(term, term, span);
        left /= 2;
    }
    sum.whole
}

pub(crate) fn marker_of(
    start: Placed<u64>,
    end: Placed<u64>,
    columns: u64,
    marked: bool,
    at: Placed<u64>,
) -> u64
    requires { columns ≤ most_columns }
    ensures { result ≡ marker_column start.0 end.0 columns marked at.0 }
{
    if !marked {
        return columns;
    }
    if at.0 < start.0 {
        return columns;
    }
    if end.0 <= at.0 {
        return columns;
    }
    share(at.0 - start.0, columns, end.0 - start.0)
}
