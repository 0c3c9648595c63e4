// How many rows are of each class at an instant, in one reading of the rows.
ghost use Rattle.std.specs.Prelude.{◌≡◌, true};
ghost use Rattle.rows.specs.Rows.{good_mark};
ghost use Rattle.classes.specs.Classes.{judged_count, count_reply};
ghost use Rattle.classes.specs.Reading.{Few, Added, count_told};

use crate::classing::row_class;
use crate::{Class, CountReply};
use answer::MARK_SIZE;
use lend::Refusal;
use query::asked_at;
use rows::{Stands, stands_at};
use wire::Placed;

// How many rows there are, and how many of each class but the last.
#[derive(Clone, Copy)]
pub struct Counts {
    pub venues: u64,
    pub trading: u64,
    pub not_trading: u64,
    pub not_known: u64,
}

const NO_ROWS: Counts = Counts {
    venues: 0,
    trading: 0,
    not_trading: 0,
    not_known: 0,
};

// One more row, of a class.
fn add(c: Counts, shown: Class) -> Counts
    requires { Few c }
    ensures { Added c shown result }
{
    let mut more = c;
    more.venues += 1;
    match shown {
        Class::Trading => {
            more.trading += 1;
        }
        Class::NotTrading => {
            more.not_trading += 1;
        }
        Class::NotKnown => {
            more.not_known += 1;
        }
        Class::NotShown => {}
    }
    more
}

impl From<Result<Counts, Refusal>> for CountReply {
    ghost use Rattle.std.specs.Prelude.{◌≡◌};
    ghost use Rattle.classes.specs.Reading.{count_told};

    ghost from_gives = { λ r p. p ≡ count_told r };

    fn from(r: Result<Counts, Refusal>) -> CountReply {
        let (number, c) = match r {
            Ok(c) => (0, c),
            Err(why) => (u32::from(why), NO_ROWS),
        };
        CountReply {
            number,
            venues: c.venues,
            trading: c.trading,
            not_trading: c.not_trading,
            not_known: c.not_known,
        }
    }
}

// Of rows of which the first begins behind a mark.
fn count_rows(rows: &[u8], t: u64) -> Result<Counts, Refusal>
    requires { good_mark rows.now 0 ≡ true }
    ensures { count_told result ≡ judged_count rows.now t }
{
    let mut sum = NO_ROWS;
    let mut at = MARK_SIZE;
    loop {
        let classed = row_class(rows, at, true, t)?;
        sum = add(sum, classed.shown);
        match classed.next {
            None => {
                return Ok(sum);
            }
            Some(behind) => {
                at = behind;
            }
        }
    }
}

// Any bytes, any instant. Zero bytes are no rows; others begin with a mark.
pub fn count_answer(rows: &[u8], at: i64) -> Result<Counts, Refusal>
    ensures { count_told result ≡ count_reply rows.now at }
{
    asked_at(at)?;
    match stands_at(rows, 0, 0, 0, true) {
        Some(Stands::End) => Ok(NO_ROWS),
        Some(Stands::Mark) => count_rows(rows, Placed::from(at).0),
        Some(Stands::Segment) => Err(Refusal::BadRow),
        Some(Stands::Event) => Err(Refusal::BadRow),
        None => Err(Refusal::BadRow),
    }
}
