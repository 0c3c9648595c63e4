// A row's class at an instant: the row is judged and classed in one reading.
ghost use Rattle.std.specs.Prelude.{◌≤◌, ◌≡◌, length, Some};
ghost use Rattle.lend.specs.Refusals.{numbered};
ghost use Rattle.rows.specs.Telling.{mark_of};
ghost use Rattle.classes.specs.Classes.{class_of, class_number, class_reply};
ghost use Rattle.classes.specs.Reading.{class_in, first_of, class_told, Classes};

use crate::{Class, ClassReply};
use answer::MARK_SIZE;
use lend::Refusal;
use query::asked_at;
use records::is_trading;
use rows::{RowSegment, Shows, Stands, read_event, read_segment, stands_at};
use wire::Placed;

// The class of a row; and if a mark follows it, the place behind the mark.
#[derive(Clone, Copy)]
pub(crate) struct Classed {
    pub(crate) shown: Class,
    pub(crate) next: Option<usize>,
}

fn class_of(shows: Shows) -> Class
    ensures { result ≡ class_of (Some (mark_of shows)) }
{
    match shows {
        Shows::Phase(phase, _) => {
            if is_trading(phase) {
                Class::Trading
            } else {
                Class::NotTrading
            }
        }
        Shows::Unknown => Class::NotKnown,
    }
}

// By a segment alone.
fn class_in(g: RowSegment, t: u64) -> Class
    ensures { result ≡ class_in g t }
{
    if t < g.from.0 {
        return Class::NotShown;
    }
    if g.to.0 <= t {
        return Class::NotShown;
    }
    class_of(g.shows)
}

fn first(a: Class, b: Class) -> Class
    ensures { result ≡ first_of a b }
{
    match a {
        Class::NotShown => b,
        _ => a,
    }
}

// Of the row that begins at `start`, where marks may follow it or not.
pub(crate) fn row_class(rows: &[u8], start: usize, marks: bool, t: u64) -> Result<Classed, Refusal>
    requires { start ≤ length rows.now }
    ensures { Classes marks rows.now start t (numbered result) }
{
    let mut at = start;
    let mut least: u64 = 0;
    let mut waiting: u32 = 0;
    let mut shown = Class::NotShown;
    loop {
        match stands_at(rows, at, least, waiting, marks) {
            None => {
                return Err(Refusal::BadRow);
            }
            Some(Stands::End) => {
                return Ok(Classed { shown, next: None });
            }
            Some(Stands::Mark) => {
                return Ok(Classed {
                    shown,
                    next: Some(at + MARK_SIZE),
                });
            }
            Some(Stands::Segment) => {
                let g = read_segment(rows, at);
                shown = first(shown, class_in(g, t));
                at = g.behind;
                least = g.to.0;
                waiting = g.events;
            }
            Some(Stands::Event) => {
                at = read_event(rows, at).behind;
                waiting -= 1;
            }
        }
    }
}

impl From<Class> for u32 {
    ghost use Rattle.std.specs.Prelude.{◌≡◌};
    ghost use Rattle.classes.specs.Classes.{class_number};

    ghost from_gives = { λ c n. n ≡ class_number c };

    fn from(shown: Class) -> u32 {
        shown as u32
    }
}

impl From<Result<Class, Refusal>> for ClassReply {
    ghost use Rattle.std.specs.Prelude.{◌≡◌};
    ghost use Rattle.classes.specs.Reading.{class_told};

    ghost from_gives = { λ r p. p ≡ class_told r };

    fn from(r: Result<Class, Refusal>) -> ClassReply {
        match r {
            Ok(shown) => ClassReply {
                number: 0,
                shown: u32::from(shown),
            },
            Err(why) => ClassReply {
                number: u32::from(why),
                shown: 0,
            },
        }
    }
}

// Any bytes, any instant.
pub fn class_answer(row: &[u8], at: i64) -> Result<Class, Refusal>
    ensures { class_told result ≡ class_reply row.now at }
{
    asked_at(at)?;
    let classed = row_class(row, 0, false, Placed::from(at).0)?;
    match classed.next {
        None => Ok(classed.shown),
        Some(_) => Err(Refusal::BadRow),
    }
}
