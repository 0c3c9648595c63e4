// What rules and events have alike: their days and their uncertainty.
ghost use Rattle.std.specs.Prelude.{◌≤◌, ◌≡◌, ◌⊎◌};
ghost use Rattle.std.specs.Int.{w32};
ghost use Rattle.wire.specs.Fields.{Inside};
ghost use Rattle.calendar.specs.Answers.{first_day, last_day};
ghost use Rattle.records.specs.Layout.{rule_kind, event_kind, integer, day_first, day_last};
ghost use Rattle.records.specs.Records.{published_at};
ghost use Rattle.venue.specs.Opening.{day_of};
ghost use Rattle.venue.specs.Reading.{Listed, published};

use calendar::{DAY_ZERO, Day};
use records::*;
use wire::{Field, Placed};
use zone::Uncertainty;

// The first day of a record of a kind.
pub(crate) fn first_day(book: &[u8], at: usize, kind: u16) -> Day
    requires { ((kind ≡ rule_kind) ⊎ (kind ≡ event_kind)) × Listed kind book.now at }
    ensures { (result.0 ≡ day_of (integer w32 day_first book.now at)) × (first_day ≤ result.0) × (result.0 ≤ last_day) }
{
    Day(Placed::<u32>::get(book, at + DAY_FIRST).0 - DAY_ZERO)
}

// Its last day.
pub(crate) fn last_day(book: &[u8], at: usize, kind: u16) -> Day
    requires { ((kind ≡ rule_kind) ⊎ (kind ≡ event_kind)) × Listed kind book.now at }
    ensures { (result.0 ≡ day_of (integer w32 day_last book.now at)) × (first_day ≤ result.0) × (result.0 ≤ last_day) }
{
    Day(Placed::<u32>::get(book, at + DAY_LAST).0 - DAY_ZERO)
}

// The uncertainty that it publishes.
pub(crate) fn uncertainty(book: &[u8], at: usize, kind: u16) -> Uncertainty
    requires { ((kind ≡ rule_kind) ⊎ (kind ≡ event_kind)) × Listed kind book.now at }
    ensures { result ≡ published (published_at kind book.now at) }
{
    let p = at + tag_place(kind);
    let tag = u8::get(book, p);
    let nanoseconds = Placed::<u64>::get(book, p + NANOSECONDS).0 - WIDTHS_LOW;
    let text = u16::get(book, p + TEXT);
    match tag {
        0 => Uncertainty::Exact,
        1 => Uncertainty::PublishedGranularity(nanoseconds),
        2 => Uncertainty::PublishedBound(nanoseconds, text),
        _ => Uncertainty::ProcessStart(text),
    }
}
