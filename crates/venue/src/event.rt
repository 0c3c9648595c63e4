// The events of an accepted book, by where they stand.
ghost use Rattle.std.specs.Prelude.{◌≤◌, length, ◌<◌, ◌≡◌, get_or};
ghost use Rattle.records.specs.Limits.{base};
ghost use Rattle.venue.specs.Reading.{ListedEvent, ListedEvents, published};
ghost use Rattle.calendar.specs.Answers.{first_day, last_day};
ghost use Rattle.zone.specs.Units.{day_ns};
ghost use Rattle.records.specs.Records.{event_at};
ghost use Rattle.venue.specs.Opening.{day_of};

use crate::uncertain::{first_day, last_day, uncertainty};
use calendar::Day;
use records::*;
use wire::Field;
use zone::Uncertainty;

// An event.
#[derive(Clone, Copy)]
pub struct Event<'a> {
    pub book: &'a [u8],
    pub at: u32,
    pub ghost listed: { ListedEvent book.now at },
}

// Events in order, each by its place, and no more than a book may have.
#[derive(Clone, Copy)]
pub struct Events<'a> {
    pub book: &'a [u8],
    pub places: &'a [u32],
    pub ghost listed: { ListedEvents book.now places.now },
    pub ghost few: { length places.now ≤ base.events },
}

impl Event<'_> {
    pub fn first(&self) -> Day
        ensures { (result.0 ≡ day_of (event_at self.now.book.now self.now.at).first) × (first_day ≤ result.0) × (result.0 ≤ last_day) }
    {
        first_day(self.book, self.at as usize, EVENT)
    }

    pub fn last(&self) -> Day
        ensures { (result.0 ≡ day_of (event_at self.now.book.now self.now.at).last) × (first_day ≤ result.0) × (result.0 ≤ last_day) }
    {
        last_day(self.book, self.at as usize, EVENT)
    }

    pub fn code(&self) -> u16
        ensures { result ≡ (event_at self.now.book.now self.now.at).code }
    {
        u16::get(self.book, self.at as usize + EVENT_CODE)
    }

    pub fn evidence(&self) -> u16
        ensures { result ≡ (event_at self.now.book.now self.now.at).evidence }
    {
        u16::get(self.book, self.at as usize + EVENT_EVIDENCE)
    }

    pub fn uncertainty(&self) -> Uncertainty
        ensures { result ≡ published (event_at self.now.book.now self.now.at).uncertainty }
    {
        uncertainty(self.book, self.at as usize, EVENT)
    }

    // How many times it has.
    pub fn times(&self) -> usize
        ensures { (result ≡ length (event_at self.now.book.now self.now.at).times) × (result ≤ base.times) }
    {
        u8::get(self.book, self.at as usize + count_place(EVENT)) as usize
    }

    // Its i-th time.
    pub fn time(&self, i: usize) -> u64
        requires { i < length (event_at self.now.book.now self.now.at).times }
        ensures { (result ≡ get_or (event_at self.now.book.now self.now.at).times i 0) × (result < day_ns) }
    {
        let place = self.at as usize + step_of(EVENT) * i + time_place(EVENT);
        u64::get(self.book, place)
    }
}
