// The rules of an accepted book, by where they stand.
ghost use Rattle.venue.specs.Reading.{ListedRule, ListedRules, published, midnight};
ghost use Rattle.std.specs.Prelude.{◌≤◌, ◌<◌, ◌≡◌, length, get_or};
ghost use Rattle.calendar.specs.Answers.{first_day, last_day};
ghost use Rattle.zone.specs.Units.{day_ns};
ghost use Rattle.records.specs.Book.{last_mask, last_phase, last_code};
ghost use Rattle.records.specs.Limits.{base};
ghost use Rattle.records.specs.Records.{rule_at};
ghost use Rattle.venue.specs.Opening.{day_of};

use crate::uncertain::{first_day, last_day, uncertainty};
use calendar::Day;
use records::*;
use wire::Field;
use zone::Uncertainty;

// A rule.
#[derive(Clone, Copy)]
pub struct Rule<'a> {
    pub book: &'a [u8],
    pub at: u32,
    pub ghost listed: { ListedRule book.now at },
}

// Rules in order, each by its place.
#[derive(Clone, Copy)]
pub struct Rules<'a> {
    pub book: &'a [u8],
    pub places: &'a [u32],
    pub ghost listed: { ListedRules book.now places.now },
}

impl Rule<'_> {
    pub fn first(&self) -> Day
        ensures { (result.0 ≡ day_of (rule_at self.now.book.now self.now.at).first) × (first_day ≤ result.0) × (result.0 ≤ last_day) }
    {
        first_day(self.book, self.at as usize, RULE)
    }

    pub fn last(&self) -> Day
        ensures { (result.0 ≡ day_of (rule_at self.now.book.now self.now.at).last) × (first_day ≤ result.0) × (result.0 ≤ last_day) }
    {
        last_day(self.book, self.at as usize, RULE)
    }

    pub fn code(&self) -> u8
        ensures { (result ≡ (rule_at self.now.book.now self.now.at).code) × (result ≤ last_code) }
    {
        u8::get(self.book, self.at as usize + RULE_CODE)
    }

    pub fn mask(&self) -> u8
        ensures { (result ≡ (rule_at self.now.book.now self.now.at).mask) × (result ≤ last_mask) }
    {
        u8::get(self.book, self.at as usize + RULE_MASK)
    }

    pub fn label(&self) -> u16
        ensures { result ≡ (rule_at self.now.book.now self.now.at).label }
    {
        u16::get(self.book, self.at as usize + RULE_LABEL)
    }

    pub fn evidence(&self) -> u16
        ensures { result ≡ (rule_at self.now.book.now self.now.at).evidence }
    {
        u16::get(self.book, self.at as usize + RULE_EVIDENCE)
    }

    pub fn derived(&self) -> u16
        ensures { result ≡ (rule_at self.now.book.now self.now.at).derived }
    {
        u16::get(self.book, self.at as usize + RULE_DERIVED)
    }

    pub fn uncertainty(&self) -> Uncertainty
        ensures { result ≡ published (rule_at self.now.book.now self.now.at).uncertainty }
    {
        uncertainty(self.book, self.at as usize, RULE)
    }

    // How many points it has.
    pub fn points(&self) -> usize
        ensures { (result ≡ length (rule_at self.now.book.now self.now.at).points) × (1 ≤ result) × (result ≤ base.points) }
    {
        u8::get(self.book, self.at as usize + count_place(RULE)) as usize
    }

    // The time of its i-th point.
    pub fn point_time(&self, i: usize) -> u64
        requires { i < length (rule_at self.now.book.now self.now.at).points }
        ensures { (result ≡ (get_or (rule_at self.now.book.now self.now.at).points i midnight).time) × (result < day_ns) }
    {
        let place = self.at as usize + step_of(RULE) * i + time_place(RULE);
        u64::get(self.book, place)
    }

    // That point's phase.
    pub fn point_phase(&self, i: usize) -> u8
        requires { i < length (rule_at self.now.book.now self.now.at).points }
        ensures { (result ≡ (get_or (rule_at self.now.book.now self.now.at).points i midnight).phase) × (result ≤ last_phase) }
    {
        let place = self.at as usize + step_of(RULE) * i + time_place(RULE) + PHASE;
        u8::get(self.book, place)
    }
}
