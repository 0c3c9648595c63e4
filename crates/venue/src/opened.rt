// A book opened: judged first, then what it holds put into a room that the caller lends.
ghost use Rattle.std.specs.Prelude.{◌≡◌, Some, Ok, replicate};
ghost use Rattle.records.specs.Book.{records, refusal};
ghost use Rattle.wire.specs.Fields.{wrote};
ghost use Rattle.records.specs.Limits.{base};
ghost use Rattle.lend.specs.Refusals.{number_of, numbered};
ghost use Rattle.venue.specs.Opening.{opened, stored, ats_of, offsets_of, rule_places, event_places};
ghost use Rattle.venue.specs.Filled.{Filled, Holds};
ghost use Rattle.venue.specs.Private.{counts_of};

use crate::{Events, Rules, Venue};
use book::check;
use lend::Refusal;
use records::{
    COVERAGE_END, COVERAGE_OFFSET, COVERAGE_START, EVENT, KIND, MOST_EVENTS, MOST_RULES,
    MOST_TRANSITIONS, OFFSETS_LOW, RULE, TRANSITION, TRANSITION_INSTANT, TRANSITION_OFFSET,
    TRANSITION_SIZE,
};
use wire::{Field, Placed};
use zone::{Clock, Interval, instant_of, instant_of_seconds};

// Coverage, the first offset, in seconds plus 57,600, and how many of each kind there are.
#[derive(Clone, Copy)]
pub struct Header {
    pub coverage: Interval,
    pub offset0: u32,
    pub transitions: usize,
    pub rules: usize,
    pub events: usize,
}

// How many clock changes, rules and events there are.
#[derive(Clone, Copy)]
struct Counts {
    transitions: usize,
    rules: usize,
    events: usize,
}

// Room for what is kept of any book: its clock changes' instants and offsets, and where its rules and its events stand.
#[derive(Drop)]
pub struct Room {
    pub ats: [u64; MOST_TRANSITIONS],
    pub offsets: [u32; MOST_TRANSITIONS],
    pub rules: [u32; MOST_RULES],
    pub events: [u32; MOST_EVENTS],
}

impl Room {
    pub fn new() -> Room
        ensures { (result.ats ≡ replicate base.transitions 0)
            × (result.offsets ≡ replicate base.transitions 0)
            × (result.rules ≡ replicate base.rules 0)
            × (result.events ≡ replicate base.events 0) }
    {
        Room {
            ats: [0; MOST_TRANSITIONS],
            offsets: [0; MOST_TRANSITIONS],
            rules: [0; MOST_RULES],
            events: [0; MOST_EVENTS],
        }
    }

    // Stores the clock changes of an accepted book and where its rules and its events stand, and answers how many there are.
    // A clock change's length is known from its kind, so that the step behind it does not wait for the length to be read.
    fn store(&mut self, book: &[u8]) -> Counts
        requires { refusal base book.now ≡ 0 }
        ensures { (result ≡ counts_of (records book.now))
            × (self.new.ats ≡ wrote self.old.ats 0 (ats_of (records book.now)))
            × (self.new.offsets ≡ wrote self.old.offsets 0 (offsets_of (records book.now)))
            × (self.new.rules ≡ wrote self.old.rules 0 (rule_places book.now))
            × (self.new.events ≡ wrote self.old.events 0 (event_places book.now)) }
    {
        let mut at: usize = 0;
        let mut change: usize = 0;
        let mut rule: usize = 0;
        let mut event: usize = 0;
        // A record says where the next one begins.
        while at < book.len() {
            let kind = u16::get(book, at + KIND);
            if kind == TRANSITION {
                let seconds = Placed::<u64>::get(book, at + TRANSITION_INSTANT);
                let offset = Placed::<u32>::get(book, at + TRANSITION_OFFSET);
                self.ats[change] = instant_of_seconds(seconds).0;
                self.offsets[change] = offset.0 - OFFSETS_LOW;
                change += 1;
                at += TRANSITION_SIZE;
                continue;
            }
            let next = at + 2 + u16::get(book, at) as usize;
            match kind {
                RULE => {
                    self.rules[rule] = at as u32;
                    rule += 1;
                }
                EVENT => {
                    self.events[event] = at as u32;
                    event += 1;
                }
                _ => {}
            }
            at = next;
        }
        Counts {
            transitions: change,
            rules: rule,
            events: event,
        }
    }

    // Judges a book and, if it is accepted, stores its clock changes and where its rules and its events stand. An empty book is a venue without
    // data.
    pub fn open(&mut self, book: &[u8]) -> Result<Option<Header>, Refusal>
        ensures { (numbered result ≡ opened book.now)
            × (self.new.ats ≡ stored book.now self.old.ats (ats_of (records book.now)))
            × (self.new.offsets ≡ stored book.now self.old.offsets (offsets_of (records book.now)))
            × (self.new.rules ≡ stored book.now self.old.rules (rule_places book.now))
            × (self.new.events ≡ stored book.now self.old.events (event_places book.now))
            × (number_of result ≡ refusal base book.now) }
    {
        check(book)?;
        if book.len() == 0 {
            return Ok(None);
        }
        let start = instant_of(Placed::<u64>::get(book, COVERAGE_START));
        let end = instant_of(Placed::<u64>::get(book, COVERAGE_END));
        let offset0 = Placed::<u32>::get(book, COVERAGE_OFFSET).0 - OFFSETS_LOW;
        let n = self.store(book);
        Ok(Some(Header {
            coverage: Interval { start, end },
            offset0,
            transitions: n.transitions,
            rules: n.rules,
            events: n.events,
        }))
    }

    // The venue of the book that was opened here.
    pub fn venue<'a>(&'a self, book: &'a [u8], h: Header) -> Venue<'a>
        requires { Filled book.now (Ok (Some h)) self.now.ats self.now.offsets self.now.rules self.now.events }
        ensures { Holds book.now h result }
    {
        let ats = &self.ats[..h.transitions];
        let offsets = &self.offsets[..h.transitions];
        let rules = &self.rules[..h.rules];
        let events = &self.events[..h.events];
        Venue {
            coverage: h.coverage,
            clock: Clock {
                offset0: h.offset0,
                ats,
                offsets,
            },
            rules: Rules {
                book,
                places: rules,
            },
            events: Events {
                book,
                places: events,
            },
        }
    }
}
