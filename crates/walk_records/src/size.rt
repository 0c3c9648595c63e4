// The first pass over a walk: how many bytes its records take, joined.
ghost use Rattle.std.specs.Prelude.{◌^◌, ◌≤◌, ◌<◌, ◌≡◌, cond, length};
ghost use Rattle.answer.specs.Forms.{encode_all, phase_size};
ghost use Rattle.day.specs.Venues.{values_in};
ghost use Rattle.walk_records.specs.Walked.{walk_forms};

use answer::{EVENT_SIZE, PHASE_SIZE};
use day::NEAR_RULES_LENGTH;
use events::count_events;
use joining::{Last, is_joinable};
use venue::{Rule, Venue};
use walk::{MOST_BOUNDARIES, MOST_TURNS, after_piece, begin, next_piece, next_turn};
use zone::Interval;

// A span that joins the one before takes no record of its own.
fn record_size(joining: bool) -> usize
    ensures { (result ≡ cond joining 0 phase_size) × (result ≤ phase_size) }
{
    if joining { 0 } else { PHASE_SIZE }
}

// How many bytes the walk over an interval takes.
pub fn walk_size(venue: &Venue<'_>, window: Interval) -> usize
    ensures { (result ≡ length (encode_all (walk_forms (values_in venue.now) window.start.0 window.end.0)))
        × (result < 2 ^ 32) }
{
    let book = venue.rules.book;
    let hi = window.end;
    let mut kept = [0u32; NEAR_RULES_LENGTH];
    let mut edges = [0u64; MOST_BOUNDARIES];
    let opening = begin(venue, &mut kept, &mut edges, MOST_TURNS - 1, window.start);
    // A copy, whose fields the loop can hold in registers: the place that `begin` fills stays in memory.
    let mut w = opening;
    let mut last = None;
    let mut size: usize = 0;
    'pieces: loop {
        match next_piece(book, &edges, hi, w) {
            Some(q) => {
                let span = Interval {
                    start: q.start,
                    end: q.end,
                };
                let rule = Rule { book, at: q.rule };
                let phase = rule.point_phase(q.point);
                let evidence = rule.evidence();
                let record = record_size(is_joinable(last, q.from, phase, evidence));
                let count = count_events(&venue.clock, &venue.events, span);
                size = size + record + EVENT_SIZE * count;
                last = Some(Last {
                    until: q.to,
                    phase,
                    evidence,
                });
                w = after_piece(q);
            }
            None => match next_turn(venue, &mut kept, &mut edges, hi, w) {
                None => break 'pieces,
                Some(next) => {
                    w = next;
                }
            },
        }
    }
    size
}
