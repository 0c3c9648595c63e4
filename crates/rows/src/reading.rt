// What good records say.
ghost use Rattle.std.specs.Prelude.{◌+◌, ◌^◌, ◌<◌, ◌≡◌, true};
ghost use Rattle.wire.specs.Fields.{Inside};
ghost use Rattle.answer.specs.Forms.{event_size};
ghost use Rattle.rows.specs.Rows.{good_segment, event_of};
ghost use Rattle.rows.specs.Telling.{segment_of, end_of};

use crate::{Event, RowSegment, Shows};
use answer::*;
use records::KIND;
use wire::{Field, Placed};

// The segment that stands at a place.
pub fn read_segment(bytes: &[u8], at: usize) -> RowSegment
    requires { good_segment bytes.now at ≡ true }
    ensures { result ≡ segment_of bytes.now at }
{
    let from = Placed::<u64>::get(bytes, at + START);
    let to = Placed::<u64>::get(bytes, at + END);
    if u16::get(bytes, at + KIND) == PHASE_KIND {
        let phase = u8::get(bytes, at + PHASE);
        let evidence = u16::get(bytes, at + EVIDENCE);
        return RowSegment {
            from,
            to,
            shows: Shows::Phase(phase, evidence),
            events: u32::get(bytes, at + COUNT),
            behind: at + PHASE_SIZE,
        };
    }
    RowSegment {
        from,
        to,
        shows: Shows::Unknown,
        events: 0,
        behind: at + GAP_SIZE,
    }
}

// The place behind a segment's events.
pub fn end_of(g: RowSegment) -> usize
    requires { end_of g < 2 ^ 64 }
    ensures { result ≡ end_of g }
{
    g.behind + EVENT_SIZE * g.events as usize
}

// The event that stands at a place.
pub fn read_event(bytes: &[u8], at: usize) -> Event
    requires { Inside at event_size bytes.now }
    ensures { (result.at.0 ≡ (event_of bytes.now at).at) × (result.code ≡ (event_of bytes.now at).code) × (result.behind ≡ at + event_size) }
{
    let at_event = Placed::<u64>::get(bytes, at + EVENT_AT);
    let code = u16::get(bytes, at + EVENT_CODE);
    Event {
        at: at_event,
        code: code,
        behind: at + EVENT_SIZE,
    }
}
