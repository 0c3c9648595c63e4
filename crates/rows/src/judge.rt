// Whether a good record stands at a place: document 01, number 15. A slice may have any length, so nothing is added to a place before it is
// known to lie inside.
ghost use Rattle.std.specs.Prelude.{◌≤◌, ◌≡◌, length};
ghost use Rattle.rows.specs.Rows.{framed as Rows·framed, good_phase, good_gap, good_event, good_row};
ghost use Rattle.rows.specs.Telling.{stands_at};

use crate::Stands;
use crate::reading::read_segment;
use answer::*;
use records::{KIND, LAST_CODE, LAST_PHASE};
use wire::{Field, Placed};

const WORD: u32 = 0x1_0000;

const LAST_TAG: u8 = 5;

// A record of a kind and a length stands whole at `at`. The length and the kind behind it are compared as one number.
fn framed(bytes: &[u8], at: usize, kind: u16, size: u16) -> bool
    requires { (at ≤ length bytes.now) × (2 ≤ size) }
    ensures { result ≡ Rows·framed kind size bytes.now at }
{
    if bytes.len() - at < 2 + size as usize {
        return false;
    }
    let head = u16::get(bytes, at) as u32 + WORD * (u16::get(bytes, at + KIND) as u32);
    head == size as u32 + WORD * (kind as u32)
}

fn good_phase(bytes: &[u8], at: usize) -> bool
    requires { at ≤ length bytes.now }
    ensures { result ≡ good_phase bytes.now at }
{
    if !framed(bytes, at, PHASE_KIND, PHASE_LENGTH) {
        return false;
    }
    let phase = u8::get(bytes, at + PHASE);
    let code = u8::get(bytes, at + CODE);
    let first = u8::get(bytes, at + FROM_TAG);
    let last = u8::get(bytes, at + TO_TAG);
    let whole = u8::get(bytes, at + WHOLE_TAG);
    let start = Placed::<u64>::get(bytes, at + START).0;
    let end = Placed::<u64>::get(bytes, at + END).0;
    ((phase <= LAST_PHASE) & (code <= LAST_CODE))
        & ((((first <= LAST_TAG) & (last <= LAST_TAG)) & (whole <= LAST_TAG)) & (start < end))
}

fn good_gap(bytes: &[u8], at: usize) -> bool
    requires { at ≤ length bytes.now }
    ensures { result ≡ good_gap bytes.now at }
{
    if !framed(bytes, at, GAP_KIND, GAP_LENGTH) {
        return false;
    }
    let present = u8::get(bytes, at + PRESENT);
    let start = Placed::<u64>::get(bytes, at + START).0;
    let end = Placed::<u64>::get(bytes, at + END).0;
    (present <= 1) & (start < end)
}

fn good_event(bytes: &[u8], at: usize) -> bool
    requires { at ≤ length bytes.now }
    ensures { result ≡ good_event bytes.now at }
{
    if !framed(bytes, at, EVENT_KIND, EVENT_LENGTH) {
        return false;
    }
    u8::get(bytes, at + EVENT_TAG) <= LAST_TAG
}

// What stands at a place, where a mark may stand or not; none where nothing good does. A segment may not start before `least`, and so many
// events are still to come.
pub fn stands_at(bytes: &[u8], at: usize, least: u64, waiting: u32, marks: bool) -> Option<Stands>
    requires { at ≤ length bytes.now }
    ensures { result ≡ stands_at marks bytes.now at least waiting }
{
    if 0 < waiting {
        if good_event(bytes, at) {
            return Some(Stands::Event);
        }
        return None;
    }
    if at == bytes.len() {
        return Some(Stands::End);
    }
    if good_phase(bytes, at) | good_gap(bytes, at) {
        if Placed::<u64>::get(bytes, at + START).0 < least {
            return None;
        }
        return Some(Stands::Segment);
    }
    if marks & framed(bytes, at, MARK_KIND, MARK_LENGTH) {
        return Some(Stands::Mark);
    }
    None
}

// Whether bytes are a single row, without marks.
pub fn good_row(row: &[u8]) -> bool
    ensures { result ≡ good_row row.now }
{
    let mut at: usize = 0;
    let mut least: u64 = 0;
    let mut waiting: u32 = 0;
    loop {
        match stands_at(row, at, least, waiting, false) {
            Some(Stands::Segment) => {
                let g = read_segment(row, at);
                at = g.behind;
                least = g.to.0;
                waiting = g.events;
            }
            Some(Stands::Event) => {
                at += EVENT_SIZE;
                waiting -= 1;
            }
            Some(Stands::End) => {
                return true;
            }
            Some(Stands::Mark) => {
                return false;
            }
            None => {
                return false;
            }
        }
    }
}
