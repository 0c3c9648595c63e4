// Joining, document 01's phase rule 5: which spans join, and what joined spans become.
#![tactic(auto)]

ghost use Rattle.std.specs.Prelude.{◌≡◌, ◌+◌, ◌^◌, ◌<◌};
ghost use Rattle.joining.specs.Amending.{is_joinable, merged_phase};

use answer::Phase;
use zone::{Instant, widest};

// What the last span showed: where it ended, its phase and its evidence.
#[derive(Clone, Copy)]
pub struct Last {
    pub until: Instant,
    pub phase: u8,
    pub evidence: u16,
}

// Whether a span from `from` on touches the last one, if there is one, and shows the same.
pub fn is_joinable(last: Option<Last>, from: Instant, phase: u8, evidence: u16) -> bool
    ensures { result ≡ is_joinable last from.0 phase evidence }
{
    match last {
        None => false,
        Some(l) => { (l.until.0 == from.0) & ((l.phase == phase) & (l.evidence == evidence)) }
    }
}

// The record of two spans that join.
pub fn merged(a: Phase, b: Phase) -> Phase
    requires { a.events + b.events < 2 ^ 32 }
    ensures { result ≡ merged_phase a b }
{
    Phase {
        end: b.end,
        to: b.to,
        whole: widest(a.whole, b.whole),
        events: a.events + b.events,
        ..a
    }
}
