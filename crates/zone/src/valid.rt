// Whether slices hold transitions that a zone can have.
ghost use Rattle.std.specs.Prelude.{◌≡◌};
ghost use Rattle.zone.specs.Answers.{valid};

use crate::{FIRST_TRANSITION, LAST_TRANSITION, OFFSET_MOST, SECOND_NS, SPACING};

const SPACING_NS: u64 = SPACING * SECOND_NS;

pub fn is_valid(offset0: u32, ats: &[u64], offsets: &[u32]) -> bool
    ensures { result ≡ valid offset0 ats.now offsets.now }
{
    if OFFSET_MOST < offset0 {
        return false;
    }
    if ats.len() != offsets.len() {
        return false;
    }
    let mut least = FIRST_TRANSITION;
    for (at, offset) in ats.iter().zip(offsets) {
        if !((least <= *at) & (*at <= LAST_TRANSITION) & (*offset <= OFFSET_MOST)) {
            return false;
        }
        least = *at + SPACING_NS;
    }
    true
}
