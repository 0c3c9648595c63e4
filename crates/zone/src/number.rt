// Instants and document 01's numbers of them, nanoseconds since 1970, signed. Only here is one made of the other.
ghost use Rattle.std.specs.Prelude.{◌≡◌};
ghost use Rattle.std.specs.Int.{w64};
ghost use Rattle.std.proofs.Common.{of_z};
ghost use Rattle.wire.specs.Signs.{meant};
ghost use Rattle.zone.specs.Units.{instant_number, instant_of, seconds_instant, SecondsFit};

use crate::{Instant, SECOND_NS};
use wire::{HALF8, Placed};

// 1970 as an instant, in seconds and in nanoseconds.
const SECONDS_TO_1970: u64 = 2_209_593_600;

const TO_1970: u64 = SECONDS_TO_1970 * SECOND_NS;

// The instant 0 as a placed number.
const INSTANT_ZERO: u64 = HALF8 - TO_1970;

const SECOND_ZERO: u64 = HALF8 - SECONDS_TO_1970;

// So much less than 2^64.
const FROM_1970: u64 = INSTANT_ZERO + HALF8;

// The instant that a number means.
pub fn instant_of(p: Placed<u64>) -> Instant
    ensures { result.0 ≡ instant_of (meant w64 p.0) }
{
    let placed = p.0;
    if placed < INSTANT_ZERO {
        return Instant(0);
    }
    Instant(placed - INSTANT_ZERO)
}

// The instant that a number of seconds means.
pub fn instant_of_seconds(p: Placed<u64>) -> Instant
    requires { SecondsFit p.0 }
    ensures { result.0 ≡ seconds_instant (meant w64 p.0) }
{
    Instant((p.0 - SECOND_ZERO) * SECOND_NS)
}

// The number of an instant, as the bits of a two's-complement field.
pub fn number_bits(t: Instant) -> u64
    ensures { result ≡ of_z w64 (instant_number t.0) }
{
    t.0.wrapping_add(FROM_1970)
}
