// The offset that holds at an instant. An offset is in seconds plus 57,600, so that it is never negative.
ghost use Rattle.std.specs.Prelude.{◌≡◌, ◌*◌, ◌≤◌, ◌∷◌, length, slice_index, slice_index_or};
ghost use Rattle.zone.specs.Units.{most_offset};
ghost use Rattle.zone.specs.Zone.{offset_at};
ghost use Rattle.zone.specs.Clocks.{zone_in};
ghost use Rattle.zone.specs.Private.{Between, Passed};

use crate::{Clock, Instant};

// Fewer transitions than this are bisected at once.
const FEW: usize = 8;

// For more transitions than this no guess is made: a guess multiplies by their number, and the product has to stay small.
const MANY: usize = 4_096;

// A guess counts time in steps of this, about 4 seconds: near enough.
const NEAR_NS: u64 = 0x1_0000_0000;

// How many transitions have passed at an instant, by bisection: the number is known to lie from `from` to `to`.
fn bisected(ats: &[u64], t: u64, from: usize, to: usize) -> usize
    requires { Between ats.now t from to }
    ensures { Passed ats.now t result }
{
    let mut low = from;
    let mut high = to;
    // The library's `partition_point` would have every caller show that the instants are in order; that the answer lies between is enough here.
    while low < high {
        let middle = low + (high - low) / 2;
        if ats[middle] <= t {
            low = middle + 1;
        } else {
            high = middle;
        }
    }
    low
}

// How many transitions would have passed at an instant if they stood evenly.
fn guess(ats: &[u64], t: u64) -> usize
    ensures { result ≤ length ats.now }
{
    let n = ats.len();
    if n == 0 {
        return 0;
    }
    if MANY < n {
        return 0;
    }
    let first = ats[0];
    let last = ats[n - 1];
    if t < first {
        return 0;
    }
    if last <= t {
        return n;
    }
    let gone = (t - first) / NEAR_NS;
    let span = (last - first) / NEAR_NS;
    let even = gone * (n as u64) / (span + 1);
    if even < n as u64 { even as usize } else { n }
}

// The instant of the last transition once a number of them have passed; the first instant of all where none has.
fn last_at(ats: &[u64], count: usize) -> u64
    requires { count ≤ length ats.now }
    ensures { result ≡ slice_index (0 ∷ ats.now) count }
{
    if count == 0 {
        return 0;
    }
    ats[count - 1]
}

// The instant of the next transition once a number of them have passed; past every instant where no more follows.
pub(crate) fn next_at(ats: &[u64], count: usize) -> u64
    ensures { result ≡ slice_index_or ats.now count 18446744073709551615 }
{
    if count < ats.len() {
        return ats[count];
    }
    0xffff_ffff_ffff_ffff
}

// How many transitions have passed at an instant, first by a guess: a clock that changes twice a year has its transitions nearly even, so
// that mostly the guess or the number after it is right.
fn sought(ats: &[u64], t: u64) -> usize
    ensures { Passed ats.now t result }
{
    let n = ats.len();
    let even = guess(ats, t);
    if even < n {
        if (last_at(ats, even) <= t) & (t < next_at(ats, even + 1)) {
            return bisected(ats, t, even, even + 1);
        }
    }
    bisected(ats, t, 0, n)
}

// How many of the transitions stand at or before an instant.
pub(crate) fn passed(ats: &[u64], t: u64) -> usize
    ensures { Passed ats.now t result }
{
    let n = ats.len();
    if n < FEW {
        return bisected(ats, t, 0, n);
    }
    sought(ats, t)
}

impl Clock<'_> {
    // The offset once a number of the transitions have passed.
    pub(crate) fn offset_after(&self, count: usize) -> u32
        requires { count ≤ length self.now.offsets.now }
        ensures { result ≡ slice_index (self.now.offset0 ∷ self.now.offsets.now) count }
    {
        if count == 0 {
            self.offset0
        } else {
            self.offsets[count - 1]
        }
    }

    // The offset that holds at an instant.
    pub fn offset_at(&self, t: Instant) -> u32
        ensures { (result ≡ offset_at (zone_in self.now) t.0) × (result ≤ 2 * most_offset) }
    {
        let count = passed(self.ats, t.0);
        self.offset_after(count)
    }
}
