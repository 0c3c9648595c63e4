// Fields of a byte slice, the lowest byte first: of unsigned numbers, and of signed ones in two's complement, as Placed.
ghost use Rattle.std.specs.Prelude.{◌≡◌, ℕ};
ghost use Rattle.std.specs.Int.{w32, w64};
ghost use Rattle.wire.specs.Fields.{Inside, Put, bytes, field};
ghost use Rattle.wire.specs.Signs.{turned};

use crate::sign::{HALF4, HALF8, Placed};

// A number that a field of `width` bytes says: `said_by` is the number that the field's bits say, and `bits` are the bits that say a number.
pub trait Field: Copy {
    ghost width: { ℕ };

    ghost said_by: { ℕ → Self };

    ghost bits: { Self → ℕ };

    // The field that stands at a place.
    fn get(s: &[u8], at: usize) -> Self
        requires { Inside at width s.now }
        ensures { result ≡ said_by (field width s.now at) };

    // Writes the field at a place, and answers the place behind it.
    fn put(self, out: &mut [u8], at: usize) -> usize
        requires { Inside at width out.old }
        ensures { Put out.old at (bytes width (bits self)) width out.new result };
}

impl Field for u8 {
    ghost width = { 1 };

    ghost said_by = { λ x. x };

    ghost bits = { λ x. x };

    fn get(s: &[u8], at: usize) -> u8 {
        s[at]
    }

    fn put(self, out: &mut [u8], at: usize) -> usize {
        out[at] = self;
        at + 1
    }
}

impl Field for u16 {
    ghost width = { 2 };

    ghost said_by = { λ x. x };

    ghost bits = { λ x. x };

    fn get(s: &[u8], at: usize) -> u16 {
        let low = u8::get(s, at) as u16;
        let high = u8::get(s, at + 1) as u16;
        low + 0x100 * high
    }

    fn put(self, out: &mut [u8], at: usize) -> usize {
        let next = ((self % 0x100) as u8).put(out, at);
        ((self / 0x100) as u8).put(out, next)
    }
}

impl Field for u32 {
    ghost width = { 4 };

    ghost said_by = { λ x. x };

    ghost bits = { λ x. x };

    fn get(s: &[u8], at: usize) -> u32 {
        let low = u16::get(s, at) as u32;
        let high = u16::get(s, at + 2) as u32;
        low + 0x1_0000 * high
    }

    fn put(self, out: &mut [u8], at: usize) -> usize {
        let next = ((self % 0x1_0000) as u16).put(out, at);
        ((self / 0x1_0000) as u16).put(out, next)
    }
}

impl Field for u64 {
    ghost width = { 8 };

    ghost said_by = { λ x. x };

    ghost bits = { λ x. x };

    fn get(s: &[u8], at: usize) -> u64 {
        let low = u32::get(s, at) as u64;
        let high = u32::get(s, at + 4) as u64;
        low + 0x1_0000_0000 * high
    }

    fn put(self, out: &mut [u8], at: usize) -> usize {
        let next = ((self % 0x1_0000_0000) as u32).put(out, at);
        ((self / 0x1_0000_0000) as u32).put(out, next)
    }
}

// Two's-complement fields.
impl Field for Placed<u32> {
    ghost width = { 4 };

    ghost said_by = { λ x. record { 0 = turned w32 x } };

    ghost bits = { λ p. turned w32 p.0 };

    fn get(s: &[u8], at: usize) -> Placed<u32> {
        Placed(u32::get(s, at).wrapping_add(HALF4))
    }

    fn put(self, out: &mut [u8], at: usize) -> usize {
        self.0.wrapping_add(HALF4).put(out, at)
    }
}

impl Field for Placed<u64> {
    ghost width = { 8 };

    ghost said_by = { λ x. record { 0 = turned w64 x } };

    ghost bits = { λ p. turned w64 p.0 };

    fn get(s: &[u8], at: usize) -> Placed<u64> {
        Placed(u64::get(s, at).wrapping_add(HALF8))
    }

    fn put(self, out: &mut [u8], at: usize) -> usize {
        self.0.wrapping_add(HALF8).put(out, at)
    }
}
