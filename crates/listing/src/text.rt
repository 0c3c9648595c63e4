// Numbers as text. Each function writes from `at` on and answers the place behind what it wrote.
ghost use Rattle.std.specs.Prelude.{◌<◌, [], ◌∷◌};
ghost use Rattle.listing.specs.Text.{space, digit, decimal, instant};
ghost use Rattle.listing.specs.Private.{TextFits, Puts};

use wire::{Field, HALF8, Placed};

pub(crate) fn put_byte(out: &mut [u8], at: usize, b: u8) -> usize
    requires { TextFits at (b ∷ []) out.old }
    ensures { Puts out.old at (b ∷ []) out.new result }
{
    b.put(out, at)
}

pub(crate) fn put_word(out: &mut [u8], at: usize, word: &[u8]) -> usize
    requires { TextFits at word.now out.old }
    ensures { Puts out.old at word.now out.new result }
{
    let mut place = at;
    for byte in word {
        place = put_byte(out, place, *byte);
    }
    place
}

fn put_digit(out: &mut [u8], at: usize, d: u64) -> usize
    requires { (d < 10) × TextFits at (digit d ∷ []) out.old }
    ensures { Puts out.old at (digit d ∷ []) out.new result }
{
    put_byte(out, at, b'0' + d as u8)
}

fn put_decimal(out: &mut [u8], at: usize, n: u64) -> usize
    requires { TextFits at (decimal n) out.old }
    ensures { Puts out.old at (decimal n) out.new result }
{
    if n < 10 {
        return put_digit(out, at, n);
    }
    let next = put_decimal(out, at, n / 10);
    put_digit(out, next, n % 10)
}

// A number behind a space.
pub(crate) fn put_number(out: &mut [u8], at: usize, n: u64) -> usize
    requires { TextFits at (space ∷ decimal n) out.old }
    ensures { Puts out.old at (space ∷ decimal n) out.new result }
{
    let next = put_byte(out, at, b' ');
    put_decimal(out, next, n)
}

fn put_signed(out: &mut [u8], at: usize, p: Placed<u64>) -> usize
    requires { TextFits at (instant p.0) out.old }
    ensures { Puts out.old at (instant p.0) out.new result }
{
    let x = p.0;
    if x < HALF8 {
        let next = put_byte(out, at, b'-');
        return put_decimal(out, next, HALF8 - x);
    }
    put_decimal(out, at, x - HALF8)
}

// An instant behind a space.
pub(crate) fn put_instant(out: &mut [u8], at: usize, p: Placed<u64>) -> usize
    requires { TextFits at (space ∷ instant p.0) out.old }
    ensures { Puts out.old at (space ∷ instant p.0) out.new result }
{
    let next = put_byte(out, at, b' ');
    put_signed(out, next, p)
}
