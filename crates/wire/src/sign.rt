// Signed numbers placed: each plus half of its range, so that it is never negative and order is kept.
ghost use Rattle.std.specs.Prelude.{◌≡◌};
ghost use Rattle.std.specs.Int.{w32, w64};
ghost use Rattle.wire.specs.Signs.{placed, meant};

// Any i64 plus 2^63, as a u64; any i32 plus 2^31, as a u32.
#[derive(Clone, Copy)]
pub struct Placed<T>(pub T);

pub const HALF8: u64 = 0x8000_0000_0000_0000;

pub const HALF4: u32 = 0x8000_0000;

impl From<i64> for Placed<u64> {
    ghost from_gives = { λ x p. p.0 ≡ placed w64 x };

    fn from(x: i64) -> Placed<u64> {
        Placed(x.cast_unsigned().wrapping_add(HALF8))
    }
}

impl From<Placed<u64>> for i64 {
    ghost from_gives = { λ p x. x ≡ meant w64 p.0 };

    fn from(p: Placed<u64>) -> i64 {
        p.0.wrapping_add(HALF8).cast_signed()
    }
}

impl From<i32> for Placed<u32> {
    ghost from_gives = { λ x p. p.0 ≡ placed w32 x };

    fn from(x: i32) -> Placed<u32> {
        Placed(x.cast_unsigned().wrapping_add(HALF4))
    }
}

impl From<Placed<u32>> for i32 {
    ghost from_gives = { λ p x. x ≡ meant w32 p.0 };

    fn from(p: Placed<u32>) -> i32 {
        p.0.wrapping_add(HALF4).cast_signed()
    }
}
