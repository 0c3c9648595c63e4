// Why a book, a query or a row is refused.
ghost use Rattle.std.specs.Prelude.{ℕ, ◌≡◌};
ghost use Rattle.lend.specs.Refusals.{number, reply_of};

use crate::{Reply, answered, refused};

// In the order of document 01's numbers, from 1 on: 1 to 9 of a book, 10 to 13 of a query, 14 and 15 of the board, 16 of the room.
#[derive(Clone, Copy, Debug, PartialEq, Eq)]
pub enum Refusal {
    BookTooLong = 1,
    BadFrame = 2,
    TooMany = 3,
    BadField = 4,
    LateStart = 5,
    PointsFall = 6,
    DaysReversed = 7,
    CoversNothing = 8,
    TooClose = 9,
    Outside = 10,
    WindowReversed = 11,
    WindowEmpty = 12,
    TallyTooLong = 13,
    TooManyColumns = 14,
    BadRow = 15,
    NoRoom = 16,
}

impl From<Refusal> for u32 {
    ghost from_gives = { λ r n. n ≡ number r };

    fn from(r: Refusal) -> u32 {
        r as u32
    }
}

// What says why something is refused: the refusal, or its number.
pub trait Why: Copy {
    ghost said: { Self → ℕ };

    // What says this refusal.
    fn of(why: Refusal) -> Self
        ensures { said result ≡ number why };
}

impl Why for Refusal {
    ghost said = { number };

    fn of(why: Refusal) -> Refusal {
        why
    }
}

impl Why for u32 {
    ghost said = { λ n. n };

    fn of(why: Refusal) -> u32 {
        u32::from(why)
    }
}

impl From<Result<usize, Refusal>> for Reply {
    ghost from_gives = { λ r p. p ≡ reply_of r };

    fn from(r: Result<usize, Refusal>) -> Reply {
        match r {
            Ok(length) => answered(length),
            Err(why) => refused(u32::from(why)),
        }
    }
}
