// Phases are document 01's numbers, 0 to 7.
ghost use Rattle.std.specs.Prelude.{◌≡◌};
ghost use Rattle.records.specs.Book.{trading};

const OPENING_AUCTION: u8 = 2;

const CONTINUOUS_TRADING: u8 = 3;

const CLOSING_AUCTION: u8 = 5;

pub fn is_trading(phase: u8) -> bool
    ensures { result ≡ trading phase }
{
    (phase == OPENING_AUCTION) | (phase == CONTINUOUS_TRADING) | (phase == CLOSING_AUCTION)
}
