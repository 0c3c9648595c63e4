// A query's signed numbers, judged and turned into instants.
ghost use Rattle.std.specs.Prelude.{◌≡◌, cond, None, Some};
ghost use Rattle.records.specs.Book.{inside, instants};
ghost use Rattle.zone.specs.Units.{instant_of};
ghost use Rattle.lend.specs.Refusals.{number_of, numbered};
ghost use Rattle.query.specs.Judging.{instant_refusal, queried, window_refusal, window_of};

use lend::Refusal;
use records::{INSTANTS_HIGH, INSTANTS_LOW};
use wire::Placed;
use zone::{Instant, Interval, instant_of};

pub fn asked_at(at: i64) -> Result<Instant, Refusal>
    ensures { (number_of result ≡ instant_refusal at) × (queried result ≡ cond (inside instants at) (Some (instant_of at)) None) }
{
    let p = Placed::from(at);
    if p.0 < INSTANTS_LOW {
        return Err(Refusal::Outside);
    }
    if INSTANTS_HIGH < p.0 {
        return Err(Refusal::Outside);
    }
    Ok(instant_of(p))
}

// Both edges' range is judged before their order.
pub fn asked_window(start: i64, end: i64) -> Result<Interval, Refusal>
    ensures { (number_of result ≡ window_refusal start end) × (numbered result ≡ window_of start end) }
{
    let start = asked_at(start)?;
    let end = asked_at(end)?;
    if end.0 < start.0 {
        return Err(Refusal::WindowReversed);
    }
    if end.0 == start.0 {
        return Err(Refusal::WindowEmpty);
    }
    Ok(Interval { start, end })
}
