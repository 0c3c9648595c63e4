// The wider of two uncertainties.
ghost use Rattle.std.specs.Prelude.{◌≡◌};
ghost use Rattle.zone.specs.Answers.{width, widest_of};

use crate::Uncertainty;

// How wide an uncertainty is, in nanoseconds; none where it is unbounded.
pub(crate) fn bound_nanos(u: Uncertainty) -> Option<u64>
    ensures { result ≡ width u }
{
    match u {
        Uncertainty::Exact => Some(0),
        Uncertainty::PublishedGranularity(n) => Some(n),
        Uncertainty::PublishedBound(n, _) => Some(n),
        Uncertainty::ProcessStart(_) => None,
        Uncertainty::AmbiguousLocalTime(_) => None,
        Uncertainty::NonexistentLocalTime(_) => None,
    }
}

// The wider of two, the left on ties and when it is unbounded.
pub fn widest(left: Uncertainty, right: Uncertainty) -> Uncertainty
    ensures { result ≡ widest_of left right }
{
    match (bound_nanos(left), bound_nanos(right)) {
        (None, _) => left,
        (Some(_), None) => right,
        (Some(a), Some(b)) => { if b <= a { left } else { right } }
    }
}
