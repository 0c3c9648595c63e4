// A window asked of a book: the book is judged before the window.
#![tactic(auto)]

ghost use Rattle.std.specs.Prelude.{◌≡◌};
ghost use Rattle.lend.specs.Refusals.{number_by, numbered_by};
ghost use Rattle.venue.specs.Opening.{number_opened};
ghost use Rattle.query.specs.Judging.{window_refusal, window_of};
ghost use Rattle.book_query.specs.Judging.{judged_by};

use lend::Why;
use query::asked_window;
use venue::Header;
use zone::Interval;

// By what opening the book answered: what says why the book is refused, else why the window is; else the header, if the book names a venue, and
// the window.
pub fn judged_window<W: Why>(
    opened: Result<Option<Header>, W>,
    start: i64,
    end: i64,
) -> Result<(Option<Header>, Interval), W>
    ensures { (number_by W.said result ≡ number_opened (numbered_by W.said opened) (window_refusal start end))
        × (numbered_by W.said result ≡ judged_by (numbered_by W.said opened) (window_of start end)) }
{
    let header = opened?;
    match asked_window(start, end) {
        Ok(window) => Ok((header, window)),
        Err(why) => Err(W::of(why)),
    }
}
