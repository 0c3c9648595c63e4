// Which rules have days near a date. A walk from date to date looks only at these.
ghost use Rattle.std.specs.Prelude.{◌≡◌, ◌≤◌, length};
ghost use Rattle.wire.specs.Fields.{wrote};
ghost use Rattle.venue.specs.Values.{rule_in};
ghost use Rattle.day.specs.Narrowing.{meets as Narrowing·meets, near_of};

use calendar::Day;
use venue::{Rule, Rules};

// Whether a rule's days meet those from `from` to `to`.
fn meets(rule: &Rule<'_>, from: Day, to: Day) -> bool
    ensures { result ≡ Narrowing·meets (rule_in rule.now) from.0 to.0 }
{
    (rule.first().0 <= to.0) & (from.0 <= rule.last().0)
}

// Of rules, the places of those that have a day from `from` to `to` among theirs, in order. Answers how many.
pub fn near(rules: &Rules<'_>, from: Day, to: Day, found: &mut [u32]) -> usize
    requires { length rules.now.places.now ≤ length found.old }
    ensures { (result ≡ length (near_of rules.now.book.now rules.now.places.now from.0 to.0))
        × (found.new ≡ wrote found.old 0 (near_of rules.now.book.now rules.now.places.now from.0 to.0)) }
{
    let book = rules.book;
    let mut n: usize = 0;
    for at in rules.places {
        if meets(&Rule { book, at: *at }, from, to) {
            found[n] = *at;
            n += 1;
        }
    }
    n
}
