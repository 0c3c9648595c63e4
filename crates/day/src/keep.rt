// The rule that governs a date, of the rules near it. Who goes from date to date keeps those that have a day in the next weeks: an array has
// the first day that they are kept for, the day behind the last, how many they are, and where they stand.
ghost use Rattle.std.specs.Prelude.{◌≡◌, ◌+◌, ◌^◌, ◌≤◌, ◌<◌, length};
ghost use Rattle.wire.specs.Fields.{wrote};
ghost use Rattle.records.specs.Limits.{base};
ghost use Rattle.venue.specs.Values.{rules_in};
ghost use Rattle.day.specs.Governing.{governing_rule, governing_place};
ghost use Rattle.day.specs.Meaning.{ruled, ListedGoverned};
ghost use Rattle.day.specs.Keeping.{kept_from, kept_numbers, kept_after, Keeps};

use crate::govern::governing_rule;
use crate::narrow::near;
use calendar::Day;
use records::MOST_RULES;
use venue::Rules;

const FIRST: usize = 0;

const BEHIND: usize = 1;

const COUNT: usize = 2;

const PLACES: usize = 3;

// Room for the places of all rules of a book, behind the three numbers.
pub const NEAR_RULES_LENGTH: usize = MOST_RULES + PLACES;

// For how many days the rules near them are kept.
const STRETCH: u32 = 64;

// Keeps the rules near a date and the days after it.
fn keep(rules: &Rules<'_>, d: Day, kept: &mut [u32])
    requires { (length rules.now.places.now ≤ base.rules) × (kept_from + base.rules ≤ length kept.old) × (d.0 < 2 ^ 17) }
    ensures { kept.new ≡ wrote kept.old 0 (kept_numbers rules.now.book.now rules.now.places.now d.0) }
{
    let behind = d.0 + STRETCH;
    let n = near(rules, d, Day(behind - 1), &mut kept[PLACES..]);
    kept[FIRST] = d.0;
    kept[BEHIND] = behind;
    kept[COUNT] = n as u32;
}

// Where the rule stands that governs a date, as `governing_rule`. Of more rules than a book may have, none are kept and all are looked at.
pub fn governing_near(rules: &Rules<'_>, d: Day, kept: &mut [u32]) -> Option<u32>
    requires { Keeps rules.now.book.now rules.now.places.now kept.old × (kept_from + base.rules ≤ length kept.old) × (d.0 < 2 ^ 17) }
    ensures { (ruled rules.now.book.now result ≡ governing_rule (rules_in rules.now) d.0)
        × ListedGoverned rules.now.book.now result × (result ≡ governing_place rules.now.book.now rules.now.places.now d.0)
        × Keeps rules.now.book.now rules.now.places.now kept.new
        × (kept.new ≡ kept_after rules.now.book.now rules.now.places.now d.0 kept.old) }
{
    if MOST_RULES < rules.places.len() {
        return governing_rule(rules, d);
    }
    if (d.0 < kept[FIRST]) | (kept[BEHIND] <= d.0) {
        keep(rules, d, kept);
    }
    let end = PLACES + kept[COUNT] as usize;
    let close = Rules {
        book: rules.book,
        places: &kept[PLACES..end],
    };
    governing_rule(&close, d)
}
