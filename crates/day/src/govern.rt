// Which rule governs a date.
ghost use Rattle.std.specs.Prelude.{◌≡◌, ◌≤◌};
ghost use Rattle.records.specs.Records.{rule_at};
ghost use Rattle.venue.specs.Values.{rule_in, rules_in};
ghost use Rattle.day.specs.Governing.{precedence as Governing·precedence, marked as Governing·marked, applies as Governing·applies, takes as Governing·takes, governing_rule, governing_place};
ghost use Rattle.day.specs.Meaning.{ListedGoverned, ruled};

use calendar::{Day, weekday};
use venue::{Rule, Rules};

// Weekly 10, announced 20, holiday and shortened 30.
fn precedence(code: u8) -> u8
    ensures { result ≡ Governing·precedence code }
{
    match code {
        0 => 10,
        3 => 20,
        _ => 30,
    }
}

// Whether a mask has the bit of a weekday.
fn marked(mask: u8, weekday: u8) -> bool
    requires { weekday ≤ 6 }
    ensures { result ≡ Governing·marked mask weekday }
{
    (mask >> weekday) % 2 == 1
}

fn applies(rule: &Rule<'_>, d: Day) -> bool
    ensures { result ≡ Governing·applies (rule_in rule.now) d.0 }
{
    if d.0 < rule.first().0 {
        return false;
    }
    if rule.last().0 < d.0 {
        return false;
    }
    if rule.code() != 0 {
        return true;
    }
    marked(rule.mask(), weekday(d) as u8)
}

// Whether a rule takes the place of the best so far.
fn takes(best: Option<u32>, rule: &Rule<'_>, d: Day) -> bool
    requires { ListedGoverned rule.now.book.now best }
    ensures { result ≡ Governing·takes (rule_at rule.now.book.now) best rule.now.at d.0 }
{
    if !applies(rule, d) {
        return false;
    }
    match best {
        None => true,
        Some(at) => {
            let other = Rule {
                book: rule.book,
                at,
            };
            let old = precedence(other.code());
            let new = precedence(rule.code());
            if old < new {
                return true;
            }
            (old == new) & (other.first().0 <= rule.first().0)
        }
    }
}

// Where the rule stands that governs a date.
pub fn governing_rule(rules: &Rules<'_>, d: Day) -> Option<u32>
    ensures { (ruled rules.now.book.now result ≡ governing_rule (rules_in rules.now) d.0)
        × ListedGoverned rules.now.book.now result × (result ≡ governing_place rules.now.book.now rules.now.places.now d.0) }
{
    let book = rules.book;
    let mut best = None;
    for at in rules.places {
        if takes(best, &Rule { book, at: *at }, d) {
            best = Some(*at);
        }
    }
    best
}
