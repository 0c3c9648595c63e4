// The judgement of a book: the first record that fails decides, and reading stops there.
ghost use Rattle.std.specs.Prelude.{◌≡◌};
ghost use Rattle.records.specs.Limits.{base};
ghost use Rattle.records.specs.Book.{refusal};
ghost use Rattle.lend.specs.Refusals.{number_of};

use crate::judge::*;
use lend::Refusal;
use records::{COVERAGE, KIND, MOST_BYTES, TRANSITION, TRANSITION_SIZE, is_rule, step_of};
use wire::Field;

// Whether a book is acceptable, or why not.
pub fn check(book: &[u8]) -> Result<(), Refusal>
    ensures { number_of result ≡ refusal base book.now }
{
    if MOST_BYTES < book.len() {
        return Err(Refusal::BookTooLong);
    }
    let mut at: usize = 0;
    let mut t = Seen {
        coverages: 0,
        transitions: 0,
        rules: 0,
        events: 0,
        least: 0,
    };
    let verdict = 'records: loop {
        if at == book.len() {
            break 'records Ok(());
        }
        if bad_frame(book, at) {
            break 'records Err(Refusal::BadFrame);
        }
        let next = at + 2 + u16::get(book, at) as usize;
        let kind = u16::get(book, at + KIND);
        if (t.coverages == 0) & (kind != COVERAGE) {
            break 'records Err(Refusal::BadFrame);
        }
        if too_many(kind, t) {
            break 'records Err(Refusal::TooMany);
        }
        if bad_fields(book, at, kind) {
            break 'records Err(Refusal::BadField);
        }
        // A transition has no points, and of the numbers above 4 only 9 can be its own. Most records of a long book are
        // transitions: the step behind one does not wait for its length to be read.
        if kind == TRANSITION {
            if too_close(book, at, t.least) {
                break 'records Err(Refusal::TooClose);
            }
            t = one_more(t, book, at, kind);
            at += TRANSITION_SIZE;
            continue 'records;
        }
        let n = items(book, at, kind);
        let mut item = at;
        let mut least: u64 = 0;
        let mut falls = false;
        for _ in 0..n {
            if bad_item(book, item, kind) {
                break 'records Err(Refusal::BadField);
            }
            let time = item_time(book, item, kind);
            falls = falls | (time < least);
            least = time + 1;
            item += step_of(kind);
        }
        if late_start(book, at, kind) {
            break 'records Err(Refusal::LateStart);
        }
        if falls & is_rule(kind) {
            break 'records Err(Refusal::PointsFall);
        }
        if is_reversed(book, at, kind) {
            break 'records Err(Refusal::DaysReversed);
        }
        if covers_nothing(book, at, kind) {
            break 'records Err(Refusal::CoversNothing);
        }
        t = one_more(t, book, at, kind);
        at = next;
    };
    verdict
}
