// From the input's bytes to the text.
ghost use Rattle.std.specs.Prelude.{◌≤◌, ◌≡◌, true, length};
ghost use Rattle.wire.specs.Fields.{Put};
ghost use Rattle.rows.specs.Rows.{framed, good_row, segments};
ghost use Rattle.listing.specs.Listing.{most, text_bytes, query_kind, query_length, listing, row_text};
ghost use Rattle.listing.specs.Private.{Puts, window_text};

use crate::lines::{count, put_all, put_head};
use lend::Refusal;
use records::{HEAD, KIND};
use timeline::window_answer;
use wire::{Field, Placed};

// The most bytes of the input, and of the answer.
pub const MOST_BYTES: usize = 65_536;

// Two bytes for each of the answer's, and the first line.
pub const TEXT_BYTES: usize = 2 * MOST_BYTES + 64;

const QUERY_KIND: u16 = 33;

const QUERY_START: usize = HEAD;

const QUERY_END: usize = QUERY_START + 8;

const QUERY_BYTES: usize = QUERY_END + 8;

const QUERY_LENGTH: u16 = (QUERY_BYTES - KIND) as u16;

// Whether the input begins with a query.
fn is_query(input: &[u8]) -> bool
    ensures { result ≡ framed query_kind query_length input.now 0 }
{
    if input.len() < QUERY_BYTES {
        return false;
    }
    (u16::get(input, 0) == QUERY_LENGTH) & (u16::get(input, KIND) == QUERY_KIND)
}

// A row's first line and its segments'.
fn put_row(answer: &[u8], out: &mut [u8]) -> usize
    requires { (good_row answer.now ≡ true) × (length answer.now ≤ most) × (text_bytes ≤ length out.old) }
    ensures { Puts out.old 0 (row_text (segments answer.now)) out.new result }
{
    let next = put_head(out, 0, 0, count(answer));
    put_all(answer, out, next)
}

// Of a book and a window.
fn put_window(book: &[u8], start: i64, end: i64, out: &mut [u8]) -> usize
    requires { text_bytes ≤ length out.old }
    ensures { Puts out.old 0 (window_text book.now start end) out.new result }
{
    let mut room = [0u8; MOST_BYTES];
    match window_answer(book, start, end, &mut room) {
        Err(why) => put_head(out, 0, u32::from(why), 0),
        Ok(length) => put_row(&room[..length], out),
    }
}

// The text of any input, at the front of the lent bytes; it answers the text's length.
pub fn list_text(input: &[u8], text: &mut [u8; TEXT_BYTES]) -> usize
    ensures { Put text.old 0 (listing input.now) (length (listing input.now)) text.new result × (result ≤ text_bytes) }
{
    if MOST_BYTES < input.len() {
        return put_head(text, 0, u32::from(Refusal::BookTooLong), 0);
    }
    if !is_query(input) {
        return put_head(text, 0, u32::from(Refusal::BadFrame), 0);
    }
    let start = i64::from(Placed::<u64>::get(input, QUERY_START));
    let end = i64::from(Placed::<u64>::get(input, QUERY_END));
    put_window(&input[QUERY_BYTES..], start, end, text)
}
