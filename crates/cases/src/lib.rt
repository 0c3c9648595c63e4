// What the programs share: a buffer filled from a reader, and, of those that compare a crate with a list of cases, the list's blocks, its
// numbers and the counts. A list has blocks of 65,536 bytes; a block has records, each a kind, a byte, and signed numbers of 8 bytes, and zeros behind
// the last.
#![tactic(auto)]

ghost use Rattle.std.specs.Prelude.{◌≡◌, ◌≤◌, IfOk, length};
ghost use Rattle.cases.specs.Cases.{number_at, counted, more, met_of};

use std::io::{AsBytes, Read, Result};
use wire::{Field, HALF8, Placed};

// How many bytes a block of a list has.
pub const BLOCK_BYTES: usize = 65_536;

// More blocks than a list has.
pub const BLOCKS: u64 = 10_000;

// The count of what differed stands at place 0, and the others at their kinds.
const DIFFERED: u8 = 0;

// The number 0, placed.
pub const ZERO: u64 = HALF8;

// The number at a place of the record at `at`; 0 where the list ends before it.
pub fn number(list: &[u8], at: usize, place: u8) -> Placed<u64>
    ensures { result.0 ≡ number_at list.now at place }
{
    let from = 8 * (place as usize) + 1;
    if list.len() < at {
        return Placed(ZERO);
    }
    if list.len() - at < from + 8 {
        return Placed(ZERO);
    }
    Placed::<u64>::get(list, at + from)
}

fn add(counts: &mut [u64], kind: u8)
    ensures { counts.new ≡ more counts.old kind }
{
    let i = kind as usize;
    if i < counts.len() {
        counts[i] = counts[i].wrapping_add(1);
    }
}

// One more of a kind, and one more that differed unless it is the same.
pub fn met(counts: &mut [u64], kind: u8, same: bool)
    ensures { counts.new ≡ met_of counts.old kind same }
{
    add(counts, kind);
    if !same {
        add(counts, DIFFERED);
    }
}

// Fills a buffer as far as a reader goes, and answers how many bytes came.
pub fn read_full<R: Read>(from: &mut R, buffer: &mut [u8]) -> Result<usize>
    ensures { IfOk result (λ n. n ≤ length buffer.new) }
{
    let mut filled: usize = 0;
    // A read gives as much as the reader has.
    while filled < buffer.len() {
        let n = from.read(&mut buffer[filled..])?;
        if n == 0 {
            return Ok(filled);
        }
        filled += n;
    }
    Ok(filled)
}

// Hands each block of a list to a visitor. What the visits add up to is compared with what should be, and not proved.
pub fn each_block<R: Read, F: FnMut(&[u8])>(list: &mut R, mut visit: F) -> Result<()>
    requires { F.IsAlwaysCallable visit }
{
    let mut block = [0u8; BLOCK_BYTES];
    for _ in 0..BLOCKS {
        let n = read_full(list, &mut block)?;
        if n == 0 {
            break;
        }
        visit(&block[..n]);
    }
    Ok(())
}

// A number of the list that counts something; 0 for one below 0 or not below 2^32.
pub fn count(p: Placed<u64>) -> u32
    ensures { result ≡ counted p.0 }
{
    let n = p.0;
    if n < ZERO {
        return 0;
    }
    if 0xffff_ffff < n - ZERO {
        return 0;
    }
    (n - ZERO) as u32
}

// Prints a name, as it is, and the count at a place. What is printed is compared with what should be, and not proved.
pub fn report(rt: &impl Print, name: impl AsBytes + Copy, counts: &[u64], kind: u8) -> Result<()> {
    if let Some(count) = counts.get(kind as usize) {
        rt.write_all(name.as_byte_slice())?;
        println!(rt; "{count}")?;
    }
    Ok(())
}

// Prints how many cases got each number, of those whose places are below `end`: a number's count stands one place behind it.
pub fn report_refusals(rt: &impl Print, counts: &[u64], end: u8) -> Result<()> {
    for kind in 2..end {
        let number = kind - 1;
        print!(rt; "refused by {number}")?;
        report(rt, " ", counts, kind)?;
    }
    Ok(())
}
