// Damage that leaves the length: a bit turned, two neighbouring records exchanged.
ghost use Rattle.std.specs.Prelude.{◌+◌, ◌≤◌, ◌<◌, length};

use crate::tally::{Other, Tally};
use records::RECORD;
use std::io;

// Turns each bit of a byte, and turns it back.
fn turn_bits(before: Tally, records: &mut [u8], at: usize, other: Other) -> Tally
    requires { at < length records.old }
{
    let byte = records[at];
    let mut tally = before;
    for bit in [1, 2, 4, 8, 16, 32, 64, 128] {
        records[at] = byte ^ bit;
        tally = tally.attempt(records, other);
    }
    records[at] = byte;
    tally
}

// Turns each bit of the records.
fn turn_all(rt: &impl Print, records: &mut [u8], other: Other) -> io::Result<()> {
    let mut tally = Tally::new();
    for at in 0..records.len() {
        tally = turn_bits(tally, records, at, other);
    }
    tally.print(rt, "a bit turned")
}

// Exchanges the two records from `at` on.
fn exchange(records: &mut [u8], at: usize)
    requires { at + 32 ≤ length records.old }
{
    records[at..at + 2 * RECORD].rotate_left(RECORD);
}

// Exchanges each two neighbours, and exchanges them back.
fn exchange_all(rt: &impl Print, records: &mut [u8], other: Other) -> io::Result<()> {
    let mut tally = Tally::new();
    for number in 1..records.len() / RECORD {
        let at = RECORD * (number - 1);
        exchange(records, at);
        tally = tally.attempt(records, other);
        exchange(records, at);
    }
    tally.print(rt, "neighbours exchanged")
}

// Both kinds.
pub fn all(rt: &impl Print, records: &mut [u8], other: Other) -> io::Result<()> {
    turn_all(rt, records, other)?;
    exchange_all(rt, records, other)
}
