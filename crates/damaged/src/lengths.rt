// Records that are too short or too long.
ghost use Rattle.std.specs.Prelude.{◌+◌, ◌≤◌, length};

use crate::tally::{Other, Tally};
use number::word::put_word;
use records::RECORD;
use std::io;

// Tries the lengths from the first to the last, by equal steps.
fn try_lengths(
    rt: &impl Print,
    kind: &str,
    room: &[u8],
    first: usize,
    last: usize,
    step: usize,
    other: Other,
) -> io::Result<()>
    requires { (last ≤ length room.now) × (1 ≤ step) × (step ≤ 16) }
{
    let mut tally = Tally::new();
    for end in (first..=last).step_by(step) {
        tally = tally.attempt(&room[..end], other);
    }
    tally.print(rt, kind)
}

// Tries records that lack bytes or whole records, and such with bytes after them.
fn try_others(rt: &impl Print, room: &[u8], count: usize, other: Other) -> io::Result<()>
    requires { (1488 ≤ count) × (count + 48 ≤ length room.now) }
{
    try_lengths(
        rt,
        "shorter by bytes",
        room,
        count - 40,
        count - 1,
        1,
        other,
    )?;
    try_lengths(
        rt,
        "shorter by records",
        room,
        count - 20 * RECORD,
        count - RECORD,
        RECORD,
        other,
    )?;
    try_lengths(rt, "longer by bytes", room, count + 1, count + 40, 1, other)
}

// Tries records with one more, which has the next slot's number.
fn try_record_more(rt: &impl Print, room: &mut [u8], count: usize, other: Other) -> io::Result<()>
    requires { count + 48 ≤ length room.old }
{
    put_word(room, count, (count / RECORD) as u64);
    let end = count + RECORD;
    try_lengths(rt, "longer by a record", room, end, end, 1, other)
}

// Tries all lengths of the records at the front of the room, of so many bytes. Zeros stand after them.
pub fn all(rt: &impl Print, room: &mut [u8], count: usize, other: Other) -> io::Result<()>
    requires { (1488 ≤ count) × (count + 48 ≤ length room.old) }
{
    try_others(rt, room, count, other)?;
    try_record_more(rt, room, count, other)
}
