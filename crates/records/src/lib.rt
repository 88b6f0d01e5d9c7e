// Rest records: a slot number and a value, eight bytes each, one record after the other.
#![tactic(auto)]

ghost use Rattle.std.specs.Prelude.{◌≡◌, ◌+◌, ◌*◌, ◌≤◌, length, take, drop};
ghost use Rattle.std.proofs.lemmas.List.Edits.{sets};
ghost use Rattle.number.specs.Bytes.{number_of};
ghost use Rattle.records.specs.Records.{record_of, slot, numbered, encoded, values_in, in_order};

use number::word::{get_word, put_word};

// The bytes of a record.
pub const RECORD: usize = 16;

// Writes the record of a slot in its place.
fn put_record(out: &mut [u8], number: usize, value: u64)
    requires { 16 * number + 16 ≤ length out.old }
    ensures { out.new ≡ sets out.old (16 * number) (record_of (slot number value)) }
{
    put_word(out, RECORD * number, number as u64);
    put_word(out, RECORD * number + 8, value);
}

// Writes the values as records from slot 0 on, from the front of the buffer.
pub fn encode(values: &[u64], out: &mut [u8])
    requires { 16 * length values.now ≤ length out.old }
    ensures { out.new ≡ sets out.old 0 (encoded (numbered 0 values.now)) }
{
    for (i, value) in values.iter().enumerate() {
        put_record(out, i, *value);
    }
}

// The number of the eight bytes from `at` on.
fn number_at(bytes: &[u8], at: usize) -> u64
    requires { at + 8 ≤ length bytes.now }
    ensures { result ≡ number_of (take 8 (drop at bytes.now)) }
{
    get_word(bytes, at).unwrap_or(0)
}

// Reads the values of as many records as there is room for, and tells whether their slots are 0, 1, 2 and so on. No Option: the values go into what is lent.
pub fn decode(bytes: &[u8], values: &mut [u64]) -> bool
    requires { 16 * length values.old ≤ length bytes.now }
    ensures value { result ≡ in_order 0 (length values.old) bytes.now }
    ensures values_after { values.new ≡ values_in (length values.old) bytes.now }
{
    let mut ordered = true;
    for (i, value) in values.iter_mut().enumerate() {
        ordered &= number_at(bytes, RECORD * i) == i as u64;
        *value = number_at(bytes, RECORD * i + 8);
    }
    ordered
}
