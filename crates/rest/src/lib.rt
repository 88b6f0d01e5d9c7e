// Save and restore: a voice as rest records, and back.
// C reads the numbers of what is answered. The slots lie in arrays of the largest size: fixed memory.
#![tactic(auto)]

ghost use Rattle.std.specs.Prelude.{true, ◌≡◌, ◌*◌, ◌≤◌, length};
ghost use Rattle.number.specs.Lists.{over};
ghost use Rattle.configuration.specs.Limits.{limits_kept};
ghost use Rattle.slots.specs.Slots.{count_of};
ghost use Rattle.history.specs.Numbers.{records_wrong};
ghost use Rattle.rest.specs.Rest.{records_of, saved_by, Saves, slots_in, accepted, Restores, Sized};

use reading::check::is_sound;
use reading::read::voice_in;
use records::{RECORD, decode, encode};
use slots::gather::gather;
use slots::{CONFIGURATION_SLOTS, MOST_SLOTS, count_of};
use voice::answers::{DONE, Refusal};
use voice::{Answered, Voice};

// What save answers: a number of the table, and how many bytes were written.
#[repr(C)]
#[derive(Clone, Copy)]
pub struct Saved {
    pub number: u64,
    pub bytes: usize,
}

// Writes the records of a voice, by way of its slots.
fn write_records(voice: Voice, slots: &mut [u64], out: &mut [u8])
    requires { (limits_kept voice.configuration ≡ true) × (length slots.old ≡ count_of voice.configuration) × (16 * length slots.old ≤ length out.old) }
    ensures { out.new ≡ over (records_of voice) (16 * length slots.old) out.old }
{
    gather(voice, slots);
    encode(slots, out);
}

// Writes the records from the front of the buffer, and answers how many bytes they are.
fn written(voice: Voice, out: &mut [u8]) -> Result<usize, Refusal>
    ensures { Saves voice out.old (saved_by result) out.new }
{
    if !voice.is_usable() {
        return Err(Refusal::VoiceIdle);
    }
    let count = count_of(voice.configuration);
    if out.len() < RECORD * count {
        return Err(Refusal::RecordsLonger);
    }
    let mut slots = [0; MOST_SLOTS];
    write_records(voice, &mut slots[..count], out);
    Ok(RECORD * count)
}

// SAVE.
pub fn save(voice: Voice, out: &mut [u8]) -> Saved
    ensures { Saves voice out.old result out.new }
{
    match written(voice, out) {
        Ok(bytes) => Saved {
            number: DONE,
            bytes,
        },
        Err(refusal) => Saved {
            number: refusal.number(),
            bytes: 0,
        },
    }
}

// Whether the records are in order and their slots sound; the slots then hold their values.
fn read_records(bytes: &[u8], slots: &mut [u64]) -> bool
    requires { (length bytes.now ≡ 16 * length slots.old) × (12 ≤ length slots.old) }
    ensures value { result ≡ accepted bytes.now }
    ensures slots_after { slots.new ≡ slots_in bytes.now }
{
    let ordered = decode(bytes, slots);
    ordered & is_sound(slots)
}

// How many records there are, where by their size they may be a voice's.
fn size(bytes: &[u8]) -> Option<usize>
    ensures { Sized bytes.now result }
{
    let count = bytes.len() / RECORD;
    if bytes.len() % RECORD != 0 {
        return None;
    }
    if count < CONFIGURATION_SLOTS {
        return None;
    }
    if count > MOST_SLOTS {
        return None;
    }
    Some(count)
}

// Not acceptable: the voice that was handed in.
fn refused(voice: Voice) -> Answered
    ensures { (result.number ≡ records_wrong) × (result.voice ≡ voice) }
{
    Answered {
        number: Refusal::RecordsWrong.number(),
        voice,
    }
}

// RESTORE: into any voice. The one in the records is built where it is returned: within an Option it would be copied, and room for it cleared where there is none.
pub fn restore(voice: Voice, bytes: &[u8]) -> Answered
    ensures { Restores bytes.now voice result }
{
    let Some(count) = size(bytes) else {
        return refused(voice);
    };
    let mut slots = [0; MOST_SLOTS];
    if !read_records(bytes, &mut slots[..count]) {
        return refused(voice);
    }
    Answered {
        number: DONE,
        voice: voice_in(&slots[..count]),
    }
}
