// The calls that are made of a voice beside give and draw: done, refused, and a restart.
use crate::counts::Counts;
use crate::run::Run;
use refusing::Frame;
use voice::answers::Refusal;
use voice::{Answered, Voice};

// Renders a frame whole, with room for the longest.
pub fn whole_frame(before: Run, frame: Frame, counts: &mut Counts) -> Run {
    let mut out = [0.0; 4800];
    let drawn = whole::whole_frame(before.voice, frame, &mut out, 0);
    counts.count(drawn.number);
    before.hear(drawn.voice, &out, drawn.made)
}

// Whole frame without room: 14.
pub fn whole_without_room(voice: Voice, frame: Frame, counts: &mut Counts) -> Voice {
    let drawn = whole::whole_frame(voice, frame, &mut [], 0);
    counts.count(drawn.number);
    drawn.voice
}

// Give: 3 where samples are left.
pub fn give(voice: Voice, frame: Frame, counts: &mut Counts) -> Voice {
    let answered = giving::give(voice, frame);
    counts.count(answered.number);
    answered.voice
}

// Draw: 10 where nothing is left.
pub fn draw_one(voice: Voice, counts: &mut Counts) -> Voice {
    let mut out = [0.0; 1];
    let drawn = drawing::draw(voice, &mut out, 0);
    counts.count(drawn.number);
    drawn.voice
}

// Save into a byte less than the smallest voice takes: 12.
pub fn save_short(voice: Voice, counts: &mut Counts) {
    let mut bytes = [0; 1487];
    counts.count(rest::save(voice, &mut bytes).number);
}

// Restores so many bytes. The test is for the index: save reports no more than it was lent.
fn restore_front(voice: Voice, bytes: &[u8], count: usize) -> Answered {
    match bytes.get(..count) {
        Some(records) => rest::restore(voice, records),
        None => Answered {
            number: Refusal::RecordsWrong.number(),
            voice,
        },
    }
}

// Saves the first voice, and restores that into the second.
pub fn restart(voice: Voice, other: Voice, counts: &mut Counts) -> Voice {
    let mut bytes = [0; 14672];
    let saved = rest::save(voice, &mut bytes);
    let answered = restore_front(other, &bytes, saved.bytes);
    counts.count(saved.number);
    counts.count(answered.number);
    answered.voice
}

// Restores the voice's own records, the first of them made another slot's: 13.
pub fn restore_damaged(voice: Voice, counts: &mut Counts) -> Voice {
    let mut bytes = [0; 14672];
    let saved = rest::save(voice, &mut bytes);
    bytes[0] = 1;
    let answered = restore_front(voice, &bytes, saved.bytes);
    counts.count(answered.number);
    answered.voice
}
