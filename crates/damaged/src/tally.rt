// What became of the damaged records.
use std::io;
use voice::Voice;
use voice::answers::{DONE, Refusal};

// How many were refused and how many accepted, and how many broke the rule.
#[derive(Clone, Copy)]
pub struct Tally {
    refused: u64,
    accepted: u64,
    broken: u64,
}

// The voice that records are restored into, and its own records.
#[derive(Clone, Copy)]
pub struct Other<'a> {
    pub voice: Voice,
    pub kept: &'a [u8],
}

// Whether a save of the voice gives exactly these bytes.
fn saves(voice: Voice, these: &[u8]) -> bool {
    let mut bytes = [0; 14672];
    let saved = rest::save(voice, &mut bytes);
    (saved.bytes == these.len()) & bytes.starts_with(these)
}

impl Tally {
    pub fn new() -> Self {
        Self {
            refused: 0,
            accepted: 0,
            broken: 0,
        }
    }

    // One more, by the number that C's struct has.
    fn with(self, number: u64, kept: bool) -> Self {
        Self {
            refused: self.refused.wrapping_add(u64::from(number != DONE)),
            accepted: self.accepted.wrapping_add(u64::from(number == DONE)),
            broken: self.broken.wrapping_add(u64::from(!kept)),
        }
    }

    // Restores the bytes into the other voice.
    pub fn attempt(self, bytes: &[u8], other: Other) -> Self {
        let answered = rest::restore(other.voice, bytes);
        let number = answered.number;
        let kept = if number == DONE {
            saves(answered.voice, bytes)
        } else {
            (number == Refusal::RecordsWrong.number()) & saves(answered.voice, other.kept)
        };
        self.with(number, kept)
    }

    // Writes what became of the records damaged so.
    pub fn print(self, rt: &impl Print, kind: &str) -> io::Result<()> {
        let refused = self.refused;
        let accepted = self.accepted;
        let broken = self.broken;
        let tried = refused.wrapping_add(accepted);
        println!(rt;
            "  {kind}: {tried} tried, {refused} refused, {accepted} accepted, {broken} broke the rule"
        )
    }
}
