// How often each refusal was answered.
use std::io;
use voice::answers::DONE;

// At the numbers of the refusals.
#[derive(Clone, Copy)]
pub struct Counts {
    times: [u64; 15],
}

impl Counts {
    pub fn new() -> Self {
        Self { times: [0; 15] }
    }

    // Counts a refusal, by the number that C's struct has.
    pub fn count(&mut self, number: u64) {
        if number == DONE {
            return;
        }
        if let Some(times) = self.times.get_mut(number as usize) {
            *times = times.wrapping_add(1);
        }
    }

    // Writes those that were answered.
    pub fn print(&self, rt: &impl Print, name: &str) -> io::Result<()> {
        for (number, times) in self.times.iter().enumerate() {
            if *times != 0 {
                println!(rt; "{name}: calls refused by {number}: {times}")?;
            }
        }
        Ok(())
    }
}
