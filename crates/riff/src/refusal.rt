// Why a sound file is not written, or not read.
ghost use Rattle.std.specs.Prelude.{◌≡◌};
ghost use Rattle.riff.specs.Refusal.{number_of};

// The bits or the rate are outside the limits; not this kind of file; a chunk runs past the end; the file's size does not fit its field; the buffer is short.
#[derive(Clone, Copy, PartialEq, Eq)]
pub enum Refusal {
    LimitBroken,
    NotSoundFile,
    ChunkPastEnd,
    TooLong,
    RoomShort,
}

impl Refusal {
    // Its number in C. No refusal has 0, which is done.
    pub fn number(self) -> u64
        ensures { result ≡ number_of self }
    {
        match self {
            Refusal::LimitBroken => 1,
            Refusal::NotSoundFile => 20,
            Refusal::ChunkPastEnd => 21,
            Refusal::TooLong => 22,
            Refusal::RoomShort => 23,
        }
    }
}
