// A sound file read: its chunks one after the other by a cursor, then its samples as whole numbers.
ghost use Rattle.std.specs.Prelude.{◌≡◌, ◌+◌, ◌*◌, ◌%◌, ◌^◌, ◌≤◌, ◌<◌, length, take, drop};
ghost use Rattle.std.proofs.lemmas.List.Edits.{sets};
ghost use Rattle.std.specs.Int.{w32};
ghost use Rattle.std.proofs.Common.{SFits};
ghost use Rattle.number.specs.Bytes.{number_of};
ghost use Rattle.riff.specs.Writing.{bytes_in};
ghost use Rattle.riff.specs.Reading.{extended_of, is_pcm, block_of, format_of, sampled_of, chunk_of, whole_of, first, walk_of, end_of, EndsIn, chunks_of, SoundIn, signed_of, number_at, numbers_in, samples_in, Hears};

use crate::refusal::Refusal;
use crate::writing::{Width, bits_in, bytes_in, width_of};

// The tags, in letters: RIFF, WAVE, fmt and a blank, data.
const RIFF: usize = 0x4646_4952;

const WAVE: usize = 0x4556_4157;

const FORMAT: usize = 0x2074_6d66;

const SOUND: usize = 0x6174_6164;

// What the samples are: their width, and how many there are a second.
#[derive(Clone, Copy)]
pub struct Format {
    pub width: Width,
    pub rate: usize,
}

// Where the bytes of the samples are.
#[derive(Clone, Copy)]
pub struct Place {
    pub start: usize,
    pub bytes: usize,
}

// Where the reader is, and what it has found.
#[derive(Clone, Copy)]
pub struct Cursor {
    pub at: usize,
    pub format: Option<Format>,
    pub place: Option<Place>,
}

// What a whole file has: where its last chunk ends, what the samples are, and where.
#[derive(Clone, Copy)]
pub struct Found {
    pub at: usize,
    pub format: Format,
    pub place: Place,
}

// What reading answers: a number, and the bits of a sample, the samples a second and how many they are, also where the buffer is short. 20: not this kind of file; 21: a
// chunk runs past the end; 23: the buffer is short. C takes it by this layout.
#[repr(C)]
#[derive(Clone, Copy)]
pub struct Heard {
    pub number: u64,
    pub bits: u64,
    pub rate: u64,
    pub count: usize,
}

// The number of two bytes, and of four: two functions, since the from_le_bytes of u16 and u32 belong to no trait.
fn two(s: &[u8], at: usize) -> usize
    requires { at + 2 ≤ length s.now }
    ensures { (result ≡ number_of (take 2 (drop at s.now))) × (result < 2 ^ 16) }
{
    usize::from(u16::from_le_bytes([s[at], s[at + 1]]))
}

fn four(s: &[u8], at: usize) -> usize
    requires { at + 4 ≤ length s.now }
    ensures { (result ≡ number_of (take 4 (drop at s.now))) × (result < 2 ^ 32) }
{
    u32::from_le_bytes([s[at], s[at + 1], s[at + 2], s[at + 3]]) as usize
}

// The subformat of an extended format is that of PCM.
fn extended(s: &[u8], at: usize) -> bool
    requires { at + 40 ≤ length s.now }
    ensures { result ≡ extended_of s.now at }
{
    (four(s, at + 24) == 1)
        & (four(s, at + 28) == 0x10_0000)
        & (four(s, at + 32) == 0xaa00_0080)
        & (four(s, at + 36) == 0x719b_3800)
}

fn is_pcm(s: &[u8], at: usize, size: usize) -> bool
    requires { (16 ≤ size) × (at + size ≤ length s.now) }
    ensures { result ≡ is_pcm s.now at size }
{
    let tag = two(s, at);
    tag == 1 || (size == 40 && (tag == 0xfffe) & extended(s, at))
}

// The width of the samples by a format chunk whose content starts at `at`, where it is one that is read here.
fn block(s: &[u8], at: usize, size: usize) -> Option<Width>
    requires { (16 ≤ size) × (at + size ≤ length s.now) }
    ensures { result ≡ block_of s.now at size }
{
    let pcm = is_pcm(s, at, size);
    let channels = two(s, at + 2);
    let k = two(s, at + 12);
    let bits = two(s, at + 14);
    if pcm & (channels == 1) & (bits == 8 * k) {
        width_of(bits as u64)
    } else {
        None
    }
}

// A format chunk: there is one, and it comes before the sound.
fn formatted(s: &[u8], c: Cursor, size: usize, room: usize) -> Result<Cursor, Refusal>
    requires { (c.at + 8 + room ≤ length s.now) × (c.at + 8 + room ≤ 2 ^ 33) }
    ensures { result ≡ format_of s.now c size room }
{
    if c.format.is_some() | ((size != 16) & (size != 18) & (size != 40)) {
        return Err(Refusal::NotSoundFile);
    }
    if room < size {
        return Err(Refusal::ChunkPastEnd);
    }
    let at = c.at + 8;
    let width = block(s, at, size).ok_or(Refusal::NotSoundFile)?;
    let rate = four(s, c.at + 12);
    Ok(Cursor {
        at: at + size,
        format: Some(Format { width, rate }),
        place: c.place,
    })
}

// The chunk of the samples: there is one, whole samples long, and it comes after the format.
fn sampled(c: Cursor, size: usize, room: usize) -> Result<Cursor, Refusal>
    requires { c.at + 8 + room ≤ 2 ^ 33 }
    ensures { result ≡ sampled_of c size room }
{
    let format = c.format.ok_or(Refusal::NotSoundFile)?;
    if c.place.is_some() | (size % bytes_in(format.width) != 0) {
        return Err(Refusal::NotSoundFile);
    }
    if room < size {
        return Err(Refusal::ChunkPastEnd);
    }
    let start = c.at + 8;
    Ok(Cursor {
        at: start + (size + size % 2),
        format: Some(format),
        place: Some(Place { start, bytes: size }),
    })
}

// The chunk at the cursor, which is before the end of the file.
fn chunk(s: &[u8], end: usize, c: Cursor) -> Result<Cursor, Refusal>
    requires { (c.at < end) × (end ≤ length s.now) × (end ≤ 2 ^ 33) }
    ensures { result ≡ chunk_of s.now end c }
{
    let at = c.at;
    if end - at < 8 {
        return Err(Refusal::ChunkPastEnd);
    }
    let tag = four(s, at);
    let size = four(s, at + 4);
    let room = end - at - 8;
    match tag {
        FORMAT => formatted(s, c, size, room),
        SOUND => sampled(c, size, room),
        _ if room < size => Err(Refusal::ChunkPastEnd),
        _ => Ok(Cursor {
            at: at + 8 + (size + size % 2),
            ..c
        }),
    }
}

// What the walk found at the end of the file: a format, and then samples.
fn whole(c: Cursor) -> Result<Found, Refusal>
    ensures { result ≡ whole_of c }
{
    let format = c.format.ok_or(Refusal::NotSoundFile)?;
    let place = c.place.ok_or(Refusal::NotSoundFile)?;
    Ok(Found {
        at: c.at,
        format,
        place,
    })
}

// The chunks from the first on. A while: each chunk says how far the cursor goes.
fn walk(s: &[u8], end: usize) -> Result<Found, Refusal>
    requires { (12 ≤ length s.now) × (end ≤ length s.now) × (end ≤ 2 ^ 33) }
    ensures { result ≡ walk_of (length s.now) s.now end first }
{
    let mut c = Cursor {
        at: 12,
        format: None,
        place: None,
    };
    while c.at < end {
        c = chunk(s, end, c)?;
    }
    whole(c)
}

// Where the file ends by its own size. The first twelve bytes: RIFF, the size, WAVE.
fn file_end(s: &[u8]) -> Result<usize, Refusal>
    ensures { (result ≡ end_of s.now) × EndsIn (length s.now) result }
{
    if s.len() < 12 {
        return Err(Refusal::NotSoundFile);
    }
    let riff = four(s, 0);
    let size = four(s, 4);
    let wave = four(s, 8);
    if (riff != RIFF) | (wave != WAVE) | (size < 4) {
        return Err(Refusal::NotSoundFile);
    }
    if s.len() - 8 < size {
        return Err(Refusal::ChunkPastEnd);
    }
    Ok(8 + size)
}

// Where the samples are.
pub fn chunks(s: &[u8]) -> Result<Found, Refusal>
    ensures { (result ≡ chunks_of s.now) × SoundIn (length s.now) result }
{
    let end = file_end(s)?;
    walk(s, end)
}

// w - half, which is the number whose two's complement is w + half modulo 2 half.
fn centred(w: usize, half: usize) -> i32
    requires { (0 < half) × (half ≤ 2 ^ 23) × (w < 2 * half) }
    ensures { result ≡ signed_of half ((w + half) % (2 * half)) }
{
    w as i32 - half as i32
}

// The sample of K bytes from `at` on. In three bytes only the top one is turned: the sum of all three is slower.
fn number_at<const K: usize>(s: &[u8], at: usize) -> i32
    requires { (2 ≤ K) × (K ≤ 3) × (at + K ≤ length s.now) }
    ensures { (result ≡ number_at K s.now at) × SFits w32 result }
{
    let low = two(s, at);
    if K == 2 {
        return centred((low + 0x8000) % 0x1_0000, 0x8000);
    }
    let top = s[at + 2] as usize;
    centred(low + 0x1_0000 * ((top + 128) % 256), 0x80_0000)
}

// n samples of K bytes from `start` on. The compiler makes a loop for each K.
fn fill<const K: usize>(s: &[u8], start: usize, n: usize, out: &mut [i32])
    requires { (2 ≤ K) × (K ≤ 3) × (start + K * n ≤ length s.now) × (n ≤ length out.old) }
    ensures { out.new ≡ sets out.old 0 (numbers_in n K s.now start) }
{
    for i in 0..n {
        out[i] = number_at::<K>(s, start + K * i);
    }
}

// The samples that were found.
fn answer(s: &[u8], f: Found, out: &mut [i32]) -> Heard
    requires { f.place.start + f.place.bytes ≤ length s.now }
    ensures { Hears (Ok f) s.now out.old result out.new }
{
    let width = f.format.width;
    let start = f.place.start;
    let count = f.place.bytes / bytes_in(width);
    let mut heard = Heard {
        number: 0,
        bits: bits_in(width),
        rate: f.format.rate as u64,
        count,
    };
    if out.len() < count {
        heard.number = Refusal::RoomShort.number();
        return heard;
    }
    match width {
        Width::Sixteen => fill::<2>(s, start, count, out),
        Width::TwentyFour => fill::<3>(s, start, count, out),
    }
    heard
}

// The samples of a file, at the front of the buffer.
pub fn read(s: &[u8], out: &mut [i32]) -> Heard
    ensures { Hears (chunks_of s.now) s.now out.old result out.new }
{
    match chunks(s) {
        Ok(f) => answer(s, f, out),
        Err(refusal) => Heard {
            number: refusal.number(),
            bits: 0,
            rate: 0,
            count: 0,
        },
    }
}
