// A sound file written into a buffer that the caller lends: at once, or in pieces, which are the header, the bytes of any parts of the samples, and the pad.
ghost use Rattle.std.specs.Prelude.{◌≡◌, ◌+◌, ◌*◌, ◌%◌, ◌^◌, ◌<◌, ◌≤◌, length};
ghost use Rattle.std.proofs.lemmas.List.Edits.{sets};
ghost use Rattle.pcm.specs.Samples.{count};
ghost use Rattle.riff.specs.Refusal.{number_of};
ghost use Rattle.riff.specs.Writing.{bytes_of_words, bytes_in, bits_in, padded, held_in, asked_of, header_of, sound_of, pad_of, file_of, refusal_of, refused, header_answer, part_answer, pad_answer, file_answer, Writes};

use crate::refusal::Refusal;
use pcm::{Bits16, Bits24};

// The bits of a sample.
#[derive(Clone, Copy)]
pub enum Width {
    Sixteen,
    TwentyFour,
}

// What writing answers: a number, the bytes written, and how many of their samples were held back; 0 and 0 where it is refused. 1: the rate is outside the limits;
// 22: the file's size does not fit its field; 23: the buffer is short. C takes it by this layout.
#[repr(C)]
#[derive(Clone, Copy)]
pub struct Written {
    pub number: u64,
    pub bytes: usize,
    pub held: usize,
}

// The width that has so many bits.
pub fn width_of(bits: u64) -> Option<Width>
    ensures { result ≡ asked_of bits }
{
    match bits {
        16 => Some(Width::Sixteen),
        24 => Some(Width::TwentyFour),
        _ => None,
    }
}

// Nothing written, by any number. C's number, and no Refusal: it is public, and stays.
pub fn refused_by(number: u64) -> Written
    ensures { result ≡ refused number }
{
    Written {
        number,
        bytes: 0,
        held: 0,
    }
}

impl From<Refusal> for Written {
    ghost from_gives = { λ refusal written. written ≡ refused (number_of refusal) };

    fn from(refusal: Refusal) -> Written {
        refused_by(refusal.number())
    }
}

// The bytes of a sample, and its bits.
pub(crate) fn bytes_in(width: Width) -> usize
    ensures { (result ≡ bytes_in width) × (2 ≤ result) × (result ≤ 3) }
{
    match width {
        Width::Sixteen => 2,
        Width::TwentyFour => 3,
    }
}

pub(crate) fn bits_in(width: Width) -> u64
    ensures { result ≡ bits_in width }
{
    8 * bytes_in(width) as u64
}

// Whether a file of n samples can be. The count is tested before it is multiplied, so that nothing overflows.
fn fits(width: Width, rate: u64, n: usize) -> Result<(), Refusal>
    ensures { result ≡ refusal_of width rate n }
{
    if (rate < 1) | (192_000 < rate) {
        return Err(Refusal::LimitBroken);
    }
    if 0x1_0000_0000 <= n {
        return Err(Refusal::TooLong);
    }
    let sound = bytes_in(width) * n;
    if 0x1_0000_0000 <= 36 + (sound + sound % 2) {
        return Err(Refusal::TooLong);
    }
    Ok(())
}

// Words of four bytes, one after the other, from the front.
fn put_words(out: &mut [u8], words: &[u32])
    requires { 4 * length words.now ≤ length out.old }
    ensures { out.new ≡ sets out.old 0 (bytes_of_words words.now) }
{
    for (i, word) in words.iter().enumerate() {
        out[4 * i..4 * i + 4].copy_from_slice(&word.to_le_bytes());
    }
}

// The header as eleven words. Two hold two fields each: the kind of file and the channels, 1 and 1; the bytes and the bits of a sample, k and 8 k.
fn put_header(out: &mut [u8], width: Width, rate: u32, sound: u32, n: usize)
    requires { (44 ≤ length out.old) × (sound ≡ bytes_in width * n) × (36 + padded sound < 2 ^ 32) × (rate ≤ 192000) }
    ensures { out.new ≡ sets out.old 0 (header_of width rate n) }
{
    let k = bytes_in(width) as u32;
    let size = 36 + (sound + sound % 2);
    let second = k * rate;
    let sample = 0x8_0001 * k;
    let words = [
        0x4646_4952,
        size,
        0x4556_4157,
        0x2074_6d66,
        16,
        0x1_0001,
        rate,
        second,
        sample,
        0x6174_6164,
        sound,
    ];
    put_words(out, &words);
}

// The bytes of the samples from `at` on. The answer is how many were held back.
fn put_samples(out: &mut [u8], at: usize, width: Width, samples: &[f64]) -> usize
    requires { at + bytes_in width * length samples.now ≤ length out.old }
    ensures held { result ≡ count (held_in width) samples.now }
    ensures bytes { out.new ≡ sets out.old at (sound_of width samples.now) }
{
    let end = at + bytes_in(width) * samples.len();
    let part = &mut out[at..end];
    match width {
        Width::Sixteen => pcm::put::<Bits16>(part, samples),
        Width::TwentyFour => pcm::put::<Bits24>(part, samples),
    }
}

// A 0 from `at` on after an odd length.
fn put_pad(out: &mut [u8], at: usize, sound: usize)
    requires { at + sound % 2 ≤ length out.old }
    ensures { out.new ≡ sets out.old at (pad_of sound) }
{
    if sound % 2 == 1 {
        out[at] = 0;
    }
}

// ---- the pieces

// The header of a file of n samples, at the front of the buffer.
pub fn header(width: Width, rate: u64, n: usize, out: &mut [u8]) -> Written
    ensures { Writes (header_answer width rate n (length out.old)) (header_of width rate n) out.old result out.new }
{
    if let Err(refusal) = fits(width, rate, n) {
        return Written::from(refusal);
    }
    if out.len() < 44 {
        return Written::from(Refusal::RoomShort);
    }
    let sound = bytes_in(width) * n;
    put_header(out, width, rate as u32, sound as u32, n);
    Written {
        number: 0,
        bytes: 44,
        held: 0,
    }
}

// The bytes of a part of the samples, at the front of the buffer.
pub fn part(width: Width, samples: &[f64], out: &mut [u8]) -> Written
    ensures { Writes (part_answer width samples.now (length out.old)) (sound_of width samples.now) out.old result out.new }
{
    let bytes = bytes_in(width) * samples.len();
    if out.len() < bytes {
        return Written::from(Refusal::RoomShort);
    }
    let held = put_samples(out, 0, width, samples);
    Written {
        number: 0,
        bytes,
        held,
    }
}

// The pad after n samples, at the front of the buffer: no byte or one.
pub fn pad(width: Width, n: usize, out: &mut [u8]) -> Written
    ensures { Writes (pad_answer width n (length out.old)) (pad_of (bytes_in width * n)) out.old result out.new }
{
    let sound = bytes_in(width) * (n % 2);
    if out.len() < sound % 2 {
        return Written::from(Refusal::RoomShort);
    }
    put_pad(out, 0, sound);
    Written {
        number: 0,
        bytes: sound % 2,
        held: 0,
    }
}

// ---- the whole

// The file of the samples, at the front of the buffer.
pub fn file(width: Width, rate: u64, samples: &[f64], out: &mut [u8]) -> Written
    ensures { Writes (file_answer width rate samples.now (length out.old)) (file_of width rate samples.now) out.old result out.new }
{
    let n = samples.len();
    if let Err(refusal) = fits(width, rate, n) {
        return Written::from(refusal);
    }
    let sound = bytes_in(width) * n;
    let bytes = 44 + (sound + sound % 2);
    if out.len() < bytes {
        return Written::from(Refusal::RoomShort);
    }
    put_header(out, width, rate as u32, sound as u32, n);
    let held = put_samples(out, 44, width, samples);
    put_pad(out, 44 + sound, sound);
    Written {
        number: 0,
        bytes,
        held,
    }
}
