// What C and Rust reach of sound files, under C names: the calls of `riff`, with the width as its bits.
// C wants numbers: 0 done, 1 a width that is not taken, and those of `riff`.
#![tactic(auto)]

ghost use Rattle.std.specs.Prelude.{length, ◌*◌};
ghost use Rattle.riff.specs.Writing.{bytes_in, asked_of, header_answer, part_answer, pad_answer, file_answer, header_of, sound_of, pad_of, file_of, Writes};
ghost use Rattle.riff.specs.Reading.{chunks_of, Hears};
ghost use Rattle.export_sound.specs.Sound.{answer_by, bytes_by};

use riff::reading::Heard;
use riff::refusal::Refusal;
use riff::writing::{Written, width_of};

#[unsafe(no_mangle)]
pub extern "C" fn kipawnore_write_sound(
    bits: u64,
    rate: u64,
    samples: &[f64],
    out: &mut [u8],
) -> Written
    ensures { Writes (answer_by (asked_of bits) (λ w. file_answer w rate samples.now (length out.old))) (bytes_by (asked_of bits) (λ w. file_of w rate samples.now)) out.old result out.new }
{
    let Some(width) = width_of(bits) else {
        return Written::from(Refusal::LimitBroken);
    };
    riff::writing::file(width, rate, samples, out)
}

#[unsafe(no_mangle)]
pub extern "C" fn kipawnore_sound_header(
    bits: u64,
    rate: u64,
    count: usize,
    out: &mut [u8],
) -> Written
    ensures { Writes (answer_by (asked_of bits) (λ w. header_answer w rate count (length out.old))) (bytes_by (asked_of bits) (λ w. header_of w rate count)) out.old result out.new }
{
    let Some(width) = width_of(bits) else {
        return Written::from(Refusal::LimitBroken);
    };
    riff::writing::header(width, rate, count, out)
}

#[unsafe(no_mangle)]
pub extern "C" fn kipawnore_sound_part(bits: u64, samples: &[f64], out: &mut [u8]) -> Written
    ensures { Writes (answer_by (asked_of bits) (λ w. part_answer w samples.now (length out.old))) (bytes_by (asked_of bits) (λ w. sound_of w samples.now)) out.old result out.new }
{
    let Some(width) = width_of(bits) else {
        return Written::from(Refusal::LimitBroken);
    };
    riff::writing::part(width, samples, out)
}

#[unsafe(no_mangle)]
pub extern "C" fn kipawnore_sound_pad(bits: u64, count: usize, out: &mut [u8]) -> Written
    ensures { Writes (answer_by (asked_of bits) (λ w. pad_answer w count (length out.old))) (bytes_by (asked_of bits) (λ w. pad_of (bytes_in w * count))) out.old result out.new }
{
    let Some(width) = width_of(bits) else {
        return Written::from(Refusal::LimitBroken);
    };
    riff::writing::pad(width, count, out)
}

#[unsafe(no_mangle)]
pub extern "C" fn kipawnore_read_sound(bytes: &[u8], out: &mut [i32]) -> Heard
    ensures { Hears (chunks_of bytes.now) bytes.now out.old result out.new }
{
    riff::reading::read(bytes, out)
}
