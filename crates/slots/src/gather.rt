// The values of a voice's slots.
// That the limits are kept is a clause of each part: a type for it would be put on and taken off around a voice that C hands in.
ghost use Rattle.std.specs.Prelude.{true, map, ◌≡◌, ◌+◌, ◌*◌, ◌≤◌, ◌<◌, length};
ghost use Rattle.std.proofs.lemmas.List.Edits.{sets};
ghost use Rattle.number.specs.Bits.{bits_of};
ghost use Rattle.configuration.specs.Limits.{limits_kept};
ghost use Rattle.slots.specs.Slots.{head_values, excitation_values, spectrum_values, filter_count, filter_values, values_of, count_of};

use crate::places::{LINE_AT, filter_at, noise_at, queue_at, spectrum_at};
use number::bits::bits_of;
use voice::Voice;

// Stores numbers from a slot on.
fn put_numbers(slots: &mut [u64], at: usize, values: &[u64])
    requires { at + length values.now ≤ length slots.old }
    ensures { slots.new ≡ sets slots.old at values.now }
{
    slots[at..at + values.len()].copy_from_slice(values);
}

// Stores the bits of floats from a slot on.
fn put_floats(slots: &mut [u64], at: usize, values: &[f64])
    requires { at + length values.now ≤ length slots.old }
    ensures { slots.new ≡ sets slots.old at (map bits_of values.now) }
{
    for (i, x) in values.iter().enumerate() {
        slots[at + i] = bits_of(*x);
    }
}

// The configuration, the counters and the pulse train.
fn put_head(voice: Voice, slots: &mut [u64])
    requires { 19 ≤ length slots.old }
    ensures { slots.new ≡ sets slots.old 0 (head_values voice) }
{
    let c = voice.configuration;
    let pulse = voice.pulse;
    let head = [
        c.nmcp as u64,
        c.nlpf as u64,
        c.stage,
        u64::from(c.log),
        c.rate,
        bits_of(c.alpha),
        bits_of(c.beta),
        bits_of(c.volume),
        c.fperiod as u64,
        bits_of(c.nodata),
        bits_of(c.low),
        bits_of(c.high),
        voice.meter,
        voice.left as u64,
        u64::from(voice.first),
        bits_of(pulse.pitch),
        bits_of(pulse.counter),
        bits_of(pulse.increment),
        bits_of(pulse.end),
    ];
    put_numbers(slots, 0, &head);
}

// The delay line, the filter taps and the noise.
fn put_excitation(voice: Voice, slots: &mut [u64])
    requires { (limits_kept voice.configuration ≡ true) × (19 + voice.configuration.nlpf + voice.configuration.nlpf + 66 ≤ length slots.old) }
    ensures { slots.new ≡ sets slots.old 19 (excitation_values voice) }
{
    let c = voice.configuration;
    let nlpf = c.nlpf;
    let line = voice.line;
    let lpf = voice.lpf;
    let random = voice.random;
    let queue = random.queue;
    put_floats(slots, LINE_AT, &line[0..nlpf]);
    put_floats(slots, LINE_AT + nlpf, &lpf[0..nlpf]);
    put_numbers(slots, noise_at(nlpf), &[random.next, random.used as u64]);
    put_floats(slots, queue_at(nlpf), &queue);
}

// The coefficients, their increments and targets.
fn put_spectrum(voice: Voice, slots: &mut [u64], at: usize)
    requires { (limits_kept voice.configuration ≡ true) × (at + voice.configuration.nmcp + voice.configuration.nmcp + voice.configuration.nmcp ≤ length slots.old) }
    ensures { slots.new ≡ sets slots.old at (spectrum_values voice) }
{
    let c = voice.configuration;
    let nmcp = c.nmcp;
    let coefficients = voice.coefficients;
    let increments = voice.increments;
    let targets = voice.targets;
    put_floats(slots, at, &coefficients[0..nmcp]);
    put_floats(slots, at + nmcp, &increments[0..nmcp]);
    put_floats(slots, at + nmcp + nmcp, &targets[0..nmcp]);
}

// The filter of stage 0.
fn put_zero(voice: Voice, slots: &mut [u64], at: usize)
    requires { (limits_kept voice.configuration ≡ true) × (voice.configuration.stage ≡ 0) × (at + filter_count voice.configuration ≤ length slots.old) }
    ensures { slots.new ≡ sets slots.old at (filter_values voice) }
{
    let c = voice.configuration;
    let zero = voice.zero;
    let d11 = zero.d11;
    let d12 = zero.d12;
    let d22 = zero.d22;
    let d21 = zero.d21;
    let rows = 6 * c.nmcp;
    put_floats(slots, at, &d11);
    put_floats(slots, at + 6, &d12);
    put_floats(slots, at + 6 + 6, &d22);
    put_floats(slots, at + 6 + 6 + 6, &d21[0..rows]);
}

// The filter of the other stages.
fn put_nonzero(voice: Voice, slots: &mut [u64], at: usize)
    requires { (limits_kept voice.configuration ≡ true) × (0 < voice.configuration.stage) × (at + filter_count voice.configuration ≤ length slots.old) }
    ensures { slots.new ≡ sets slots.old at (filter_values voice) }
{
    let c = voice.configuration;
    let nonzero = voice.nonzero;
    let d = nonzero.d;
    let rows = c.stage as usize * c.nmcp;
    put_floats(slots, at, &d[0..rows]);
}

// All of them, from slot 0 on.
pub fn gather(voice: Voice, slots: &mut [u64])
    requires { (limits_kept voice.configuration ≡ true) × (count_of voice.configuration ≤ length slots.old) }
    ensures { slots.new ≡ sets slots.old 0 (values_of voice) }
{
    let c = voice.configuration;
    put_head(voice, slots);
    put_excitation(voice, slots);
    put_spectrum(voice, slots, spectrum_at(c.nlpf));
    if c.stage == 0 {
        put_zero(voice, slots, filter_at(c.nlpf, c.nmcp));
    } else {
        put_nonzero(voice, slots, filter_at(c.nlpf, c.nmcp));
    }
}
