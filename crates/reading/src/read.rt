// The voice that values of slots make.
// The arrays are a voice's, of the largest size: fixed memory.
ghost use Rattle.std.specs.Prelude.{true, map, ◌≡◌, ◌+◌, ◌*◌, ◌≤◌, length, take, drop};
ghost use Rattle.number.specs.Bits.{float_of};
ghost use Rattle.slots.specs.Slots.{array_at, filter_count, pulse_in, random_in, zero_in, zero_for, nonzero_in, nonzero_for, voice_in};
ghost use Rattle.configuration.specs.Limits.{limits_kept};
ghost use Rattle.slots.specs.Sound.{sound};

use crate::check::configuration_in;
use configuration::Configuration;
use mglsa::MelGeneralizedLogSpectrumApproximation;
use mlsa::MelLogSpectrumApproximation;
use noise::Random;
use number::bits::float_of;
use pulse::Pulse;
use slots::places::{
    FIRST_AT, LEFT_AT, LINE_AT, METER_AT, filter_at, increments_at, is_set, noise_at, spectrum_at,
    targets_at,
};
use voice::Voice;

// Fills the values with the floats of the slots from `at` on.
fn read_floats(slots: &[u64], at: usize, values: &mut [f64])
    requires { at + length values.old ≤ length slots.now }
    ensures { values.new ≡ map float_of (take (length values.old) (drop at slots.now)) }
{
    for (i, value) in values.iter_mut().enumerate() {
        *value = float_of(slots[at + i]);
    }
}

// The filter of stage 0 in the slots from `at` on.
fn zero_in(slots: &[u64], at: usize, nmcp: usize) -> MelLogSpectrumApproximation
    requires { (nmcp ≤ 64) × (at + 18 + 6 * nmcp ≤ length slots.now) }
    ensures { result ≡ zero_in slots.now at nmcp }
{
    let mut d11 = [0.0; 6];
    let mut d12 = [0.0; 6];
    let mut d21 = [0.0; 384];
    let mut d22 = [0.0; 6];
    let rows = 6 * nmcp;
    read_floats(slots, at, &mut d11);
    read_floats(slots, at + 6, &mut d12);
    read_floats(slots, at + 6 + 6, &mut d22);
    read_floats(slots, at + 6 + 6 + 6, &mut d21[0..rows]);
    MelLogSpectrumApproximation { d11, d12, d21, d22 }
}

// The filter of another stage in so many slots from `at` on.
fn nonzero_in(slots: &[u64], at: usize, count: usize) -> MelGeneralizedLogSpectrumApproximation
    requires { (count ≤ 512) × (at + count ≤ length slots.now) }
    ensures { result ≡ nonzero_in slots.now at count }
{
    let mut d = [0.0; 512];
    read_floats(slots, at, &mut d[0..count]);
    MelGeneralizedLogSpectrumApproximation { d }
}

// An array of 64 with so many of the slots from `at` on in front.
fn array_in(slots: &[u64], at: usize, count: usize) -> [f64; 64]
    requires { (count ≤ 64) × (at + count ≤ length slots.now) }
    ensures { result ≡ array_at slots.now at count }
{
    let mut values = [0.0; 64];
    read_floats(slots, at, &mut values[0..count]);
    values
}

// The pulse train and the noise.
fn pulse_in(slots: &[u64]) -> Pulse
    requires { 19 ≤ length slots.now }
    ensures { result ≡ pulse_in slots.now }
{
    Pulse {
        pitch: float_of(slots[15]),
        counter: float_of(slots[16]),
        increment: float_of(slots[17]),
        end: float_of(slots[18]),
    }
}

fn random_in(slots: &[u64], at: usize) -> Random
    requires { at + 66 ≤ length slots.now }
    ensures { result ≡ random_in slots.now at }
{
    let mut queue = [0.0; 64];
    read_floats(slots, at + 2, &mut queue);
    Random {
        next: slots[at],
        used: slots[at + 1] as usize,
        queue,
    }
}

// The filters: the one that is in use, and the other one fresh.
fn zero_of(slots: &[u64], c: Configuration, at: usize) -> MelLogSpectrumApproximation
    requires { (limits_kept c ≡ true) × (at + filter_count c ≤ length slots.now) }
    ensures { result ≡ zero_for c slots.now at }
{
    if c.stage == 0 {
        return zero_in(slots, at, c.nmcp);
    }
    MelLogSpectrumApproximation::new()
}

fn nonzero_of(slots: &[u64], c: Configuration, at: usize) -> MelGeneralizedLogSpectrumApproximation
    requires { (limits_kept c ≡ true) × (at + filter_count c ≤ length slots.now) }
    ensures { result ≡ nonzero_for c slots.now at }
{
    if c.stage == 0 {
        return MelGeneralizedLogSpectrumApproximation::new();
    }
    nonzero_in(slots, at, c.stage as usize * c.nmcp)
}

// The voice in all slots.
pub fn voice_in(slots: &[u64]) -> Voice
    requires { sound slots.now ≡ true }
    ensures { result ≡ voice_in slots.now }
{
    let c = configuration_in(slots);
    let nmcp = c.nmcp;
    let nlpf = c.nlpf;
    let filter = filter_at(nlpf, nmcp);
    Voice {
        configuration: c,
        meter: slots[METER_AT],
        left: slots[LEFT_AT] as usize,
        first: is_set(slots[FIRST_AT]),
        pulse: pulse_in(slots),
        line: array_in(slots, LINE_AT, nlpf),
        lpf: array_in(slots, LINE_AT + nlpf, nlpf),
        random: random_in(slots, noise_at(nlpf)),
        coefficients: array_in(slots, spectrum_at(nlpf), nmcp),
        increments: array_in(slots, increments_at(nlpf, nmcp), nmcp),
        targets: array_in(slots, targets_at(nlpf, nmcp), nmcp),
        zero: zero_of(slots, c, filter),
        nonzero: nonzero_of(slots, c, filter),
    }
}
