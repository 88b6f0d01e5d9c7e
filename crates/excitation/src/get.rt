// One sample of the excitation.
// The pulse train and the noise go as two `&mut`, and not in one struct: the voice and the stretch under its C name hold them apart.
// `odd` is a bool: it is handed on to `delay::add_pulse`, and which way it is goes by the sample.
ghost use Rattle.std.specs.Prelude.{◌≡◌, ◌<◌, List, length, Float, None};
ghost use Rattle.number.specs.F64.{◌‼◌};
ghost use Rattle.noise.specs.Draw.{tries};
ghost use Rattle.excitation.specs.Excitation.{state, mixed_line, plain_step, mixed_step, step_of, sampled_of};
ghost use Rattle.pulse.specs.Train.{pulse_after};
ghost use Rattle.delay.specs.Line.{shifted};

use noise::Random;
use pulse::Pulse;

// A sample with nlpf 0: the pulse, or the noise where the pitch is 0.
fn get_plain(pulse: &mut Pulse, random: &mut Random) -> Option<f64>
    ensures value { (line : List Float) → sampled_of result (state pulse.new random.new line) ≡ plain_step tries (state pulse.old random.old line) }
    ensures unchanged { result ≡ None → (pulse.new ≡ pulse.old) × (random.new ≡ random.old) }
{
    if pulse.pitch != 0.0 {
        let pulsed = pulse.next();
        *pulse = pulsed.pulse;
        return Some(pulsed.sample);
    }
    random.nrandom()
}

// What a value of the noise makes of the line and of the pulse train, and the sample that is then at tap 0.
fn mix(pulse: &mut Pulse, noise: f64, line: &mut [f64], lpf: &[f64], odd: bool) -> f64
    requires { 0 < length line.old }
    ensures value { result ≡ mixed_line pulse.old noise lpf.now line.old ‼ 0 }
    ensures pulse_after { pulse.new ≡ pulse_after pulse.old }
    ensures line_after { line.new ≡ mixed_line pulse.old noise lpf.now line.old }
{
    delay::add_noise(line, noise);
    if pulse.pitch != 0.0 {
        let pulsed = pulse.next();
        *pulse = pulsed.pulse;
        delay::add_pulse(line, lpf, pulsed.sample - noise, odd);
    }
    line[0]
}

// A sample with nlpf 1 or more. Its line, which may begin at an odd place of a window, has still to move on by one tap.
pub(crate) fn get_mixed(
    pulse: &mut Pulse,
    random: &mut Random,
    line: &mut [f64],
    lpf: &[f64],
    odd: bool,
) -> Option<f64>
    requires { 0 < length line.old }
    ensures line_after { sampled_of result (state pulse.new random.new (shifted line.new)) ≡ mixed_step tries lpf.now (state pulse.old random.old line.old) }
    ensures unchanged { result ≡ None → state pulse.new random.new line.new ≡ state pulse.old random.old line.old }
{
    let noise = random.nrandom()?;
    Some(mix(pulse, noise, line, lpf, odd))
}

// The same, with the line shifted.
fn get_shifted(pulse: &mut Pulse, random: &mut Random, line: &mut [f64], lpf: &[f64]) -> Option<f64>
    requires { 0 < length line.old }
    ensures line_after { sampled_of result (state pulse.new random.new line.new) ≡ mixed_step tries lpf.now (state pulse.old random.old line.old) }
    ensures unchanged { result ≡ None → state pulse.new random.new line.new ≡ state pulse.old random.old line.old }
{
    let sample = get_mixed(pulse, random, line, lpf, false)?;
    delay::shift(line);
    Some(sample)
}

// One sample.
pub(crate) fn get(
    pulse: &mut Pulse,
    random: &mut Random,
    line: &mut [f64],
    lpf: &[f64],
) -> Option<f64>
    ensures line_after { sampled_of result (state pulse.new random.new line.new) ≡ step_of tries lpf.now (state pulse.old random.old line.old) }
    ensures unchanged { result ≡ None → state pulse.new random.new line.new ≡ state pulse.old random.old line.old }
{
    if line.is_empty() {
        get_plain(pulse, random)
    } else {
        get_shifted(pulse, random, line, lpf)
    }
}
