// What C and Rust reach of the crates below, under C names. Each function is the one that it calls.
#![tactic(auto)]

ghost use Rattle.std.specs.Prelude.{◌≡◌, ◌+◌, ◌*◌, ◌%◌, ◌^◌, length};
ghost use Rattle.number.specs.Bits.{bits_of, float_of};
ghost use Rattle.root.specs.Root.{root_of};
ghost use Rattle.exponential.specs.Exp.{exp_of};
ghost use Rattle.logarithm.specs.Ln.{ln_of};
ghost use Rattle.cosine.specs.Cos.{cos_of};
ghost use Rattle.power.specs.Power.{inverse_power_of, inverse_root_of};
ghost use Rattle.elementary.specs.Band.{number_of};
ghost use Rattle.number.specs.Lists.{over};
ghost use Rattle.pulse.specs.Train.{start_of, end_of};
ghost use Rattle.excitation.specs.Excitation.{state, stretch_of};
ghost use Rattle.noise.specs.Draw.{tries};
ghost use Rattle.exports.specs.Exported.{pitch_of, count_of};

use elementary::answer::Outside;
use excitation::Filled;
use noise::Random;
use pulse::Pulse;

#[unsafe(no_mangle)]
pub extern "C" fn kipawnore_sqrt(x: f64) -> f64
    ensures { result ≡ root_of x }
{
    root::sqrt(x)
}

#[unsafe(no_mangle)]
pub extern "C" fn kipawnore_wrapping_mul(a: u64, b: u64) -> u64
    ensures { result ≡ (a * b) % 2 ^ 64 }
{
    number::wrapping::wrapping_mul(a, b)
}

#[unsafe(no_mangle)]
pub extern "C" fn kipawnore_wrapping_add(a: u64, b: u64) -> u64
    ensures { result ≡ (a + b) % 2 ^ 64 }
{
    number::wrapping::wrapping_add(a, b)
}

#[unsafe(no_mangle)]
pub extern "C" fn kipawnore_bits_of(x: f64) -> u64
    ensures { result ≡ bits_of x }
{
    number::bits::bits_of(x)
}

#[unsafe(no_mangle)]
pub extern "C" fn kipawnore_float_of(b: u64) -> f64
    ensures { result ≡ float_of b }
{
    number::bits::float_of(b)
}

// The number of an answer, and the NaN for one that is outside: no number inside is the NaN.
fn number_of(answer: Result<f64, Outside>) -> f64
    ensures { result ≡ number_of answer }
{
    answer.unwrap_or(0.0 / 0.0)
}

#[unsafe(no_mangle)]
pub extern "C" fn kipawnore_exp(x: f64) -> f64
    ensures { result ≡ exp_of x }
{
    exponential::exp(x)
}

#[unsafe(no_mangle)]
pub extern "C" fn kipawnore_ln(x: f64) -> f64
    ensures { result ≡ number_of (ln_of x) }
{
    number_of(logarithm::ln(x))
}

#[unsafe(no_mangle)]
pub extern "C" fn kipawnore_cos(x: f64) -> f64
    ensures { result ≡ number_of (cos_of x) }
{
    number_of(cosine::cos(x))
}

#[unsafe(no_mangle)]
pub extern "C" fn kipawnore_inverse_power(a: f64, s: u64) -> f64
    ensures { result ≡ number_of (inverse_power_of a s) }
{
    number_of(power::inverse_power(a, s))
}

#[unsafe(no_mangle)]
pub extern "C" fn kipawnore_inverse_root(a: f64, s: u64) -> f64
    ensures { result ≡ number_of (inverse_root_of a s) }
{
    number_of(power::inverse_root(a, s))
}

// A frame of fperiod samples, or of 2^53 where it is more, begins: unvoiced, or voiced with a period in samples. The C interface takes a flag and a period.
#[unsafe(no_mangle)]
pub extern "C" fn kipawnore_start(pulse: Pulse, voiced: bool, period: f64, fperiod: u64) -> Pulse
    ensures { result ≡ start_of pulse (pitch_of voiced period) (count_of fperiod) }
{
    pulse.start(voiced.then_some(period), fperiod.min(9007199254740992))
}

// A frame ends.
#[unsafe(no_mangle)]
pub extern "C" fn kipawnore_end(pulse: Pulse) -> Pulse
    ensures { result ≡ end_of pulse }
{
    pulse.end()
}

// Fills `out` with as many samples of the excitation as can be had, and moves the line on.
#[unsafe(no_mangle)]
pub extern "C" fn kipawnore_stretch(
    pulse: Pulse,
    random: Random,
    line: &mut [f64],
    lpf: &[f64],
    out: &mut [f64],
) -> Filled
    ensures line_after { state result.pulse result.random line.new
        ≡ (stretch_of tries lpf.now (length out.old) (state pulse random line.old)).state }
    ensures made_value { result.made ≡ length (stretch_of tries lpf.now (length out.old) (state pulse random line.old)).made }
    ensures out_after { out.new
        ≡ over (stretch_of tries lpf.now (length out.old) (state pulse random line.old)).made result.made out.old }
{
    excitation::stretch(pulse, random, line, lpf, out)
}
