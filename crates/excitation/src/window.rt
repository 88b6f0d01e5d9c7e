// The delay line in a window that slides along the samples: sample i works on the taps from i on, and nothing is shifted.
// Each function answers how many samples were made.
// The window is an array of the largest size: fixed memory.
// The pulse train and the noise go as two `&mut`, and not in one struct: the voice and the stretch under its C name hold them apart.
// Whether a place is odd goes to `get_mixed` as a bool, on to `delay::add_pulse`: which way it is goes by the sample.
ghost use Rattle.std.specs.Prelude.{◌≡◌, ◌+◌, ◌<◌, ◌≤◌, length};
ghost use Rattle.excitation.specs.Excitation.{state};
ghost use Rattle.excitation.specs.Window.{line_at, ZeroFrom, Stretches};

use crate::get::get_mixed;
use noise::Random;
use pulse::Pulse;

// The samples of a window, whose first taps are the line.
fn slide(
    pulse: &mut Pulse,
    random: &mut Random,
    window: &mut [f64],
    taps: usize,
    lpf: &[f64],
    out: &mut [f64],
) -> usize
    requires { (0 < taps) × (taps + length out.old ≤ length window.old) × ZeroFrom taps window.old }
    ensures { Stretches lpf.now (state pulse.old random.old (line_at 0 taps window.old)) (state pulse.new random.new (line_at result taps window.new)) result out.old out.new }
{
    for i in 0..out.len() {
        let end = i + taps;
        let Some(sample) = get_mixed(pulse, random, &mut window[i..end], lpf, i % 2 == 1) else {
            return i;
        };
        out[i] = sample;
    }
    out.len()
}

// The line goes into the front of a window of zeros, and comes back from where the samples have left it.
fn in_window(
    pulse: &mut Pulse,
    random: &mut Random,
    window: &mut [f64],
    line: &mut [f64],
    lpf: &[f64],
    out: &mut [f64],
) -> usize
    requires { (0 < length line.old) × (length line.old + length out.old ≤ length window.old) × ZeroFrom 0 window.old }
    ensures { Stretches lpf.now (state pulse.old random.old line.old) (state pulse.new random.new line.new) result out.old out.new }
{
    let taps = line.len();
    window[0..taps].copy_from_slice(line);
    let made = slide(pulse, random, window, taps, lpf, out);
    let end = made + taps;
    line.copy_from_slice(&window[made..end]);
    made
}

// At most 256 samples.
fn piece(
    pulse: &mut Pulse,
    random: &mut Random,
    line: &mut [f64],
    lpf: &[f64],
    out: &mut [f64],
) -> usize
    requires { (0 < length line.old) × (length line.old ≤ 64) × (length out.old ≤ 256) }
    ensures { Stretches lpf.now (state pulse.old random.old line.old) (state pulse.new random.new line.new) result out.old out.new }
{
    let mut window = [0.0; 320];
    in_window(pulse, random, &mut window, line, lpf, out)
}

// A stretch, piece by piece. A piece that ends early ends the stretch, with the samples that it made.
pub(crate) fn by_pieces(
    pulse: &mut Pulse,
    random: &mut Random,
    line: &mut [f64],
    lpf: &[f64],
    out: &mut [f64],
) -> usize
    requires { (0 < length line.old) × (length line.old ≤ 64) }
    ensures { Stretches lpf.now (state pulse.old random.old line.old) (state pulse.new random.new line.new) result out.old out.new }
{
    let n = out.len();
    for i in (0..n).step_by(256) {
        let end = n.min(i + 256);
        let made = piece(pulse, random, line, lpf, &mut out[i..end]);
        if made < end - i {
            return i + made;
        }
    }
    n
}
