// The delay line: what is added to its taps, and what goes out.
// That the line has a tap is a clause, since the type of a slice says no length.
#![tactic(auto)]

ghost use Rattle.std.specs.Prelude.{◌≡◌, ◌<◌, length};
ghost use Rattle.number.specs.F64.{◌‼◌};
ghost use Rattle.delay.specs.Line.{with_noise, with_pulse, shifted};

// The noise goes to tap (nlpf - 1) div 2.
pub fn add_noise(line: &mut [f64], noise: f64)
    requires { 0 < length line.old }
    ensures { line.new ≡ with_noise noise line.old }
{
    let middle = (line.len() - 1) / 2;
    line[middle] += noise;
}

// c * lpf[k] goes to each tap k, as far as there are both.
fn add_each(line: &mut [f64], lpf: &[f64], c: f64)
    ensures { line.new ≡ with_pulse c lpf.now line.old }
{
    let n = line.len().min(lpf.len());
    for k in 0..n {
        line[k] += c * lpf[k];
    }
}

// The same with tap 0 by itself.
fn add_apart(line: &mut [f64], lpf: &[f64], c: f64)
    requires { (0 < length line.old) × (0 < length lpf.now) }
    ensures { line.new ≡ with_pulse c lpf.now line.old }
{
    add_each(&mut line[1..], &lpf[1..], c);
    line[0] += c * lpf[0];
}

// c * lpf[k] goes to each tap k. Where lpf is shorter than the line, the taps past its end stay. A line that goes along in a window begins at an odd
// place with every other sample: with tap 0 by itself the others are stored and read again in the same pairs, and no read waits for two stores.
// `odd` stays a bool, no closure: which of the two ways it is goes by the sample.
pub fn add_pulse(line: &mut [f64], lpf: &[f64], c: f64, odd: bool)
    ensures { line.new ≡ with_pulse c lpf.now line.old }
{
    if odd && !line.is_empty() && !lpf.is_empty() {
        add_apart(line, lpf, c);
    } else {
        add_each(line, lpf, c);
    }
}

// Tap 0 goes out, and a zero comes in at the far end.
pub fn shift(line: &mut [f64]) -> f64
    requires { 0 < length line.old }
    ensures value { result ≡ line.old ‼ 0 }
    ensures line_after { line.new ≡ shifted line.old }
{
    let first = line[0];
    let last = line.len() - 1;
    line.copy_within(1.., 0);
    line[last] = 0.0;
    first
}
