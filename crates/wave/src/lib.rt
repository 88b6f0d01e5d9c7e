// Eight passes of freqt in one sweep over the array: at each entry they run as a wave, each on what the one before it has just made.
#![tactic(auto)]

ghost use Rattle.std.specs.Prelude.{◌≡◌, ◌++◌, ◌≤◌, length, take, drop};
ghost use Rattle.wave.specs.Wave.{last_or, outputs, swept, first_after, seconds_of, wave_of, made_by};

// What is carried from entry to entry: what came into the first pass there, and what each pass made there.
#[derive(Clone, Copy)]
pub struct Wave {
    pub input: f64,
    pub first: f64,
    pub second: f64,
    pub third: f64,
    pub fourth: f64,
    pub fifth: f64,
    pub sixth: f64,
    pub seventh: f64,
    pub eighth: f64,
}

// The wave at the entry v.
fn step(w: Wave, alpha: f64, v: f64) -> Wave
    ensures { (result.input ≡ v) × (made_by result ≡ outputs alpha w.input v (made_by w)) }
{
    let first = w.input + alpha * (v - w.first);
    let second = w.first + alpha * (first - w.second);
    let third = w.second + alpha * (second - w.third);
    let fourth = w.third + alpha * (third - w.fourth);
    let fifth = w.fourth + alpha * (fourth - w.fifth);
    let sixth = w.fifth + alpha * (fifth - w.sixth);
    let seventh = w.sixth + alpha * (sixth - w.seventh);
    let eighth = w.seventh + alpha * (seventh - w.eighth);
    Wave {
        input: v,
        first,
        second,
        third,
        fourth,
        fifth,
        sixth,
        seventh,
        eighth,
    }
}

// The waves at the entries v and u, one after the other. The passes make a1 to a8 at v and b1 to b8 at u: a pass at u needs the same
// one at v and the one before it at u, so that the two chains run side by side. Answers what the eighth pass made at v, and the wave at u.
fn two_steps(w: Wave, alpha: f64, v: f64, u: f64) -> (f64, Wave)
    ensures { (result.1.input ≡ u) × (result.0 ≡ last_or v (outputs alpha w.input v (made_by w))) × (made_by result.1 ≡ outputs alpha v u (outputs alpha w.input v (made_by w))) }
{
    let a1 = w.input + alpha * (v - w.first);
    let a2 = w.first + alpha * (a1 - w.second);
    let b1 = v + alpha * (u - a1);
    let a3 = w.second + alpha * (a2 - w.third);
    let b2 = a1 + alpha * (b1 - a2);
    let a4 = w.third + alpha * (a3 - w.fourth);
    let b3 = a2 + alpha * (b2 - a3);
    let a5 = w.fourth + alpha * (a4 - w.fifth);
    let b4 = a3 + alpha * (b3 - a4);
    let a6 = w.fifth + alpha * (a5 - w.sixth);
    let b5 = a4 + alpha * (b4 - a5);
    let a7 = w.sixth + alpha * (a6 - w.seventh);
    let b6 = a5 + alpha * (b5 - a6);
    let a8 = w.seventh + alpha * (a7 - w.eighth);
    let b7 = a6 + alpha * (b6 - a7);
    let b8 = a7 + alpha * (b7 - a8);
    let wave = Wave {
        input: u,
        first: b1,
        second: b2,
        third: b3,
        fourth: b4,
        fifth: b5,
        sixth: b6,
        seventh: b7,
        eighth: b8,
    };
    (a8, wave)
}

// The wave from the third entry on, two entries a turn, and then the last where one is left.
// By the number of pairs: `as_chunks_mut` says nothing of what the slice ends as.
fn sweep_in(g: &mut [f64], alpha: f64, mut w: Wave)
    requires { 2 ≤ length g.old }
    ensures { g.new ≡ take 2 g.old ++ swept alpha w.input (made_by w) (drop 2 g.old) }
{
    for t in 0..(g.len() - 2) / 2 {
        let j = 2 + 2 * t;
        let (here, next) = two_steps(w, alpha, g[j], g[j + 1]);
        g[j] = here;
        g[j + 1] = next.eighth;
        w = next;
    }
    if g.len() % 2 == 1 {
        let j = g.len() - 1;
        let last = step(w, alpha, g[j]);
        g[j] = last.eighth;
    }
}

// The first two entries of eight passes that take x in, pass by pass: the first after all of them, and the wave at the second.
fn start(first: f64, second: f64, alpha: f64, x: &[f64]) -> (f64, Wave)
    requires { length x.now ≡ 8 }
    ensures { (result.0 ≡ first_after alpha x.now first) × (result.1.input ≡ second) × (made_by result.1 ≡ seconds_of alpha x.now first second) }
{
    let aa = 1.0 - alpha * alpha;
    let f1 = x[0] + alpha * first;
    let f2 = x[1] + alpha * f1;
    let f3 = x[2] + alpha * f2;
    let f4 = x[3] + alpha * f3;
    let f5 = x[4] + alpha * f4;
    let f6 = x[5] + alpha * f5;
    let f7 = x[6] + alpha * f6;
    let f8 = x[7] + alpha * f7;
    let s1 = aa * first + alpha * second;
    let s2 = aa * f1 + alpha * s1;
    let s3 = aa * f2 + alpha * s2;
    let s4 = aa * f3 + alpha * s3;
    let s5 = aa * f4 + alpha * s4;
    let s6 = aa * f5 + alpha * s5;
    let s7 = aa * f6 + alpha * s6;
    let s8 = aa * f7 + alpha * s7;
    let wave = Wave {
        input: second,
        first: s1,
        second: s2,
        third: s3,
        fourth: s4,
        fifth: s5,
        sixth: s6,
        seventh: s7,
        eighth: s8,
    };
    (f8, wave)
}

// Eight passes, which take x in.
pub fn eight_in(g: &mut [f64], alpha: f64, x: &[f64])
    requires { (2 ≤ length g.old) × (length x.now ≡ 8) }
    ensures { g.new ≡ wave_of alpha x.now g.old }
{
    let (first, wave) = start(g[0], g[1], alpha, x);
    g[0] = first;
    g[1] = wave.eighth;
    sweep_in(g, alpha, wave);
}
