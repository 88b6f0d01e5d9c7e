// The steps of the filter `fir` of mlsa.rs: the first two taps, four taps at once, one tap. `lanes::five` takes five rows through all of them.
// `lanes` has its own `start`, `group` and `tap`: a trait over both, with its laws, would be longer than the three functions that it joins.
#![tactic(auto)]

ghost use Rattle.std.specs.Prelude.{◌≡◌, [], ◌∷◌, ◌+◌, ◌<◌, length};
ghost use Rattle.fir.specs.Fir.{start, group, tap};

// What is carried from tap to tap: the remainder, and the two running sums.
#[derive(Clone, Copy)]
pub struct Carried {
    pub rem: f64,
    pub y0: f64,
    pub y1: f64,
}

// N taps anew, and what is carried on past them.
#[derive(Clone, Copy)]
pub struct Made<const N: usize> {
    pub d: [f64; N],
    pub on: Carried,
}

// The first two taps, of which only the second is read.
pub fn first_two(a: f64, x: f64, d1: f64) -> Made<2>
    ensures { record { d = result.d; on = result.on } ≡ start a x (d1 ∷ d1 ∷ []) }
{
    Made {
        d: [a * x, (1.0 - a * a) * x + a * d1],
        on: Carried {
            rem: -a * x + d1,
            y0: 0.0,
            y1: 0.0,
        },
    }
}

// Four taps, each from the old ones, with their coefficients.
pub fn next_four(a: f64, d: [f64; 4], c: [f64; 4], s: Carried) -> Made<4>
    ensures { record { d = result.d; on = result.on } ≡ group a c 0 (record { d = d; on = s }) }
{
    let [d0, d1, d2, d3] = d;
    let [c0, c1, c2, c3] = c;
    let aa = a * a;
    let aaaa = aa * aa;
    let iaa = 1.0 - aa;
    let rem = s.rem;
    let e0 = iaa * rem + a * d0;
    let e1 = iaa * (-a * rem + d0) + a * d1;
    let e2 = iaa * (aa * rem + (-a * d0 + d1)) + a * d2;
    let e3 = iaa * (aa * (-a * rem + d0) + (-a * d1 + d2)) + a * d3;
    let on = Carried {
        rem: aaaa * rem + (aa * (-a * d0 + d1) + (-a * d2 + d3)),
        y0: s.y0 + (c0 * e0 + c2 * e2),
        y1: s.y1 + (c1 * e1 + c3 * e3),
    };
    Made {
        d: [e0, e1, e2, e3],
        on,
    }
}

// One tap, with its coefficient.
pub fn next_one(a: f64, d0: f64, c0: f64, s: Carried) -> Made<1>
    ensures { record { d = result.d; on = result.on } ≡ tap a (c0 ∷ []) 0 (record { d = d0 ∷ []; on = s }) }
{
    let e0 = (1.0 - a * a) * s.rem + a * d0;
    let on = Carried {
        rem: -a * s.rem + d0,
        y0: s.y0 + c0 * e0,
        y1: s.y1,
    };
    Made { d: [e0], on }
}

// The first two taps.
pub fn start(d: &mut [f64], a: f64, x: f64) -> Carried
    requires { 1 < length d.old }
    ensures { record { d = d.exit.now; on = result } ≡ start a x d.entry.now }
{
    let made = first_two(a, x, d[1]);
    d[0] = made.d[0];
    d[1] = made.d[1];
    made.on
}

// Four taps from index i on, each over the old ones.
pub fn group(d: &mut [f64], a: f64, c: &[f64], i: usize, s: Carried) -> Carried
    requires { (i + 1 < length d.old) × (i + 2 < length d.old) × (i + 3 < length d.old) × (i + 3 < length c.now) }
    ensures { record { d = d.exit.now; on = result } ≡ group a c.now i (record { d = d.entry.now; on = s }) }
{
    let made = next_four(
        a,
        [d[i], d[i + 1], d[i + 2], d[i + 3]],
        [c[i], c[i + 1], c[i + 2], c[i + 3]],
        s,
    );
    d[i] = made.d[0];
    d[i + 1] = made.d[1];
    d[i + 2] = made.d[2];
    d[i + 3] = made.d[3];
    made.on
}

// One tap, at index i.
pub fn tap(d: &mut [f64], a: f64, c: &[f64], i: usize, s: Carried) -> Carried
    requires { (i < length d.old) × (i < length c.now) }
    ensures { record { d = d.exit.now; on = result } ≡ tap a c.now i (record { d = d.entry.now; on = s }) }
{
    let made = next_one(a, d[i], c[i], s);
    d[i] = made.d[0];
    made.on
}
