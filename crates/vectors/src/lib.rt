// Slices of floats, whole and from an index on.
// `multiply_from` and `divide_from` differ in an operation, for which a closure is no plainer; `copy` is a loop, in which its edits plant
// their mistakes: std's method leaves a `memmove` in the archives for C. `energy` goes by an index, as its edits do.
#![tactic(auto)]

ghost use Rattle.std.specs.Prelude.{◌≡◌, length};
ghost use Rattle.vectors.specs.Vectors.{times_from, over_from, plus, energy_of};

// Copies one slice into another of its length.
pub fn copy(from: &[f64], to: &mut [f64])
    requires { length to.old ≡ length from.now }
    ensures { to.new ≡ from.now }
{
    for i in 0..from.len() {
        to[i] = from[i];
    }
}

// Multiplies the entries from `first` on.
pub fn multiply_from(c: &mut [f64], first: usize, factor: f64)
    ensures { c.new ≡ times_from first factor c.old }
{
    for i in first..c.len() {
        c[i] *= factor;
    }
}

// Divides the entries from `first` on.
pub fn divide_from(c: &mut [f64], first: usize, divisor: f64)
    ensures { c.new ≡ over_from first divisor c.old }
{
    for i in first..c.len() {
        c[i] /= divisor;
    }
}

// Adds to each entry the one at its place in a slice of the same length.
pub fn add(c: &mut [f64], other: &[f64])
    requires { length other.now ≡ length c.old }
    ensures { c.new ≡ plus c.old other.now }
{
    for i in 0..c.len() {
        c[i] += other[i];
    }
}

// The sum of the squares, in rising index from zero.
pub fn energy(c: &[f64]) -> f64
    ensures { result ≡ energy_of c.now }
{
    let mut sum = 0.0;
    for i in 0..c.len() {
        sum += c[i] * c[i];
    }
    sum
}
