// Where the parts of a voice's slots begin, and what a flag says.
// That nlpf and nmcp are up to 64 is in clauses: a type around one number, made at every call, is no plainer.
ghost use Rattle.std.specs.Prelude.{not, ◌≡◌, ◌+◌, ◌≤◌, eqb};
ghost use Rattle.slots.specs.Slots.{noise_at, queue_at, spectrum_at, filter_at};

// The counters: samples made, samples left, whether no frame came yet.
pub const METER_AT: usize = 12;

pub const LEFT_AT: usize = 13;

pub const FIRST_AT: usize = 14;

// The delay line: after the configuration, the counters and the pulse train.
pub const LINE_AT: usize = 19;

// The noise: after the line and the filter taps.
pub fn noise_at(nlpf: usize) -> usize
    requires { nlpf ≤ 64 }
    ensures { result ≡ noise_at nlpf }
{
    LINE_AT + nlpf + nlpf
}

// How many of its values are used, after `next`.
pub fn used_at(nlpf: usize) -> usize
    requires { nlpf ≤ 64 }
    ensures { result ≡ noise_at nlpf + 1 }
{
    noise_at(nlpf) + 1
}

// Its 64 values.
pub fn queue_at(nlpf: usize) -> usize
    requires { nlpf ≤ 64 }
    ensures { result ≡ queue_at nlpf }
{
    noise_at(nlpf) + 2
}

// The coefficients.
pub fn spectrum_at(nlpf: usize) -> usize
    requires { nlpf ≤ 64 }
    ensures { result ≡ spectrum_at nlpf }
{
    noise_at(nlpf) + 66
}

// Their increments.
pub fn increments_at(nlpf: usize, nmcp: usize) -> usize
    requires { (nlpf ≤ 64) × (nmcp ≤ 64) }
    ensures { result ≡ spectrum_at nlpf + nmcp }
{
    spectrum_at(nlpf) + nmcp
}

// Their targets.
pub fn targets_at(nlpf: usize, nmcp: usize) -> usize
    requires { (nlpf ≤ 64) × (nmcp ≤ 64) }
    ensures { result ≡ spectrum_at nlpf + nmcp + nmcp }
{
    spectrum_at(nlpf) + nmcp + nmcp
}

// The filter's taps.
pub fn filter_at(nlpf: usize, nmcp: usize) -> usize
    requires { (nlpf ≤ 64) × (nmcp ≤ 64) }
    ensures { result ≡ filter_at nmcp nlpf }
{
    targets_at(nlpf, nmcp) + nmcp
}

// Whether a flag is set.
pub fn is_set(flag: u64) -> bool
    ensures { result ≡ not (eqb flag 0) }
{
    flag != 0
}
