// Where a float stands: a NaN, finite, between two others, and the nearest to it that is. `is_nan` and `is_finite` are comparisons, which their edits change.
ghost use Rattle.std.specs.Prelude.{◌≡◌, is_nan};
ghost use Rattle.number.specs.Range.{finite, is_within, is_strictly_within, clamp_of};

// Only a NaN differs from itself.
pub fn is_nan(x: f64) -> bool
    ensures { result ≡ is_nan x }
{
    x != x
}

// Neither a NaN nor an infinity: strictly between the infinities.
pub fn is_finite(x: f64) -> bool
    ensures { result ≡ finite x }
{
    let top = 1.0 / 0.0;
    strictly_within(x, -top, top)
}

// Whether low <= x <= high. Where a NaN is among them it is false.
pub fn within(x: f64, low: f64, high: f64) -> bool
    ensures { result ≡ is_within x low high }
{
    low <= x && x <= high
}

// Whether low < x < high. Where a NaN is among them it is false.
pub fn strictly_within(x: f64, low: f64, high: f64) -> bool
    ensures { result ≡ is_strictly_within x low high }
{
    low < x && x < high
}

// low where x is below it, high where x is above it, else x. A NaN stays. By hand: `f64::clamp` asks that low <= high, and this contract answers all bounds.
pub fn clamp(x: f64, low: f64, high: f64) -> f64
    ensures { result ≡ clamp_of x low high }
{
    if x < low {
        low
    } else if high < x {
        high
    } else {
        x
    }
}
