// The postfilters, which sharpen a spectrum and keep its energy.
#![tactic(auto)]

ghost use Rattle.std.specs.Prelude.{◌≡◌};
ghost use Rattle.postfilter.specs.Mel.{acts};

pub mod mel;
pub mod pairs;

// Whether they act on n entries.
fn acting(beta: f64, n: usize) -> bool
    ensures { result ≡ acts beta n }
{
    beta > 0.0 && n > 2
}
