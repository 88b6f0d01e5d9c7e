// The stability of line spectral pairs: gaps between neighbours that are too small are widened.
#![tactic(auto)]

ghost use Rattle.std.specs.Prelude.{◌≡◌, ◌≤◌, length};
ghost use Rattle.stability.specs.Stability.{stable_of};

// The float nearest to P.
const PI: f64 = 3.141592653589793;

// At most four passes over the gaps and both ends. A pass that changes nothing is the last one.
pub fn check_lsp_stability(lsp: &mut [f64])
    requires { (2 ≤ length lsp.old) × (length lsp.old ≤ 64) }
    ensures { lsp.new ≡ stable_of lsp.old }
{
    let min = 0.25 * PI / lsp.len() as f64;
    let last = lsp.len() - 1;
    'passes: for pass in 0u64..4 {
        let mut find = false;
        for j in 1..last {
            let tmp = lsp[j + 1] - lsp[j];
            if tmp < min {
                lsp[j] = lsp[j] - 0.5 * (min - tmp);
                lsp[j + 1] = lsp[j + 1] + 0.5 * (min - tmp);
                find = true;
            }
        }
        if lsp[1] < min {
            lsp[1] = min;
            find = true;
        }
        if lsp[last] > PI - min {
            lsp[last] = PI - min;
            find = true;
        }
        if !find {
            break 'passes;
        }
    }
}
