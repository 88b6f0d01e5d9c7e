// Parts of a case, read from its words. Every line is of 17 bytes.
ghost use Rattle.std.specs.Prelude.{◌+◌, ◌*◌, ◌≤◌, length};

use noise::Random;
use pulse::Pulse;

// The pulse train of the four words from `at` on.
pub fn pulse(text: &[u8], at: usize) -> Pulse
    requires { at + 17 * 4 ≤ length text.now }
{
    Pulse {
        pitch: words::float(text, at),
        counter: words::float(text, at + 17),
        increment: words::float(text, at + 17 * 2),
        end: words::float(text, at + 17 * 3),
    }
}

// The noise of the 66 words from `at` on.
pub fn random(text: &[u8], at: usize) -> Random
    requires { at + 17 * 66 ≤ length text.now }
{
    let next = words::word(text, at);
    let used = words::word(text, at + 17) as usize;
    let mut queue = [0.0; 64];
    words::floats(text, at + 17 * 2, &mut queue);
    Random { next, used, queue }
}
