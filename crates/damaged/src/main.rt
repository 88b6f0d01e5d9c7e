// Damages the records of three voices in every place, and restores them into another voice. Either that is refused by 13, and the voice
// returned is the one handed in; or it is done, and a save of the voice returned gives exactly the damaged records. It writes for each voice and
// kind of damage how many were tried, refused and accepted, and how many broke this rule.
// Arrays are of the largest size that a case may have, a part of them lent: no heap.
#![tactic(auto)]

ghost use Rattle.std.specs.Prelude.{◌≤◌};

mod changes;
mod lengths;
mod made;
mod tally;

use configuration::Configuration;
use made::configuration;
use std::io;
use tally::Other;
use voice::Voice;

// Writes how far a voice has come, and how many bytes its records have.
fn print_voice(rt: &impl Print, name: &str, voice: Voice, bytes: usize) -> io::Result<()> {
    let Configuration {
        nmcp,
        nlpf,
        stage,
        ..
    } = voice.configuration;
    let Voice { meter, left, .. } = voice;
    println!(rt;
        "{name}nmcp {nmcp}, nlpf {nlpf}, stage {stage}, meter {meter}, left {left}: {bytes} bytes"
    )
}

// Damages the records of a voice of that configuration. The test is for the indices: every voice has 1,488 to 14,672 bytes.
fn damage(rt: &impl Print, configuration: Configuration, other: Other) -> io::Result<()>
    requires { (configuration.nmcp ≤ 64) × (configuration.nlpf ≤ 64) }
{
    let voice = made::voice(configuration);
    let mut room = [0; 14720];
    let count = rest::save(voice, &mut room).bytes;
    print_voice(rt, "", voice, count)?;
    if count < 1488 || count > 14672 {
        return Ok(());
    }
    lengths::all(rt, &mut room, count, other)?;
    changes::all(rt, &mut room[..count], other)
}

fn main(rt: HostRuntime) -> io::Result<()> {
    let voice = made::voice(configuration(3, 1, 1, 7));
    let mut kept = [0; 14672];
    let count = rest::save(voice, &mut kept).bytes;
    print_voice(&rt, "into ", voice, count)?;
    if count > 14672 {
        return Ok(());
    }
    let other = Other {
        voice,
        kept: &kept[..count],
    };
    damage(&rt, configuration(25, 31, 0, 80), other)?;
    damage(&rt, configuration(5, 2, 3, 5), other)?;
    damage(&rt, configuration(2, 0, 0, 5), other)
}
