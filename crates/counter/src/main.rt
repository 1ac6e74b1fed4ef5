// The count question: H, E, V and a depth on standard input, the counts of levels 0 to the depth on standard output.
#![tactic(auto)]

ghost use Rattle.std.specs.Prelude.{◌<◌, length};
ghost use Rattle.counter.specs.Internal.Buffer.{longest};

mod counting;
mod question;

use text::streams;

fn main(rt: HostRuntime) {
    // one byte more than the longest question
    let mut text = [0u8; 85];
    count_input(&rt, &mut text);
}

// Answers what standard input holds, as much as the buffer takes: past the longest question more bytes change nothing
// (`front-counted`).
fn count_input(rt: &HostRuntime, text: &mut [u8])
    requires { longest < length text.old }
{
    let mut out = [0u8; 1024];
    streams::answer(rt, text, &mut out, counting::count, streams::say);
}
