// The level lister: one cage file on standard input, the counts of its seven levels on standard output.
#![tactic(auto)]

ghost use Rattle.std.specs.Prelude.{◌<◌, length};
ghost use Rattle.intake.specs.Internal.Buffer.{longest};

mod listing;

use text::streams;

fn main(rt: HostRuntime) {
    // one byte more than the longest file that reads
    let mut file = [0u8; 46112];
    list_input(&rt, &mut file);
}

// Lists what standard input holds, as much as the buffer takes: past the longest file that reads more bytes change nothing
// (`front_replied`).
fn list_input(rt: &HostRuntime, file: &mut [u8])
    requires { longest < length file.old }
{
    let mut out = [0u8; 1024];
    streams::answer(rt, file, &mut out, listing::list, streams::say);
}
