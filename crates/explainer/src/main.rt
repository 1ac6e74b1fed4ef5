// Why a cage is sent back: one cage file on standard input, one line on standard output.
#![tactic(auto)]

ghost use Rattle.std.specs.Prelude.{◌<◌, length};
ghost use Rattle.intake.specs.Internal.Buffer.{longest};

mod explaining;

use text::streams;

fn main(rt: HostRuntime) {
    // one byte more than the longest file that reads
    let mut file = [0u8; 46112];
    explain_input(&rt, &mut file);
}

// Explains what standard input holds, as much as the buffer takes: past the longest file that reads more bytes change nothing
// (`front_explained`).
fn explain_input(rt: &HostRuntime, file: &mut [u8])
    requires { longest < length file.old }
{
    let mut out = [0u8; 2048];
    streams::answer(rt, file, &mut out, explaining::explain, streams::say);
}
