// A cage file moved from a form to a form, as the programs of the moves do it: the new file, or the refusal.
#![tactic(auto)]

ghost use Rattle.std.specs.Prelude.{◌≡◌, ◌≤◌, ◌<◌, length, IfOk, IfErr};
ghost use Rattle.io.specs.Counts.{IsPrefixLen};
ghost use Rattle.halfedges.specs.Refusals.{refused as refusals_refused};
ghost use Rattle.text.specs.declared.replies.Status.TheVariants.{Answered};
ghost use Rattle.text.specs.Replies.{refused, Says};
ghost use Rattle.text.specs.Internal.Put.{Replied};
ghost use Rattle.intake.specs.Internal.Buffer.{longest};
ghost use Rattle.mover.specs.Moving.{moving};

use cagefile::fields::Form;
use halfedges::refusal::Refusal;
use text::replies::{Status, Written};
use text::{replies, streams};

// What the longest file takes.
const LONGEST: usize = 46111;

// Moves what standard input holds, as much as the buffer takes: past the longest file that reads more bytes change nothing
// (`front_moved`).
pub fn move_input(rt: &HostRuntime, file: &mut [u8], from: Form, to: Form)
    requires { longest < length file.old }
{
    let mut out = [0u8; LONGEST];
    let moved = |file: &[u8], out: &mut [u8; LONGEST]| reply(file, from, to, out);
    streams::answer(rt, file, &mut out, moved, streams::hand_over);
}

// The reply to any bytes, the moved file or the refusal's line at the front of out.
pub fn reply(file: &[u8], from: Form, to: Form, out: &mut [u8; LONGEST]) -> Written
    ensures says { Says (moving from to file.now) out.old out.new result }
    ensures prefix_len { IsPrefixLen result.length out.new }
{
    let moved = moves::move_file(file, from, to, out);
    put_reply(out, moved)
}

// The reply to a move. Where it is done the file stands at the front of out already.
fn put_reply(out: &mut [u8], moved: Result<usize, Refusal>) -> Written
    requires { 50 ≤ length out.old }
    ensures replied { IfErr moved (λ refusal. Replied out.old 50 (refused (refusals_refused refusal)) out.new result) }
    ensures value { IfOk moved (λ length. (result ≡ record { status = Answered; length = length }) × (out.new ≡ out.old)) }
{
    match moved {
        Ok(length) => Written {
            status: Status::Answered,
            length,
        },
        Err(refusal) => replies::put_refusal(out, Err(refusal)),
    }
}
