// The standard streams, and the status that a program ends with.
ghost use Rattle.std.specs.Prelude.{◌≡◌, ◌<◌, take, length, IfSome, IfNone, IfOk, IfErr};
ghost use Rattle.std.specs.Io.KnownBytes.{Consumes, Keeps, IsAtEnd};
ghost use Rattle.io.specs.Counts.{IsPrefixLen};
ghost use Rattle.text.specs.Internal.Handed.{IsFrontOf, HandedFront, HandedText};

use crate::replies::{Ending, Status, Written};
use std::convert::AsSlice;
use std::fs::{File, OpenOptions};
use std::io::{ErrorKind, Print, Read, Write};
use std::{fs, io};

// A program writes its status as one digit to descriptor 3, from which the command that started it takes it. Only this path leads to a
// descriptor that is none of the three standard ones: opening it opens what the descriptor has open once more.
const STATUS_PATH: &str = "/dev/fd/3";

// Answers what standard input holds, as much as the buffer takes: `reply` puts the reply to what was read at the front of `out`, and
// `say` gives it out.
pub fn answer<O: AsSlice<u8>, F: Fn(&[u8], &mut O) -> Written, S: Fn(&HostRuntime, &[u8], Status)>(
    rt: &HostRuntime,
    input: &mut [u8],
    out: &mut O,
    reply: F,
    say: S,
)
    requires replies { F.IsAlwaysCallable reply }
    requires prefix_len { (text : _) (room : _) (told : _) (after : _) → F.post reply text room told after → IsPrefixLen told.length (O.items after.now) }
    requires says { S.IsAlwaysCallable say }
{
    let _ = answer_from(rt, &mut rt.stdin(), input, out, reply, say);
}

// Answers so what any source holds: `reply` is handed the source's first bytes, and `say` the text of the reply. Tells what `reply`
// told; nothing where a read fails.
fn answer_from<
    R: Read,
    O: AsSlice<u8>,
    F: Fn(&[u8], &mut O) -> Written,
    S: Fn(&HostRuntime, &[u8], Status),
>(
    rt: &HostRuntime,
    source: &mut R,
    input: &mut [u8],
    out: &mut O,
    reply: F,
    say: S,
) -> Option<Written>
    requires replies { F.IsAlwaysCallable reply }
    requires prefix_len { (text : _) (room : _) (told : _) (after : _) → F.post reply text room told after → IsPrefixLen told.length (O.items after.now) }
    requires says { S.IsAlwaysCallable say }
    ensures replied { IfSome result (HandedFront (F.post reply) (R.remaining source.old) (length input.old) out.old out.new) }
    ensures said { IfSome result (λ told. HandedText (λ text. S.post say rt.entry text told.status tt) (take told.length (O.items out.new))) }
{
    let Ok(length) = read_from(rt, source, &mut *input) else {
        return None;
    };
    let written = reply(&input[..length], &mut *out);
    say(rt, &out.as_slice()[..written.length], written.status);
    Some(written)
}

// Reads standard input until the buffer is full or the input ends, and answers how many bytes stand at its front; where a read
// fails, which is told, how many had come by then. A pipe may hand over a part at a time.
pub fn read(rt: &HostRuntime, buffer: &mut [u8]) -> Result<usize, usize>
    ensures whole { IfOk result (λ length. IsPrefixLen length buffer.new) }
    ensures part { IfErr result (λ length. IsPrefixLen length buffer.new) }
{
    read_from(rt, &mut rt.stdin(), buffer)
}

// Reads so any source: at the front stand its first bytes, as many as the buffer takes; where a read fails, those that had come by
// then.
fn read_from<R: Read>(rt: &HostRuntime, source: &mut R, buffer: &mut [u8]) -> Result<usize, usize>
    ensures whole { IfOk result (λ length. IsPrefixLen length buffer.new) }
    ensures part { IfErr result (λ length. IsPrefixLen length buffer.new) }
    ensures all { IfOk result (λ done. IsFrontOf (R.remaining source.old) (length buffer.old) (take done buffer.new)) }
    ensures front { IfErr result (λ done. IsFrontOf (R.remaining source.old) done (take done buffer.new)) }
{
    let mut done = 0;
    // each turn goes on by as much as a read hands over, which no range counts
    while done < buffer.len() {
        let Some(more) = read_part(rt, source, &mut buffer[done..]) else {
            return Err(done);
        };
        if more == 0 {
            return Ok(done);
        }
        done += more;
    }
    Ok(done)
}

// Reads once: no bytes where the source ends.
fn read_part<R: Read>(rt: &HostRuntime, source: &mut R, part: &mut [u8]) -> Option<usize>
    ensures within { IfSome result (λ length. IsPrefixLen length part.new) }
    ensures bytes { IfSome result (λ more. Consumes (R.remaining source.old) (R.remaining source.new) (take more part.new)) }
    ensures end { IfSome result (λ more. more ≡ 0 → 0 < length part.old → IsAtEnd (R.remaining source.new)) }
    ensures none { IfNone result (Keeps (R.remaining source.old) (R.remaining source.new)) }
{
    let read = source.read(&mut *part).ok();
    if read.is_none() {
        fail(rt, b"ryebadger: the input cannot be read\n");
    }
    read
}

// Says a reply: an answer and a refusal on standard output, what a question looks like on standard error.
pub fn say<E: Ending>(rt: &HostRuntime, text: &[u8], status: E) {
    let number = status.number();
    if number == Status::Misused.number() {
        tell(rt, text, number);
        return;
    }
    if put(rt, text) {
        end(rt, number);
    }
}

// Hands over a reply whose answer is a file: only that goes to standard output, and a refusal is told on standard error.
pub fn hand_over<E: Ending>(rt: &HostRuntime, reply: &[u8], status: E) {
    let number = status.number();
    if number != Status::Answered.number() {
        tell(rt, reply, number);
        return;
    }
    if put(rt, reply) {
        end(rt, number);
    }
}

// Tells on standard error what is no answer.
fn tell<E: Ending>(rt: &HostRuntime, text: &[u8], status: E) {
    let _ = Print::write_all(&rt.stderr(), text);
    end(rt, status);
}

// Puts a part of an answer on standard output; where that fails it is told, and the program is to put nothing more.
pub fn put(rt: &HostRuntime, part: &[u8]) -> bool {
    if Print::write_all(&rt.stdout(), part).is_err() {
        fail(rt, b"ryebadger: standard output cannot be written\n");
        return false;
    }
    true
}

// Says which stream failed.
fn fail(rt: &HostRuntime, message: &[u8]) {
    tell(rt, message, Status::Failed);
}

// Hands the status over to the command; where descriptor 3 is closed or cannot be written, to nobody.
pub fn end<E: Ending>(rt: &HostRuntime, status: E) {
    let number = status.number();
    if let Ok(mut file) = open_status(rt) {
        let _ = write!(file, "{number}");
    }
}

// Opens what descriptor 3 has open, where that is open for writing, as the permissions of the descriptor's own link say. A file is
// neither made nor emptied, and what is written goes to its end.
fn open_status(rt: &HostRuntime) -> io::Result<File> {
    let link = fs::symlink_metadata(rt, STATUS_PATH)?;
    if link.permissions().readonly() {
        return Err(io::Error::from(ErrorKind::PermissionDenied));
    }
    OpenOptions::new().append(true).open(rt, STATUS_PATH)
}
