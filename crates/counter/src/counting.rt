// The reply to a text: the counts of the levels asked for, the refusal, or what a question looks like.
ghost use Rattle.std.specs.Prelude.{suc, ◌≤◌, length};
ghost use Rattle.io.specs.Counts.{IsPrefixLen};
ghost use Rattle.laws.specs.Below.{end_to_end};
ghost use Rattle.halfedges.specs.Cage.{most_depth};
ghost use Rattle.text.specs.Replies.{Says};
ghost use Rattle.text.specs.Internal.Put.{Put, Replied};
ghost use Rattle.counter.specs.Counting.{count_line, count_lines, counting, count_reply};

use crate::question;
use crate::question::Question;
use halfedges::table::Levels;
use text::replies::{Status, Written};
use text::{lines, replies};

// The reply to any bytes, its text at the front of out.
pub fn count(text: &[u8], out: &mut [u8; 1024]) -> Written
    ensures says { Says (count_reply text.now) out.old out.new result }
    ensures prefix_len { IsPrefixLen result.length out.new }
{
    count_into(text, out)
}

// The reply to any bytes in a text that has room for it.
fn count_into(text: &[u8], out: &mut [u8]) -> Written
    requires { 1024 ≤ length out.old }
    ensures { Replied out.old 1024 (count_reply text.now) out.new result }
{
    match question::ask(text) {
        Some(question) => put_counting(&mut *out, question),
        None => replies::put_misuse(
            &mut *out,
            b"ryebadger: a count question is H E V DEPTH on one line, each at most 18446744073709551615 in at most 20 digits",
        ),
    }
}

// The answer to the count question, or its refusal.
fn put_counting(out: &mut [u8], question: Question) -> Written
    requires { 1024 ≤ length out.old }
    ensures { Replied out.old 1024 (counting question.table question.depth) out.new result }
{
    let depth = question.depth;
    match question.table.count(depth) {
        Ok(levels) => Written {
            status: Status::Answered,
            length: put_levels(&mut *out, levels, depth),
        },
        Err(refusal) => replies::put_refusal(&mut *out, Err(refusal)),
    }
}

// The lines of levels 0 to the depth, and the room.
fn put_levels(out: &mut [u8], levels: Levels, depth: usize) -> usize
    requires { (depth ≤ most_depth) × (1024 ≤ length out.old) }
    ensures { Put out.old 0 1024 (count_lines levels depth) out.new result }
{
    let next = put_lines(&mut *out, levels, depth);
    lines::put_room(&mut *out, next, levels)
}

// The lines of levels 0 to the depth.
fn put_lines(out: &mut [u8], levels: Levels, depth: usize) -> usize
    requires { (depth ≤ most_depth) × (1024 ≤ length out.old) }
    ensures { Put out.old 0 735 (end_to_end (suc depth) (count_line levels)) out.new result }
{
    let mut at = 0;
    for level in 0..=depth {
        at = lines::put_counts(
            &mut *out,
            at,
            lines::counts_of(levels, level),
            lines::NEWLINE,
        );
    }
    at
}
