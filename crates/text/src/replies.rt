// What a program says: a status and a text.
ghost use Rattle.std.specs.Prelude.{◌≡◌, ℕ, ◌+◌, ◌≤◌, length};
ghost use Rattle.halfedges.specs.Refusals.{told};
ghost use Rattle.text.specs.Replies.{refused, misused, status_number};
ghost use Rattle.text.specs.Internal.Put.{Replied};

use crate::lines;
use halfedges::refusal;
use halfedges::refusal::Refusal;

// How a program ends, by the number that it hands over.
#[derive(Clone, Copy, PartialEq, Eq)]
pub enum Status {
    // an answer
    Answered = 0,
    // a refusal
    Refused = 1,
    // no question was asked
    Misused = 2,
    // a stream failed
    Failed = 3,
}

// What a program may end with: a status, or any other number.
pub trait Ending {
    ghost number: { Self → ℕ };

    // The number that is handed over.
    fn number(self) -> usize
        ensures { result ≡ number self };
}

impl Ending for Status {
    ghost number = { status_number };

    fn number(self) -> usize {
        self as usize
    }
}

impl Ending for usize {
    ghost number = { λ status. status };

    fn number(self) -> usize {
        self
    }
}

// A reply's status, and how many bytes its text has, at the front of what was lent for it.
// A length and no slice: the contract says what stands in all that was lent, also past the text.
#[derive(Clone, Copy)]
pub struct Written {
    pub status: Status,
    pub length: usize,
}

// A refusal: its line. An answer that is done has number and place 0 in it.
pub fn put_refusal(out: &mut [u8], answer: Result<(), Refusal>) -> Written
    requires { 50 ≤ length out.old }
    ensures { Replied out.old 50 (refused (told answer)) out.new result }
{
    let number = refusal::number(&answer);
    let place = refusal::place(&answer);
    let next = lines::put_word(&mut *out, 0, b"refused", lines::SPACE);
    let length = lines::put_pair(&mut *out, next, number, place, lines::NEWLINE);
    Written {
        status: Status::Refused,
        length,
    }
}

// A question that is none: a line that says what one looks like.
pub fn put_misuse(out: &mut [u8], message: &[u8]) -> Written
    requires { length message.now + 1 ≤ length out.old }
    ensures { Replied out.old (length message.now + 1) (misused message.now) out.new result }
{
    let length = lines::put_word(&mut *out, 0, message, lines::NEWLINE);
    Written {
        status: Status::Misused,
        length,
    }
}
