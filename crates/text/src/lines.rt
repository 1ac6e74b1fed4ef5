// Lines of words and numbers, written one after another into a text.
ghost use Rattle.std.specs.Prelude.{◌≡◌, [], ◌∷◌, ◌++◌, ◌+◌, ◌≤◌, ◌<◌, length};
ghost use Rattle.halfedges.specs.Cage.{most_depth};
ghost use Rattle.text.specs.Lines.{decimal, ended, level_words, room_line};
ghost use Rattle.text.specs.Internal.Put.{Put};
ghost use Rattle.text.specs.Internal.LevelWords.{words_of};

use halfedges::table::Levels;

// What stands between the words of a line.
pub const SPACE: u8 = b' ';

// What stands after the last word of a line.
pub const NEWLINE: u8 = b'\n';

// Bytes as they stand.
pub fn put_bytes(out: &mut [u8], at: usize, bytes: &[u8]) -> usize
    requires { at + length bytes.now ≤ length out.old }
    ensures { Put out.old at (length bytes.now) bytes.now out.new result }
{
    let next = at + bytes.len();
    out[at..next].copy_from_slice(bytes);
    next
}

// One byte.
pub fn put_byte(out: &mut [u8], at: usize, byte: u8) -> usize
    requires { at < length out.old }
    ensures { Put out.old at 1 (byte ∷ []) out.new result }
{
    out[at] = byte;
    at + 1
}

// A number's decimal digits.
pub fn put_digits(out: &mut [u8], at: usize, number: usize) -> usize
    requires { at + 20 ≤ length out.old }
    ensures { Put out.old at 20 (decimal number) out.new result }
{
    let mut digits = [0u8; 20];
    let length = io::decimal(number as u64, &mut digits);
    put_bytes(&mut *out, at, &digits[..length])
}

// A word, and what stands after it.
pub fn put_word(out: &mut [u8], at: usize, word: &[u8], after: u8) -> usize
    requires { at + length word.now + 1 ≤ length out.old }
    ensures { Put out.old at (length word.now + 1) (word.now ++ (after ∷ [])) out.new result }
{
    let next = put_bytes(&mut *out, at, word);
    put_byte(&mut *out, next, after)
}

// A number's decimal digits, and what stands after them.
pub fn put_number(out: &mut [u8], at: usize, number: usize, after: u8) -> usize
    requires { at + 21 ≤ length out.old }
    ensures { Put out.old at 21 (decimal number ++ (after ∷ [])) out.new result }
{
    let next = put_digits(&mut *out, at, number);
    put_byte(&mut *out, next, after)
}

// The last two numbers of some words, and what stands after them.
pub fn put_pair(out: &mut [u8], at: usize, one: usize, other: usize, after: u8) -> usize
    requires { at + 42 ≤ length out.old }
    ensures { Put out.old at 42 (ended after (decimal one ∷ decimal other ∷ [])) out.new result }
{
    let next = put_number(&mut *out, at, one, SPACE);
    put_number(&mut *out, next, other, after)
}

// The counts of a level.
#[derive(Clone, Copy)]
pub struct LevelCounts {
    pub level: usize,
    pub halfedges: usize,
    pub edges: usize,
    pub vertices: usize,
}

// The counts of one of some levels.
pub fn counts_of(levels: Levels, level: usize) -> LevelCounts
    requires { level ≤ most_depth }
    ensures { words_of result ≡ level_words levels level }
{
    LevelCounts {
        level,
        halfedges: levels.halfedges[level],
        edges: levels.edges[level],
        vertices: levels.vertices[level],
    }
}

// A level's number, H, E, F and V, and what stands after them.
pub fn put_counts(out: &mut [u8], at: usize, counts: LevelCounts, after: u8) -> usize
    requires { at + 105 ≤ length out.old }
    ensures { Put out.old at 105 (ended after (words_of counts)) out.new result }
{
    let halfedges = counts.halfedges;
    let halfedges_end = put_pair(&mut *out, at, counts.level, halfedges, SPACE);
    let edges_end = put_number(&mut *out, halfedges_end, counts.edges, SPACE);
    put_pair(&mut *out, edges_end, halfedges / 3, counts.vertices, after)
}

// The line of the room of some levels.
pub fn put_room(out: &mut [u8], at: usize, levels: Levels) -> usize
    requires { at + 68 ≤ length out.old }
    ensures { Put out.old at 68 (room_line levels.halfedge_room levels.vertex_room levels.edge_room) out.new result }
{
    let named = put_word(&mut *out, at, b"room", SPACE);
    let next = put_pair(
        &mut *out,
        named,
        levels.halfedge_room,
        levels.vertex_room,
        SPACE,
    );
    put_number(&mut *out, next, levels.edge_room, NEWLINE)
}
