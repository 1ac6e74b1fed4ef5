// What is said of a cage: why it is refused, clause by clause, or its counts.
#![tactic(auto)]

ghost use Rattle.std.specs.Prelude.{◌≡◌, ◌+◌, ◌*◌, ◌≤◌, length};
ghost use Rattle.halfedges.specs.Refusals.{told};
ghost use Rattle.tables.specs.Check.{numbers as check_numbers};
ghost use Rattle.clauses.specs.Shown.{of_numbers};
ghost use Rattle.text.specs.Internal.Put.{Put};
ghost use Rattle.sentences.specs.Sentences.{saying, of_three, shown as sentences_shown, twin_line, fan_line, because, accepted};
ghost use Rattle.sentences.specs.Internal.Pieces.{piece};

use halfedges::refusal::Refusal;
use halfedges::table::HalfedgeTable;
use tables::check::Checked;
use text::lines;

// What stands for a number in a text.
const HASH: u8 = b'#';

// ---- a text with numbers

// A byte of a text as it stands, or the number that it stands for.
fn put_piece(out: &mut [u8], at: usize, byte: u8, number: usize) -> usize
    requires { at + 20 ≤ length out.old }
    ensures { Put out.old at 20 (piece byte number) out.new result }
{
    if byte == HASH {
        return lines::put_digits(&mut *out, at, number);
    }
    lines::put_byte(&mut *out, at, byte)
}

// A text with numbers, as a line.
fn put_saying(out: &mut [u8], text: &[u8], numbers: [usize; 5]) -> usize
    requires { (20 * length text.now + 1 ≤ length out.old) × (length numbers ≡ 5) }
    ensures { Put out.old 0 (20 * length text.now + 1) (saying text.now numbers)
        out.new result }
{
    let mut at = 0;
    let mut used = 0;
    for byte in text {
        let number = numbers.get(used).copied().unwrap_or(0);
        at = put_piece(&mut *out, at, *byte, number);
        if *byte == HASH {
            used += 1;
        }
    }
    lines::put_byte(&mut *out, at, lines::NEWLINE)
}

// ---- the clauses

// The place twice, and the numbers shown.
fn shown(place: usize, clause: [u32; 4]) -> [usize; 5]
    ensures { result ≡ sentences_shown place (of_numbers clause) }
{
    let [_, first, second, third] = clause;
    [
        place,
        place,
        first as usize,
        second as usize,
        third as usize,
    ]
}

// One of a rule's three texts, by the clause's number in its own rule: a text is promised for each answer with any four numbers.
fn put_clause(
    out: &mut [u8],
    place: usize,
    clause: [u32; 4],
    one: &[u8],
    two: &[u8],
    three: &[u8],
) -> usize
    requires { (2048 ≤ length out.old) × (length one.now ≤ 100) × (length two.now ≤ 100) × (length three.now ≤ 100) }
    ensures { let k = of_numbers clause in Put out.old 0 2048 (of_three k.number one.now two.now three.now
        (sentences_shown place k)) out.new result }
{
    let [number, ..] = clause;
    let text = match number {
        1 => one,
        2 => two,
        _ => three,
    };
    put_saying(&mut *out, text, shown(place, clause))
}

// Rule 3.
#[tactic(auto, unfolding(crate::specs::Sentences::twin_line))]
fn put_twin(out: &mut [u8], place: usize, clause: [u32; 4]) -> usize
    requires { 2048 ≤ length out.old }
    ensures { Put out.old 0 2048 (twin_line place (of_numbers clause)) out.new result }
{
    let [_, _, second, _] = clause;
    if second == HalfedgeTable::NO_TWIN {
        return put_saying(
            &mut *out,
            b"refused 3 #: halfedge # has twin #, which has no twin",
            shown(place, clause),
        );
    }
    put_clause(
        &mut *out,
        place,
        clause,
        b"refused 3 #: halfedge # has twin #, past the # halfedges",
        b"refused 3 #: halfedge # has twin #, which is itself",
        b"refused 3 #: halfedge # has twin #, whose twin is #",
    )
}

// Rule 7, for which any other answer stands.
#[tactic(auto, using(text::proofs::Texts::put_within), unfolding(crate::specs::Sentences::fan_line))]
fn put_fan(out: &mut [u8], place: usize, clause: [u32; 4]) -> usize
    requires { 2048 ≤ length out.old }
    ensures { Put out.old 0 2048 (fan_line place (of_numbers clause)) out.new result }
{
    put_saying(
        &mut *out,
        b"refused 7 #: vertex # has corners # and #, which are not joined",
        shown(place, clause),
    )
}

// A refusal from 3 to 7, with its clause: what `Clause::numbers` gives, or any four numbers.
#[tactic(auto, using(text::proofs::Texts::put_within), unfolding(crate::specs::Sentences::because, crate::specs::Sentences::vertex_line, crate::specs::Sentences::unused_line, crate::specs::Sentences::edge_line))]
pub fn put_because(out: &mut [u8], answer: Result<(), Refusal>, clause: [u32; 4]) -> usize
    requires { 2048 ≤ length out.old }
    ensures { Put out.old 0 2048 (because (told answer) (of_numbers clause)) out.new result }
{
    let Err(refusal) = answer else {
        return put_fan(&mut *out, 0, clause);
    };
    match refusal {
        Refusal::Twin(halfedge) => put_twin(&mut *out, halfedge, clause),
        Refusal::Vertex(halfedge) => put_clause(
            &mut *out,
            halfedge,
            clause,
            b"refused 4 #: corner # names vertex #, past the # points",
            b"refused 4 #: corner # names vertex #, and so does the next corner, #",
            b"refused 4 #: corner # has twin #, which names vertex # instead of #",
        ),
        Refusal::Unused(vertex) => put_saying(
            &mut *out,
            b"refused 5 #: vertex # is named by no corner",
            shown(vertex, clause),
        ),
        Refusal::Edge(halfedge) => put_clause(
            &mut *out,
            halfedge,
            clause,
            b"refused 6 #: halfedge # has edge #, past the # edges",
            b"refused 6 #: halfedge # has twin #, and edge # where its twin has edge #",
            b"refused 6 #: halfedge # has edge #, and so has halfedge #, which is not its twin",
        ),
        _ => put_fan(&mut *out, refusal.place(), clause),
    }
}

// An accepted cage, with what the check returned of it.
#[tactic(auto, using(text::proofs::Texts::put_within), unfolding(crate::specs::Sentences::accepted))]
pub fn put_accepted(out: &mut [u8], cage: Checked) -> usize
    requires { 2048 ≤ length out.old }
    ensures { Put out.old 0 2048 (accepted (check_numbers cage)) out.new result }
{
    put_saying(
        &mut *out,
        b"accepted: halfedges #, edges #, triangles #, vertices #, border edges #",
        [
            cage.halfedges,
            cage.edges,
            cage.triangles,
            cage.vertices,
            cage.borders,
        ],
    )
}
