// The count question as a line of four numbers.
ghost use Rattle.std.specs.Prelude.{◌≡◌};
ghost use Rattle.counter.specs.Counting.{asked};

use halfedges::table::HalfedgeTable;
use text::{lines, numbers};

// H, E, V and a depth.
#[derive(Clone, Copy)]
pub struct Question {
    pub table: HalfedgeTable,
    pub depth: usize,
}

// The question that a text is, if it is one.
#[tactic(auto, unfolding(crate::specs::Counting::asked))]
pub fn ask(text: &[u8]) -> Option<Question>
    ensures { result ≡ asked text.now }
{
    let halfedges = numbers::number_at(text, 0, lines::SPACE)?;
    let edges = numbers::number_at(text, halfedges.next, lines::SPACE)?;
    let vertices = numbers::number_at(text, edges.next, lines::SPACE)?;
    let depth = numbers::number_at(text, vertices.next, lines::NEWLINE)?;
    if depth.next != text.len() {
        return None;
    }
    let table = HalfedgeTable {
        halfedges: halfedges.value,
        edges: edges.value,
        vertices: vertices.value,
    };
    Some(Question {
        table,
        depth: depth.value,
    })
}
