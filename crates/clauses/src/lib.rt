// Why tables are sent back: the clause of the rule that is broken, and its numbers.
#![tactic(auto)]

ghost use Rattle.std.specs.Prelude.{◌≡◌, IfSome};
ghost use Rattle.halfedges.specs.Refusals.{refused, told};
ghost use Rattle.tables.specs.Tables.{held};
ghost use Rattle.clauses.specs.Clauses.{clause_at};
ghost use Rattle.clauses.specs.Shown.{numbers, named, shown, broken};
ghost use Rattle.clauses.specs.Internal.Reached.{Reached};

use halfedges::refusal::Refusal;
use tables::Tables;

mod fans;
mod rules;

// The clauses of rules 3 to 7, each with the numbers shown for it.
#[derive(Clone, Copy, Debug, PartialEq, Eq)]
pub enum Clause {
    TwinPast { twin: u32, halfedges: u32 },
    TwinItself { twin: u32 },
    NotReturned { twin: u32, back: u32 },
    VertexPast { vertex: u32, vertices: u32 },
    EndsAlike { vertex: u32, next: u32 },
    TwinEndsDiffer { twin: u32, start: u32, end: u32 },
    Unused { vertex: u32 },
    EdgePast { edge: u32, edges: u32 },
    EdgeDiffers { twin: u32, own: u32, other: u32 },
    EdgeShared { edge: u32, stranger: u32 },
    Apart { corner: u32, other: u32 },
}

impl Clause {
    // The clause's number in its rule, and the three numbers shown, 0 where there are fewer.
    pub fn numbers(self) -> [u32; 4]
        ensures { result ≡ numbers (named self) }
    {
        match self {
            Clause::TwinPast { twin, halfedges } => [1, twin, halfedges, 0],
            Clause::TwinItself { twin } => [2, twin, 0, 0],
            Clause::NotReturned { twin, back } => [3, twin, back, 0],
            Clause::VertexPast { vertex, vertices } => [1, vertex, vertices, 0],
            Clause::EndsAlike { vertex, next } => [2, vertex, next, 0],
            Clause::TwinEndsDiffer { twin, start, end } => [3, twin, start, end],
            Clause::Unused { vertex } => [1, vertex, 0, 0],
            Clause::EdgePast { edge, edges } => [1, edge, edges, 0],
            Clause::EdgeDiffers { twin, own, other } => [2, twin, own, other],
            Clause::EdgeShared { edge, stranger } => [3, edge, stranger, 0],
            Clause::Apart { corner, other } => [1, corner, other, 0],
        }
    }

    // The refusal of the clause's rule, at a place.
    pub fn refusal(self, place: usize) -> Refusal
        ensures { refused result ≡ broken self place }
    {
        match self {
            Clause::TwinPast { .. } | Clause::TwinItself { .. } | Clause::NotReturned { .. } => {
                Refusal::Twin(place)
            }
            Clause::VertexPast { .. } | Clause::EndsAlike { .. } | Clause::TwinEndsDiffer { .. } =>
                { Refusal::Vertex(place) }
            Clause::Unused { .. } => Refusal::Unused(place),
            Clause::EdgePast { .. } | Clause::EdgeDiffers { .. } | Clause::EdgeShared { .. } => {
                Refusal::Edge(place)
            }
            Clause::Apart { .. } => Refusal::Fan(place),
        }
    }
}

// The clause of what a check of the tables answered, where it is refused by a rule that has clauses.
#[tactic(auto, unfolding(crate::specs::Clauses::clause_at))]
pub fn clause_at(tables: &Tables, vertices: usize, answer: Result<(), Refusal>) -> Option<Clause>
    requires { Reached (held tables.now) vertices (told answer) }
    ensures value { shown result ≡ clause_at (held tables.now) vertices (told answer) }
    ensures rule { IfSome result (λ k. broken k (told answer).place ≡ told answer) }
{
    let Err(refusal) = answer else {
        return None;
    };
    match refusal {
        Refusal::Twin(halfedge) => Some(rules::twin_clause(tables.twin, halfedge)),
        Refusal::Vertex(halfedge) => Some(rules::vertex_clause(
            tables.twin,
            tables.vert,
            vertices,
            halfedge,
        )),
        Refusal::Unused(vertex) => Some(Clause::Unused {
            vertex: vertex as u32,
        }),
        Refusal::Edge(halfedge) => Some(rules::edge_clause(tables.twin, tables.edge, halfedge)),
        Refusal::Fan(vertex) => Some(fans::fan_clause(tables.twin, tables.vert, vertex)),
        _ => None,
    }
}
