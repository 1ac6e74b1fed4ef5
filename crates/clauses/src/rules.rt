// Rules 3, 4 and 6 where they are broken: the first clause that holds, with its numbers.
ghost use Rattle.std.specs.Prelude.{◌≡◌, ◌≤◌, ◌<◌, length};
ghost use Rattle.halfedges.specs.Cage.{most_halfedges, most_vertices, E};
ghost use Rattle.halfedges.specs.Refusals.{TWIN, VERTEX, EDGE};
ghost use Rattle.tables.specs.Rules.{bad_twin, bad_vertex, stranger, bad_edge};
ghost use Rattle.tables.specs.Internal.Relied.{ForVertices, ForEdges};
ghost use Rattle.clauses.specs.Clauses.{twin_clause, vertex_clause, edge_clause, lowest_stranger};
ghost use Rattle.clauses.specs.Shown.{named, broken};
ghost use Rattle.clauses.specs.Internal.Reached.{BrokenAt};

use crate::Clause;
use halfedges::table::HalfedgeTable;
use tables::rules::count_edges;

// Rule 3.
pub fn twin_clause(twin: &[u32], halfedge: usize) -> Clause
    requires { (length twin.now ≤ most_halfedges) × BrokenAt (length twin.now) (bad_twin twin.now) halfedge }
    ensures value { named result ≡ twin_clause twin.now halfedge }
    ensures rule { broken result halfedge ≡ TWIN halfedge }
{
    let t = twin[halfedge];
    let other = t as usize;
    if twin.len() <= other {
        return Clause::TwinPast {
            twin: t,
            halfedges: twin.len() as u32,
        };
    }
    if other == halfedge {
        return Clause::TwinItself { twin: t };
    }
    Clause::NotReturned {
        twin: t,
        back: twin[other],
    }
}

// Rule 4, where rule 3 is kept.
pub fn vertex_clause(twin: &[u32], vert: &[u32], vertices: usize, halfedge: usize) -> Clause
    requires for_vertices { ForVertices twin.now vert.now × (length twin.now ≤ most_halfedges) × (vertices ≤ most_vertices) }
    requires broken_at { BrokenAt (length twin.now) (bad_vertex twin.now vert.now vertices) halfedge }
    ensures value { named result ≡ vertex_clause twin.now vert.now vertices halfedge }
    ensures rule { broken result halfedge ≡ VERTEX halfedge }
{
    let vertex = vert[halfedge];
    if vertices <= vertex as usize {
        return Clause::VertexPast {
            vertex,
            vertices: vertices as u32,
        };
    }
    let next = HalfedgeTable::next(halfedge);
    let end = vert[next];
    if vertex == end {
        return Clause::EndsAlike {
            vertex,
            next: next as u32,
        };
    }
    let t = twin[halfedge];
    let other = t as usize;
    Clause::TwinEndsDiffer {
        twin: t,
        start: vert[other],
        end,
    }
}

// Rule 6, where rule 3 is kept.
pub fn edge_clause(twin: &[u32], edge: &[u32], halfedge: usize) -> Clause
    requires { ForEdges twin.now edge.now × BrokenAt (length twin.now) (bad_edge twin.now edge.now (E twin.now)) halfedge }
    ensures value { named result ≡ edge_clause twin.now edge.now halfedge }
    ensures rule { broken result halfedge ≡ EDGE halfedge }
{
    let edges = count_edges(twin);
    let own = edge[halfedge];
    if edges <= own as usize {
        return Clause::EdgePast {
            edge: own,
            edges: edges as u32,
        };
    }
    let t = twin[halfedge];
    if t != HalfedgeTable::NO_TWIN {
        let other = t as usize;
        let twins = edge[other];
        if twins != own {
            return Clause::EdgeDiffers {
                twin: t,
                own,
                other: twins,
            };
        }
    }
    let stranger = lowest_stranger(twin, edge, halfedge);
    Clause::EdgeShared {
        edge: own,
        stranger: stranger as u32,
    }
}

// The lowest stranger to a halfedge's edge; H where there is none, as the definition has it.
fn lowest_stranger(twin: &[u32], edge: &[u32], halfedge: usize) -> usize
    requires { (length edge.now ≡ length twin.now) × (halfedge < length twin.now) }
    ensures { result ≡ lowest_stranger twin.now edge.now halfedge }
{
    for place in 0..edge.len() {
        if is_stranger(twin, edge, halfedge, place) {
            return place;
        }
    }
    edge.len()
}

// Whether a place carries a halfedge's edge, and is neither it nor its twin.
#[tactic(auto, using(std::proofs::lemmas::Bool::Decides::nat_tests), unfolding(tables::specs::Rules::stranger))]
fn is_stranger(twin: &[u32], edge: &[u32], halfedge: usize, place: usize) -> bool
    requires { (length edge.now ≡ length twin.now) × (halfedge < length twin.now) × (place < length edge.now) }
    ensures { result ≡ stranger twin.now edge.now halfedge place }
{
    edge[place] == edge[halfedge] && place != halfedge && place != twin[halfedge] as usize
}
