// Rules 3 to 6, each given at the lowest place where it is broken. A rule relies on those before it.
ghost use Rattle.std.specs.Prelude.{◌≡◌, cond, ℕ, ◌+◌, ◌^◌, ◌≤◌, ◌<◌, eqb, length, get_or};
ghost use Rattle.halfedges.specs.Cage.{most_halfedges, most_vertices, E, B};
ghost use Rattle.halfedges.specs.Refusals.{TWIN, VERTEX, UNUSED, EDGE, told, given_at};
ghost use Rattle.tables.specs.Rules.{bad_twin, bad_vertex, unused, bad_edge};
ghost use Rattle.tables.specs.Internal.Tally.{Tallied};
ghost use Rattle.tables.specs.Internal.Relied.{ForVertices, ForEdges, TalliedTo};

use crate::cells::is_above;
use halfedges::refusal::Refusal;
use halfedges::table::HalfedgeTable;

// Rule 3.
pub fn check_twins(twin: &[u32]) -> Result<(), Refusal>
    ensures { told result ≡ given_at (length twin.now) (bad_twin twin.now) TWIN }
{
    for halfedge in 0..twin.len() {
        if bad_twin(twin, halfedge) {
            return Err(Refusal::Twin(halfedge));
        }
    }
    Ok(())
}

#[tactic(auto, using(std::proofs::lemmas::Bool::Decides::nat_tests), unfolding(crate::specs::Rules::bad_twin))]
fn bad_twin(twin: &[u32], halfedge: usize) -> bool
    requires { halfedge < length twin.now }
    ensures { result ≡ bad_twin twin.now halfedge }
{
    let t = twin[halfedge];
    let other = t as usize;
    t != HalfedgeTable::NO_TWIN
        && (twin.len() <= other || other == halfedge || twin[other] as usize != halfedge)
}

// Rule 4, where rule 3 is kept.
pub fn check_vertices(twin: &[u32], vert: &[u32], vertices: usize) -> Result<(), Refusal>
    requires { ForVertices twin.now vert.now }
    ensures { told result ≡ given_at (length twin.now) (bad_vertex twin.now vert.now vertices) VERTEX }
{
    for halfedge in 0..twin.len() {
        if bad_vertex(twin, vert, vertices, halfedge) {
            return Err(Refusal::Vertex(halfedge));
        }
    }
    Ok(())
}

#[tactic(auto, using(std::proofs::lemmas::Bool::Decides::nat_tests, halfedges::proofs::Triangle::next_below), unfolding(crate::specs::Rules::bad_vertex))]
fn bad_vertex(twin: &[u32], vert: &[u32], vertices: usize, halfedge: usize) -> bool
    requires { ForVertices twin.now vert.now × (halfedge < length twin.now) }
    ensures { result ≡ bad_vertex twin.now vert.now vertices halfedge }
{
    let from = vert[halfedge];
    let to = vert[HalfedgeTable::next(halfedge)];
    let t = twin[halfedge];
    vertices <= from as usize || from == to || t != HalfedgeTable::NO_TWIN && vert[t as usize] != to
}

// How often a table holds each number that tally has a cell for, which starts with zeros.
pub fn count_numbers(table: &[u32], tally: &mut [u32])
    requires { (length table.now ≤ most_halfedges) × (Tallied table.now 0 tally.old) }
    ensures { Tallied table.now (length table.now) tally.new }
{
    for number in table {
        count_one(tally, *number as usize);
    }
}

// One more of a number, where the tally has a cell for it.
pub fn count_one(tally: &mut [u32], number: usize)
    requires { number < length tally.old → get_or tally.old number 0 < 2 ^ 31 }
    ensures { (x : ℕ) → x < length tally.old → get_or tally.new x 0
        ≡ get_or tally.old x 0 + cond (eqb number x) 1 0 }
{
    if number < tally.len() {
        let counted = tally[number];
        tally[number] = counted + 1;
    }
}

// Rule 5.
pub fn check_uses(vert: &[u32], vertices: usize) -> Result<(), Refusal>
    requires { (length vert.now ≤ most_halfedges) × (vertices ≤ most_vertices) }
    ensures { told result ≡ given_at vertices (unused vert.now) UNUSED }
{
    let mut corners = [0u32; HalfedgeTable::MOST_VERTICES];
    count_numbers(vert, &mut corners);
    first_unused(&corners, vert, vertices)
}

// Rule 5, by a tally of each vertex's corners.
fn first_unused(corners: &[u32], vert: &[u32], vertices: usize) -> Result<(), Refusal>
    requires { TalliedTo vertices vert.now corners.now }
    ensures { told result ≡ given_at vertices (unused vert.now) UNUSED }
{
    for vertex in 0..vertices {
        if corners[vertex] == 0 {
            return Err(Refusal::Unused(vertex));
        }
    }
    Ok(())
}

// E, counted from the twins.
pub fn count_edges(twin: &[u32]) -> usize
    ensures { result ≡ E twin.now }
{
    let mut edges = 0;
    for halfedge in 0..twin.len() {
        if is_above(twin[halfedge], halfedge) {
            edges += 1;
        }
    }
    edges
}

// B, counted from the twins.
pub fn count_borders(twin: &[u32]) -> usize
    ensures { result ≡ B twin.now }
{
    let mut borders = 0;
    for other in twin {
        if *other == HalfedgeTable::NO_TWIN {
            borders += 1;
        }
    }
    borders
}

// Rule 6, where rule 3 is kept.
pub fn check_edges(twin: &[u32], edge: &[u32]) -> Result<(), Refusal>
    requires { ForEdges twin.now edge.now }
    ensures { told result ≡ given_at (length twin.now)
        (bad_edge twin.now edge.now (E twin.now)) EDGE }
{
    let edges = count_edges(twin);
    let mut carriers = [0u32; HalfedgeTable::MOST_HALFEDGES];
    count_numbers(edge, &mut carriers);
    first_bad_edge(&carriers, twin, edge, edges)
}

// Rule 6, by a tally of each edge's carriers.
fn first_bad_edge(carriers: &[u32], twin: &[u32], edge: &[u32], edges: usize) -> Result<(), Refusal>
    requires { ForEdges twin.now edge.now × TalliedTo edges edge.now carriers.now }
    ensures { told result ≡ given_at (length twin.now) (bad_edge twin.now edge.now edges) EDGE }
{
    for halfedge in 0..twin.len() {
        if bad_edge(carriers, twin, edge, edges, halfedge) {
            return Err(Refusal::Edge(halfedge));
        }
    }
    Ok(())
}

#[tactic(auto, using(std::proofs::lemmas::Bool::Decides::nat_tests, crate::proofs::Carriers::alone_count, crate::proofs::Carriers::paired_count), unfolding(crate::specs::Rules::bad_edge))]
fn bad_edge(carriers: &[u32], twin: &[u32], edge: &[u32], edges: usize, halfedge: usize) -> bool
    requires { ForEdges twin.now edge.now × TalliedTo edges edge.now carriers.now × (halfedge < length twin.now) }
    ensures { result ≡ bad_edge twin.now edge.now edges halfedge }
{
    let own = edge[halfedge];
    let t = twin[halfedge];
    // what carries its edge: it alone, or it and its twin
    let carried = if t == HalfedgeTable::NO_TWIN { 1 } else { 2 };
    edges <= own as usize
        || t != HalfedgeTable::NO_TWIN && edge[t as usize] != own
        || carriers[own as usize] != carried
}
