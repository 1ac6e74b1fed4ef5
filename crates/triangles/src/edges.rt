// EDGE from TWIN: edges are numbered by the order of their lowest halfedge.
ghost use Rattle.std.specs.Prelude.{◌≡◌, cond, ◌+◌, ◌<◌, ◌≤◌, length, set};
ghost use Rattle.laws.specs.Parts.{in_front};
ghost use Rattle.halfedges.specs.Cage.{most_halfedges, cell};
ghost use Rattle.tables.specs.Ruled.{Paired};
ghost use Rattle.triangles.specs.Plain.{is_lowest, edge_table};

// EDGE in front of a lent table.
pub fn write_edges(twin: &[u32], edge: &mut [u32])
    requires { Paired twin.now × (length twin.now ≤ most_halfedges) × (length twin.now ≤ length edge.old) }
    ensures { edge.new ≡ in_front (edge_table twin.now) edge.old }
{
    let mut edges = 0;
    for halfedge in 0..twin.len() {
        edges = put_edge(twin, edge, halfedge, edges);
    }
}

// A halfedge's edge: the next number where the halfedge is its edge's lowest, else its twin's. Gives how many numbers are used. The marker
// is above every halfedge, so one comparison tells.
fn put_edge(twin: &[u32], edge: &mut [u32], halfedge: usize, edges: u32) -> u32
    requires halfedge_in_bounds { (halfedge < length twin.now) × (halfedge < length edge.old) }
    requires halfedge_lt_most_halfedges { (halfedge < most_halfedges) × (edges ≤ halfedge) }
    ensures value { result ≡ edges + cond (is_lowest twin.now halfedge) 1 0 }
    ensures edge_after { edge.new ≡ set edge.old halfedge
        (cond (is_lowest twin.now halfedge) edges (cell edge.old (cell twin.now halfedge))) }
{
    let other = twin[halfedge] as usize;
    if halfedge < other {
        edge[halfedge] = edges;
        return edges + 1;
    }
    edge[halfedge] = edge[other];
    edges
}
