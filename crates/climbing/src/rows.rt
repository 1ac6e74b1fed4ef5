// What the rows make of a halfedge: which one of the level before a new one comes from, and what it has by what that one has.
ghost use Rattle.std.specs.Prelude.{◌≡◌, ◌+◌, ◌*◌, ◌<◌, ◌≤◌};
ghost use Rattle.halfedges.specs.Internal.Counts.{AtMost};
ghost use Rattle.splitting.specs.Internal.InPlace.{most_small};
ghost use Rattle.climbing.specs.Halfedge.{no_cells};
ghost use Rattle.climbing.specs.Internal.Climbing.{ancestor as climbing_ancestor, child as climbing_child, outer, inner, inside as climbing_inside, SmallCells};

use halfedges::table::HalfedgeTable;
use splitting::halves::{any_halves, edge_halves, on_edge};
use tables::cells::is_above;

// TWIN, VERT and EDGE of a halfedge.
#[derive(Clone, Copy)]
pub struct Cells {
    pub twin: u32,
    pub vert: u32,
    pub edge: u32,
}

impl Cells {
    // Of a refusal.
    pub fn none() -> Cells
        ensures { result ≡ no_cells }
    {
        Cells {
            twin: 0,
            vert: 0,
            edge: 0,
        }
    }
}

// The halfedge of the level before, of so many, that a new one's row looks at: h for 3h and 3h+1, PREV(h) for 3h+2 and 3H+h.
pub fn ancestor(halfedge: usize, halfedges: usize) -> usize
    requires { (halfedges ≤ most_small) × (halfedge < 4 * halfedges) }
    ensures { result ≡ climbing_ancestor halfedges halfedge }
{
    if 3 * halfedges <= halfedge {
        return HalfedgeTable::previous(halfedge - 3 * halfedges);
    }
    if halfedge % 3 == 2 {
        return HalfedgeTable::previous(halfedge / 3);
    }
    halfedge / 3
}

// What a new halfedge has, by what its ancestor in the level before has.
pub fn child(old: Cells, ancestor: usize, halfedge: usize, level: HalfedgeTable) -> Cells
    requires { (SmallCells old) × (AtMost most_small level) × (halfedge < 4 * level.halfedges) }
    ensures { result ≡ climbing_child level halfedge ancestor old }
{
    let above = is_above(old.twin, ancestor);
    let corners = 3 * level.halfedges;
    if corners <= halfedge {
        let of = halfedge - corners;
        return inside(old, 3 * of + 1, of, level);
    }
    let of = halfedge / 3;
    match halfedge % 3 {
        0 => outer_half(old, above),
        1 => inside(old, corners + of, of, level),
        _ => inner_half(old, above, level.vertices),
    }
}

// The half of an old halfedge that leaves its vertex.
fn outer_half(old: Cells, above: bool) -> Cells
    requires { SmallCells old }
    ensures { result ≡ outer old above }
{
    let twins = any_halves(old.twin);
    let edges = edge_halves(old.edge, above);
    Cells {
        twin: twins.0,
        vert: old.vert,
        edge: edges.0,
    }
}

// The half that leaves the vertex on its edge.
fn inner_half(old: Cells, above: bool, vertices: usize) -> Cells
    requires { (SmallCells old) × (vertices ≤ most_small) }
    ensures { result ≡ inner old above vertices }
{
    let twins = any_halves(old.twin);
    let edges = edge_halves(old.edge, above);
    Cells {
        twin: twins.1,
        vert: on_edge(old.edge, vertices),
        edge: edges.1,
    }
}

// A halfedge across the old triangle, on the new edge at a corner.
fn inside(old: Cells, twin: usize, corner: usize, level: HalfedgeTable) -> Cells
    requires { (SmallCells old) × (AtMost most_small level) × (twin ≤ 4 * most_small) × (corner ≤ most_small) }
    ensures { result ≡ climbing_inside level old twin corner }
{
    Cells {
        twin: twin as u32,
        vert: on_edge(old.edge, level.vertices),
        edge: (2 * level.edges + corner) as u32,
    }
}
