// The four triangles that one is split into, in each table, and how they are stored.
ghost use Rattle.std.specs.Prelude.{◌≡◌, ◌+◌, ◌*◌, ◌<◌, ◌≤◌, length};
ghost use Rattle.halfedges.specs.Cage.{cell};
ghost use Rattle.splitting.specs.Internal.InPlace.{most_small, cells_at, set_three, set_split, joined, join_twins, split_twins, split_verts, split_edges, with_split_edges, SmallTwin, SmallEdge, EachOf, Fits};
ghost use Rattle.tables.specs.Internal.Above.{is_above};

use crate::halves::{Halves, Three, any_halves, count_up, edge_halves, on_edge};
use halfedges::table::HalfedgeTable;
use tables::cells::is_above;

// The cells of a triangle of the level that stands at an offset.
pub fn three(table: &[u32], at: usize, first: usize) -> Three
    requires { at + first + 3 ≤ length table.now }
    ensures { result ≡ cells_at table.now at first }
{
    Three(
        table[at + first],
        table[at + (first + 1)],
        table[at + (first + 2)],
    )
}

// A table's cells of the four triangles that a triangle is split into: one at each of its halfedges, 3h, 3h+1 and 3h+2,
// and the middle one, 3H+h.
#[derive(Clone, Copy)]
pub struct Split {
    first: Three,
    second: Three,
    third: Three,
    middle: Three,
}

// Which of a triangle's halfedges are above their twins.
#[derive(Clone, Copy)]
pub struct Above(pub bool, pub bool, pub bool);

// A triangle's split, from the halves of its halfedges, the new halfedges across its corners and those of the middle triangle.
pub fn join(a: Halves, b: Halves, c: Halves, across: Three, middle: Three) -> Split
    ensures { result ≡ joined a b c across middle }
{
    Split {
        first: Three(a.0, across.0, c.1),
        second: Three(b.0, across.1, a.1),
        third: Three(c.0, across.2, b.1),
        middle,
    }
}

// A triangle's split in TWIN, from the twins of the halves of its halfedges.
pub fn join_twins(a: Halves, b: Halves, c: Halves, halfedges: usize, first: usize) -> Split
    requires { (halfedges ≤ most_small) × (first ≤ most_small) }
    ensures { result ≡ join_twins a b c halfedges first }
{
    let across = count_up(3 * halfedges + first, 1);
    let middle = count_up(3 * first + 1, 3);
    join(a, b, c, across, middle)
}

// A triangle's split in TWIN, from its twins.
pub fn split_twins(twins: Three, halfedges: usize, first: usize) -> Split
    requires { (EachOf SmallTwin twins) × (halfedges ≤ most_small) × (first ≤ most_small) }
    ensures { result ≡ split_twins twins halfedges first }
{
    let a = any_halves(twins.0);
    let b = any_halves(twins.1);
    let c = any_halves(twins.2);
    join_twins(a, b, c, halfedges, first)
}

// A triangle's split in VERT, from its corners and edges.
pub fn split_verts(verts: Three, edges: Three, vertices: usize) -> Split
    requires { (EachOf SmallEdge edges) × (vertices ≤ most_small) }
    ensures { result ≡ split_verts verts edges vertices }
{
    let a = on_edge(edges.0, vertices);
    let b = on_edge(edges.1, vertices);
    let c = on_edge(edges.2, vertices);
    join(
        Halves(verts.0, a),
        Halves(verts.1, b),
        Halves(verts.2, c),
        Three(a, b, c),
        Three(c, a, b),
    )
}

// A triangle's split in EDGE, from its edges and which of its halfedges are above their twins.
pub fn split_edges(edges: Three, above: Above, all_edges: usize, first: usize) -> Split
    requires { (EachOf SmallEdge edges) × (all_edges ≤ most_small) × (first ≤ most_small) }
    ensures { result ≡ split_edges edges above all_edges first }
{
    let a = edge_halves(edges.0, above.0);
    let b = edge_halves(edges.1, above.1);
    let c = edge_halves(edges.2, above.2);
    let across = count_up(2 * all_edges + first, 1);
    join(a, b, c, across, across)
}

// Stores three cells together.
pub fn store(table: &mut [u32], at: usize, cells: Three)
    requires { at + 3 ≤ length table.old }
    ensures { table.new ≡ set_three table.old at cells }
{
    table[at] = cells.0;
    table[at + 1] = cells.1;
    table[at + 2] = cells.2;
}

// Stores a triangle's split in the next level, straight after the level that stands at an offset: nine cells together and three apart.
pub fn put(table: &mut [u32], at: usize, halfedges: usize, first: usize, split: Split)
    requires { Fits halfedges at first table.old }
    ensures { table.new ≡ set_split table.old at halfedges first split }
{
    let base = at + halfedges;
    let corner = base + 3 * first;
    store(table, corner, split.first);
    store(table, corner + 3, split.second);
    store(table, corner + 6, split.third);
    store(table, base + (3 * halfedges + first), split.middle);
}

// Writes the split of a triangle in EDGE.
pub fn put_edges(edge: &mut [u32], at: usize, level: HalfedgeTable, first: usize, above: Above)
    requires fits { (Fits level.halfedges at first edge.old) × (level.edges ≤ most_small) }
    requires each_of { EachOf SmallEdge (cells_at edge.old at first) }
    ensures { edge.new ≡ with_split_edges edge.old at level first above }
{
    let split = split_edges(three(edge, at, first), above, level.edges, first);
    put(edge, at, level.halfedges, first, split);
}

// Whether a halfedge of the level that stands at an offset is above its twin.
pub fn above_at(twin: &[u32], at: usize, halfedge: usize) -> bool
    requires { at + halfedge < length twin.now }
    ensures { result ≡ is_above (cell twin.now (at + halfedge)) halfedge }
{
    is_above(twin[at + halfedge], halfedge)
}
