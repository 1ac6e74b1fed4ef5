// One level to the next, written straight after it in the same tables. Each table has a loop of its own: one that took the split as a
// closure would have to lend it the table that is written, and its clauses would be longer than the loops.
ghost use Rattle.std.specs.Prelude.{◌≡◌, ◌+◌, ◌<◌};
ghost use Rattle.tables.specs.Tables.{tables};
ghost use Rattle.splitting.specs.Internal.InPlace.{SmallTwins, SmallEdges, Housed, Standing, with_next_twins, with_next_verts, with_next_edges, with_next_level};

use crate::above::{edges_above, twins_above};
use crate::split::{Above, above_at, put, put_edges, split_twins, split_verts, three};
use halfedges::table::HalfedgeTable;

// Writes the next level's TWIN after the level that stands at an offset, whatever its twins are: after the cage.
fn cage_twins(twin: &mut [u32], at: usize, level: HalfedgeTable)
    requires housed { Housed level at twin.old }
    requires small_twins { SmallTwins level at twin.old }
    ensures { twin.new ≡ with_next_twins twin.old at level }
{
    let halfedges = level.halfedges;
    for triangle in 0..halfedges / 3 {
        let first = 3 * triangle;
        let split = split_twins(three(twin, at, first), halfedges, first);
        put(twin, at, halfedges, first, split);
    }
}

// The next level's VERT, which takes the level's EDGE too.
fn next_verts(vert: &mut [u32], edge: &[u32], at: usize, level: HalfedgeTable)
    requires housed { (Housed level at vert.old) × (Housed level at edge.now) }
    requires small_edges { SmallEdges level at edge.now }
    ensures { vert.new ≡ with_next_verts vert.old edge.now at level }
{
    let halfedges = level.halfedges;
    let vertices = level.vertices;
    for triangle in 0..halfedges / 3 {
        let first = 3 * triangle;
        let split = split_verts(three(vert, at, first), three(edge, at, first), vertices);
        put(vert, at, halfedges, first, split);
    }
}

// The next level's EDGE, which takes the level's TWIN too, whatever its twins are: after the cage.
fn cage_edges(edge: &mut [u32], twin: &[u32], at: usize, level: HalfedgeTable)
    requires housed { (Housed level at edge.old) × (Housed level at twin.now) }
    requires small_edges { SmallEdges level at edge.old }
    ensures { edge.new ≡ with_next_edges edge.old twin.now at level }
{
    for triangle in 0..level.halfedges / 3 {
        let first = 3 * triangle;
        let a = above_at(twin, at, first);
        let b = above_at(twin, at, first + 1);
        let c = above_at(twin, at, first + 2);
        let above = Above(a, b, c);
        put_edges(edge, at, level, first, above);
    }
}

// Writes the next level of the level that stands at an offset straight after it, a table at a time, so that stores go to few places
// at once. Only the cage stands at the start.
pub fn next_level(
    twin: &mut [u32],
    vert: &mut [u32],
    edge: &mut [u32],
    at: usize,
    level: HalfedgeTable,
)
    requires { Standing level at (tables twin.old vert.old edge.old) }
    ensures { tables twin.new vert.new edge.new
        ≡ with_next_level level at (tables twin.old vert.old edge.old) }
{
    next_verts(vert, edge, at, level);
    if at == 0 {
        cage_edges(edge, twin, at, level);
        cage_twins(twin, at, level);
    } else {
        edges_above(edge, twin, at, level);
        twins_above(twin, at, level);
    }
}
