// The next level after a level above the cage, by what the rows that made that level say of its TWIN.
ghost use Rattle.std.specs.Prelude.{◌≡◌, ◌+◌, ◌*◌, ◌<◌};
ghost use Rattle.splitting.specs.Internal.InPlace.{cells_at, with_split, SmallTwins, SmallEdges, Fits, CornerTriangle, MiddleTriangle, Descended, Housed, with_next_twins, with_next_edges};

use crate::halves::{known_halves, twin_halves};
use crate::split::{Above, above_at, join_twins, put, put_edges, three};
use halfedges::table::HalfedgeTable;

// A twin that is known, and NEXT of it.
#[derive(Clone, Copy)]
pub struct Known(usize, usize);

// Writes the split of a corner triangle, one that lies at a corner of the level before, in TWIN. Its first halfedge's twin is
// the last of a triangle and its last one's the first; the twin across is known, and so is NEXT of it.
pub fn put_corner(twin: &mut [u32], at: usize, halfedges: usize, corner: usize, across: Known)
    requires fits { Fits halfedges at (3 * corner) twin.old }
    requires corner_triangle { CornerTriangle (cells_at twin.old at (3 * corner)) across }
    ensures { twin.new ≡ with_split twin.old at halfedges (3 * corner) }
{
    let first = 3 * corner;
    let twins = three(twin, at, first);
    let split = join_twins(
        twin_halves(twins.0, twins.0 as usize - 2),
        known_halves(across.0, across.1),
        twin_halves(twins.2, twins.2 as usize + 1),
        halfedges,
        first,
    );
    put(twin, at, halfedges, first, split);
}

// Writes the split of a middle triangle in TWIN, whose twins are those across from it in three corner triangles.
pub fn put_middle(twin: &mut [u32], at: usize, halfedges: usize, first: usize, across: usize)
    requires fits { Fits halfedges at first twin.old }
    requires middle_triangle { MiddleTriangle (cells_at twin.old at first) across }
    ensures { twin.new ≡ with_split twin.old at halfedges first }
{
    let split = join_twins(
        known_halves(across, across + 1),
        known_halves(across + 3, across + 4),
        known_halves(across + 6, across + 7),
        halfedges,
        first,
    );
    put(twin, at, halfedges, first, split);
}

// The next level's TWIN after a level above the cage, whose rows say which of its triangle's three a twin is, so that NEXT takes
// no division: first the corner triangles, three to a triangle of the level before, and then the middle ones.
pub fn twins_above(twin: &mut [u32], at: usize, level: HalfedgeTable)
    requires { (Housed level at twin.old) × (SmallTwins level at twin.old) × (Descended level at twin.old) }
    ensures { twin.new ≡ with_next_twins twin.old at level }
{
    let halfedges = level.halfedges;
    let before = halfedges / 4;
    for triangle in 0..before / 3 {
        let corner = 3 * triangle;
        let across = 3 * before + corner;
        put_corner(twin, at, halfedges, corner, Known(across, across + 1));
        put_corner(
            twin,
            at,
            halfedges,
            corner + 1,
            Known(across + 1, across + 2),
        );
        put_corner(twin, at, halfedges, corner + 2, Known(across + 2, across));
    }
    for triangle in 0..before / 3 {
        let middle = 3 * triangle;
        put_middle(twin, at, halfedges, 3 * before + middle, 3 * middle + 1);
    }
}

// The next level's EDGE after a level above the cage, where every middle triangle comes after the corner triangles that it lies
// across from.
pub fn edges_above(edge: &mut [u32], twin: &[u32], at: usize, level: HalfedgeTable)
    requires housed { (Housed level at edge.old) × (Housed level at twin.now) }
    requires small_edges { (SmallEdges level at edge.old) × (Descended level at twin.now) }
    ensures { edge.new ≡ with_next_edges edge.old twin.now at level }
{
    let corners = level.halfedges / 4;
    for corner in 0..corners {
        let first = 3 * corner;
        let a = above_at(twin, at, first);
        let c = above_at(twin, at, first + 2);
        let above = Above(a, false, c);
        put_edges(edge, at, level, first, above);
    }
    let all = Above(true, true, true);
    for middle in corners..level.halfedges / 3 {
        put_edges(edge, at, level, 3 * middle, all);
    }
}
