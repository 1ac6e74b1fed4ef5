// A level among all levels, and the next level's points from its own: the four passes.
ghost use Rattle.std.specs.Prelude.{◌≡◌, []};
ghost use Rattle.tables.specs.Tables.{held};
ghost use Rattle.passes.specs.Internal.Levels.{Ready, with_next, next_level, Climbs};

use edgepoints::edges::write_edges;
use halfedges::table::HalfedgeTable;
use points::weights::Weight;
use spokes::spokes::gather;
use spokes::sums::clear_sums;
use spokes::vertices::settle_vertices;
use tables::Tables;

// A level: its number, how many come after it, its counts, how many halfedges the level before has, which is 0 for the cage, and
// where its halfedges and its points start in the lent tables.
#[derive(Clone, Copy)]
pub struct Level {
    pub number: usize,
    pub left: usize,
    pub counts: HalfedgeTable,
    pub before: usize,
    pub start: usize,
    pub at: usize,
}

impl Level {
    // The next level.
    pub fn next(self) -> Level
        requires { Climbs self }
        ensures { result ≡ next_level self }
    {
        let counts = self.counts;
        let finer = counts.finer();
        Level {
            number: self.number + 1,
            left: self.left - 1,
            counts: finer,
            before: counts.halfedges,
            start: self.start + counts.halfedges,
            at: self.at + 3 * counts.vertices,
        }
    }
}

// The next level's points, in a table that starts with the level's own, of a level without creases inside.
pub fn next_points(weight: Weight, own: &[u32], level: Level, tables: &Tables, points: &mut [i32])
    requires { Ready own.now level.before level.counts (held tables.now) 0 points.old }
    ensures { points.new ≡ with_next weight level.counts (held tables.now) [] 0 points.old }
{
    let vertices = level.counts.vertices;
    clear_sums(points, vertices);
    gather(tables.vert, points, vertices, level.before);
    settle_vertices(weight, own, points, vertices);
    write_edges(tables, points, vertices);
}
