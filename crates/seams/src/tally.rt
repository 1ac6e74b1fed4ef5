// How many creases each vertex of the cage has at a level.
ghost use Rattle.std.specs.Prelude.{◌≡◌, ℕ, ◌%◌, ◌≤◌, ◌<◌, length};
ghost use Rattle.halfedges.specs.Cage.{most_halfedges, cell};
ghost use Rattle.tables.specs.Tables.{held};
ghost use Rattle.seams.specs.Internal.Tally.{ForTally, FewCounted, EndsAdded, CreasesAdded, CreasesCounted};

use crate::sharp::stays_sharp;
use halfedges::table::HalfedgeTable;
use tables::Tables;
use tables::rules::count_one;

// A border edge is a crease of both its ends.
fn count_ends(vert: &[u32], counts: &mut [u32], halfedge: usize)
    requires { (length vert.now % 3 ≡ 0) × (length vert.now ≤ most_halfedges) × (halfedge < length vert.now)
        × (FewCounted counts.old) }
    ensures { EndsAdded vert.now halfedge counts.old counts.new }
{
    let from = vert[halfedge] as usize;
    let to = vert[HalfedgeTable::next(halfedge)] as usize;
    count_one(counts, from);
    count_one(counts, to);
}

// One halfedge: a border edge counts at both its ends, and an inner crease at the start of each of its halfedges.
fn count_halfedge(cage: &Tables, creases: &[u8], level: usize, counts: &mut [u32], halfedge: usize)
    requires { (ForTally (held cage.now) creases.now) × (halfedge < length cage.now.vert.now)
        × (FewCounted counts.old) }
    ensures { CreasesAdded halfedge level (held cage.now) creases.now counts.old counts.new }
{
    if cage.twin[halfedge] == HalfedgeTable::NO_TWIN {
        count_ends(cage.vert, counts, halfedge);
        return;
    }
    if stays_sharp(creases, level, cage.edge[halfedge] as usize) {
        count_one(counts, cage.vert[halfedge] as usize);
    }
}

// The creases of each of the cage's vertices at a level, which the cage's own numbers tell.
pub fn count_creases(cage: &Tables, creases: &[u8], level: usize, counts: &mut [u32])
    requires { ForTally (held cage.now) creases.now }
    ensures { CreasesCounted level (held cage.now) creases.now counts.new }
{
    counts.fill(0);
    for halfedge in 0..cage.vert.len() {
        count_halfedge(cage, creases, level, counts, halfedge);
    }
}
